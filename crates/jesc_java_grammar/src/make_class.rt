//! Members, classes and files of their parts.

ghost use Rattle.std.specs.Prelude.{◌≡◌, map, IfOk};
ghost use Rattle.jesc_ast.specs.FileTrees.{member_form, member_view, class_view, unit_of};
ghost use Rattle.jesc_jml_grammar.specs.ClauseFound.{with_more, sized};
ghost use Rattle.jesc_jml_grammar.specs.ClauseSeen.{measured, ended};
ghost use Rattle.jesc_jml_grammar.specs.Seen.{lexeme};
ghost use Rattle.jesc_java_grammar.specs.FileReading as spec;
ghost use Rattle.jesc_java_grammar.specs.ClassViews.{heading_view};
ghost use Rattle.jesc_java_grammar.specs.UnitViews.{unit_view};

use jesc_ast::{ClassTree, MemberNode, MemberTree, Word};
use jesc_jml_grammar::cursor::Lexeme;
use jesc_jml_grammar::make::word_of;
use jesc_jml_grammar::part::{Ended, Measured};
use jesc_jml_grammar::span::join;
use jesc_text::{Boxed, List, OutOfMemory, Span};
use std::alloc::Global;

/// What a class begins with, behind its modifiers.
#[derive(Drop)]
pub struct Heading<'a> {
    pub is_interface: bool,
    pub name: Lexeme<'a>,
    pub extends: List<Word>,
    pub implements: List<Word>,
}

/// The package and the classes of a file.
#[derive(Drop)]
pub struct Unit {
    pub package: List<Word>,
    pub classes: List<ClassTree>,
}

// ---- lists with one more

pub fn with_member(
    mut found: Measured<List<MemberTree>>,
    next: Measured<MemberTree>,
) -> Result<Measured<List<MemberTree>>, OutOfMemory>
    ensures { IfOk result (λ all. measured (map member_view) all ≡ with_more (measured (map member_view) found) (measured member_view next)) }
{
    found.tree.push(next.tree)?;
    found.depth = found.depth.max(next.depth);
    Ok(found)
}

pub fn with_class(
    mut found: Measured<List<ClassTree>>,
    next: Measured<ClassTree>,
) -> Result<Measured<List<ClassTree>>, OutOfMemory>
    ensures { IfOk result (λ all. measured (map class_view) all ≡ with_more (measured (map class_view) found) (measured class_view next)) }
{
    found.tree.push(next.tree)?;
    found.depth = found.depth.max(next.depth);
    Ok(found)
}

// ---- trees

/// The member whose first token has this span.
pub fn make_member(
    alloc: Global,
    first: Span,
    form: Ended<MemberNode>,
) -> Result<Measured<MemberTree>, OutOfMemory>
    ensures { IfOk result (λ m. measured member_view m ≡ spec.spanned first (ended member_form form)) }
{
    Ok(Measured {
        tree: MemberTree {
            span: join(first, form.last),
            node: Boxed::new(alloc, form.tree)?,
        },
        depth: form.depth,
    })
}

/// The class whose first token has the span `first`, and whose closing brace is `last`.
pub fn make_class(
    alloc: Global,
    first: Span,
    words: List<Word>,
    heading: Heading<'_>,
    members: Measured<List<MemberTree>>,
    last: Lexeme<'_>,
) -> Result<Measured<ClassTree>, OutOfMemory>
    ensures { IfOk result (λ c. measured class_view c ≡ spec.class_tree first words (heading_view heading.entry) (measured (map member_view) members) (lexeme last.entry)) }
{
    Ok(Measured {
        tree: ClassTree {
            span: join(first, last.span),
            modifiers: words,
            is_interface: heading.is_interface,
            name: word_of(alloc, heading.name)?,
            extends: heading.extends,
            implements: heading.implements,
            members: members.tree,
        },
        depth: members.depth,
    })
}

pub fn make_unit(names: List<Word>, classes: Measured<List<ClassTree>>) -> Measured<Unit>
    ensures { measured unit_view result ≡ sized (unit_of names (map class_view classes.tree)) classes.depth }
{
    Measured {
        tree: Unit {
            package: names,
            classes: classes.tree,
        },
        depth: classes.depth,
    }
}
