//! The rules on class headings.

ghost use Rattle.std.specs.Prelude.{◌≡◌, ◌∷◌, ◌<◌, ◌+◌, ◌^◌, None, [], length, map, IfSome};
ghost use Rattle.std.specs.List.{All};
ghost use Rattle.jesc_ast.specs.Lines.{IsLines};
ghost use Rattle.jesc_classes.specs.Clauses.{IsNumber, NamesSuper, part_in};
ghost use Rattle.jesc_classes.specs.Headings.{Judges, graph_of, heading, own_name, walk};
ghost use Rattle.jesc_classes.specs.Given.{ArePlaced, IsPlaced};
ghost use Rattle.jesc_classes.specs.Order.{IsAcyclic};
ghost use Rattle.jesc_classes.specs.Ranks.{AreRanks};
ghost use Rattle.jesc_classes.specs.Sources.{seen};

use crate::hierarchy::{Clause, Hierarchy};
use crate::modifiers::judge_modifiers;
use crate::refusal::refuse;
use crate::rule::{Rule, RuleError};
use crate::source::{Classes, GivenClass};
use jesc_ast::Word;
use jesc_text::List;
use std::alloc::Global;

/// Answers Ok exactly where no rule is broken in the headings, and else the first one broken: the headings in source
/// order, each one's words from left to right.
///
/// `graph` has the supertypes of each class by number. Where no class is its own supertype, no ranks are wanted.
pub fn judge(
    alloc: Global,
    classes: &Classes<'_>,
    graph: &[List<u32>],
    ranks: Option<&[u32]>,
) -> Result<(), RuleError>
    requires few { length classes.now + 7 < 2 ^ 32 }
    requires placed { All ArePlaced classes.now }
    requires graph { graph.now ≡ graph_of classes.now }
    requires ranks { IfSome ranks (λ r. AreRanks graph.now r.now) }
    requires acyclic { ranks ≡ None → IsAcyclic graph.now }
    ensures { Judges classes.now result (walk classes.now) }
{
    let hierarchy = Hierarchy {
        classes,
        graph,
        ranks,
    };
    for (i, class) in classes.list().iter().enumerate() {
        judge_class(alloc, &hierarchy, 7 + i as u32, class)?;
    }
    Ok(())
}

/// Judges a heading, which is that of the class with this number.
fn judge_class(
    alloc: Global,
    hierarchy: &Hierarchy<'_>,
    number: u32,
    class: &GivenClass<'_>,
) -> Result<(), RuleError>
    requires placed { ArePlaced (seen class.now) }
    requires number { IsNumber hierarchy.now number (seen class.now) }
    ensures { Judges hierarchy.now result (heading number (seen class.now)) }
{
    judge_modifiers(alloc, class)?;
    judge_name(alloc, hierarchy, number, class)?;
    let extended = class.tree.extends.as_slice();
    judge_words(alloc, hierarchy, Clause::Extends, number, class, extended)?;
    let implemented = class.tree.implements.as_slice();
    judge_words(
        alloc,
        hierarchy,
        Clause::Implements,
        number,
        class,
        implemented,
    )
}

fn judge_name(
    alloc: Global,
    hierarchy: &Hierarchy<'_>,
    number: u32,
    class: &GivenClass<'_>,
) -> Result<(), RuleError>
    requires lines { IsLines class.now.lines.now }
    requires placed { IsPlaced class.now.tree.now.name }
    ensures { Judges hierarchy.now result (own_name number (seen class.now) ∷ []) }
{
    let name = &class.tree.name;
    match hierarchy.classes.find(name.text.as_slice()) {
        Some(first) => {
            if first < number {
                Err(refuse(alloc, Rule::N2, class.lines, name)?)
            } else {
                Ok(())
            }
        }
        None => Ok(()),
    }
}

/// Judges the words of one clause of a heading.
fn judge_words(
    alloc: Global,
    hierarchy: &Hierarchy<'_>,
    clause: Clause,
    number: u32,
    class: &GivenClass<'_>,
    words: &[Word],
) -> Result<(), RuleError>
    requires lines { IsLines class.now.lines.now }
    requires placed { All IsPlaced words.now }
    requires names { All (NamesSuper hierarchy.now number) words.now }
    ensures { Judges hierarchy.now result (map (part_in clause number (seen class.now)) words.now) }
{
    for word in words {
        judge_word(alloc, hierarchy, clause, number, class, word)?;
    }
    Ok(())
}

/// Judges a word of a clause: it names a known class, then one that is on no cycle, then one that may stand there.
fn judge_word(
    alloc: Global,
    hierarchy: &Hierarchy<'_>,
    clause: Clause,
    number: u32,
    class: &GivenClass<'_>,
    word: &Word,
) -> Result<(), RuleError>
    requires lines { IsLines class.now.lines.now }
    requires placed { IsPlaced word.now }
    requires names { NamesSuper hierarchy.now number word.now }
    ensures { Judges hierarchy.now result (part_in clause number (seen class.now) word.now ∷ []) }
{
    match hierarchy.classes.find(word.text.as_slice()) {
        None => Err(refuse(alloc, Rule::N1, class.lines, word)?),
        Some(above) => {
            if hierarchy.is_on_cycle(alloc, number, above)? {
                Err(refuse(alloc, Rule::N3, class.lines, word)?)
            } else if hierarchy.may_stand(clause, class.tree.is_interface, above) {
                Ok(())
            } else {
                Err(refuse(alloc, Rule::N9, class.lines, word)?)
            }
        }
    }
}
