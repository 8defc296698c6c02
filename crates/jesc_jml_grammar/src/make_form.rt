//! Members that stand in annotations, of their parts.

ghost use Rattle.std.specs.Prelude.{◌≡◌, IfOk};
ghost use Rattle.jesc_ast.specs.FileTrees as members;
ghost use Rattle.jesc_ast.specs.FileTrees.{member_form, member_view};
ghost use Rattle.jesc_ast.specs.Specifications as specifications;
ghost use Rattle.jesc_jml_grammar.specs.Reading.{word_of as word_kept};
ghost use Rattle.jesc_jml_grammar.specs.Seen.{lexeme};
ghost use Rattle.jesc_jml_grammar.specs.Nests.{parsed};
ghost use Rattle.jesc_jml_grammar.specs.ClauseFound as spec;
ghost use Rattle.jesc_jml_grammar.specs.ClauseSeen.{measured, ended, value_seen};

use crate::cursor::Lexeme;
use crate::found::Found;
use crate::make::{text_of, word_of};
use crate::mark::same;
use crate::part::{Ended, FieldHead, Measured, Value};
use crate::span::join;
use jesc_ast::{FieldTree, InvariantTree, MemberNode, MemberTree, RepresentsTree, Word};
use jesc_text::{Boxed, List, OutOfMemory, Span};
use std::alloc::Global;

// ---- modifiers

fn is_visibility(text: &[u8]) -> bool
    ensures { result ≡ specifications.is_visibility text.now }
{
    same(text, b"public") || same(text, b"protected") || same(text, b"private")
}

fn is_visibility_word(word: &Word) -> bool
    ensures { result ≡ spec.is_visibility_word word.now }
{
    word.note && is_visibility(word.text.as_slice())
}

fn is_instance_word(word: &Word) -> bool
    ensures { result ≡ spec.is_instance_word word.now }
{
    word.note && same(word.text.as_slice(), b"instance")
}

/// Whether they are a visibility and then `instance`, each of which may be missing.
pub fn allow_invariant(words: &List<Word>) -> bool
    ensures { result ≡ spec.allow_invariant words.now }
{
    match words.as_slice() {
        [] => true,
        [a] => is_visibility_word(a) || is_instance_word(a),
        [a, b] => is_visibility_word(a) && is_instance_word(b),
        _ => false,
    }
}

/// Whether they are a visibility, which may be missing.
pub fn allow_represents(words: &List<Word>) -> bool
    ensures { result ≡ spec.allow_represents words.now }
{
    match words.as_slice() {
        [] => true,
        [a] => is_visibility_word(a),
        _ => false,
    }
}

/// Whether they all stand in annotations.
pub fn allow_field(words: &List<Word>) -> bool
    ensures { result ≡ spec.allow_field words.now }
{
    words.as_slice().iter().all(|word| word.note)
}

fn copy_word(alloc: Global, word: &Word) -> Result<Word, OutOfMemory>
    ensures { IfOk result (λ copy. copy ≡ word.now) }
{
    Ok(Word {
        text: text_of(alloc, word.text.as_slice())?,
        span: word.span,
        note: word.note,
    })
}

fn first_word(alloc: Global, words: &List<Word>) -> Result<Option<Word>, OutOfMemory>
    ensures { IfOk result (λ word. word ≡ spec.first_word words.now) }
{
    match words.as_slice() {
        [] => Ok(None),
        [word, ..] => Ok(Some(copy_word(alloc, word)?)),
    }
}

// ---- members

pub fn make_invariant(
    alloc: Global,
    words: List<Word>,
    e: Found,
    last: Lexeme<'_>,
) -> Result<Ended<MemberNode>, OutOfMemory>
    ensures { IfOk result (λ f. ended member_form f ≡ spec.ended (members.class_invariant words (parsed e).tree) e.depth (lexeme last.entry)) }
{
    let tree = InvariantTree {
        modifiers: words,
        e: e.expr,
    };
    Ok(Ended {
        tree: MemberNode::Invariant(Boxed::new(alloc, tree)?),
        depth: e.depth,
        last: last.span,
    })
}

pub fn make_represents(
    alloc: Global,
    words: &List<Word>,
    x: Lexeme<'_>,
    sign: Lexeme<'_>,
    e: Found,
    last: Lexeme<'_>,
) -> Result<Ended<MemberNode>, OutOfMemory>
    ensures { IfOk result (λ f. ended member_form f ≡ spec.ended (members.represents (spec.first_word words.now) (word_kept (lexeme x.entry)) (word_kept (lexeme sign.entry)) (parsed e).tree) e.depth (lexeme last.entry)) }
{
    let visibility = first_word(alloc, words)?;
    let name = word_of(alloc, x)?;
    let sign = word_of(alloc, sign)?;
    let tree = RepresentsTree {
        visibility,
        name,
        sign,
        e: e.expr,
    };
    Ok(Ended {
        tree: MemberNode::Represents(Boxed::new(alloc, tree)?),
        depth: e.depth,
        last: last.span,
    })
}

/// The initial value behind an equals sign.
pub fn make_value(equals: Lexeme<'_>, e: Found) -> Value
    ensures { value_seen result ≡ spec.value_of (lexeme equals.entry) (parsed e) }
{
    Value {
        equals: Some(equals.span),
        e: Some(e.expr),
        depth: e.depth,
    }
}

pub fn make_field(
    alloc: Global,
    head: FieldHead<'_>,
    value: Value,
    groups: Ended<List<Word>>,
) -> Result<Ended<MemberNode>, OutOfMemory>
    ensures { IfOk result (λ f. ended member_form f ≡ spec.field_of head.entry.words head.entry.ty (lexeme head.entry.name) (value_seen value) (ended (λ words. words) groups)) }
{
    let tree = FieldTree {
        modifiers: head.words,
        ty: head.ty,
        name: word_of(alloc, head.name)?,
        equals: value.equals,
        value: value.e,
        groups: groups.tree,
    };
    Ok(Ended {
        tree: MemberNode::SpecField(Boxed::new(alloc, tree)?),
        depth: value.depth,
        last: groups.last,
    })
}

pub fn make_annotated(
    alloc: Global,
    first: Span,
    form: Ended<MemberNode>,
) -> Result<Measured<MemberTree>, OutOfMemory>
    ensures { IfOk result (λ m. measured member_view m ≡ spec.member_tree first (ended member_form form)) }
{
    Ok(Measured {
        tree: MemberTree {
            span: join(first, form.last),
            node: Boxed::new(alloc, form.tree)?,
        },
        depth: form.depth,
    })
}
