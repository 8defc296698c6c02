//! The rule on modifiers of members and parameters.

ghost use Rattle.std.specs.Prelude.{◌≡◌, ◌∷◌, ◌++◌, [], List, codes};
ghost use Rattle.std.specs.List.{All, list_any};
ghost use Rattle.jesc_ast.specs.Lines.{IsLines};
ghost use Rattle.jesc_ast.specs.Trees.{optional_view};
ghost use Rattle.jesc_ast.specs.Words.{is_one_of, is_primitive};
ghost use Rattle.jesc_classes.specs.Given.{IsPlaced};
ghost use Rattle.jesc_classes.specs.Headings.{Source};
ghost use Rattle.jesc_classes.specs.Sources.{seen};
ghost use Rattle.jesc_member_rules.specs.Judging.{seen_bearer};
ghost use Rattle.jesc_member_rules.specs.Members.{Judges, modifier, modifiers_from};
ghost use Rattle.jesc_member_rules.specs.Modifiers.{allowed_on, bears_reference, is_there, optional_value, may_be_helper, may_be_static, modifier_stands, nullities, spec_visibilities, visibilities};
ghost use Rattle.jesc_member_rules.specs.Types.{is_reference};

use crate::answer::{answer_at, if_broken};
use crate::bearer::Bearer;
use crate::literal::literal_value;
use jesc_ast::{FieldTree, TypeTree, Word};
use jesc_classes::{GivenClass, Rule, RuleError, is_same, stands_in};
use jesc_members::{is_private, is_static};
use std::alloc::Global;

/// Answers Ok exactly where each of these modifiers may stand there, and else refuses the first that may not.
///
/// The time is linear: only modifiers that are allowed and stand once have others behind them, and those are few.
/// Answers `OutOfMemory` where there is no room for the error's text.
pub fn judge_modifiers(
    alloc: Global,
    class: &GivenClass<'_>,
    on: Bearer<'_>,
    words: &[Word],
) -> Result<(), RuleError>
    requires lines { IsLines class.now.lines.now }
    requires placed { All IsPlaced words.now }
    ensures { (given : List Source) → Judges given result (modifiers_from (seen class.now) (seen_bearer on.entry) [] words.now) }
{
    for (i, word) in words.iter().enumerate() {
        judge_modifier(alloc, class, on, &words[..i], word)?;
    }
    Ok(())
}

fn judge_modifier(
    alloc: Global,
    class: &GivenClass<'_>,
    on: Bearer<'_>,
    before: &[Word],
    word: &Word,
) -> Result<(), RuleError>
    requires lines { IsLines class.now.lines.now }
    requires placed { IsPlaced word.now }
    ensures { (given : List Source) → Judges given result (modifier (seen class.now) (seen_bearer on.entry) before.now word.now ∷ []) }
{
    let broken = if_broken(!stands(on, before, word), Rule::N9);
    answer_at(alloc, broken, class.lines, word)
}

/// Whether the word may stand there behind the others.
fn stands(on: Bearer<'_>, before: &[Word], word: &Word) -> bool
    ensures { result ≡ modifier_stands (seen_bearer on.entry) before.now word.now }
{
    let text = word.text.as_slice();
    is_allowed(on, text)
        && !stands_in(before, text)
        && (!is_nullity(text) || bears_reference(on) && !has_nullity(before))
        && (!is_same(b"static", text) || may_be_static(on))
        && (!is_same(b"helper", text) || may_be_helper(on))
}

fn is_allowed(on: Bearer<'_>, text: &[u8]) -> bool
    ensures { result ≡ is_one_of (allowed_on (seen_bearer on.entry)) text.now }
{
    match on {
        Bearer::JavaField(_) => is_for_java_field(text),
        Bearer::SpecField(_) => is_for_spec_field(text),
        Bearer::Method(_) => is_for_method(text),
        Bearer::Constructor => {
            is_same(text, b"pure") || is_visibility(text) || is_spec_visibility(text)
        }
        Bearer::Parameter(_) => is_same(text, b"final") || is_nullity(text),
    }
}

fn is_for_java_field(text: &[u8]) -> bool
    ensures { result ≡ is_one_of (codes "static" ∷ codes "final" ∷ codes "instance" ∷ (visibilities ++ nullities ++ spec_visibilities)) text.now }
{
    is_same(text, b"static")
        || is_same(text, b"final")
        || is_same(text, b"instance")
        || is_visibility(text)
        || is_nullity(text)
        || is_spec_visibility(text)
}

fn is_for_spec_field(text: &[u8]) -> bool
    ensures { result ≡ is_one_of (codes "ghost" ∷ codes "model" ∷ codes "instance" ∷ (visibilities ++ nullities)) text.now }
{
    is_same(text, b"ghost")
        || is_same(text, b"model")
        || is_same(text, b"instance")
        || is_visibility(text)
        || is_nullity(text)
}

fn is_for_method(text: &[u8]) -> bool
    ensures { result ≡ is_one_of (codes "static" ∷ codes "final" ∷ codes "abstract" ∷ codes "Override" ∷ codes "pure" ∷ codes "helper" ∷ (visibilities ++ nullities ++ spec_visibilities)) text.now }
{
    is_same(text, b"static")
        || is_same(text, b"final")
        || is_for_method_alone(text)
        || is_visibility(text)
        || is_nullity(text)
        || is_spec_visibility(text)
}

fn is_for_method_alone(text: &[u8]) -> bool
    ensures { result ≡ is_one_of (codes "abstract" ∷ codes "Override" ∷ codes "pure" ∷ codes "helper" ∷ []) text.now }
{
    is_same(text, b"abstract")
        || is_same(text, b"Override")
        || is_same(text, b"pure")
        || is_same(text, b"helper")
}

fn is_visibility(text: &[u8]) -> bool
    ensures { result ≡ is_one_of visibilities text.now }
{
    is_same(text, b"public") || is_same(text, b"protected") || is_same(text, b"private")
}

fn is_nullity(text: &[u8]) -> bool
    ensures { result ≡ is_one_of nullities text.now }
{
    is_same(text, b"nullable") || is_same(text, b"non_null")
}

fn is_spec_visibility(text: &[u8]) -> bool
    ensures { result ≡ is_one_of spec_visibilities text.now }
{
    is_same(text, b"spec_public") || is_same(text, b"spec_protected")
}

fn has_nullity(words: &[Word]) -> bool
    ensures { result ≡ list_any (λ b. is_one_of nullities b.text) words.now }
{
    words.iter().any(|word| is_nullity(word.text.as_slice()))
}

fn bears_reference(on: Bearer<'_>) -> bool
    ensures { result ≡ bears_reference (seen_bearer on.entry) }
{
    match on {
        Bearer::JavaField(field) | Bearer::SpecField(field) => is_reference(&field.ty),
        Bearer::Method(method) => match &method.result {
            Some(ty) => is_reference(ty),
            None => false,
        },
        Bearer::Constructor => false,
        Bearer::Parameter(parameter) => is_reference(&parameter.ty),
    }
}

/// Whether null may stand in the type.
pub fn is_reference(ty: &TypeTree) -> bool
    ensures { result ≡ is_reference ty.now }
{
    ty.array || !is_primitive(ty.base.as_slice())
}

/// Whether it is the word of a primitive type.
pub fn is_primitive(base: &[u8]) -> bool
    ensures { result ≡ is_primitive base.now }
{
    is_same(base, b"int") || is_same(base, b"long") || is_same(base, b"boolean")
}

fn may_be_static(on: Bearer<'_>) -> bool
    ensures { result ≡ may_be_static (seen_bearer on.entry) }
{
    match on {
        Bearer::JavaField(field) => {
            stands_in(field.modifiers.as_slice(), b"final")
                && !is_reference(&field.ty)
                && has_literal(field)
        }
        Bearer::Method(_) => true,
        _ => false,
    }
}

fn has_literal(field: &FieldTree) -> bool
    ensures { result ≡ is_there (optional_value (optional_view field.now.value)) }
{
    match &field.value {
        Some(value) => literal_value(value).is_some(),
        None => false,
    }
}

fn may_be_helper(on: Bearer<'_>) -> bool
    ensures { result ≡ may_be_helper (seen_bearer on.entry) }
{
    match on {
        Bearer::Method(method) => is_private(method) || is_static(method),
        _ => false,
    }
}
