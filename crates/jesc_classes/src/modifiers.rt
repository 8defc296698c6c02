//! The rule on modifiers of classes and interfaces.

ghost use Rattle.std.specs.Prelude.{◌≡◌, ◌∷◌, [], List};
ghost use Rattle.std.specs.List.{All};
ghost use Rattle.jesc_ast.specs.Lines.{IsLines};
ghost use Rattle.jesc_ast.specs.Words.{is_one_of};
ghost use Rattle.jesc_classes.specs.Given.{IsPlaced};
ghost use Rattle.jesc_classes.specs.Headings.{Judges, Source, allowed, modifier, modifiers_from};
ghost use Rattle.jesc_classes.specs.Sources.{seen};

use crate::refusal::refuse;
use crate::rule::{Rule, RuleError};
use crate::source::GivenClass;
use crate::texts::{is_same, stands_in};
use jesc_ast::Word;
use std::alloc::Global;

/// Answers Ok exactly where each modifier of the class is allowed and stands once, and else refuses the first that isn't.
///
/// The time is linear: only modifiers that are allowed and stand once have others behind them, and those are few.
pub fn judge_modifiers(alloc: Global, class: &GivenClass<'_>) -> Result<(), RuleError>
    requires lines { IsLines class.now.lines.now }
    requires placed { All IsPlaced class.now.tree.now.modifiers }
    ensures { (given : List Source) → Judges given result (modifiers_from (seen class.now) [] class.now.tree.now.modifiers) }
{
    let words = class.tree.modifiers.as_slice();
    for (i, word) in words.iter().enumerate() {
        judge_modifier(alloc, class, &words[..i], word)?;
    }
    Ok(())
}

fn judge_modifier(
    alloc: Global,
    class: &GivenClass<'_>,
    before: &[Word],
    word: &Word,
) -> Result<(), RuleError>
    requires lines { IsLines class.now.lines.now }
    requires placed { IsPlaced word.now }
    ensures { (given : List Source) → Judges given result (modifier (seen class.now) before.now word.now ∷ []) }
{
    let text = word.text.as_slice();
    if stands_in(before, text) || !is_allowed(class.tree.is_interface, text) {
        Err(refuse(alloc, Rule::N9, class.lines, word)?)
    } else {
        Ok(())
    }
}

fn is_allowed(is_interface: bool, text: &[u8]) -> bool
    ensures { result ≡ is_one_of (allowed is_interface) text.now }
{
    if is_interface {
        is_same(text, b"public") || is_same(text, b"abstract")
    } else {
        is_same(text, b"public") || is_same(text, b"final") || is_same(text, b"abstract")
    }
}
