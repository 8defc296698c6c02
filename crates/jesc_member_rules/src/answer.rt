//! The answer for a part that breaks a rule or none.

ghost use Rattle.std.specs.Prelude.{◌≡◌, ◌∷◌, ◌≤◌, List, [], Some, None, if◌then◌else◌};
ghost use Rattle.jesc_ast.specs.Lines.{IsLines, place_at};
ghost use Rattle.jesc_classes.specs.Headings.{Source};
ghost use Rattle.jesc_member_rules.specs.Judging.{Decides};
ghost use Rattle.jesc_member_rules.specs.Members.{Judges, Part};

use jesc_ast::Word;
use jesc_classes::{Rule, RuleError, refuse_at};
use jesc_text::Span;
use std::alloc::Global;

/// The rule where it is broken.
pub fn if_broken(is_broken: bool, rule: Rule) -> Option<Rule>
    ensures { result ≡ (if is_broken then Some rule else None) }
{
    if is_broken { Some(rule) } else { None }
}

/// Ok where no rule is broken, and else the error that names it at this text.
///
/// Answers `OutOfMemory` where there is no room for a copy of the text.
pub fn answer(
    alloc: Global,
    broken: Option<Rule>,
    lines: &[u32],
    span: Span,
    text: &[u8],
) -> Result<(), RuleError>
    requires lines { IsLines lines.now }
    requires within { span.from ≤ 1048576 }
    ensures { (given : List Source) (p : Part) → Decides given p (place_at lines.now span) text.now broken → Judges given result (p ∷ []) }
{
    match broken {
        None => Ok(()),
        Some(rule) => Err(refuse_at(alloc, rule, lines, span, text)?),
    }
}

/// The same at a word.
pub fn answer_at(
    alloc: Global,
    broken: Option<Rule>,
    lines: &[u32],
    word: &Word,
) -> Result<(), RuleError>
    requires lines { IsLines lines.now }
    requires within { word.now.span.from ≤ 1048576 }
    ensures { (given : List Source) (p : Part) → Decides given p (place_at lines.now word.now.span) word.now.text broken → Judges given result (p ∷ []) }
{
    answer(alloc, broken, lines, word.span, word.text.as_slice())
}
