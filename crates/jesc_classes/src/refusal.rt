//! Errors that name a broken rule.

ghost use Rattle.std.specs.Prelude.{◌≡◌, ◌≤◌, IfOk};
ghost use Rattle.jesc_ast.specs.Lines.{IsLines, place_at as place_by};
ghost use Rattle.jesc_classes.specs.declared.rule.RuleError.TheVariants.{Refused};

use crate::place::place_at;
use crate::rule::{Rule, RuleError};
use jesc_ast::Word;
use jesc_text::{OutOfMemory, Span, Text};
use std::alloc::Global;

/// The error that a rule is broken at this word of a file whose lines begin at these offsets.
///
/// Answers `OutOfMemory` where there is no room for a copy of the word's text.
pub fn refuse(
    alloc: Global,
    number: Rule,
    lines: &[u32],
    word: &Word,
) -> Result<RuleError, OutOfMemory>
    requires lines { IsLines lines.now }
    requires within { word.now.span.from ≤ 1048576 }
    ensures { IfOk result (λ e. e ≡ Refused number (place_by lines.now word.now.span) word.now.text) }
{
    refuse_at(alloc, number, lines, word.span, word.text.as_slice())
}

/// The error that a rule is broken at this span of a file whose lines begin at these offsets, where the error has this
/// text, as the base of a type.
///
/// Answers `OutOfMemory` where there is no room for a copy of the text.
pub fn refuse_at(
    alloc: Global,
    number: Rule,
    lines: &[u32],
    span: Span,
    text: &[u8],
) -> Result<RuleError, OutOfMemory>
    requires lines { IsLines lines.now }
    requires within { span.from ≤ 1048576 }
    ensures { IfOk result (λ e. e ≡ Refused number (place_by lines.now span) text.now) }
{
    let mut word = Text::new(alloc);
    word.append(text)?;
    Ok(RuleError::Refused {
        number,
        place: place_at(lines, span),
        word,
    })
}
