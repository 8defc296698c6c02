//! Parts, sums and conditions.

ghost use Rattle.std.specs.Prelude.{◌≡◌, ◌≤◌, ◌<◌, IfOk, length};
ghost use Rattle.jesc_first.specs.Parsing.{part_of_kind, number_in, part_in, operator_in, operation_in, operations_in, sum_in, comparison_in, condition_in};
ghost use Rattle.jesc_first.specs.Reads.{Reads, Taken};
ghost use Rattle.jesc_first.specs.Seen.{lexeme, seen};

use crate::reader::cursor::{Cursor, Stop};
use crate::reader::lexeme::{Lexeme, lexeme_at};
use crate::reader::names::Names;
use crate::tree::{Comparison, Condition, Operation, Operator, Part, Sum};
use jesc_lexer::TokenKind;
use jesc_text::{List, read_number};
use std::alloc::Global;

/// The number that digits spell, where it is at most 2147483647 and has no leading zero.
pub fn number(text: &[u8]) -> Option<u32>
    ensures { result ≡ number_in text.now }
{
    match read_number(text) {
        Some(n) if 0 <= n && n <= 2147483647 => Some(n as u32),
        _ => None,
    }
}

/// Where a sum stands: in an annotation or not, with `\result` or not.
#[derive(Debug, Drop, Clone, Copy)]
pub struct Setting {
    pub note: bool,
    pub outcome: bool,
}

fn part_of(found: &Lexeme<'_>, outcome: bool, scope: &Names<'_>) -> Option<Part>
    ensures { result ≡ part_of_kind outcome scope.now (lexeme found.now).text found.now.kind }
{
    match found.kind {
        TokenKind::Word => match scope.slot_of(found.text) {
            Some(slot) => Some(Part::Slot(slot)),
            None => None,
        },
        TokenKind::Number => match number(found.text) {
            Some(n) => Some(Part::Number(n)),
            None => None,
        },
        TokenKind::Backslash if outcome && found.text == b"\\result".as_slice() => Some(
            Part::Outcome,
        ),
        _ => None,
    }
}

fn part(cursor: &mut Cursor<'_>, setting: Setting, scope: &Names<'_>) -> Result<Part, Stop>
    ensures shorter { IfOk result (λ part. length (seen cursor.new) < length (seen cursor.old)) }
    ensures reads { Reads (part_in setting.note setting.outcome scope.now (seen cursor.old)) result (seen cursor.new) }
{
    match cursor.rest {
        [token, rest @ ..] if token.note == setting.note => {
            let found = lexeme_at(cursor.text, token);
            let Some(part) = part_of(&found, setting.outcome, scope) else {
                return Err(Stop::Refused);
            };
            cursor.rest = rest;
            Ok(part)
        }
        _ => Err(Stop::Refused),
    }
}

/// The next token as an operator, with its offset; without one nothing is taken.
fn operator(cursor: &mut Cursor<'_>, note: bool) -> Option<(Operator, u32)>
    ensures reads { operator_in note (seen cursor.old) ≡ (result, (seen cursor.new)) }
    ensures shorter { Taken result (seen cursor.old) (seen cursor.new) }
{
    if let Ok(at) = cursor.expect(TokenKind::Sign, note, b"+") {
        return Some((Operator::Plus, at));
    }
    if let Ok(at) = cursor.expect(TokenKind::Sign, note, b"-") {
        return Some((Operator::Minus, at));
    }
    None
}

fn next_operation(
    cursor: &mut Cursor<'_>,
    setting: Setting,
    scope: &Names<'_>,
) -> Result<Option<Operation>, Stop>
    ensures reads { Reads (operation_in setting.note setting.outcome scope.now (seen cursor.old)) result (seen cursor.new) }
    ensures shorter { IfOk result (λ operation. Taken operation (seen cursor.old) (seen cursor.new)) }
{
    let Some((operator, at)) = operator(cursor, setting.note) else {
        return Ok(None);
    };
    let part = part(cursor, setting, scope)?;
    Ok(Some(Operation { operator, at, part }))
}

fn operations(
    alloc: Global,
    cursor: &mut Cursor<'_>,
    setting: Setting,
    scope: &Names<'_>,
) -> Result<List<Operation>, Stop>
    ensures shorter { IfOk result (λ operations. length (seen cursor.new) ≤ length (seen cursor.old)) }
    ensures reads { Reads (operations_in setting.note setting.outcome scope.now (seen cursor.old)) result (seen cursor.new) }
{
    let mut operations = List::new(alloc);
    while let Some(operation) = next_operation(cursor, setting, scope)? {
        operations.push(operation)?;
    }
    Ok(operations)
}

pub fn sum(
    alloc: Global,
    cursor: &mut Cursor<'_>,
    setting: Setting,
    scope: &Names<'_>,
) -> Result<Sum, Stop>
    ensures shorter { IfOk result (λ sum. length (seen cursor.new) < length (seen cursor.old)) }
    ensures reads { Reads (sum_in setting.note setting.outcome scope.now (seen cursor.old)) result (seen cursor.new) }
{
    let first = part(cursor, setting, scope)?;
    let rest = operations(alloc, cursor, setting, scope)?;
    Ok(Sum { first, rest })
}

fn comparison(cursor: &mut Cursor<'_>) -> Result<Comparison, Stop>
    ensures shorter { IfOk result (λ comparison. length (seen cursor.new) < length (seen cursor.old)) }
    ensures reads { Reads (comparison_in (seen cursor.old)) result (seen cursor.new) }
{
    if let Ok(_) = cursor.expect(TokenKind::Sign, true, b"<") {
        return Ok(Comparison::Less);
    }
    if let Ok(_) = cursor.expect(TokenKind::Sign, true, b"<=") {
        return Ok(Comparison::AtMost);
    }
    if let Ok(_) = cursor.expect(TokenKind::Sign, true, b">") {
        return Ok(Comparison::Greater);
    }
    if let Ok(_) = cursor.expect(TokenKind::Sign, true, b">=") {
        return Ok(Comparison::AtLeast);
    }
    cursor.expect(TokenKind::Sign, true, b"==")?;
    Ok(Comparison::Equal)
}

pub fn condition(
    alloc: Global,
    cursor: &mut Cursor<'_>,
    outcome: bool,
    scope: &Names<'_>,
) -> Result<Condition, Stop>
    ensures shorter { IfOk result (λ condition. length (seen cursor.new) < length (seen cursor.old)) }
    ensures reads { Reads (condition_in outcome scope.now (seen cursor.old)) result (seen cursor.new) }
{
    let setting = Setting {
        note: true,
        outcome,
    };
    let left = sum(alloc, cursor, setting, scope)?;
    let comparison = comparison(cursor)?;
    let right = sum(alloc, cursor, setting, scope)?;
    Ok(Condition {
        left,
        comparison,
        right,
    })
}
