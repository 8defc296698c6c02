//! The body of a method.

ghost use Rattle.std.specs.Prelude.{◌≡◌, ◌≤◌, ◌<◌, IfOk, IfSome, IfNone, length};
ghost use Rattle.jesc_first.specs.Parsing.{value_in, local_in, assertion_in, variable_in, assignment_in, statement_in, statements_in, end_in};
ghost use Rattle.jesc_first.specs.Reads.{Reads, ReadsWith, ReadsStatement, Finds, Taken};
ghost use Rattle.jesc_first.specs.Seen.{seen};

use crate::reader::cursor::{Cursor, Stop};
use crate::reader::header::{fresh_name, text_of};
use crate::reader::lexeme::{is_plain_word, lexeme_at};
use crate::reader::names::Names;
use crate::reader::sums::{Setting, condition, sum};
use crate::tree::{Stmt, Sum};
use jesc_lexer::TokenKind;
use jesc_text::List;
use std::alloc::Global;

/// How a sum of the code itself stands.
const CODE: Setting = Setting {
    note: false,
    outcome: false,
};

fn value(alloc: Global, cursor: &mut Cursor<'_>, scope: &Names<'_>) -> Result<Sum, Stop>
    ensures shorter { IfOk result (λ value. length (seen cursor.new) < length (seen cursor.old)) }
    ensures reads { Reads (value_in scope.now (seen cursor.old)) result (seen cursor.new) }
{
    let value = sum(alloc, cursor, CODE, scope)?;
    cursor.expect(TokenKind::Sign, false, b";")?;
    Ok(value)
}

/// The rest of `int NAME = SUM;`. The new name is not in scope within its sum.
fn local<'a>(alloc: Global, cursor: &mut Cursor<'a>, scope: &mut Names<'a>) -> Result<Stmt, Stop>
    ensures shorter { IfOk result (λ statement. length (seen cursor.new) ≤ length (seen cursor.old)) }
    ensures reads { ReadsStatement (local_in scope.old (seen cursor.old)) result scope.new (seen cursor.new) }
{
    let name = fresh_name(cursor, scope)?;
    cursor.expect(TokenKind::Sign, false, b"=")?;
    let value = value(alloc, cursor, scope)?;
    let text = text_of(alloc, name)?;
    scope.add(name)?;
    Ok(Stmt::Local { name: text, value })
}

/// The rest of `assert CONDITION;`.
fn assertion(
    alloc: Global,
    cursor: &mut Cursor<'_>,
    at: u32,
    scope: &Names<'_>,
) -> Result<Stmt, Stop>
    ensures shorter { IfOk result (λ statement. length (seen cursor.new) ≤ length (seen cursor.old)) }
    ensures reads { ReadsStatement (assertion_in at scope.now (seen cursor.old)) result scope.now (seen cursor.new) }
{
    let condition = condition(alloc, cursor, false, scope)?;
    cursor.expect(TokenKind::Sign, true, b";")?;
    Ok(Stmt::Assert { at, condition })
}

/// Takes a name that is in scope, and gives its slot; else nothing is taken.
fn variable(cursor: &mut Cursor<'_>, scope: &Names<'_>) -> Option<u32>
    ensures shorter { IfSome result (λ slot. length (seen cursor.new) < length (seen cursor.old)) }
    ensures same { IfNone result (seen cursor.new ≡ seen cursor.old) }
    ensures reads { Finds (variable_in scope.now (seen cursor.old)) result (seen cursor.new) }
{
    match cursor.rest {
        [token, rest @ ..] => {
            let found = lexeme_at(cursor.text, token);
            if !is_plain_word(&found) {
                return None;
            }
            let slot = scope.slot_of(found.text)?;
            cursor.rest = rest;
            Some(slot)
        }
        [] => None,
    }
}

/// The rest of `NAME = SUM;`.
fn assignment(
    alloc: Global,
    cursor: &mut Cursor<'_>,
    slot: u32,
    scope: &Names<'_>,
) -> Result<Stmt, Stop>
    ensures shorter { IfOk result (λ statement. length (seen cursor.new) ≤ length (seen cursor.old)) }
    ensures reads { ReadsStatement (assignment_in slot scope.now (seen cursor.old)) result scope.now (seen cursor.new) }
{
    cursor.expect(TokenKind::Sign, false, b"=")?;
    let value = value(alloc, cursor, scope)?;
    Ok(Stmt::Assign { slot, value })
}

/// The next statement; where none begins, nothing is taken.
fn next_statement<'a>(
    alloc: Global,
    cursor: &mut Cursor<'a>,
    scope: &mut Names<'a>,
) -> Result<Option<Stmt>, Stop>
    ensures shorter { IfOk result (λ statement. Taken statement (seen cursor.old) (seen cursor.new)) }
    ensures reads { ReadsWith (statement_in scope.old (seen cursor.old)) result scope.new (seen cursor.new) }
{
    if cursor.expect(TokenKind::Word, false, b"int").is_ok() {
        let statement = local(alloc, cursor, scope)?;
        return Ok(Some(statement));
    }
    if let Ok(at) = cursor.expect(TokenKind::Word, true, b"assert") {
        let statement = assertion(alloc, cursor, at, scope)?;
        return Ok(Some(statement));
    }
    if let Some(slot) = variable(cursor, scope) {
        let statement = assignment(alloc, cursor, slot, scope)?;
        return Ok(Some(statement));
    }
    Ok(None)
}

/// The statements of a body, whose locals go to the scope.
pub fn statements<'a>(
    alloc: Global,
    cursor: &mut Cursor<'a>,
    scope: &mut Names<'a>,
) -> Result<List<Stmt>, Stop>
    ensures shorter { IfOk result (λ statements. length (seen cursor.new) ≤ length (seen cursor.old)) }
    ensures reads { ReadsWith (statements_in scope.old (seen cursor.old)) result scope.new (seen cursor.new) }
{
    let mut statements = List::new(alloc);
    while let Some(statement) = next_statement(alloc, cursor, scope)? {
        statements.push(statement)?;
    }
    Ok(statements)
}

/// The end of a body: `return SUM; }` where the method returns a value, and else `}`; and where it stands.
pub fn end(
    alloc: Global,
    cursor: &mut Cursor<'_>,
    returns: bool,
    scope: &Names<'_>,
) -> Result<(Option<Sum>, u32), Stop>
    ensures shorter { IfOk result (λ end. length (seen cursor.new) ≤ length (seen cursor.old)) }
    ensures reads { Reads (end_in returns scope.now (seen cursor.old)) result (seen cursor.new) }
{
    if !returns {
        let exit = cursor.expect(TokenKind::Sign, false, b"}")?;
        return Ok((None, exit));
    }
    let exit = cursor.expect(TokenKind::Word, false, b"return")?;
    let value = value(alloc, cursor, scope)?;
    cursor.expect(TokenKind::Sign, false, b"}")?;
    Ok((Some(value), exit))
}
