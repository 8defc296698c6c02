//! The clauses before a method.

ghost use Rattle.std.specs.Prelude.{◌<◌, IfOk};
ghost use Rattle.jesc_first.specs.Parsing.{demand_in, demands_in, promise_in, promises_in};
ghost use Rattle.jesc_first.specs.Reads.{Reads, Taken};
ghost use Rattle.jesc_first.specs.Seen.{seen};

use crate::reader::cursor::{Cursor, Stop};
use crate::reader::names::Names;
use crate::reader::sums::condition;
use crate::tree::{Clause, Condition};
use jesc_lexer::TokenKind;
use jesc_text::List;
use std::alloc::Global;

fn next_demand(
    alloc: Global,
    cursor: &mut Cursor<'_>,
    scope: &Names<'_>,
) -> Result<Option<Condition>, Stop>
    ensures shorter { IfOk result (λ condition. Taken condition (seen cursor.old) (seen cursor.new)) }
    ensures reads { Reads (demand_in scope.now (seen cursor.old)) result (seen cursor.new) }
{
    if cursor.expect(TokenKind::Word, true, b"requires").is_err() {
        return Ok(None);
    }
    let condition = condition(alloc, cursor, false, scope)?;
    cursor.expect(TokenKind::Sign, true, b";")?;
    Ok(Some(condition))
}

/// Each `requires`.
pub fn demands(
    alloc: Global,
    cursor: &mut Cursor<'_>,
    scope: &Names<'_>,
) -> Result<List<Condition>, Stop>
    ensures reads { Reads (demands_in scope.now (seen cursor.old)) result (seen cursor.new) }
{
    let mut demands = List::new(alloc);
    while let Some(condition) = next_demand(alloc, cursor, scope)? {
        demands.push(condition)?;
    }
    Ok(demands)
}

fn next_promise(
    alloc: Global,
    cursor: &mut Cursor<'_>,
    outcome: bool,
    scope: &Names<'_>,
) -> Result<Option<Clause>, Stop>
    ensures shorter { IfOk result (λ clause. Taken clause (seen cursor.old) (seen cursor.new)) }
    ensures reads { Reads (promise_in outcome scope.now (seen cursor.old)) result (seen cursor.new) }
{
    if cursor.expect(TokenKind::Word, true, b"ensures").is_err() {
        return Ok(None);
    }
    let at = cursor.offset();
    let condition = condition(alloc, cursor, outcome, scope)?;
    cursor.expect(TokenKind::Sign, true, b";")?;
    Ok(Some(Clause { at, condition }))
}

/// Each `ensures`.
pub fn promises(
    alloc: Global,
    cursor: &mut Cursor<'_>,
    outcome: bool,
    scope: &Names<'_>,
) -> Result<List<Clause>, Stop>
    ensures reads { Reads (promises_in outcome scope.now (seen cursor.old)) result (seen cursor.new) }
{
    let mut promises = List::new(alloc);
    while let Some(clause) = next_promise(alloc, cursor, outcome, scope)? {
        promises.push(clause)?;
    }
    Ok(promises)
}
