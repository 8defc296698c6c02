//! The parser of expressions.

ghost use Rattle.std.specs.Prelude.{ℕ, ◌≤◌, IfOk, Err};
ghost use Rattle.jesc_jml_grammar.specs.Reading as spec;
ghost use Rattle.jesc_jml_grammar.specs.Steps.{Reads};
ghost use Rattle.jesc_jml_grammar.specs.Seen.{seen, IsKept};
ghost use Rattle.jesc_jml_grammar.specs.Nests.{parsed, start_of};

use crate::cursor::Cursor;
use crate::fault::ParseError;
use crate::found::{Found, Start};
use crate::grammar::Grammar;
use crate::opening::opens_at;
use std::alloc::Global;

/// The fault where no node has room.
#[tactic(auto, unfolding(crate::specs::Reading::expr, crate::specs::Reading::no_room))]
fn no_room(cursor: &Cursor<'_>, least: usize, start: Start<'_>) -> ParseError
    ensures { (quantifiers : ℕ) → Reads parsed (spec.expr cursor.now.note spec.turns 0 quantifiers least (start_of start.entry) (seen cursor.now)) (Err result) (seen cursor.now) }
{
    match start {
        Start::AtFirst => {
            if opens_at(least, cursor.peek()) {
                cursor.too_deep()
            } else {
                cursor.refuse()
            }
        }
        Start::BehindName(_) | Start::BehindBracket(_, _) => cursor.too_deep(),
    }
}

/// An expression of at most `room` nodes from its root to a leaf and `quantifiers` nested quantifiers.
///
/// All its parts bind as tightly as `least`, and `start` tells how far it was read before.
pub fn expr(
    alloc: Global,
    cursor: &mut Cursor<'_>,
    room: usize,
    quantifiers: usize,
    least: usize,
    start: Start<'_>,
) -> Result<Found, ParseError>
    requires room { room ≤ 1000 }
    ensures reads { Reads parsed (spec.expr cursor.old.note spec.turns room quantifiers least (start_of start.entry) (seen cursor.old)) result (seen cursor.new) }
    ensures kept { IsKept cursor.old cursor.new }
    ensures bounded { IfOk result (λ f. f.depth ≤ room) }
{
    if room == 0 {
        return Err(no_room(cursor, least, start));
    }
    Grammar {
        alloc,
        room: room - 1,
        quantifiers,
        expr,
    }
    .begun(cursor, least, start)
}
