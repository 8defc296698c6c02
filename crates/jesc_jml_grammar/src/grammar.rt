//! The rules of expressions, over a parser of those inside.
//!
//! Each rule takes the parser of the expressions inside as a value, so that it is proved by itself.

ghost use Rattle.std.specs.Prelude.{◌≡◌, ◌<◌, ◌≤◌, IfOk, max};
ghost use Rattle.jesc_jml_grammar.specs.Reading as spec;
ghost use Rattle.jesc_jml_grammar.specs.Steps.{Reads};
ghost use Rattle.jesc_jml_grammar.specs.Seen.{seen, IsKept};
ghost use Rattle.jesc_jml_grammar.specs.Nests.{Nests, parsed, listed, start_of};

use crate::cursor::Cursor;
use crate::fault::ParseError;
use crate::found::{Found, FoundList, Start};
use jesc_text::OutOfMemory;
use std::alloc::Global;

/// The rules of expressions over a parser of those inside.
#[derive(Clone, Copy)]
pub struct Grammar<F> {
    pub alloc: Global,
    /// How many nodes there may be from the root of an expression inside to its deepest leaf.
    pub room: usize,
    /// How many quantifiers may still nest.
    pub quantifiers: usize,
    pub expr: F,
}

#[tactic(auto, unfolding(crate::specs::Reading::turns))]
pub fn turns() -> usize
    ensures { result ≡ spec.turns }
{
    usize::MAX
}

pub fn with_last(mut found: FoundList, next: Found) -> Result<FoundList, OutOfMemory>
    ensures value { IfOk result (λ f. listed f ≡ spec.with_last (listed found) (parsed next)) }
    ensures depth { IfOk result (λ f. f.depth ≡ max found.depth next.depth) }
{
    found.items.push(next.expr)?;
    found.depth = found.depth.max(next.depth);
    Ok(found)
}

impl<
    F: Fn(Global, &mut Cursor<'_>, usize, usize, usize, Start<'_>) -> Result<Found, ParseError>,
> Grammar<F> {
    /// An expression inside.
    pub fn inner(
        &self,
        cursor: &mut Cursor<'_>,
        quantifiers: usize,
        least: usize,
        start: Start<'_>,
    ) -> Result<Found, ParseError>
        requires { Nests self.now.room (F.pre self.now.expr) (F.post self.now.expr) }
        ensures reads { Reads parsed (spec.expr cursor.old.note spec.turns self.now.room quantifiers least (start_of start.entry) (seen cursor.old)) result (seen cursor.new) }
        ensures kept { IsKept cursor.old cursor.new }
        ensures bounded { IfOk result (λ f. f.depth ≤ self.now.room) }
        ensures some { IfOk result (λ _. 0 < self.now.room) }
    {
        (self.expr)(self.alloc, cursor, self.room, quantifiers, least, start)
    }
}
