//! Precedence climbing: what goes on with an expression, as long as it binds tightly enough.

ghost use Rattle.std.specs.Prelude.{◌+◌, ◌<◌, ◌≤◌, IfOk};
ghost use Rattle.jesc_jml_grammar.specs.Reading as spec;
ghost use Rattle.jesc_jml_grammar.specs.Steps.{Reads};
ghost use Rattle.jesc_jml_grammar.specs.Seen.{seen, IsKept};
ghost use Rattle.jesc_jml_grammar.specs.Nests.{Nests, parsed, start_of, rule};

use crate::binding::grows;
use crate::cursor::Cursor;
use crate::fault::ParseError;
use crate::found::{Found, Start};
use crate::grammar::Grammar;
use crate::make::make_name;
use std::alloc::Global;

impl<
    F: Fn(Global, &mut Cursor<'_>, usize, usize, usize, Start<'_>) -> Result<Found, ParseError>,
> Grammar<F> {
    /// What goes on with an expression, in so many turns at most.
    pub fn climb(
        &self,
        cursor: &mut Cursor<'_>,
        least: usize,
        turns: usize,
        first: Found,
    ) -> Result<Found, ParseError>
        requires nests { Nests self.now.room (F.pre self.now.expr) (F.post self.now.expr) }
        requires room { self.now.room < 1000 }
        requires first { first.depth ≤ self.now.room + 1 }
        ensures reads { Reads parsed (rule spec.climb cursor.old.note self.now.room self.now.quantifiers least turns (parsed first) (seen cursor.old)) result (seen cursor.new) }
        ensures kept { IsKept cursor.old cursor.new }
        ensures bounded { IfOk result (λ f. f.depth ≤ self.now.room + 1) }
    {
        let mut left = first;
        for _turn in 0..turns {
            let mark = cursor.peek();
            if !grows(left.strength, mark, least) {
                return Ok(left);
            }
            if left.depth > self.room {
                return Err(cursor.too_deep());
            }
            left = self.longer_by(cursor, left, mark)?;
        }
        Err(cursor.too_deep())
    }

    /// An expression whose parts bind as tightly as `least`, from where it was read to.
    pub fn begun(
        &self,
        cursor: &mut Cursor<'_>,
        least: usize,
        start: Start<'_>,
    ) -> Result<Found, ParseError>
        requires nests { Nests self.now.room (F.pre self.now.expr) (F.post self.now.expr) }
        requires room { self.now.room < 1000 }
        ensures reads { Reads parsed (rule spec.begun cursor.old.note self.now.room self.now.quantifiers least (start_of start.entry) (seen cursor.old)) result (seen cursor.new) }
        ensures kept { IsKept cursor.old cursor.new }
        ensures bounded { IfOk result (λ f. f.depth ≤ self.now.room + 1) }
    {
        match start {
            Start::AtFirst => {
                let first = self.first(cursor, least)?;
                self.climb(cursor, least, self.room + 1, first)
            }
            Start::BehindName(x) => {
                let first = self.after_name(cursor, x)?;
                self.climb(cursor, least, self.room + 1, first)
            }
            Start::BehindBracket(x, bracket) => {
                let name = make_name(self.alloc, x)?;
                let first = self.indexed_behind(cursor, name, bracket)?;
                self.climb(cursor, least, self.room, first)
            }
        }
    }
}
