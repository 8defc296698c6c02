//! Lists of arguments.

ghost use Rattle.std.specs.Prelude.{◌<◌, ◌≤◌, IfOk};
ghost use Rattle.jesc_jml_grammar.specs.Reading as spec;
ghost use Rattle.jesc_jml_grammar.specs.Steps.{Reads};
ghost use Rattle.jesc_jml_grammar.specs.Seen.{seen, IsKept};
ghost use Rattle.jesc_jml_grammar.specs.Nests.{Nests, listed, rule};

use crate::cursor::Cursor;
use crate::fault::{Fault, ParseError};
use crate::found::{Found, FoundList, Start};
use crate::grammar::{Grammar, turns, with_last};
use crate::mark::Mark;
use crate::step::same_mark;
use jesc_text::List;
use std::alloc::Global;

impl<
    F: Fn(Global, &mut Cursor<'_>, usize, usize, usize, Start<'_>) -> Result<Found, ParseError>,
> Grammar<F> {
    pub fn more_arguments(
        &self,
        cursor: &mut Cursor<'_>,
        first: FoundList,
    ) -> Result<FoundList, ParseError>
        requires nests { Nests self.now.room (F.pre self.now.expr) (F.post self.now.expr) }
        requires room { self.now.room < 1000 }
        requires fits { first.depth ≤ self.now.room }
        ensures reads { Reads listed (rule spec.more_arguments cursor.old.note self.now.room self.now.quantifiers spec.turns (listed first) (seen cursor.old)) result (seen cursor.new) }
        ensures kept { IsKept cursor.old cursor.new }
        ensures bounded { IfOk result (λ f. f.depth ≤ self.now.room) }
    {
        let mut found = first;
        let turns = turns();
        for _turn in 0..turns {
            if !same_mark(cursor.peek(), Mark::Comma) {
                return Ok(found);
            }
            cursor.expect(Mark::Comma)?;
            let next = self.inner(cursor, self.quantifiers, 1, Start::AtFirst)?;
            found = with_last(found, next)?;
        }
        Err(ParseError::Fault(Fault::Long))
    }

    #[tactic(auto, unfolding(crate::specs::Reading::some_arguments))]
    pub fn some_arguments(&self, cursor: &mut Cursor<'_>) -> Result<FoundList, ParseError>
        requires nests { Nests self.now.room (F.pre self.now.expr) (F.post self.now.expr) }
        requires room { self.now.room < 1000 }
        ensures reads { Reads listed (rule spec.some_arguments cursor.old.note self.now.room self.now.quantifiers (seen cursor.old)) result (seen cursor.new) }
        ensures kept { IsKept cursor.old cursor.new }
        ensures bounded { IfOk result (λ f. f.depth ≤ self.now.room) }
    {
        let first = self.inner(cursor, self.quantifiers, 1, Start::AtFirst)?;
        let none = FoundList {
            items: List::new(self.alloc),
            depth: 0,
        };
        self.more_arguments(cursor, with_last(none, first)?)
    }

    /// The arguments of a call, before the closing parenthesis.
    #[tactic(auto, unfolding(crate::specs::Reading::arguments))]
    pub fn arguments(&self, cursor: &mut Cursor<'_>) -> Result<FoundList, ParseError>
        requires nests { Nests self.now.room (F.pre self.now.expr) (F.post self.now.expr) }
        requires room { self.now.room < 1000 }
        ensures reads { Reads listed (rule spec.arguments cursor.old.note self.now.room self.now.quantifiers (seen cursor.old)) result (seen cursor.new) }
        ensures kept { IsKept cursor.old cursor.new }
        ensures bounded { IfOk result (λ f. f.depth ≤ self.now.room) }
    {
        if same_mark(cursor.peek(), Mark::RightParen) {
            return Ok(FoundList {
                items: List::new(self.alloc),
                depth: 0,
            });
        }
        self.some_arguments(cursor)
    }
}
