//! `try`, with what it catches.

ghost use Rattle.std.specs.Prelude.{◌≡◌, ◌+◌, ◌<◌, ◌≤◌, false, map, IfOk};
ghost use Rattle.jesc_ast.specs.Trees.{statement_view, catch_view};
ghost use Rattle.jesc_jml_grammar.specs.ClauseSeen.{measured};
ghost use Rattle.jesc_jml_grammar.specs.Seen.{seen, IsKept};
ghost use Rattle.jesc_jml_grammar.specs.Steps.{Reads};
ghost use Rattle.jesc_java_grammar.specs.StatementReading as spec;
ghost use Rattle.jesc_java_grammar.specs.StatementNests.{NestsStatement, over};
ghost use Rattle.jesc_java_grammar.specs.Views.{catch_head};

use crate::body::Statements;
use crate::lexing::{is_word, take_word};
use crate::make_attempt::{CatchHead, make_attempt, make_catch, with_catch};
use crate::statement_mark::Slot;
use jesc_ast::{CatchTree, Stmt};
use jesc_jml_grammar::cursor::Cursor;
use jesc_jml_grammar::fault::{Fault, ParseError};
use jesc_jml_grammar::grammar::turns;
use jesc_jml_grammar::mark::Mark;
use jesc_jml_grammar::part::Measured;
use jesc_text::List;
use std::alloc::Global;

impl<S: Fn(Global, &mut Cursor<'_>, usize, Slot) -> Result<Measured<Stmt>, ParseError>> Statements<
    S,
> {
    /// Whether `final` stands there.
    #[tactic(auto, unfolding(crate::specs::StatementReading::optional_final))]
    fn optional_final(&self, cursor: &mut Cursor<'_>) -> Result<bool, ParseError>
        requires side { cursor.old.note ≡ false }
        ensures reads { Reads (λ there. there) (over spec.optional_final self.now.room (seen cursor.old)) result (seen cursor.new) }
        ensures kept { IsKept cursor.old cursor.new }
    {
        if !is_word(cursor, b"final") {
            return Ok(false);
        }
        take_word(cursor, b"final")?;
        Ok(true)
    }

    #[tactic(auto, unfolding(crate::specs::StatementReading::catch_head))]
    fn catch_head<'a>(&self, cursor: &mut Cursor<'a>) -> Result<CatchHead<'a>, ParseError>
        requires side { cursor.old.note ≡ false }
        ensures reads { Reads catch_head (over spec.catch_head self.now.room (seen cursor.old)) result (seen cursor.new) }
        ensures kept { IsKept cursor.old cursor.new }
    {
        take_word(cursor, b"catch")?;
        cursor.expect(Mark::LeftParen)?;
        let is_final = self.optional_final(cursor)?;
        let class = cursor.expect(Mark::Name)?;
        let name = cursor.expect(Mark::Name)?;
        cursor.expect(Mark::RightParen)?;
        Ok(CatchHead {
            is_final,
            class,
            name,
        })
    }

    #[tactic(auto, unfolding(crate::specs::StatementReading::catch_))]
    fn catch(&self, cursor: &mut Cursor<'_>) -> Result<Measured<CatchTree>, ParseError>
        requires nests { NestsStatement self.now.room (S.pre self.now.statement) (S.post self.now.statement) }
        requires side { cursor.old.note ≡ false }
        ensures reads { Reads (measured catch_view) (over spec.catch_ self.now.room (seen cursor.old)) result (seen cursor.new) }
        ensures kept { IsKept cursor.old cursor.new }
        ensures bounded { IfOk result (λ f. f.depth ≤ self.now.room) }
    {
        let head = self.catch_head(cursor)?;
        let body = self.braced(cursor)?;
        Ok(make_catch(self.alloc, head, body)?)
    }

    /// Further `catch`es, behind others.
    #[tactic(auto, unfolding(crate::specs::StatementReading::catches), using(crate::proofs::ListTurns::until_stops, crate::proofs::ListTurns::until_goes_on, crate::proofs::ListTurns::until_ends))]
    fn catches(
        &self,
        cursor: &mut Cursor<'_>,
        first: Measured<List<CatchTree>>,
    ) -> Result<Measured<List<CatchTree>>, ParseError>
        requires nests { NestsStatement self.now.room (S.pre self.now.statement) (S.post self.now.statement) }
        requires side { cursor.old.note ≡ false }
        requires fits { first.depth ≤ self.now.room }
        ensures reads { Reads (measured (map catch_view)) (over spec.catches self.now.room (measured (map catch_view) first) (seen cursor.old)) result (seen cursor.new) }
        ensures kept { IsKept cursor.old cursor.new }
        ensures bounded { IfOk result (λ f. f.depth ≤ self.now.room) }
    {
        let mut found = first;
        let turns = turns();
        for _turn in 0..turns {
            if !is_word(cursor, b"catch") {
                return Ok(found);
            }
            let next = self.catch(cursor)?;
            found = with_catch(found, next)?;
        }
        Err(ParseError::Fault(Fault::Long))
    }

    #[tactic(auto, unfolding(crate::specs::StatementReading::some_catches))]
    fn some_catches(&self, cursor: &mut Cursor<'_>) -> Result<Measured<List<CatchTree>>, ParseError>
        requires nests { NestsStatement self.now.room (S.pre self.now.statement) (S.post self.now.statement) }
        requires side { cursor.old.note ≡ false }
        ensures reads { Reads (measured (map catch_view)) (over spec.some_catches self.now.room (seen cursor.old)) result (seen cursor.new) }
        ensures kept { IsKept cursor.old cursor.new }
        ensures bounded { IfOk result (λ f. f.depth ≤ self.now.room) }
    {
        let first = self.catch(cursor)?;
        let none = Measured {
            tree: List::new(self.alloc),
            depth: 0,
        };
        self.catches(cursor, with_catch(none, first)?)
    }

    /// A `try`.
    #[tactic(auto, using(crate::proofs::StatementRules::attempt_rule))]
    pub fn attempt(&self, cursor: &mut Cursor<'_>) -> Result<Measured<Stmt>, ParseError>
        requires nests { NestsStatement self.now.room (S.pre self.now.statement) (S.post self.now.statement) }
        requires room { self.now.room < 1000 }
        requires side { cursor.old.note ≡ false }
        ensures reads { Reads (measured statement_view) (over spec.attempt_ self.now.room (seen cursor.old)) result (seen cursor.new) }
        ensures kept { IsKept cursor.old cursor.new }
        ensures bounded { IfOk result (λ f. f.depth ≤ self.now.room + 1) }
    {
        let first = take_word(cursor, b"try")?;
        let body = self.braced(cursor)?;
        let catches = self.some_catches(cursor)?;
        Ok(make_attempt(self.alloc, first, body, catches)?)
    }
}
