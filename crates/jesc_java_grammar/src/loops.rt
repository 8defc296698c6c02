//! Loops.

ghost use Rattle.std.specs.Prelude.{◌≡◌, ◌+◌, ◌<◌, ◌≤◌, false, map, IfOk};
ghost use Rattle.jesc_ast.specs.Trees.{statement_view, clause_view};
ghost use Rattle.jesc_jml_grammar.specs.ClauseSeen.{measured};
ghost use Rattle.jesc_jml_grammar.specs.Seen.{seen, IsKept};
ghost use Rattle.jesc_jml_grammar.specs.Steps.{Reads};
ghost use Rattle.jesc_java_grammar.specs.StatementReading as spec;
ghost use Rattle.jesc_java_grammar.specs.StatementNests.{NestsStatement, over};
ghost use Rattle.jesc_java_grammar.specs.StatementSeen as views;
ghost use Rattle.jesc_java_grammar.specs.Views.{for_head, optional_statement};

use crate::body::Statements;
use crate::lexing::{peek_statement, take_word};
use crate::make_loop::{ForHead, make_for, make_head, make_while};
use crate::part::Parts;
use crate::statement_mark::{Slot, StatementMark};
use jesc_ast::{ClauseTree, Stmt};
use jesc_jml_grammar::cursor::Cursor;
use jesc_jml_grammar::fault::ParseError;
use jesc_jml_grammar::mark::Mark;
use jesc_jml_grammar::part::Measured;
use jesc_text::List;
use std::alloc::Global;

impl Parts {
    /// The rest of the head of a `for`, behind its first semicolon.
    fn for_test(
        &self,
        cursor: &mut Cursor<'_>,
        first: Measured<Option<Stmt>>,
    ) -> Result<ForHead, ParseError>
        requires room { self.now.room < 1000 }
        requires some { 0 < self.now.room }
        requires side { cursor.old.note ≡ false }
        requires first { first.depth ≤ self.now.room }
        ensures reads { Reads for_head (views.for_test self.now.room (measured optional_statement first) (seen cursor.old)) result (seen cursor.new) }
        ensures kept { IsKept cursor.old cursor.new }
        ensures bounded { IfOk result (λ f. f.depth ≤ self.now.room) }
    {
        let inside = Parts {
            alloc: self.alloc,
            room: self.room - 1,
        };
        let test = self.optional_value(cursor, Mark::Semicolon)?;
        cursor.expect(Mark::Semicolon)?;
        let last = inside.for_last(cursor)?;
        cursor.expect(Mark::RightParen)?;
        Ok(make_head(first, test, last))
    }
}

impl<S: Fn(Global, &mut Cursor<'_>, usize, Slot) -> Result<Measured<Stmt>, ParseError>> Statements<
    S,
> {
    /// A `while`, behind its invariants.
    #[tactic(auto, unfolding(crate::specs::StatementReading::while_))]
    fn while_loop(
        &self,
        cursor: &mut Cursor<'_>,
        invariants: Measured<List<ClauseTree>>,
    ) -> Result<Measured<Stmt>, ParseError>
        requires nests { NestsStatement self.now.room (S.pre self.now.statement) (S.post self.now.statement) }
        requires room { self.now.room < 1000 }
        requires side { cursor.old.note ≡ false }
        requires invariants { invariants.depth ≤ self.now.room }
        ensures reads { Reads (measured statement_view) (over spec.while_ self.now.room (measured (map clause_view) invariants) (seen cursor.old)) result (seen cursor.new) }
        ensures kept { IsKept cursor.old cursor.new }
        ensures bounded { IfOk result (λ f. f.depth ≤ self.now.room + 1) }
    {
        let first = take_word(cursor, b"while")?;
        let test = self.parts().condition(cursor)?;
        let turn = self.inner(cursor, Slot::Then)?;
        Ok(make_while(self.alloc, invariants, first, test, turn)?)
    }

    #[tactic(auto, unfolding(crate::specs::StatementReading::for_head))]
    fn for_head(&self, cursor: &mut Cursor<'_>) -> Result<ForHead, ParseError>
        requires room { self.now.room < 1000 }
        requires some { 0 < self.now.room }
        requires side { cursor.old.note ≡ false }
        ensures reads { Reads for_head (over spec.for_head self.now.room (seen cursor.old)) result (seen cursor.new) }
        ensures kept { IsKept cursor.old cursor.new }
        ensures bounded { IfOk result (λ f. f.depth ≤ self.now.room) }
    {
        cursor.expect(Mark::LeftParen)?;
        let inside = Parts {
            alloc: self.alloc,
            room: self.room - 1,
        };
        let first = inside.for_first(cursor)?;
        cursor.expect(Mark::Semicolon)?;
        self.parts().for_test(cursor, first)
    }

    /// A `for`, behind its invariants.
    #[tactic(auto, using(crate::proofs::StatementRules::for_rule))]
    fn for_loop(
        &self,
        cursor: &mut Cursor<'_>,
        invariants: Measured<List<ClauseTree>>,
    ) -> Result<Measured<Stmt>, ParseError>
        requires nests { NestsStatement self.now.room (S.pre self.now.statement) (S.post self.now.statement) }
        requires room { self.now.room < 1000 }
        requires some { 0 < self.now.room }
        requires side { cursor.old.note ≡ false }
        requires invariants { invariants.depth ≤ self.now.room }
        ensures reads { Reads (measured statement_view) (over spec.for_ self.now.room (measured (map clause_view) invariants) (seen cursor.old)) result (seen cursor.new) }
        ensures kept { IsKept cursor.old cursor.new }
        ensures bounded { IfOk result (λ f. f.depth ≤ self.now.room + 1) }
    {
        let first = take_word(cursor, b"for")?;
        let head = self.for_head(cursor)?;
        let turn = self.inner(cursor, Slot::Then)?;
        Ok(make_for(self.alloc, invariants, first, head, turn)?)
    }

    /// A loop, behind its invariants, which begins with this mark.
    fn loop_by(
        &self,
        cursor: &mut Cursor<'_>,
        invariants: Measured<List<ClauseTree>>,
        mark: StatementMark,
    ) -> Result<Measured<Stmt>, ParseError>
        requires nests { NestsStatement self.now.room (S.pre self.now.statement) (S.post self.now.statement) }
        requires room { self.now.room < 1000 }
        requires some { 0 < self.now.room }
        requires side { cursor.old.note ≡ false }
        requires invariants { invariants.depth ≤ self.now.room }
        ensures reads { Reads (measured statement_view) (over spec.loop_by self.now.room (measured (map clause_view) invariants) mark (seen cursor.old)) result (seen cursor.new) }
        ensures kept { IsKept cursor.old cursor.new }
        ensures bounded { IfOk result (λ f. f.depth ≤ self.now.room + 1) }
    {
        match mark {
            StatementMark::While => self.while_loop(cursor, invariants),
            StatementMark::For => self.for_loop(cursor, invariants),
            _ => Err(cursor.refuse()),
        }
    }

    /// A loop.
    #[tactic(auto, unfolding(crate::specs::StatementReading::loop_))]
    pub fn loop_statement(&self, cursor: &mut Cursor<'_>) -> Result<Measured<Stmt>, ParseError>
        requires nests { NestsStatement self.now.room (S.pre self.now.statement) (S.post self.now.statement) }
        requires room { self.now.room < 1000 }
        requires some { 0 < self.now.room }
        requires side { cursor.old.note ≡ false }
        ensures reads { Reads (measured statement_view) (over spec.loop_ self.now.room (seen cursor.old)) result (seen cursor.new) }
        ensures kept { IsKept cursor.old cursor.new }
        ensures bounded { IfOk result (λ f. f.depth ≤ self.now.room + 1) }
    {
        let invariants = self.parts().invariants(cursor)?;
        let mark = peek_statement(cursor);
        self.loop_by(cursor, invariants, mark)
    }
}
