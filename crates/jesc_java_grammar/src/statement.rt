//! The parser of statements.

ghost use Rattle.std.specs.Prelude.{◌≡◌, ◌+◌, ◌<◌, ◌≤◌, false, IfOk, Err};
ghost use Rattle.jesc_ast.specs.Trees.{statement_view};
ghost use Rattle.jesc_jml_grammar.specs.ClauseSeen.{measured};
ghost use Rattle.jesc_jml_grammar.specs.Seen.{seen, IsKept};
ghost use Rattle.jesc_jml_grammar.specs.Steps.{Reads};
ghost use Rattle.jesc_java_grammar.specs.StatementReading as spec;
ghost use Rattle.jesc_java_grammar.specs.StatementNests.{NestsStatement, over, statement_within};
ghost use Rattle.jesc_java_grammar.specs.Views.{part};

use crate::beginning::begins;
use crate::body::Statements;
use crate::lexing::peek_statement;
use crate::part::Parts;
use crate::statement_mark::{Slot, StatementMark};
use jesc_ast::Stmt;
use jesc_jml_grammar::cursor::Cursor;
use jesc_jml_grammar::fault::ParseError;
use jesc_jml_grammar::mark::Mark;
use jesc_jml_grammar::part::Measured;
use std::alloc::Global;

impl Parts {
    /// A statement that begins with no mark of a statement.
    #[tactic(auto, unfolding(crate::specs::StatementReading::other_statement))]
    fn other_statement(&self, cursor: &mut Cursor<'_>) -> Result<Measured<Stmt>, ParseError>
        requires room { self.now.room < 1000 }
        requires side { cursor.old.note ≡ false }
        ensures reads { Reads (measured statement_view) (over spec.other_statement self.now.room (seen cursor.old)) result (seen cursor.new) }
        ensures kept { IsKept cursor.old cursor.new }
        ensures bounded { IfOk result (λ f. f.depth ≤ self.now.room + 1) }
    {
        match cursor.peek() {
            Mark::Semicolon => self.nothing(cursor),
            _ => self.simple_statement(cursor),
        }
    }
}

impl<S: Fn(Global, &mut Cursor<'_>, usize, Slot) -> Result<Measured<Stmt>, ParseError>> Statements<
    S,
> {
    fn statement_by(
        &self,
        cursor: &mut Cursor<'_>,
        slot: Slot,
        mark: StatementMark,
    ) -> Result<Measured<Stmt>, ParseError>
        requires nests { NestsStatement self.now.room (S.pre self.now.statement) (S.post self.now.statement) }
        requires room { self.now.room < 1000 }
        requires side { cursor.old.note ≡ false }
        ensures reads { Reads (measured statement_view) (over spec.statement_by self.now.room slot mark (seen cursor.old)) result (seen cursor.new) }
        ensures kept { IsKept cursor.old cursor.new }
        ensures bounded { IfOk result (λ f. f.depth ≤ self.now.room + 1) }
    {
        match mark {
            StatementMark::LeftBrace => self.block(cursor),
            StatementMark::If => self.branching(cursor, slot),
            StatementMark::While => self.looping(cursor, slot),
            StatementMark::For => self.looping(cursor, slot),
            StatementMark::Invariant => self.looping(cursor, slot),
            StatementMark::Return => self.parts().returned(cursor),
            StatementMark::Throw => self.parts().roomy_thrown(cursor),
            StatementMark::Break => self.parts().broken(cursor),
            StatementMark::Continue => self.parts().continued(cursor),
            StatementMark::Try => self.attempt(cursor),
            StatementMark::Assert => self.parts().roomy_asserted(cursor),
            StatementMark::Set => self.parts().roomy_set(cursor),
            StatementMark::Ghost => self.parts().roomy_ghost(cursor),
            StatementMark::Final => self.parts().simple_statement(cursor),
            StatementMark::Step => self.parts().simple_statement(cursor),
            StatementMark::Other => self.parts().other_statement(cursor),
            _ => Err(cursor.refuse()),
        }
    }

    /// A statement, where there is room for one.
    #[tactic(auto, unfolding(crate::specs::StatementReading::begun))]
    fn begun(&self, cursor: &mut Cursor<'_>, slot: Slot) -> Result<Measured<Stmt>, ParseError>
        requires nests { NestsStatement self.now.room (S.pre self.now.statement) (S.post self.now.statement) }
        requires room { self.now.room < 1000 }
        requires side { cursor.old.note ≡ false }
        ensures reads { Reads (measured statement_view) (over spec.begun self.now.room slot (seen cursor.old)) result (seen cursor.new) }
        ensures kept { IsKept cursor.old cursor.new }
        ensures bounded { IfOk result (λ f. f.depth ≤ self.now.room + 1) }
    {
        let mark = peek_statement(cursor);
        self.statement_by(cursor, slot, mark)
    }
}

/// The fault where no statement has room.
#[tactic(auto, unfolding(crate::specs::StatementReading::statement, crate::specs::StatementReading::no_room))]
pub fn no_room(cursor: &Cursor<'_>, slot: Slot) -> ParseError
    requires side { cursor.now.note ≡ false }
    ensures { Reads (measured statement_view) (statement_within 0 slot (seen cursor.now)) (Err result) (seen cursor.now) }
{
    if begins(slot, peek_statement(cursor), cursor.peek()) {
        cursor.too_deep()
    } else {
        cursor.refuse()
    }
}

/// A statement of at most `room` nodes from its root to a leaf, which stands in this slot.
pub fn statement(
    alloc: Global,
    cursor: &mut Cursor<'_>,
    room: usize,
    slot: Slot,
) -> Result<Measured<Stmt>, ParseError>
    requires room { room ≤ 1000 }
    requires side { cursor.old.note ≡ false }
    ensures reads { Reads (measured statement_view) (statement_within room slot (seen cursor.old)) result (seen cursor.new) }
    ensures kept { IsKept cursor.old cursor.new }
    ensures bounded { IfOk result (λ f. f.depth ≤ room) }
{
    if room == 0 {
        return Err(no_room(cursor, slot));
    }
    Statements {
        alloc,
        room: room - 1,
        statement,
    }
    .begun(cursor, slot)
}
