//! Statements that are read only where there is room for a node inside.

ghost use Rattle.std.specs.Prelude.{◌≡◌, ◌+◌, ◌<◌, ◌≤◌, false, IfOk};
ghost use Rattle.jesc_ast.specs.Trees.{statement_view};
ghost use Rattle.jesc_jml_grammar.specs.ClauseSeen.{measured};
ghost use Rattle.jesc_jml_grammar.specs.Seen.{seen, IsKept};
ghost use Rattle.jesc_jml_grammar.specs.Steps.{Reads};
ghost use Rattle.jesc_java_grammar.specs.StatementReading as spec;
ghost use Rattle.jesc_java_grammar.specs.StatementNests.{NestsStatement, over};
ghost use Rattle.jesc_java_grammar.specs.StatementSeen as views;
ghost use Rattle.jesc_java_grammar.specs.Views.{part};

use crate::beginning::{allows_branch, allows_loop};
use crate::body::Statements;
use crate::part::Parts;
use crate::statement_mark::Slot;
use jesc_ast::Stmt;
use jesc_jml_grammar::cursor::Cursor;
use jesc_jml_grammar::fault::ParseError;
use jesc_jml_grammar::part::Measured;
use std::alloc::Global;

impl Parts {
    pub fn roomy_thrown(&self, cursor: &mut Cursor<'_>) -> Result<Measured<Stmt>, ParseError>
        requires room { self.now.room < 1000 }
        requires side { cursor.old.note ≡ false }
        ensures reads { Reads (measured statement_view) (views.roomy self.now.room (part spec.thrown self.now.room) (seen cursor.old)) result (seen cursor.new) }
        ensures kept { IsKept cursor.old cursor.new }
        ensures bounded { IfOk result (λ f. f.depth ≤ self.now.room + 1) }
    {
        if self.room > 0 {
            self.thrown(cursor)
        } else {
            Err(cursor.too_deep())
        }
    }

    pub fn roomy_asserted(&self, cursor: &mut Cursor<'_>) -> Result<Measured<Stmt>, ParseError>
        requires room { self.now.room < 1000 }
        requires side { cursor.old.note ≡ false }
        ensures reads { Reads (measured statement_view) (views.roomy self.now.room (part spec.asserted self.now.room) (seen cursor.old)) result (seen cursor.new) }
        ensures kept { IsKept cursor.old cursor.new }
        ensures bounded { IfOk result (λ f. f.depth ≤ self.now.room + 1) }
    {
        if self.room > 0 {
            self.asserted(cursor)
        } else {
            Err(cursor.too_deep())
        }
    }

    pub fn roomy_set(&self, cursor: &mut Cursor<'_>) -> Result<Measured<Stmt>, ParseError>
        requires room { self.now.room < 1000 }
        requires side { cursor.old.note ≡ false }
        ensures reads { Reads (measured statement_view) (views.roomy self.now.room (part spec.set_ self.now.room) (seen cursor.old)) result (seen cursor.new) }
        ensures kept { IsKept cursor.old cursor.new }
        ensures bounded { IfOk result (λ f. f.depth ≤ self.now.room + 1) }
    {
        if self.room > 0 {
            self.set(cursor)
        } else {
            Err(cursor.too_deep())
        }
    }

    pub fn roomy_ghost(&self, cursor: &mut Cursor<'_>) -> Result<Measured<Stmt>, ParseError>
        requires room { self.now.room < 1000 }
        requires side { cursor.old.note ≡ false }
        ensures reads { Reads (measured statement_view) (views.roomy self.now.room (part spec.ghost_ self.now.room) (seen cursor.old)) result (seen cursor.new) }
        ensures kept { IsKept cursor.old cursor.new }
        ensures bounded { IfOk result (λ f. f.depth ≤ self.now.room + 1) }
    {
        if self.room > 0 {
            self.ghost_local(cursor)
        } else {
            Err(cursor.too_deep())
        }
    }
}

impl<S: Fn(Global, &mut Cursor<'_>, usize, Slot) -> Result<Measured<Stmt>, ParseError>> Statements<
    S,
> {
    /// An `if`, where one may stand.
    pub fn branching(
        &self,
        cursor: &mut Cursor<'_>,
        slot: Slot,
    ) -> Result<Measured<Stmt>, ParseError>
        requires nests { NestsStatement self.now.room (S.pre self.now.statement) (S.post self.now.statement) }
        requires room { self.now.room < 1000 }
        requires side { cursor.old.note ≡ false }
        ensures reads { Reads (measured statement_view) (views.branching self.now.room slot (seen cursor.old)) result (seen cursor.new) }
        ensures kept { IsKept cursor.old cursor.new }
        ensures bounded { IfOk result (λ f. f.depth ≤ self.now.room + 1) }
    {
        if !allows_branch(slot) {
            return Err(cursor.refuse());
        }
        if self.room > 0 {
            self.branch(cursor)
        } else {
            Err(cursor.too_deep())
        }
    }

    /// A loop, where one may stand.
    pub fn looping(&self, cursor: &mut Cursor<'_>, slot: Slot) -> Result<Measured<Stmt>, ParseError>
        requires nests { NestsStatement self.now.room (S.pre self.now.statement) (S.post self.now.statement) }
        requires room { self.now.room < 1000 }
        requires side { cursor.old.note ≡ false }
        ensures reads { Reads (measured statement_view) (over spec.looping self.now.room slot (seen cursor.old)) result (seen cursor.new) }
        ensures kept { IsKept cursor.old cursor.new }
        ensures bounded { IfOk result (λ f. f.depth ≤ self.now.room + 1) }
    {
        if !allows_loop(slot) {
            return Err(cursor.refuse());
        }
        if self.room > 0 {
            self.loop_statement(cursor)
        } else {
            Err(cursor.too_deep())
        }
    }
}
