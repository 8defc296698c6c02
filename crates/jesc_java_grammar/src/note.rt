//! Statements that stand in annotations.

ghost use Rattle.std.specs.Prelude.{◌≡◌, ◌+◌, ◌<◌, ◌≤◌, false, true, IfOk};
ghost use Rattle.jesc_ast.specs.Trees.{statement_view};
ghost use Rattle.jesc_jml_grammar.specs.ClauseSeen.{measured};
ghost use Rattle.jesc_jml_grammar.specs.Seen.{seen, IsKept};
ghost use Rattle.jesc_jml_grammar.specs.Steps.{Reads};
ghost use Rattle.jesc_java_grammar.specs.StatementReading as spec;
ghost use Rattle.jesc_java_grammar.specs.Views.{part, ghost_head};

use crate::lexing::{take_sign, take_word};
use crate::make_statement::{GhostHead, make_assertion, make_ghost, make_set};
use crate::part::Parts;
use jesc_ast::Stmt;
use jesc_jml_grammar::cursor::Cursor;
use jesc_jml_grammar::fault::ParseError;
use jesc_jml_grammar::mark::Mark;
use jesc_jml_grammar::part::Measured;

impl Parts {
    #[tactic(auto, unfolding(crate::specs::StatementReading::asserted))]
    fn asserted_inside(&self, cursor: &mut Cursor<'_>) -> Result<Measured<Stmt>, ParseError>
        requires room { self.now.room < 1000 }
        requires side { cursor.old.note ≡ true }
        ensures reads { Reads (measured statement_view) (part spec.asserted self.now.room (seen cursor.old)) result (seen cursor.new) }
        ensures kept { IsKept cursor.old cursor.new }
        ensures bounded { IfOk result (λ f. f.depth ≤ self.now.room + 1) }
    {
        let first = take_word(cursor, b"assert")?;
        let e = self.whole(cursor)?;
        let last = cursor.expect(Mark::Semicolon)?;
        Ok(make_assertion(self.alloc, first, e, last)?)
    }

    #[tactic(auto, unfolding(crate::specs::StatementReading::set_))]
    fn set_inside(&self, cursor: &mut Cursor<'_>) -> Result<Measured<Stmt>, ParseError>
        requires room { self.now.room < 1000 }
        requires side { cursor.old.note ≡ true }
        ensures reads { Reads (measured statement_view) (part spec.set_ self.now.room (seen cursor.old)) result (seen cursor.new) }
        ensures kept { IsKept cursor.old cursor.new }
        ensures bounded { IfOk result (λ f. f.depth ≤ self.now.room + 1) }
    {
        let first = take_word(cursor, b"set")?;
        let target = self.target(cursor)?;
        let equals = take_sign(cursor, b"=")?;
        let value = self.whole(cursor)?;
        let last = cursor.expect(Mark::Semicolon)?;
        Ok(make_set(self.alloc, first, target, equals, value, last)?)
    }

    #[tactic(auto, unfolding(crate::specs::StatementReading::ghost_head))]
    fn ghost_head<'a>(&self, cursor: &mut Cursor<'a>) -> Result<GhostHead<'a>, ParseError>
        requires side { cursor.old.note ≡ true }
        ensures reads { Reads ghost_head (part spec.ghost_head self.now.room (seen cursor.old)) result (seen cursor.new) }
        ensures kept { IsKept cursor.old cursor.new }
    {
        let first = take_word(cursor, b"ghost")?;
        let ty = self.type_inside(cursor)?;
        let name = cursor.expect(Mark::Name)?;
        let equals = take_sign(cursor, b"=")?;
        Ok(GhostHead {
            first,
            ty,
            name,
            equals,
        })
    }

    #[tactic(auto, unfolding(crate::specs::StatementReading::ghost_))]
    fn ghost_inside(&self, cursor: &mut Cursor<'_>) -> Result<Measured<Stmt>, ParseError>
        requires room { self.now.room < 1000 }
        requires side { cursor.old.note ≡ true }
        ensures reads { Reads (measured statement_view) (part spec.ghost_ self.now.room (seen cursor.old)) result (seen cursor.new) }
        ensures kept { IsKept cursor.old cursor.new }
        ensures bounded { IfOk result (λ f. f.depth ≤ self.now.room + 1) }
    {
        let head = self.ghost_head(cursor)?;
        let value = self.whole(cursor)?;
        let last = cursor.expect(Mark::Semicolon)?;
        Ok(make_ghost(self.alloc, head, value, last)?)
    }

    // The same, seen from the code around.

    pub fn asserted(&self, cursor: &mut Cursor<'_>) -> Result<Measured<Stmt>, ParseError>
        requires room { self.now.room < 1000 }
        requires side { cursor.old.note ≡ false }
        ensures reads { Reads (measured statement_view) (part spec.asserted self.now.room (seen cursor.old)) result (seen cursor.new) }
        ensures kept { IsKept cursor.old cursor.new }
        ensures bounded { IfOk result (λ f. f.depth ≤ self.now.room + 1) }
    {
        cursor.note = true;
        let found = self.asserted_inside(cursor);
        cursor.note = false;
        found
    }

    pub fn set(&self, cursor: &mut Cursor<'_>) -> Result<Measured<Stmt>, ParseError>
        requires room { self.now.room < 1000 }
        requires side { cursor.old.note ≡ false }
        ensures reads { Reads (measured statement_view) (part spec.set_ self.now.room (seen cursor.old)) result (seen cursor.new) }
        ensures kept { IsKept cursor.old cursor.new }
        ensures bounded { IfOk result (λ f. f.depth ≤ self.now.room + 1) }
    {
        cursor.note = true;
        let found = self.set_inside(cursor);
        cursor.note = false;
        found
    }

    pub fn ghost_local(&self, cursor: &mut Cursor<'_>) -> Result<Measured<Stmt>, ParseError>
        requires room { self.now.room < 1000 }
        requires side { cursor.old.note ≡ false }
        ensures reads { Reads (measured statement_view) (part spec.ghost_ self.now.room (seen cursor.old)) result (seen cursor.new) }
        ensures kept { IsKept cursor.old cursor.new }
        ensures bounded { IfOk result (λ f. f.depth ≤ self.now.room + 1) }
    {
        cursor.note = true;
        let found = self.ghost_inside(cursor);
        cursor.note = false;
        found
    }
}
