//! Statements that begin with a word, without another statement inside.

ghost use Rattle.std.specs.Prelude.{◌≡◌, ◌+◌, ◌<◌, ◌≤◌, false, IfOk};
ghost use Rattle.jesc_ast.specs.Trees.{statement_view, optional_view};
ghost use Rattle.jesc_jml_grammar.specs.ClauseSeen.{measured};
ghost use Rattle.jesc_jml_grammar.specs.Nests.{parsed};
ghost use Rattle.jesc_jml_grammar.specs.Seen.{seen, IsKept};
ghost use Rattle.jesc_jml_grammar.specs.Steps.{Reads};
ghost use Rattle.jesc_java_grammar.specs.StatementReading as spec;
ghost use Rattle.jesc_java_grammar.specs.Views.{part};

use crate::lexing::take_word;
use crate::make_statement::{make_break, make_continue, make_empty, make_return, make_throw};
use crate::part::Parts;
use jesc_ast::{Expr, Stmt};
use jesc_jml_grammar::cursor::Cursor;
use jesc_jml_grammar::fault::ParseError;
use jesc_jml_grammar::found::Found;
use jesc_jml_grammar::mark::Mark;
use jesc_jml_grammar::part::Measured;
use jesc_jml_grammar::step::same_mark;

impl Parts {
    /// A value, or nothing before this mark.
    #[tactic(auto, unfolding(crate::specs::StatementReading::optional_value))]
    pub fn optional_value(
        &self,
        cursor: &mut Cursor<'_>,
        end: Mark,
    ) -> Result<Measured<Option<Expr>>, ParseError>
        requires room { self.now.room < 1000 }
        requires side { cursor.old.note ≡ false }
        ensures reads { Reads (measured optional_view) (part spec.optional_value self.now.room end (seen cursor.old)) result (seen cursor.new) }
        ensures kept { IsKept cursor.old cursor.new }
        ensures bounded { IfOk result (λ f. f.depth ≤ self.now.room) }
    {
        if same_mark(cursor.peek(), end) {
            return Ok(Measured {
                tree: None,
                depth: 0,
            });
        }
        let found = self.whole(cursor)?;
        Ok(Measured {
            tree: Some(found.expr),
            depth: found.depth,
        })
    }

    /// An expression in parentheses.
    #[tactic(auto, unfolding(crate::specs::StatementReading::condition))]
    pub fn condition(&self, cursor: &mut Cursor<'_>) -> Result<Found, ParseError>
        requires room { self.now.room < 1000 }
        requires side { cursor.old.note ≡ false }
        ensures reads { Reads parsed (part spec.condition self.now.room (seen cursor.old)) result (seen cursor.new) }
        ensures kept { IsKept cursor.old cursor.new }
        ensures bounded { IfOk result (λ f. f.depth ≤ self.now.room) }
    {
        cursor.expect(Mark::LeftParen)?;
        let found = self.whole(cursor)?;
        cursor.expect(Mark::RightParen)?;
        Ok(found)
    }

    #[tactic(auto, unfolding(crate::specs::StatementReading::returned))]
    pub fn returned(&self, cursor: &mut Cursor<'_>) -> Result<Measured<Stmt>, ParseError>
        requires room { self.now.room < 1000 }
        requires side { cursor.old.note ≡ false }
        ensures reads { Reads (measured statement_view) (part spec.returned self.now.room (seen cursor.old)) result (seen cursor.new) }
        ensures kept { IsKept cursor.old cursor.new }
        ensures bounded { IfOk result (λ f. f.depth ≤ self.now.room + 1) }
    {
        let first = take_word(cursor, b"return")?;
        let value = self.optional_value(cursor, Mark::Semicolon)?;
        let last = cursor.expect(Mark::Semicolon)?;
        Ok(make_return(self.alloc, first, value, last)?)
    }

    #[tactic(auto, unfolding(crate::specs::StatementReading::thrown))]
    pub fn thrown(&self, cursor: &mut Cursor<'_>) -> Result<Measured<Stmt>, ParseError>
        requires room { self.now.room < 1000 }
        requires side { cursor.old.note ≡ false }
        ensures reads { Reads (measured statement_view) (part spec.thrown self.now.room (seen cursor.old)) result (seen cursor.new) }
        ensures kept { IsKept cursor.old cursor.new }
        ensures bounded { IfOk result (λ f. f.depth ≤ self.now.room + 1) }
    {
        let first = take_word(cursor, b"throw")?;
        let value = self.whole(cursor)?;
        let last = cursor.expect(Mark::Semicolon)?;
        Ok(make_throw(self.alloc, first, value, last)?)
    }

    #[tactic(auto, unfolding(crate::specs::StatementReading::broken))]
    pub fn broken(&self, cursor: &mut Cursor<'_>) -> Result<Measured<Stmt>, ParseError>
        requires side { cursor.old.note ≡ false }
        ensures reads { Reads (measured statement_view) (part spec.broken self.now.room (seen cursor.old)) result (seen cursor.new) }
        ensures kept { IsKept cursor.old cursor.new }
        ensures bounded { IfOk result (λ f. f.depth ≤ self.now.room + 1) }
    {
        let first = take_word(cursor, b"break")?;
        let last = cursor.expect(Mark::Semicolon)?;
        Ok(make_break(self.alloc, first, last)?)
    }

    #[tactic(auto, unfolding(crate::specs::StatementReading::continued))]
    pub fn continued(&self, cursor: &mut Cursor<'_>) -> Result<Measured<Stmt>, ParseError>
        requires side { cursor.old.note ≡ false }
        ensures reads { Reads (measured statement_view) (part spec.continued self.now.room (seen cursor.old)) result (seen cursor.new) }
        ensures kept { IsKept cursor.old cursor.new }
        ensures bounded { IfOk result (λ f. f.depth ≤ self.now.room + 1) }
    {
        let first = take_word(cursor, b"continue")?;
        let last = cursor.expect(Mark::Semicolon)?;
        Ok(make_continue(self.alloc, first, last)?)
    }

    /// A lone semicolon.
    #[tactic(auto, unfolding(crate::specs::StatementReading::nothing))]
    pub fn nothing(&self, cursor: &mut Cursor<'_>) -> Result<Measured<Stmt>, ParseError>
        requires side { cursor.old.note ≡ false }
        ensures reads { Reads (measured statement_view) (part spec.nothing self.now.room (seen cursor.old)) result (seen cursor.new) }
        ensures kept { IsKept cursor.old cursor.new }
        ensures bounded { IfOk result (λ f. f.depth ≤ self.now.room + 1) }
    {
        let only = cursor.expect(Mark::Semicolon)?;
        Ok(make_empty(self.alloc, only)?)
    }
}
