//! Calls that begin with `super` at the beginning of a constructor's body.

ghost use Rattle.std.specs.Prelude.{◌≡◌, ◌+◌, ◌<◌, ◌≤◌, false, IfOk};
ghost use Rattle.jesc_ast.specs.Trees.{statement_view};
ghost use Rattle.jesc_jml_grammar.specs.ClauseSeen.{measured};
ghost use Rattle.jesc_jml_grammar.specs.Nests.{parsed};
ghost use Rattle.jesc_jml_grammar.specs.Seen.{seen, lexeme, IsKept};
ghost use Rattle.jesc_jml_grammar.specs.Steps.{Reads};
ghost use Rattle.jesc_java_grammar.specs.StatementReading as spec;
ghost use Rattle.jesc_java_grammar.specs.Views.{part, piece};

use crate::make_piece::finish;
use crate::make_statement::make_super;
use crate::part::{Parts, QUANTIFIERS};
use jesc_ast::{Receiver, Stmt};
use jesc_jml_grammar::cursor::{Cursor, Lexeme};
use jesc_jml_grammar::expr::expr;
use jesc_jml_grammar::fault::ParseError;
use jesc_jml_grammar::found::Found;
use jesc_jml_grammar::grammar::Grammar;
use jesc_jml_grammar::mark::Mark;
use jesc_jml_grammar::part::Measured;

impl Parts {
    /// A call of a constructor, behind `super`.
    #[tactic(auto, unfolding(crate::specs::StatementReading::super_constructed))]
    fn super_constructed(
        &self,
        cursor: &mut Cursor<'_>,
        first: Lexeme<'_>,
    ) -> Result<Measured<Stmt>, ParseError>
        requires room { self.now.room < 1000 }
        requires side { cursor.old.note ≡ false }
        ensures reads { Reads (measured statement_view) (part spec.super_constructed self.now.room (lexeme first.entry) (seen cursor.old)) result (seen cursor.new) }
        ensures kept { IsKept cursor.old cursor.new }
        ensures bounded { IfOk result (λ f. f.depth ≤ self.now.room + 1) }
    {
        cursor.expect(Mark::LeftParen)?;
        let args = Grammar {
            alloc: self.alloc,
            room: self.room,
            quantifiers: QUANTIFIERS,
            expr,
        }
        .arguments(cursor)?;
        cursor.expect(Mark::RightParen)?;
        let last = cursor.expect(Mark::Semicolon)?;
        Ok(make_super(self.alloc, first, args, last)?)
    }

    #[tactic(auto, unfolding(crate::specs::StatementReading::super_method))]
    fn super_method(&self, cursor: &mut Cursor<'_>, first: Lexeme<'_>) -> Result<Found, ParseError>
        requires room { self.now.room < 1000 }
        requires some { 0 < self.now.room }
        requires side { cursor.old.note ≡ false }
        ensures reads { Reads parsed (part spec.super_method self.now.room (lexeme first.entry) (seen cursor.old)) result (seen cursor.new) }
        ensures kept { IsKept cursor.old cursor.new }
        ensures bounded { IfOk result (λ f. f.depth ≤ self.now.room) }
    {
        cursor.expect(Mark::Dot)?;
        let x = cursor.expect(Mark::Name)?;
        Grammar {
            alloc: self.alloc,
            room: self.room - 1,
            quantifiers: QUANTIFIERS,
            expr,
        }
        .called(cursor, first.span, Receiver::Super, 0, x)
    }

    /// A call of a method, behind `super`, and what goes on with it.
    #[tactic(auto, unfolding(crate::specs::StatementReading::super_called_on))]
    fn super_called_on(
        &self,
        cursor: &mut Cursor<'_>,
        first: Lexeme<'_>,
    ) -> Result<Measured<Stmt>, ParseError>
        requires room { self.now.room < 1000 }
        requires some { 0 < self.now.room }
        requires side { cursor.old.note ≡ false }
        ensures reads { Reads piece (part spec.super_called_on self.now.room (lexeme first.entry) (seen cursor.old)) result (seen cursor.new) }
        ensures kept { IsKept cursor.old cursor.new }
        ensures bounded { IfOk result (λ f. f.depth ≤ self.now.room + 1) }
    {
        let a = self.super_method(cursor, first)?;
        let e = self.longer(cursor, a)?;
        self.acted(cursor, true, e)
    }

    #[tactic(auto, unfolding(crate::specs::StatementReading::super_acted))]
    fn super_acted(
        &self,
        cursor: &mut Cursor<'_>,
        first: Lexeme<'_>,
    ) -> Result<Measured<Stmt>, ParseError>
        requires room { self.now.room < 1000 }
        requires some { 0 < self.now.room }
        requires side { cursor.old.note ≡ false }
        ensures reads { Reads (measured statement_view) (part spec.super_acted self.now.room (lexeme first.entry) (seen cursor.old)) result (seen cursor.new) }
        ensures kept { IsKept cursor.old cursor.new }
        ensures bounded { IfOk result (λ f. f.depth ≤ self.now.room + 1) }
    {
        let found = self.super_called_on(cursor, first)?;
        let last = cursor.expect(Mark::Semicolon)?;
        Ok(finish(found, last))
    }

    fn roomy_super(
        &self,
        cursor: &mut Cursor<'_>,
        first: Lexeme<'_>,
    ) -> Result<Measured<Stmt>, ParseError>
        requires room { self.now.room < 1000 }
        requires side { cursor.old.note ≡ false }
        ensures reads { Reads (measured statement_view) (part spec.roomy_super self.now.room (lexeme first.entry) (seen cursor.old)) result (seen cursor.new) }
        ensures kept { IsKept cursor.old cursor.new }
        ensures bounded { IfOk result (λ f. f.depth ≤ self.now.room + 1) }
    {
        if self.room > 0 {
            self.super_acted(cursor, first)
        } else {
            Err(cursor.too_deep())
        }
    }

    /// A statement that begins with `super`, where that may call a constructor.
    #[tactic(auto, unfolding(crate::specs::StatementReading::super_statement))]
    pub fn super_statement(&self, cursor: &mut Cursor<'_>) -> Result<Measured<Stmt>, ParseError>
        requires room { self.now.room < 1000 }
        requires side { cursor.old.note ≡ false }
        ensures reads { Reads (measured statement_view) (part spec.super_statement self.now.room (seen cursor.old)) result (seen cursor.new) }
        ensures kept { IsKept cursor.old cursor.new }
        ensures bounded { IfOk result (λ f. f.depth ≤ self.now.room + 1) }
    {
        let first = cursor.expect(Mark::Super)?;
        match cursor.peek() {
            Mark::LeftParen => self.super_constructed(cursor, first),
            Mark::Dot => self.roomy_super(cursor, first),
            _ => Err(cursor.refuse()),
        }
    }
}
