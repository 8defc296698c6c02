//! What may be a cast: a type or a name in parentheses.

ghost use Rattle.std.specs.Prelude.{◌+◌, ◌<◌, ◌≤◌, IfOk};
ghost use Rattle.jesc_jml_grammar.specs.Reading as spec;
ghost use Rattle.jesc_jml_grammar.specs.Steps.{Reads};
ghost use Rattle.jesc_jml_grammar.specs.Seen.{seen, lexeme, IsKept};
ghost use Rattle.jesc_jml_grammar.specs.Nests.{Nests, parsed, start_of, rule};

use crate::cursor::{Cursor, Lexeme};
use crate::fault::ParseError;
use crate::found::{Found, Start};
use crate::grammar::Grammar;
use crate::make::type_of;
use crate::make_tree::{make_cast, make_lone_name, make_paren};
use crate::mark::Mark;
use crate::opening::{allows_prefix, casts};
use crate::span::join;
use crate::step::same_mark;
use jesc_ast::TypeTree;
use std::alloc::Global;

impl<
    F: Fn(Global, &mut Cursor<'_>, usize, usize, usize, Start<'_>) -> Result<Found, ParseError>,
> Grammar<F> {
    /// What a cast stands before.
    #[tactic(auto, unfolding(crate::specs::Reading::cast_operand))]
    pub fn cast_operand(
        &self,
        cursor: &mut Cursor<'_>,
        first: Lexeme<'_>,
        ty: TypeTree,
    ) -> Result<Found, ParseError>
        requires nests { Nests self.now.room (F.pre self.now.expr) (F.post self.now.expr) }
        requires room { self.now.room < 1000 }
        ensures reads { Reads parsed (rule spec.cast_operand cursor.old.note self.now.room self.now.quantifiers (lexeme first.entry) ty (seen cursor.old)) result (seen cursor.new) }
        ensures kept { IsKept cursor.old cursor.new }
        ensures bounded { IfOk result (λ f. f.depth ≤ self.now.room + 1) }
    {
        let operand = self.inner(cursor, self.quantifiers, 10, Start::AtFirst)?;
        Ok(make_cast(self.alloc, first, ty, operand)?)
    }

    /// A cast, behind the first word of its type.
    #[tactic(auto, unfolding(crate::specs::Reading::cast_behind))]
    pub fn cast_behind(
        &self,
        cursor: &mut Cursor<'_>,
        first: Lexeme<'_>,
        x: Lexeme<'_>,
    ) -> Result<Found, ParseError>
        requires nests { Nests self.now.room (F.pre self.now.expr) (F.post self.now.expr) }
        requires room { self.now.room < 1000 }
        ensures reads { Reads parsed (rule spec.cast_behind cursor.old.note self.now.room self.now.quantifiers (lexeme first.entry) (lexeme x.entry) (seen cursor.old)) result (seen cursor.new) }
        ensures kept { IsKept cursor.old cursor.new }
        ensures bounded { IfOk result (λ f. f.depth ≤ self.now.room + 1) }
    {
        let ty = self.type_behind(cursor, x)?;
        cursor.expect(Mark::RightParen)?;
        self.cast_operand(cursor, first, ty)
    }

    /// A cast, behind its parenthesis.
    #[tactic(auto, unfolding(crate::specs::Reading::typed_cast))]
    pub fn typed_cast(
        &self,
        cursor: &mut Cursor<'_>,
        first: Lexeme<'_>,
    ) -> Result<Found, ParseError>
        requires nests { Nests self.now.room (F.pre self.now.expr) (F.post self.now.expr) }
        requires room { self.now.room < 1000 }
        ensures reads { Reads parsed (rule spec.typed_cast cursor.old.note self.now.room self.now.quantifiers (lexeme first.entry) (seen cursor.old)) result (seen cursor.new) }
        ensures kept { IsKept cursor.old cursor.new }
        ensures bounded { IfOk result (λ f. f.depth ≤ self.now.room + 1) }
    {
        let x = self.type_word(cursor)?;
        self.cast_behind(cursor, first, x)
    }

    /// The rest of an expression in parentheses.
    #[tactic(auto, unfolding(crate::specs::Reading::grouped))]
    pub fn grouped(
        &self,
        cursor: &mut Cursor<'_>,
        first: Lexeme<'_>,
        start: Start<'_>,
    ) -> Result<Found, ParseError>
        requires nests { Nests self.now.room (F.pre self.now.expr) (F.post self.now.expr) }
        requires room { self.now.room < 1000 }
        ensures reads { Reads parsed (rule spec.grouped cursor.old.note self.now.room self.now.quantifiers (lexeme first.entry) (start_of start.entry) (seen cursor.old)) result (seen cursor.new) }
        ensures kept { IsKept cursor.old cursor.new }
        ensures bounded { IfOk result (λ f. f.depth ≤ self.now.room + 1) }
    {
        let inside = self.inner(cursor, self.quantifiers, 1, start)?;
        let last = cursor.expect(Mark::RightParen)?;
        Ok(make_paren(self.alloc, first, inside, last)?)
    }

    /// Behind a name in parentheses: a cast, or the name alone.
    #[tactic(auto, unfolding(crate::specs::Reading::closed_name))]
    pub fn closed_name(
        &self,
        cursor: &mut Cursor<'_>,
        least: usize,
        first: Lexeme<'_>,
        x: Lexeme<'_>,
    ) -> Result<Found, ParseError>
        requires nests { Nests self.now.room (F.pre self.now.expr) (F.post self.now.expr) }
        requires room { self.now.room < 1000 }
        requires some { 0 < self.now.room }
        ensures reads { Reads parsed (rule spec.closed_name cursor.old.note self.now.room self.now.quantifiers least (lexeme first.entry) (lexeme x.entry) (seen cursor.old)) result (seen cursor.new) }
        ensures kept { IsKept cursor.old cursor.new }
        ensures bounded { IfOk result (λ f. f.depth ≤ self.now.room + 1) }
    {
        let last = cursor.expect(Mark::RightParen)?;
        if casts(cursor.peek()) && allows_prefix(least) {
            let ty = type_of(self.alloc, x.span, x.text, false)?;
            return self.cast_operand(cursor, first, ty);
        }
        Ok(make_lone_name(self.alloc, first, x, last)?)
    }

    /// A cast to an array, behind a name and a bracket.
    #[tactic(auto, unfolding(crate::specs::Reading::array_cast))]
    pub fn array_cast(
        &self,
        cursor: &mut Cursor<'_>,
        first: Lexeme<'_>,
        x: Lexeme<'_>,
    ) -> Result<Found, ParseError>
        requires nests { Nests self.now.room (F.pre self.now.expr) (F.post self.now.expr) }
        requires room { self.now.room < 1000 }
        ensures reads { Reads parsed (rule spec.array_cast cursor.old.note self.now.room self.now.quantifiers (lexeme first.entry) (lexeme x.entry) (seen cursor.old)) result (seen cursor.new) }
        ensures kept { IsKept cursor.old cursor.new }
        ensures bounded { IfOk result (λ f. f.depth ≤ self.now.room + 1) }
    {
        let close = cursor.expect(Mark::RightBracket)?;
        cursor.expect(Mark::RightParen)?;
        let ty = type_of(self.alloc, join(x.span, close.span), x.text, true)?;
        self.cast_operand(cursor, first, ty)
    }

    /// Behind a name in parentheses and a bracket: a cast to an array, or an index.
    #[tactic(auto, unfolding(crate::specs::Reading::bracketed_name))]
    pub fn bracketed_name(
        &self,
        cursor: &mut Cursor<'_>,
        least: usize,
        first: Lexeme<'_>,
        x: Lexeme<'_>,
    ) -> Result<Found, ParseError>
        requires nests { Nests self.now.room (F.pre self.now.expr) (F.post self.now.expr) }
        requires room { self.now.room < 1000 }
        ensures reads { Reads parsed (rule spec.bracketed_name cursor.old.note self.now.room self.now.quantifiers least (lexeme first.entry) (lexeme x.entry) (seen cursor.old)) result (seen cursor.new) }
        ensures kept { IsKept cursor.old cursor.new }
        ensures bounded { IfOk result (λ f. f.depth ≤ self.now.room + 1) }
    {
        let bracket = cursor.expect(Mark::LeftBracket)?;
        if same_mark(cursor.peek(), Mark::RightBracket) && allows_prefix(least) {
            return self.array_cast(cursor, first, x);
        }
        self.grouped(cursor, first, Start::BehindBracket(x, bracket))
    }
}
