//! How expressions begin.

ghost use Rattle.std.specs.Prelude.{◌+◌, ◌<◌, ◌≤◌, IfOk};
ghost use Rattle.jesc_jml_grammar.specs.Reading as spec;
ghost use Rattle.jesc_jml_grammar.specs.Steps.{Reads};
ghost use Rattle.jesc_jml_grammar.specs.Seen.{seen, lexeme, IsKept};
ghost use Rattle.jesc_jml_grammar.specs.Nests.{Nests, parsed, rule};

use crate::cursor::{Cursor, Lexeme};
use crate::fault::ParseError;
use crate::found::{Found, Start};
use crate::grammar::Grammar;
use crate::make::{leaf, make_name, text_of};
use crate::make_tree::{make_fresh, make_old, make_unary};
use crate::mark::Mark;
use crate::opening::allows_prefix;
use crate::step::same_mark;
use jesc_ast::{ExprNode, Receiver};
use std::alloc::Global;

impl<
    F: Fn(Global, &mut Cursor<'_>, usize, usize, usize, Start<'_>) -> Result<Found, ParseError>,
> Grammar<F> {
    /// Behind a name: a call of it, or the name alone.
    #[tactic(auto, unfolding(crate::specs::Reading::after_name))]
    pub fn after_name(&self, cursor: &mut Cursor<'_>, x: Lexeme<'_>) -> Result<Found, ParseError>
        requires nests { Nests self.now.room (F.pre self.now.expr) (F.post self.now.expr) }
        requires room { self.now.room < 1000 }
        ensures reads { Reads parsed (rule spec.after_name cursor.old.note self.now.room self.now.quantifiers (lexeme x.entry) (seen cursor.old)) result (seen cursor.new) }
        ensures kept { IsKept cursor.old cursor.new }
        ensures bounded { IfOk result (λ f. f.depth ≤ self.now.room + 1) }
    {
        if same_mark(cursor.peek(), Mark::LeftParen) {
            return self.called(cursor, x.span, Receiver::Implied, 0, x);
        }
        Ok(make_name(self.alloc, x)?)
    }

    #[tactic(auto, unfolding(crate::specs::Reading::named))]
    fn named(&self, cursor: &mut Cursor<'_>) -> Result<Found, ParseError>
        requires nests { Nests self.now.room (F.pre self.now.expr) (F.post self.now.expr) }
        requires room { self.now.room < 1000 }
        ensures reads { Reads parsed (rule spec.named cursor.old.note self.now.room self.now.quantifiers (seen cursor.old)) result (seen cursor.new) }
        ensures kept { IsKept cursor.old cursor.new }
        ensures bounded { IfOk result (λ f. f.depth ≤ self.now.room + 1) }
    {
        let x = cursor.expect(Mark::Name)?;
        self.after_name(cursor, x)
    }

    #[tactic(auto, unfolding(crate::specs::Reading::super_called))]
    fn super_called(&self, cursor: &mut Cursor<'_>) -> Result<Found, ParseError>
        requires nests { Nests self.now.room (F.pre self.now.expr) (F.post self.now.expr) }
        requires room { self.now.room < 1000 }
        ensures reads { Reads parsed (rule spec.super_called cursor.old.note self.now.room self.now.quantifiers (seen cursor.old)) result (seen cursor.new) }
        ensures kept { IsKept cursor.old cursor.new }
        ensures bounded { IfOk result (λ f. f.depth ≤ self.now.room + 1) }
    {
        let word = cursor.expect(Mark::Super)?;
        cursor.expect(Mark::Dot)?;
        let x = cursor.expect(Mark::Name)?;
        self.called(cursor, word.span, Receiver::Super, 0, x)
    }

    #[tactic(auto, unfolding(crate::specs::Reading::prefixed))]
    fn prefixed(&self, cursor: &mut Cursor<'_>) -> Result<Found, ParseError>
        requires nests { Nests self.now.room (F.pre self.now.expr) (F.post self.now.expr) }
        requires room { self.now.room < 1000 }
        ensures reads { Reads parsed (rule spec.prefixed cursor.old.note self.now.room self.now.quantifiers (seen cursor.old)) result (seen cursor.new) }
        ensures kept { IsKept cursor.old cursor.new }
        ensures bounded { IfOk result (λ f. f.depth ≤ self.now.room + 1) }
    {
        let op = cursor.take_one()?;
        let operand = self.inner(cursor, self.quantifiers, 10, Start::AtFirst)?;
        Ok(make_unary(self.alloc, op, operand)?)
    }

    #[tactic(auto, unfolding(crate::specs::Reading::old_value))]
    fn old_value(&self, cursor: &mut Cursor<'_>) -> Result<Found, ParseError>
        requires nests { Nests self.now.room (F.pre self.now.expr) (F.post self.now.expr) }
        requires room { self.now.room < 1000 }
        ensures reads { Reads parsed (rule spec.old_value cursor.old.note self.now.room self.now.quantifiers (seen cursor.old)) result (seen cursor.new) }
        ensures kept { IsKept cursor.old cursor.new }
        ensures bounded { IfOk result (λ f. f.depth ≤ self.now.room + 1) }
    {
        let first = cursor.expect(Mark::Old)?;
        cursor.expect(Mark::LeftParen)?;
        let inside = self.inner(cursor, self.quantifiers, 1, Start::AtFirst)?;
        let last = cursor.expect(Mark::RightParen)?;
        Ok(make_old(self.alloc, first, inside, last)?)
    }

    #[tactic(auto, unfolding(crate::specs::Reading::fresh_value))]
    fn fresh_value(&self, cursor: &mut Cursor<'_>) -> Result<Found, ParseError>
        requires nests { Nests self.now.room (F.pre self.now.expr) (F.post self.now.expr) }
        requires room { self.now.room < 1000 }
        ensures reads { Reads parsed (rule spec.fresh_value cursor.old.note self.now.room self.now.quantifiers (seen cursor.old)) result (seen cursor.new) }
        ensures kept { IsKept cursor.old cursor.new }
        ensures bounded { IfOk result (λ f. f.depth ≤ self.now.room + 1) }
    {
        let first = cursor.expect(Mark::Fresh)?;
        cursor.expect(Mark::LeftParen)?;
        let inside = self.inner(cursor, self.quantifiers, 1, Start::AtFirst)?;
        let last = cursor.expect(Mark::RightParen)?;
        Ok(make_fresh(self.alloc, first, inside, last)?)
    }

    #[tactic(auto, unfolding(crate::specs::Reading::literal))]
    fn literal(&self, cursor: &mut Cursor<'_>, mark: Mark) -> Result<Found, ParseError>
        ensures reads { Reads parsed (rule spec.literal cursor.old.note self.now.room self.now.quantifiers mark (seen cursor.old)) result (seen cursor.new) }
        ensures kept { IsKept cursor.old cursor.new }
        ensures bounded { IfOk result (λ f. f.depth ≤ self.now.room + 1) }
    {
        let x = cursor.take_one()?;
        let node = match mark {
            Mark::Number => ExprNode::Number(text_of(self.alloc, x.text)?),
            Mark::True => ExprNode::Truth(true),
            Mark::False => ExprNode::Truth(false),
            Mark::Null => ExprNode::Null,
            Mark::This => ExprNode::This,
            _ => ExprNode::Result,
        };
        Ok(leaf(self.alloc, x.span, node)?)
    }

    /// What an expression follows, where there is room for it.
    fn nested(&self, cursor: &mut Cursor<'_>, least: usize, mark: Mark) -> Result<Found, ParseError>
        requires nests { Nests self.now.room (F.pre self.now.expr) (F.post self.now.expr) }
        requires room { self.now.room < 1000 }
        ensures reads { Reads parsed (rule spec.nested cursor.old.note self.now.room self.now.quantifiers least mark (seen cursor.old)) result (seen cursor.new) }
        ensures kept { IsKept cursor.old cursor.new }
        ensures bounded { IfOk result (λ f. f.depth ≤ self.now.room + 1) }
    {
        match mark {
            _ if self.room == 0 => Err(cursor.too_deep()),
            Mark::LeftParen => self.group(cursor, least),
            Mark::Plus | Mark::Minus | Mark::Not => self.prefixed(cursor),
            Mark::Old => self.old_value(cursor),
            Mark::Fresh => self.fresh_value(cursor),
            _ => Err(cursor.refuse()),
        }
    }

    /// The beginning of an expression, up to what goes on with it.
    #[tactic(auto, unfolding(crate::specs::Reading::first))]
    pub fn first(&self, cursor: &mut Cursor<'_>, least: usize) -> Result<Found, ParseError>
        requires nests { Nests self.now.room (F.pre self.now.expr) (F.post self.now.expr) }
        requires room { self.now.room < 1000 }
        ensures reads { Reads parsed (rule spec.first cursor.old.note self.now.room self.now.quantifiers least (seen cursor.old)) result (seen cursor.new) }
        ensures kept { IsKept cursor.old cursor.new }
        ensures bounded { IfOk result (λ f. f.depth ≤ self.now.room + 1) }
    {
        let mark = cursor.peek();
        match mark {
            Mark::Number | Mark::True | Mark::False => self.literal(cursor, mark),
            Mark::Null | Mark::This | Mark::Result => self.literal(cursor, mark),
            Mark::Name => self.named(cursor),
            Mark::New => self.created(cursor),
            Mark::Super => self.super_called(cursor),
            Mark::LeftParen | Mark::Old | Mark::Fresh => self.nested(cursor, least, mark),
            Mark::Plus | Mark::Minus | Mark::Not if allows_prefix(least) => {
                self.nested(cursor, least, mark)
            }
            _ => Err(cursor.refuse()),
        }
    }
}
