//! What goes on with an expression.

ghost use Rattle.std.specs.Prelude.{◌+◌, ◌<◌, ◌≤◌, IfOk};
ghost use Rattle.jesc_jml_grammar.specs.Reading as spec;
ghost use Rattle.jesc_jml_grammar.specs.Steps.{Reads};
ghost use Rattle.jesc_jml_grammar.specs.Seen.{seen, lexeme, IsKept};
ghost use Rattle.jesc_jml_grammar.specs.Nests.{Nests, parsed, rule};

use crate::binding::{binds, right_of};
use crate::cursor::{Cursor, Lexeme};
use crate::fault::ParseError;
use crate::found::{Found, Start};
use crate::grammar::Grammar;
use crate::make_tree::{
    make_binary, make_choose, make_index, make_instance_of, make_member, make_receiver,
};
use crate::mark::Mark;
use crate::span::span_of;
use crate::step::same_mark;
use std::alloc::Global;

impl<
    F: Fn(Global, &mut Cursor<'_>, usize, usize, usize, Start<'_>) -> Result<Found, ParseError>,
> Grammar<F> {
    /// An operator and its right operand.
    #[tactic(auto, unfolding(crate::specs::Reading::operated))]
    fn operated(
        &self,
        cursor: &mut Cursor<'_>,
        left: Found,
        mark: Mark,
    ) -> Result<Found, ParseError>
        requires nests { Nests self.now.room (F.pre self.now.expr) (F.post self.now.expr) }
        requires room { self.now.room < 1000 }
        requires left { left.depth ≤ self.now.room }
        ensures reads { Reads parsed (rule spec.operated cursor.old.note self.now.room self.now.quantifiers (parsed left) mark (seen cursor.old)) result (seen cursor.new) }
        ensures kept { IsKept cursor.old cursor.new }
        ensures bounded { IfOk result (λ f. f.depth ≤ self.now.room + 1) }
    {
        let op = cursor.take_one()?;
        let right = self.inner(cursor, self.quantifiers, right_of(mark), Start::AtFirst)?;
        Ok(make_binary(self.alloc, left, op, right, binds(mark))?)
    }

    #[tactic(auto, unfolding(crate::specs::Reading::chosen))]
    fn chosen(&self, cursor: &mut Cursor<'_>, test: Found) -> Result<Found, ParseError>
        requires nests { Nests self.now.room (F.pre self.now.expr) (F.post self.now.expr) }
        requires room { self.now.room < 1000 }
        requires test { test.depth ≤ self.now.room }
        ensures reads { Reads parsed (rule spec.chosen cursor.old.note self.now.room self.now.quantifiers (parsed test) (seen cursor.old)) result (seen cursor.new) }
        ensures kept { IsKept cursor.old cursor.new }
        ensures bounded { IfOk result (λ f. f.depth ≤ self.now.room + 1) }
    {
        let question = cursor.expect(Mark::Question)?;
        let yes = self.inner(cursor, self.quantifiers, 1, Start::AtFirst)?;
        cursor.expect(Mark::Colon)?;
        let no = self.inner(cursor, self.quantifiers, 1, Start::AtFirst)?;
        Ok(make_choose(self.alloc, test, question, yes, no)?)
    }

    #[tactic(auto, unfolding(crate::specs::Reading::tested))]
    fn tested(&self, cursor: &mut Cursor<'_>, left: Found) -> Result<Found, ParseError>
        requires room { self.now.room < 1000 }
        requires left { left.depth ≤ self.now.room }
        ensures reads { Reads parsed (rule spec.tested cursor.old.note self.now.room self.now.quantifiers (parsed left) (seen cursor.old)) result (seen cursor.new) }
        ensures kept { IsKept cursor.old cursor.new }
        ensures bounded { IfOk result (λ f. f.depth ≤ self.now.room + 1) }
    {
        cursor.expect(Mark::InstanceOf)?;
        let ty = self.type_(cursor)?;
        Ok(make_instance_of(self.alloc, left, ty)?)
    }

    /// Behind the name of a member: a call of it, or the member alone.
    #[tactic(auto, unfolding(crate::specs::Reading::after_member))]
    fn after_member(
        &self,
        cursor: &mut Cursor<'_>,
        left: Found,
        dot: Lexeme<'_>,
        x: Lexeme<'_>,
    ) -> Result<Found, ParseError>
        requires nests { Nests self.now.room (F.pre self.now.expr) (F.post self.now.expr) }
        requires room { self.now.room < 1000 }
        requires left { left.depth ≤ self.now.room }
        ensures reads { Reads parsed (rule spec.after_member cursor.old.note self.now.room self.now.quantifiers (parsed left) (lexeme dot.entry) (lexeme x.entry) (seen cursor.old)) result (seen cursor.new) }
        ensures kept { IsKept cursor.old cursor.new }
        ensures bounded { IfOk result (λ f. f.depth ≤ self.now.room + 1) }
    {
        if same_mark(cursor.peek(), Mark::LeftParen) {
            let first = span_of(&left.expr);
            let depth = left.depth;
            let receiver = make_receiver(self.alloc, left, dot)?;
            return self.called(cursor, first, receiver, depth, x);
        }
        Ok(make_member(self.alloc, left, dot, x)?)
    }

    #[tactic(auto, unfolding(crate::specs::Reading::dotted))]
    fn dotted(&self, cursor: &mut Cursor<'_>, left: Found) -> Result<Found, ParseError>
        requires nests { Nests self.now.room (F.pre self.now.expr) (F.post self.now.expr) }
        requires room { self.now.room < 1000 }
        requires left { left.depth ≤ self.now.room }
        ensures reads { Reads parsed (rule spec.dotted cursor.old.note self.now.room self.now.quantifiers (parsed left) (seen cursor.old)) result (seen cursor.new) }
        ensures kept { IsKept cursor.old cursor.new }
        ensures bounded { IfOk result (λ f. f.depth ≤ self.now.room + 1) }
    {
        let dot = cursor.expect(Mark::Dot)?;
        let x = cursor.expect(Mark::Name)?;
        self.after_member(cursor, left, dot, x)
    }

    /// An index, behind its bracket.
    #[tactic(auto, unfolding(crate::specs::Reading::indexed_behind))]
    pub fn indexed_behind(
        &self,
        cursor: &mut Cursor<'_>,
        left: Found,
        bracket: Lexeme<'_>,
    ) -> Result<Found, ParseError>
        requires nests { Nests self.now.room (F.pre self.now.expr) (F.post self.now.expr) }
        requires room { self.now.room < 1000 }
        // in no room there is no index
        requires left { 0 < self.now.room → left.depth ≤ self.now.room }
        ensures reads { Reads parsed (rule spec.indexed_behind cursor.old.note self.now.room self.now.quantifiers (parsed left) (lexeme bracket.entry) (seen cursor.old)) result (seen cursor.new) }
        ensures kept { IsKept cursor.old cursor.new }
        ensures bounded { IfOk result (λ f. f.depth ≤ self.now.room + 1) }
    {
        let index = self.inner(cursor, self.quantifiers, 1, Start::AtFirst)?;
        let last = cursor.expect(Mark::RightBracket)?;
        Ok(make_index(self.alloc, left, bracket, index, last)?)
    }

    #[tactic(auto, unfolding(crate::specs::Reading::indexed))]
    fn indexed(&self, cursor: &mut Cursor<'_>, left: Found) -> Result<Found, ParseError>
        requires nests { Nests self.now.room (F.pre self.now.expr) (F.post self.now.expr) }
        requires room { self.now.room < 1000 }
        requires left { left.depth ≤ self.now.room }
        ensures reads { Reads parsed (rule spec.indexed cursor.old.note self.now.room self.now.quantifiers (parsed left) (seen cursor.old)) result (seen cursor.new) }
        ensures kept { IsKept cursor.old cursor.new }
        ensures bounded { IfOk result (λ f. f.depth ≤ self.now.room + 1) }
    {
        let bracket = cursor.expect(Mark::LeftBracket)?;
        self.indexed_behind(cursor, left, bracket)
    }

    /// The expression that goes on from the one before the token.
    pub fn longer_by(
        &self,
        cursor: &mut Cursor<'_>,
        left: Found,
        mark: Mark,
    ) -> Result<Found, ParseError>
        requires nests { Nests self.now.room (F.pre self.now.expr) (F.post self.now.expr) }
        requires room { self.now.room < 1000 }
        requires left { left.depth ≤ self.now.room }
        ensures reads { Reads parsed (rule spec.longer_by cursor.old.note self.now.room self.now.quantifiers (parsed left) mark (seen cursor.old)) result (seen cursor.new) }
        ensures kept { IsKept cursor.old cursor.new }
        ensures bounded { IfOk result (λ f. f.depth ≤ self.now.room + 1) }
    {
        match mark {
            Mark::Question => self.chosen(cursor, left),
            Mark::InstanceOf => self.tested(cursor, left),
            Mark::Dot => self.dotted(cursor, left),
            Mark::LeftBracket => self.indexed(cursor, left),
            _ => self.operated(cursor, left, mark),
        }
    }
}
