//! Targets: what an assignment changes. A call inside one has a node above it.

ghost use Rattle.std.specs.Prelude.{◌≡◌, ◌+◌, ◌<◌, ◌≤◌, IfOk};
ghost use Rattle.jesc_jml_grammar.specs.Nests.{parsed, receiver_of, start_of};
ghost use Rattle.jesc_jml_grammar.specs.Seen.{seen, lexeme, IsKept};
ghost use Rattle.jesc_jml_grammar.specs.Steps.{Reads};
ghost use Rattle.jesc_java_grammar.specs.StatementReading as spec;
ghost use Rattle.jesc_java_grammar.specs.Views.{part};

use crate::form::is_target;
use crate::part::{Parts, QUANTIFIERS};
use jesc_ast::Receiver;
use jesc_jml_grammar::binding::grows;
use jesc_jml_grammar::cursor::{Cursor, Lexeme};
use jesc_jml_grammar::expr::expr;
use jesc_jml_grammar::fault::ParseError;
use jesc_jml_grammar::found::{Found, Start};
use jesc_jml_grammar::grammar::Grammar;
use jesc_jml_grammar::make::make_name;
use jesc_jml_grammar::make_tree::{make_member, make_receiver};
use jesc_jml_grammar::mark::Mark;
use jesc_jml_grammar::span::span_of;
use jesc_jml_grammar::step::same_mark;
use jesc_text::Span;

impl Parts {
    /// A call with a node above it, behind the name of the method.
    #[tactic(auto, unfolding(crate::specs::StatementReading::called_under))]
    fn called_under(
        &self,
        cursor: &mut Cursor<'_>,
        first: Span,
        receiver: Receiver,
        depth: usize,
        x: Lexeme<'_>,
    ) -> Result<Found, ParseError>
        requires room { self.now.room < 1000 }
        requires left { depth < self.now.room }
        ensures reads { Reads parsed (part spec.called_under self.now.room cursor.old.note first (receiver_of receiver) depth (lexeme x.entry) (seen cursor.old)) result (seen cursor.new) }
        ensures kept { IsKept cursor.old cursor.new }
        ensures bounded { IfOk result (λ f. f.depth ≤ self.now.room) }
    {
        if depth + 1 < self.room {
            Grammar {
                alloc: self.alloc,
                room: self.room - 2,
                quantifiers: QUANTIFIERS,
                expr,
            }
            .called(cursor, first, receiver, depth, x)
        } else {
            Err(cursor.too_deep())
        }
    }

    fn member_called_under(
        &self,
        cursor: &mut Cursor<'_>,
        left: Found,
        dot: Lexeme<'_>,
        x: Lexeme<'_>,
    ) -> Result<Found, ParseError>
        requires room { self.now.room < 1000 }
        requires left { left.depth < self.now.room }
        ensures reads { Reads parsed (part spec.member_called_under self.now.room cursor.old.note (parsed left) (lexeme dot.entry) (lexeme x.entry) (seen cursor.old)) result (seen cursor.new) }
        ensures kept { IsKept cursor.old cursor.new }
        ensures bounded { IfOk result (λ f. f.depth ≤ self.now.room) }
    {
        let first = span_of(&left.expr);
        let depth = left.depth;
        let receiver = make_receiver(self.alloc, left, dot)?;
        self.called_under(cursor, first, receiver, depth, x)
    }

    /// Behind the name of a member: a call of it, or the member alone.
    #[tactic(auto, unfolding(crate::specs::StatementReading::target_member))]
    fn target_member(
        &self,
        cursor: &mut Cursor<'_>,
        left: Found,
        dot: Lexeme<'_>,
        x: Lexeme<'_>,
    ) -> Result<Found, ParseError>
        requires room { self.now.room < 1000 }
        requires left { left.depth < self.now.room }
        ensures reads { Reads parsed (part spec.target_member self.now.room cursor.old.note (parsed left) (lexeme dot.entry) (lexeme x.entry) (seen cursor.old)) result (seen cursor.new) }
        ensures kept { IsKept cursor.old cursor.new }
        ensures bounded { IfOk result (λ f. f.depth ≤ self.now.room) }
    {
        if same_mark(cursor.peek(), Mark::LeftParen) {
            return self.member_called_under(cursor, left, dot, x);
        }
        Ok(make_member(self.alloc, left, dot, x)?)
    }

    #[tactic(auto, unfolding(crate::specs::StatementReading::target_dotted))]
    fn target_dotted(&self, cursor: &mut Cursor<'_>, left: Found) -> Result<Found, ParseError>
        requires room { self.now.room < 1000 }
        requires left { left.depth < self.now.room }
        ensures reads { Reads parsed (part spec.target_dotted self.now.room cursor.old.note (parsed left) (seen cursor.old)) result (seen cursor.new) }
        ensures kept { IsKept cursor.old cursor.new }
        ensures bounded { IfOk result (λ f. f.depth ≤ self.now.room) }
    {
        let dot = cursor.expect(Mark::Dot)?;
        let x = cursor.expect(Mark::Name)?;
        self.target_member(cursor, left, dot, x)
    }

    fn target_longer_by(
        &self,
        cursor: &mut Cursor<'_>,
        left: Found,
        mark: Mark,
    ) -> Result<Found, ParseError>
        requires room { self.now.room < 1000 }
        requires left { left.depth < self.now.room }
        ensures reads { Reads parsed (part spec.target_longer_by self.now.room cursor.old.note (parsed left) mark (seen cursor.old)) result (seen cursor.new) }
        ensures kept { IsKept cursor.old cursor.new }
        ensures bounded { IfOk result (λ f. f.depth ≤ self.now.room) }
    {
        match mark {
            Mark::Dot => self.target_dotted(cursor, left),
            _ => Grammar {
                alloc: self.alloc,
                room: self.room - 1,
                quantifiers: QUANTIFIERS,
                expr,
            }
            .longer_by(cursor, left, mark),
        }
    }

    /// What goes on with the beginning of a target: names, brackets and calls.
    fn target_longer(&self, cursor: &mut Cursor<'_>, first: Found) -> Result<Found, ParseError>
        requires room { self.now.room < 1000 }
        requires first { first.depth ≤ self.now.room }
        ensures reads { Reads parsed (part spec.target_longer self.now.room cursor.old.note self.now.room (parsed first) (seen cursor.old)) result (seen cursor.new) }
        ensures kept { IsKept cursor.old cursor.new }
        ensures bounded { IfOk result (λ f. f.depth ≤ self.now.room) }
    {
        let mut left = first;
        for _turn in 0..self.room {
            let mark = cursor.peek();
            if !grows(left.strength, mark, 11) {
                return Ok(left);
            }
            if left.depth >= self.room {
                return Err(cursor.too_deep());
            }
            left = self.target_longer_by(cursor, left, mark)?;
        }
        Err(cursor.too_deep())
    }

    /// Behind the name that a target begins with: a call, or the name alone.
    #[tactic(auto, unfolding(crate::specs::StatementReading::target_name))]
    fn target_name(&self, cursor: &mut Cursor<'_>, x: Lexeme<'_>) -> Result<Found, ParseError>
        requires room { self.now.room < 1000 }
        requires some { 0 < self.now.room }
        ensures reads { Reads parsed (part spec.target_name self.now.room cursor.old.note (lexeme x.entry) (seen cursor.old)) result (seen cursor.new) }
        ensures kept { IsKept cursor.old cursor.new }
        ensures bounded { IfOk result (λ f. f.depth ≤ self.now.room) }
    {
        if same_mark(cursor.peek(), Mark::LeftParen) {
            return self.called_under(cursor, x.span, Receiver::Implied, 0, x);
        }
        Ok(make_name(self.alloc, x)?)
    }

    fn target_index(
        &self,
        cursor: &mut Cursor<'_>,
        x: Lexeme<'_>,
        bracket: Lexeme<'_>,
    ) -> Result<Found, ParseError>
        requires room { self.now.room < 1000 }
        requires some { 0 < self.now.room }
        ensures reads { Reads parsed (part spec.target_index self.now.room cursor.old.note (lexeme x.entry) (lexeme bracket.entry) (seen cursor.old)) result (seen cursor.new) }
        ensures kept { IsKept cursor.old cursor.new }
        ensures bounded { IfOk result (λ f. f.depth ≤ self.now.room) }
    {
        let name = make_name(self.alloc, x)?;
        Grammar {
            alloc: self.alloc,
            room: self.room - 1,
            quantifiers: QUANTIFIERS,
            expr,
        }
        .indexed_behind(cursor, name, bracket)
    }

    /// The beginning of a target, behind its first name or a bracket behind that.
    fn target_begun(&self, cursor: &mut Cursor<'_>, start: Start<'_>) -> Result<Found, ParseError>
        requires room { self.now.room < 1000 }
        requires some { 0 < self.now.room }
        ensures reads { Reads parsed (part spec.target_begun self.now.room cursor.old.note (start_of start.entry) (seen cursor.old)) result (seen cursor.new) }
        ensures kept { IsKept cursor.old cursor.new }
        ensures bounded { IfOk result (λ f. f.depth ≤ self.now.room) }
    {
        match start {
            Start::AtFirst => Err(cursor.refuse()),
            Start::BehindName(x) => self.target_name(cursor, x),
            Start::BehindBracket(x, bracket) => self.target_index(cursor, x, bracket),
        }
    }

    #[tactic(auto, unfolding(crate::specs::StatementReading::target_behind))]
    fn target_behind(&self, cursor: &mut Cursor<'_>, start: Start<'_>) -> Result<Found, ParseError>
        requires room { self.now.room < 1000 }
        requires some { 0 < self.now.room }
        ensures reads { Reads parsed (part spec.target_behind self.now.room cursor.old.note (start_of start.entry) (seen cursor.old)) result (seen cursor.new) }
        ensures kept { IsKept cursor.old cursor.new }
        ensures bounded { IfOk result (λ f. f.depth ≤ self.now.room) }
    {
        let first = self.target_begun(cursor, start)?;
        self.target_longer(cursor, first)
    }

    /// What may be a target, behind its first name or a bracket behind that.
    pub fn target_from(
        &self,
        cursor: &mut Cursor<'_>,
        start: Start<'_>,
    ) -> Result<Found, ParseError>
        requires room { self.now.room < 1000 }
        ensures reads { Reads parsed (part spec.target_from self.now.room cursor.old.note (start_of start.entry) (seen cursor.old)) result (seen cursor.new) }
        ensures kept { IsKept cursor.old cursor.new }
        ensures bounded { IfOk result (λ f. f.depth ≤ self.now.room) }
    {
        if self.room > 0 {
            self.target_behind(cursor, start)
        } else {
            Err(cursor.too_deep())
        }
    }

    /// What may be a target and begins otherwise than with a name.
    #[tactic(auto, unfolding(crate::specs::StatementReading::headed_target))]
    pub fn headed_target(&self, cursor: &mut Cursor<'_>) -> Result<Found, ParseError>
        requires room { self.now.room < 1000 }
        ensures reads { Reads parsed (part spec.headed_target self.now.room cursor.old.note (seen cursor.old)) result (seen cursor.new) }
        ensures kept { IsKept cursor.old cursor.new }
        ensures bounded { IfOk result (λ f. f.depth ≤ self.now.room) }
    {
        let first = self.headed_first(cursor)?;
        self.target_longer(cursor, first)
    }

    #[tactic(auto, unfolding(crate::specs::StatementReading::named_target))]
    fn named_target(&self, cursor: &mut Cursor<'_>) -> Result<Found, ParseError>
        requires room { self.now.room < 1000 }
        ensures reads { Reads parsed (part spec.named_target self.now.room cursor.old.note (seen cursor.old)) result (seen cursor.new) }
        ensures kept { IsKept cursor.old cursor.new }
        ensures bounded { IfOk result (λ f. f.depth ≤ self.now.room) }
    {
        let x = cursor.expect(Mark::Name)?;
        self.target_from(cursor, Start::BehindName(x))
    }

    fn roomy_target(&self, cursor: &mut Cursor<'_>) -> Result<Found, ParseError>
        requires room { self.now.room < 1000 }
        ensures reads { Reads parsed (part spec.roomy_target self.now.room cursor.old.note (seen cursor.old)) result (seen cursor.new) }
        ensures kept { IsKept cursor.old cursor.new }
        ensures bounded { IfOk result (λ f. f.depth ≤ self.now.room) }
    {
        if self.room > 0 {
            self.named_target(cursor)
        } else {
            Err(cursor.too_deep())
        }
    }

    /// What may be a target.
    #[tactic(auto, unfolding(crate::specs::StatementReading::postfix))]
    fn postfix(&self, cursor: &mut Cursor<'_>) -> Result<Found, ParseError>
        requires room { self.now.room < 1000 }
        ensures reads { Reads parsed (part spec.postfix self.now.room cursor.old.note (seen cursor.old)) result (seen cursor.new) }
        ensures kept { IsKept cursor.old cursor.new }
        ensures bounded { IfOk result (λ f. f.depth ≤ self.now.room) }
    {
        match cursor.peek() {
            Mark::Name => self.roomy_target(cursor),
            _ => self.headed_target(cursor),
        }
    }

    /// What an assignment may change.
    #[tactic(auto, unfolding(crate::specs::StatementReading::target))]
    pub fn target(&self, cursor: &mut Cursor<'_>) -> Result<Found, ParseError>
        requires room { self.now.room < 1000 }
        ensures reads { Reads parsed (part spec.target self.now.room cursor.old.note (seen cursor.old)) result (seen cursor.new) }
        ensures kept { IsKept cursor.old cursor.new }
        ensures bounded { IfOk result (λ f. f.depth ≤ self.now.room) }
    {
        let found = self.postfix(cursor)?;
        if is_target(&found.expr) {
            Ok(found)
        } else {
            Err(cursor.refuse())
        }
    }
}
