//! Simple statements: locals, assignments and calls.

ghost use Rattle.std.specs.Prelude.{◌≡◌, ◌+◌, ◌<◌, ◌≤◌, false, IfOk};
ghost use Rattle.jesc_ast.specs.Trees.{statement_view};
ghost use Rattle.jesc_jml_grammar.specs.ClauseSeen.{measured};
ghost use Rattle.jesc_jml_grammar.specs.Nests.{parsed, start_of};
ghost use Rattle.jesc_jml_grammar.specs.Seen.{seen, lexeme, IsKept};
ghost use Rattle.jesc_jml_grammar.specs.Steps.{Reads};
ghost use Rattle.jesc_java_grammar.specs.StatementReading as spec;
ghost use Rattle.jesc_java_grammar.specs.Views.{part, piece};

use crate::form::{is_call, is_target};
use crate::lexing::{peek_statement, take_assign, take_sign, take_step, take_word};
use crate::make_piece::{
    finish, make_assign, make_call, make_local, make_step_after, make_step_before,
};
use crate::part::Parts;
use crate::statement_mark::StatementMark;
use jesc_ast::{Stmt, TypeTree};
use jesc_jml_grammar::cursor::{Cursor, Lexeme};
use jesc_jml_grammar::fault::ParseError;
use jesc_jml_grammar::found::{Found, Start};
use jesc_jml_grammar::make::type_of;
use jesc_jml_grammar::mark::Mark;
use jesc_jml_grammar::part::Measured;
use jesc_jml_grammar::span::join;
use jesc_jml_grammar::step::same_mark;
use jesc_text::Span;

impl Parts {
    #[tactic(auto, unfolding(crate::specs::StatementReading::assigned))]
    fn assigned(&self, cursor: &mut Cursor<'_>, a: Found) -> Result<Measured<Stmt>, ParseError>
        requires room { self.now.room < 1000 }
        requires side { cursor.old.note ≡ false }
        requires first { a.depth ≤ self.now.room }
        ensures reads { Reads piece (part spec.assigned self.now.room (parsed a) (seen cursor.old)) result (seen cursor.new) }
        ensures kept { IsKept cursor.old cursor.new }
        ensures bounded { IfOk result (λ f. f.depth ≤ self.now.room + 1) }
    {
        let op = take_assign(cursor)?;
        let value = self.whole(cursor)?;
        Ok(make_assign(self.alloc, a, op, value)?)
    }

    #[tactic(auto, unfolding(crate::specs::StatementReading::stepped))]
    fn stepped(&self, cursor: &mut Cursor<'_>, a: Found) -> Result<Measured<Stmt>, ParseError>
        requires room { self.now.room < 1000 }
        requires first { a.depth ≤ self.now.room }
        ensures reads { Reads piece (part spec.stepped self.now.room (parsed a) (seen cursor.old)) result (seen cursor.new) }
        ensures kept { IsKept cursor.old cursor.new }
        ensures bounded { IfOk result (λ f. f.depth ≤ self.now.room + 1) }
    {
        let op = take_step(cursor)?;
        Ok(make_step_after(self.alloc, a, op)?)
    }

    #[tactic(auto, unfolding(crate::specs::StatementReading::changed))]
    fn changed(&self, cursor: &mut Cursor<'_>, a: Found) -> Result<Measured<Stmt>, ParseError>
        requires room { self.now.room < 1000 }
        requires side { cursor.old.note ≡ false }
        requires first { a.depth ≤ self.now.room }
        ensures reads { Reads piece (part spec.changed self.now.room (parsed a) (seen cursor.old)) result (seen cursor.new) }
        ensures kept { IsKept cursor.old cursor.new }
        ensures bounded { IfOk result (λ f. f.depth ≤ self.now.room + 1) }
    {
        match peek_statement(cursor) {
            StatementMark::Assign => self.assigned(cursor, a),
            StatementMark::Step => self.stepped(cursor, a),
            _ => Err(cursor.refuse()),
        }
    }

    /// Behind an expression: an assignment, or with `calls` the call that it is.
    #[tactic(auto, unfolding(crate::specs::StatementReading::acted))]
    pub fn acted(
        &self,
        cursor: &mut Cursor<'_>,
        calls: bool,
        a: Found,
    ) -> Result<Measured<Stmt>, ParseError>
        requires room { self.now.room < 1000 }
        requires side { cursor.old.note ≡ false }
        requires first { a.depth ≤ self.now.room }
        ensures reads { Reads piece (part spec.acted self.now.room calls (parsed a) (seen cursor.old)) result (seen cursor.new) }
        ensures kept { IsKept cursor.old cursor.new }
        ensures bounded { IfOk result (λ f. f.depth ≤ self.now.room + 1) }
    {
        if is_target(&a.expr) {
            return self.changed(cursor, a);
        }
        if calls && is_call(&a.expr) {
            return Ok(make_call(self.alloc, a)?);
        }
        Err(cursor.refuse())
    }

    #[tactic(auto, unfolding(crate::specs::StatementReading::stepped_first))]
    fn stepped_first(&self, cursor: &mut Cursor<'_>) -> Result<Measured<Stmt>, ParseError>
        requires room { self.now.room < 1000 }
        requires side { cursor.old.note ≡ false }
        ensures reads { Reads piece (part spec.stepped_first self.now.room (seen cursor.old)) result (seen cursor.new) }
        ensures kept { IsKept cursor.old cursor.new }
        ensures bounded { IfOk result (λ f. f.depth ≤ self.now.room + 1) }
    {
        let op = take_step(cursor)?;
        let target = self.target(cursor)?;
        Ok(make_step_before(self.alloc, op, target)?)
    }

    /// A local, behind its type.
    #[tactic(auto, unfolding(crate::specs::StatementReading::named_local))]
    fn named_local(
        &self,
        cursor: &mut Cursor<'_>,
        first: Span,
        is_final: bool,
        ty: TypeTree,
    ) -> Result<Measured<Stmt>, ParseError>
        requires room { self.now.room < 1000 }
        requires side { cursor.old.note ≡ false }
        ensures reads { Reads piece (part spec.named_local self.now.room first is_final ty (seen cursor.old)) result (seen cursor.new) }
        ensures kept { IsKept cursor.old cursor.new }
        ensures bounded { IfOk result (λ f. f.depth ≤ self.now.room + 1) }
    {
        let x = cursor.expect(Mark::Name)?;
        let equals = take_sign(cursor, b"=")?;
        let value = self.whole(cursor)?;
        Ok(make_local(self.alloc, first, is_final, ty, x, equals, value)?)
    }

    #[tactic(auto, unfolding(crate::specs::StatementReading::typed_local))]
    fn typed_local(&self, cursor: &mut Cursor<'_>) -> Result<Measured<Stmt>, ParseError>
        requires room { self.now.room < 1000 }
        requires side { cursor.old.note ≡ false }
        ensures reads { Reads piece (part spec.typed_local self.now.room (seen cursor.old)) result (seen cursor.new) }
        ensures kept { IsKept cursor.old cursor.new }
        ensures bounded { IfOk result (λ f. f.depth ≤ self.now.room + 1) }
    {
        let ty = self.type_inside(cursor)?;
        let span = ty.span;
        self.named_local(cursor, span, false, ty)
    }

    #[tactic(auto, unfolding(crate::specs::StatementReading::final_local))]
    fn final_local(&self, cursor: &mut Cursor<'_>) -> Result<Measured<Stmt>, ParseError>
        requires room { self.now.room < 1000 }
        requires side { cursor.old.note ≡ false }
        ensures reads { Reads piece (part spec.final_local self.now.room (seen cursor.old)) result (seen cursor.new) }
        ensures kept { IsKept cursor.old cursor.new }
        ensures bounded { IfOk result (λ f. f.depth ≤ self.now.room + 1) }
    {
        let word = take_word(cursor, b"final")?;
        let ty = self.type_inside(cursor)?;
        self.named_local(cursor, word.span, true, ty)
    }

    #[tactic(auto, unfolding(crate::specs::StatementReading::array_local))]
    fn array_local(
        &self,
        cursor: &mut Cursor<'_>,
        x: Lexeme<'_>,
    ) -> Result<Measured<Stmt>, ParseError>
        requires room { self.now.room < 1000 }
        requires side { cursor.old.note ≡ false }
        ensures reads { Reads piece (part spec.array_local self.now.room (lexeme x.entry) (seen cursor.old)) result (seen cursor.new) }
        ensures kept { IsKept cursor.old cursor.new }
        ensures bounded { IfOk result (λ f. f.depth ≤ self.now.room + 1) }
    {
        let close = cursor.expect(Mark::RightBracket)?;
        let ty = type_of(self.alloc, join(x.span, close.span), x.text, true)?;
        self.named_local(cursor, x.span, false, ty)
    }

    /// What may be a target, or with `calls` a call.
    fn act_from(
        &self,
        cursor: &mut Cursor<'_>,
        calls: bool,
        start: Start<'_>,
    ) -> Result<Found, ParseError>
        requires room { self.now.room < 1000 }
        requires side { cursor.old.note ≡ false }
        ensures reads { Reads parsed (part spec.act_from self.now.room calls (start_of start.entry) (seen cursor.old)) result (seen cursor.new) }
        ensures kept { IsKept cursor.old cursor.new }
        ensures bounded { IfOk result (λ f. f.depth ≤ self.now.room) }
    {
        if calls {
            self.inside(cursor, 11, start)
        } else {
            self.target_from(cursor, start)
        }
    }

    #[tactic(auto, unfolding(crate::specs::StatementReading::acted_from))]
    fn acted_from(
        &self,
        cursor: &mut Cursor<'_>,
        calls: bool,
        start: Start<'_>,
    ) -> Result<Measured<Stmt>, ParseError>
        requires room { self.now.room < 1000 }
        requires side { cursor.old.note ≡ false }
        ensures reads { Reads piece (part spec.acted_from self.now.room calls (start_of start.entry) (seen cursor.old)) result (seen cursor.new) }
        ensures kept { IsKept cursor.old cursor.new }
        ensures bounded { IfOk result (λ f. f.depth ≤ self.now.room + 1) }
    {
        let a = self.act_from(cursor, calls, start)?;
        self.acted(cursor, calls, a)
    }

    /// Behind a name a bracket, which the type of a local or an expression goes on with.
    #[tactic(auto, unfolding(crate::specs::StatementReading::bracketed))]
    fn bracketed(
        &self,
        cursor: &mut Cursor<'_>,
        calls: bool,
        x: Lexeme<'_>,
    ) -> Result<Measured<Stmt>, ParseError>
        requires room { self.now.room < 1000 }
        requires side { cursor.old.note ≡ false }
        ensures reads { Reads piece (part spec.bracketed self.now.room calls (lexeme x.entry) (seen cursor.old)) result (seen cursor.new) }
        ensures kept { IsKept cursor.old cursor.new }
        ensures bounded { IfOk result (λ f. f.depth ≤ self.now.room + 1) }
    {
        let open = cursor.expect(Mark::LeftBracket)?;
        if same_mark(cursor.peek(), Mark::RightBracket) {
            return self.array_local(cursor, x);
        }
        self.acted_from(cursor, calls, Start::BehindBracket(x, open))
    }

    fn plain_local(
        &self,
        cursor: &mut Cursor<'_>,
        x: Lexeme<'_>,
    ) -> Result<Measured<Stmt>, ParseError>
        requires room { self.now.room < 1000 }
        requires side { cursor.old.note ≡ false }
        ensures reads { Reads piece (part spec.plain_local self.now.room (lexeme x.entry) (seen cursor.old)) result (seen cursor.new) }
        ensures kept { IsKept cursor.old cursor.new }
        ensures bounded { IfOk result (λ f. f.depth ≤ self.now.room + 1) }
    {
        let ty = type_of(self.alloc, x.span, x.text, false)?;
        self.named_local(cursor, x.span, false, ty)
    }

    #[tactic(auto, unfolding(crate::specs::StatementReading::named))]
    fn named(
        &self,
        cursor: &mut Cursor<'_>,
        locals: bool,
        calls: bool,
    ) -> Result<Measured<Stmt>, ParseError>
        requires room { self.now.room < 1000 }
        requires side { cursor.old.note ≡ false }
        ensures reads { Reads piece (part spec.named self.now.room locals calls (seen cursor.old)) result (seen cursor.new) }
        ensures kept { IsKept cursor.old cursor.new }
        ensures bounded { IfOk result (λ f. f.depth ≤ self.now.room + 1) }
    {
        let x = cursor.expect(Mark::Name)?;
        match (locals, cursor.peek()) {
            (true, Mark::Name) => self.plain_local(cursor, x),
            (true, Mark::LeftBracket) => self.bracketed(cursor, calls, x),
            _ => self.acted_from(cursor, calls, Start::BehindName(x)),
        }
    }

    /// The same, where it begins otherwise than with a name.
    fn act_at_head(&self, cursor: &mut Cursor<'_>, calls: bool) -> Result<Found, ParseError>
        requires room { self.now.room < 1000 }
        requires side { cursor.old.note ≡ false }
        ensures reads { Reads parsed (part spec.act_at_head self.now.room calls (seen cursor.old)) result (seen cursor.new) }
        ensures kept { IsKept cursor.old cursor.new }
        ensures bounded { IfOk result (λ f. f.depth ≤ self.now.room) }
    {
        if calls {
            self.headed(cursor)
        } else {
            self.headed_target(cursor)
        }
    }

    #[tactic(auto, unfolding(crate::specs::StatementReading::headed_act))]
    fn headed_act(&self, cursor: &mut Cursor<'_>, calls: bool) -> Result<Measured<Stmt>, ParseError>
        requires room { self.now.room < 1000 }
        requires side { cursor.old.note ≡ false }
        ensures reads { Reads piece (part spec.headed_act self.now.room calls (seen cursor.old)) result (seen cursor.new) }
        ensures kept { IsKept cursor.old cursor.new }
        ensures bounded { IfOk result (λ f. f.depth ≤ self.now.room + 1) }
    {
        let a = self.act_at_head(cursor, calls)?;
        self.acted(cursor, calls, a)
    }

    fn roomy_named(
        &self,
        cursor: &mut Cursor<'_>,
        locals: bool,
        calls: bool,
    ) -> Result<Measured<Stmt>, ParseError>
        requires room { self.now.room < 1000 }
        requires side { cursor.old.note ≡ false }
        ensures reads { Reads piece (part spec.roomy_named self.now.room locals calls (seen cursor.old)) result (seen cursor.new) }
        ensures kept { IsKept cursor.old cursor.new }
        ensures bounded { IfOk result (λ f. f.depth ≤ self.now.room + 1) }
    {
        if self.room > 0 {
            self.named(cursor, locals, calls)
        } else {
            Err(cursor.too_deep())
        }
    }

    fn roomy_local(&self, cursor: &mut Cursor<'_>) -> Result<Measured<Stmt>, ParseError>
        requires room { self.now.room < 1000 }
        requires side { cursor.old.note ≡ false }
        ensures reads { Reads piece (part spec.roomy_local self.now.room (seen cursor.old)) result (seen cursor.new) }
        ensures kept { IsKept cursor.old cursor.new }
        ensures bounded { IfOk result (λ f. f.depth ≤ self.now.room + 1) }
    {
        if self.room > 0 {
            self.typed_local(cursor)
        } else {
            Err(cursor.too_deep())
        }
    }

    fn roomy_final(&self, cursor: &mut Cursor<'_>) -> Result<Measured<Stmt>, ParseError>
        requires room { self.now.room < 1000 }
        requires side { cursor.old.note ≡ false }
        ensures reads { Reads piece (part spec.roomy_final self.now.room (seen cursor.old)) result (seen cursor.new) }
        ensures kept { IsKept cursor.old cursor.new }
        ensures bounded { IfOk result (λ f. f.depth ≤ self.now.room + 1) }
    {
        if self.room > 0 {
            self.final_local(cursor)
        } else {
            Err(cursor.too_deep())
        }
    }

    fn roomy_step(&self, cursor: &mut Cursor<'_>) -> Result<Measured<Stmt>, ParseError>
        requires room { self.now.room < 1000 }
        requires side { cursor.old.note ≡ false }
        ensures reads { Reads piece (part spec.roomy_step self.now.room (seen cursor.old)) result (seen cursor.new) }
        ensures kept { IsKept cursor.old cursor.new }
        ensures bounded { IfOk result (λ f. f.depth ≤ self.now.room + 1) }
    {
        if self.room > 0 {
            self.stepped_first(cursor)
        } else {
            Err(cursor.too_deep())
        }
    }

    #[tactic(auto, unfolding(crate::specs::StatementReading::plain))]
    fn plain(
        &self,
        cursor: &mut Cursor<'_>,
        locals: bool,
        calls: bool,
    ) -> Result<Measured<Stmt>, ParseError>
        requires room { self.now.room < 1000 }
        requires side { cursor.old.note ≡ false }
        ensures reads { Reads piece (part spec.plain self.now.room locals calls (seen cursor.old)) result (seen cursor.new) }
        ensures kept { IsKept cursor.old cursor.new }
        ensures bounded { IfOk result (λ f. f.depth ≤ self.now.room + 1) }
    {
        let mark = cursor.peek();
        match (locals, calls, mark) {
            (_, _, Mark::Name) => self.roomy_named(cursor, locals, calls),
            (true, _, Mark::Int | Mark::Long | Mark::Boolean) => self.roomy_local(cursor),
            (_, true, Mark::Super) => self.acted_from(cursor, true, Start::AtFirst),
            _ => self.headed_act(cursor, calls),
        }
    }

    /// A simple statement without its semicolon; it may be a local with `locals`, and a call with `calls`.
    #[tactic(auto, unfolding(crate::specs::StatementReading::simple))]
    pub fn simple(
        &self,
        cursor: &mut Cursor<'_>,
        locals: bool,
        calls: bool,
    ) -> Result<Measured<Stmt>, ParseError>
        requires room { self.now.room < 1000 }
        requires side { cursor.old.note ≡ false }
        ensures reads { Reads piece (part spec.simple self.now.room locals calls (seen cursor.old)) result (seen cursor.new) }
        ensures kept { IsKept cursor.old cursor.new }
        ensures bounded { IfOk result (λ f. f.depth ≤ self.now.room + 1) }
    {
        match (locals, peek_statement(cursor)) {
            (true, StatementMark::Final) => self.roomy_final(cursor),
            (_, StatementMark::Step) => self.roomy_step(cursor),
            (_, StatementMark::Other) => self.plain(cursor, locals, calls),
            _ => Err(cursor.refuse()),
        }
    }

    /// A simple statement.
    #[tactic(auto, unfolding(crate::specs::StatementReading::simple_statement))]
    pub fn simple_statement(&self, cursor: &mut Cursor<'_>) -> Result<Measured<Stmt>, ParseError>
        requires room { self.now.room < 1000 }
        requires side { cursor.old.note ≡ false }
        ensures reads { Reads (measured statement_view) (part spec.simple_statement self.now.room (seen cursor.old)) result (seen cursor.new) }
        ensures kept { IsKept cursor.old cursor.new }
        ensures bounded { IfOk result (λ f. f.depth ≤ self.now.room + 1) }
    {
        let found = self.simple(cursor, true, true)?;
        let last = cursor.expect(Mark::Semicolon)?;
        Ok(finish(found, last))
    }
}
