//! Calls and types.

ghost use Rattle.std.specs.Prelude.{◌≡◌, ◌+◌, ◌<◌, ◌≤◌, IfOk};
ghost use Rattle.jesc_jml_grammar.specs.Reading as spec;
ghost use Rattle.jesc_jml_grammar.specs.Steps.{Reads};
ghost use Rattle.jesc_jml_grammar.specs.Seen.{seen, lexeme, IsKept};
ghost use Rattle.jesc_jml_grammar.specs.Nests.{Nests, parsed, receiver_of, rule};

use crate::cursor::{Cursor, Lexeme};
use crate::fault::ParseError;
use crate::found::{Found, Start};
use crate::grammar::Grammar;
use crate::make::type_of;
use crate::make_tree::make_call;
use crate::mark::Mark;
use crate::span::join;
use crate::step::same_mark;
use jesc_ast::{Receiver, TypeTree};
use jesc_text::Span;
use std::alloc::Global;

fn is_type_mark(mark: Mark) -> bool
    ensures { result ≡ spec.is_type_mark mark }
{
    match mark {
        Mark::Int | Mark::Long | Mark::Boolean | Mark::Name => true,
        _ => false,
    }
}

impl<
    F: Fn(Global, &mut Cursor<'_>, usize, usize, usize, Start<'_>) -> Result<Found, ParseError>,
> Grammar<F> {
    /// A call, behind the name of the method.
    #[tactic(auto, unfolding(crate::specs::Reading::called))]
    pub fn called(
        &self,
        cursor: &mut Cursor<'_>,
        first: Span,
        receiver: Receiver,
        depth: usize,
        x: Lexeme<'_>,
    ) -> Result<Found, ParseError>
        requires nests { Nests self.now.room (F.pre self.now.expr) (F.post self.now.expr) }
        requires room { self.now.room < 1000 }
        requires left { depth ≤ self.now.room }
        ensures reads { Reads parsed (rule spec.called cursor.old.note self.now.room self.now.quantifiers first (receiver_of receiver) depth (lexeme x.entry) (seen cursor.old)) result (seen cursor.new) }
        ensures kept { IsKept cursor.old cursor.new }
        ensures bounded { IfOk result (λ f. f.depth ≤ self.now.room + 1) }
    {
        cursor.expect(Mark::LeftParen)?;
        let args = self.arguments(cursor)?;
        let close = cursor.expect(Mark::RightParen)?;
        Ok(make_call(self.alloc, first, receiver, depth, x, args, close)?)
    }

    /// A type, behind its first word.
    #[tactic(auto, unfolding(crate::specs::Reading::type_behind))]
    pub fn type_behind(
        &self,
        cursor: &mut Cursor<'_>,
        x: Lexeme<'_>,
    ) -> Result<TypeTree, ParseError>
        ensures reads { Reads (λ t. t) (rule spec.type_behind cursor.old.note self.now.room self.now.quantifiers (lexeme x.entry) (seen cursor.old)) result (seen cursor.new) }
        ensures kept { IsKept cursor.old cursor.new }
    {
        if same_mark(cursor.peek(), Mark::LeftBracket) {
            cursor.expect(Mark::LeftBracket)?;
            let close = cursor.expect(Mark::RightBracket)?;
            return Ok(type_of(self.alloc, join(x.span, close.span), x.text, true)?);
        }
        Ok(type_of(self.alloc, x.span, x.text, false)?)
    }

    #[tactic(auto, unfolding(crate::specs::Reading::type_word))]
    pub fn type_word<'a>(&self, cursor: &mut Cursor<'a>) -> Result<Lexeme<'a>, ParseError>
        ensures reads { Reads lexeme (rule spec.type_word cursor.old.note self.now.room self.now.quantifiers (seen cursor.old)) result (seen cursor.new) }
        ensures kept { IsKept cursor.old cursor.new }
    {
        if is_type_mark(cursor.peek()) {
            cursor.take_one()
        } else {
            Err(cursor.refuse())
        }
    }

    /// A type.
    #[tactic(auto, unfolding(crate::specs::Reading::type_))]
    pub fn type_(&self, cursor: &mut Cursor<'_>) -> Result<TypeTree, ParseError>
        ensures reads { Reads (λ t. t) (rule spec.type_ cursor.old.note self.now.room self.now.quantifiers (seen cursor.old)) result (seen cursor.new) }
        ensures kept { IsKept cursor.old cursor.new }
    {
        let x = self.type_word(cursor)?;
        self.type_behind(cursor, x)
    }
}
