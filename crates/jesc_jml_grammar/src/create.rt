//! New objects and arrays.

ghost use Rattle.std.specs.Prelude.{◌+◌, ◌<◌, ◌≤◌, IfOk};
ghost use Rattle.jesc_jml_grammar.specs.Reading as spec;
ghost use Rattle.jesc_jml_grammar.specs.Steps.{Reads};
ghost use Rattle.jesc_jml_grammar.specs.Seen.{seen, lexeme, IsKept};
ghost use Rattle.jesc_jml_grammar.specs.Nests.{Nests, parsed, rule};

use crate::cursor::{Cursor, Lexeme};
use crate::fault::ParseError;
use crate::found::{Found, Start};
use crate::grammar::Grammar;
use crate::make_tree::{make_array, make_object};
use crate::mark::Mark;
use std::alloc::Global;

impl<
    F: Fn(Global, &mut Cursor<'_>, usize, usize, usize, Start<'_>) -> Result<Found, ParseError>,
> Grammar<F> {
    /// A new array, behind the type of its elements.
    #[tactic(auto, unfolding(crate::specs::Reading::sized))]
    fn sized(
        &self,
        cursor: &mut Cursor<'_>,
        first: Lexeme<'_>,
        x: Lexeme<'_>,
    ) -> Result<Found, ParseError>
        requires nests { Nests self.now.room (F.pre self.now.expr) (F.post self.now.expr) }
        requires room { self.now.room < 1000 }
        ensures reads { Reads parsed (rule spec.sized cursor.old.note self.now.room self.now.quantifiers (lexeme first.entry) (lexeme x.entry) (seen cursor.old)) result (seen cursor.new) }
        ensures kept { IsKept cursor.old cursor.new }
        ensures bounded { IfOk result (λ f. f.depth ≤ self.now.room + 1) }
    {
        cursor.expect(Mark::LeftBracket)?;
        let size = self.inner(cursor, self.quantifiers, 1, Start::AtFirst)?;
        let last = cursor.expect(Mark::RightBracket)?;
        Ok(make_array(self.alloc, first, x, size, last)?)
    }

    /// A new object, behind the name of its class.
    #[tactic(auto, unfolding(crate::specs::Reading::constructed))]
    fn constructed(
        &self,
        cursor: &mut Cursor<'_>,
        first: Lexeme<'_>,
        x: Lexeme<'_>,
    ) -> Result<Found, ParseError>
        requires nests { Nests self.now.room (F.pre self.now.expr) (F.post self.now.expr) }
        requires room { self.now.room < 1000 }
        ensures reads { Reads parsed (rule spec.constructed cursor.old.note self.now.room self.now.quantifiers (lexeme first.entry) (lexeme x.entry) (seen cursor.old)) result (seen cursor.new) }
        ensures kept { IsKept cursor.old cursor.new }
        ensures bounded { IfOk result (λ f. f.depth ≤ self.now.room + 1) }
    {
        cursor.expect(Mark::LeftParen)?;
        let args = self.arguments(cursor)?;
        let last = cursor.expect(Mark::RightParen)?;
        Ok(make_object(self.alloc, first, x, args, last)?)
    }

    #[tactic(auto, unfolding(crate::specs::Reading::new_of_name))]
    fn new_of_name(&self, cursor: &mut Cursor<'_>, first: Lexeme<'_>) -> Result<Found, ParseError>
        requires nests { Nests self.now.room (F.pre self.now.expr) (F.post self.now.expr) }
        requires room { self.now.room < 1000 }
        ensures reads { Reads parsed (rule spec.new_of_name cursor.old.note self.now.room self.now.quantifiers (lexeme first.entry) (seen cursor.old)) result (seen cursor.new) }
        ensures kept { IsKept cursor.old cursor.new }
        ensures bounded { IfOk result (λ f. f.depth ≤ self.now.room + 1) }
    {
        let x = cursor.expect(Mark::Name)?;
        match cursor.peek() {
            Mark::LeftParen => self.constructed(cursor, first, x),
            Mark::LeftBracket if self.room > 0 => self.sized(cursor, first, x),
            Mark::LeftBracket => Err(cursor.too_deep()),
            _ => Err(cursor.refuse()),
        }
    }

    #[tactic(auto, unfolding(crate::specs::Reading::new_of_word))]
    fn new_of_word(&self, cursor: &mut Cursor<'_>, first: Lexeme<'_>) -> Result<Found, ParseError>
        requires nests { Nests self.now.room (F.pre self.now.expr) (F.post self.now.expr) }
        requires room { self.now.room < 1000 }
        ensures reads { Reads parsed (rule spec.new_of_word cursor.old.note self.now.room self.now.quantifiers (lexeme first.entry) (seen cursor.old)) result (seen cursor.new) }
        ensures kept { IsKept cursor.old cursor.new }
        ensures bounded { IfOk result (λ f. f.depth ≤ self.now.room + 1) }
    {
        let x = cursor.take_one()?;
        self.sized(cursor, first, x)
    }

    /// A new object or array.
    #[tactic(auto, unfolding(crate::specs::Reading::created))]
    pub fn created(&self, cursor: &mut Cursor<'_>) -> Result<Found, ParseError>
        requires nests { Nests self.now.room (F.pre self.now.expr) (F.post self.now.expr) }
        requires room { self.now.room < 1000 }
        ensures reads { Reads parsed (rule spec.created cursor.old.note self.now.room self.now.quantifiers (seen cursor.old)) result (seen cursor.new) }
        ensures kept { IsKept cursor.old cursor.new }
        ensures bounded { IfOk result (λ f. f.depth ≤ self.now.room + 1) }
    {
        let first = cursor.expect(Mark::New)?;
        match cursor.peek() {
            Mark::Name => self.new_of_name(cursor, first),
            Mark::Int | Mark::Long | Mark::Boolean if self.room > 0 => {
                self.new_of_word(cursor, first)
            }
            Mark::Int | Mark::Long | Mark::Boolean => Err(cursor.too_deep()),
            _ => Err(cursor.refuse()),
        }
    }
}
