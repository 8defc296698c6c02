//! What begins with a parenthesis.

ghost use Rattle.std.specs.Prelude.{◌+◌, ◌<◌, ◌≤◌, IfOk};
ghost use Rattle.jesc_jml_grammar.specs.Reading as spec;
ghost use Rattle.jesc_jml_grammar.specs.Steps.{Reads};
ghost use Rattle.jesc_jml_grammar.specs.Seen.{seen, lexeme, IsKept};
ghost use Rattle.jesc_jml_grammar.specs.Nests.{Nests, parsed, rule};

use crate::cursor::{Cursor, Lexeme};
use crate::fault::ParseError;
use crate::found::{Found, Start};
use crate::grammar::Grammar;
use crate::mark::Mark;
use crate::opening::allows_prefix;
use std::alloc::Global;

impl<
    F: Fn(Global, &mut Cursor<'_>, usize, usize, usize, Start<'_>) -> Result<Found, ParseError>,
> Grammar<F> {
    /// What begins with a parenthesis and a name.
    #[tactic(auto, unfolding(crate::specs::Reading::named_group))]
    fn named_group(
        &self,
        cursor: &mut Cursor<'_>,
        least: usize,
        first: Lexeme<'_>,
    ) -> Result<Found, ParseError>
        requires nests { Nests self.now.room (F.pre self.now.expr) (F.post self.now.expr) }
        requires room { self.now.room < 1000 }
        requires some { 0 < self.now.room }
        ensures reads { Reads parsed (rule spec.named_group cursor.old.note self.now.room self.now.quantifiers least (lexeme first.entry) (seen cursor.old)) result (seen cursor.new) }
        ensures kept { IsKept cursor.old cursor.new }
        ensures bounded { IfOk result (λ f. f.depth ≤ self.now.room + 1) }
    {
        let x = cursor.expect(Mark::Name)?;
        match cursor.peek() {
            Mark::RightParen => self.closed_name(cursor, least, first, x),
            Mark::LeftBracket => self.bracketed_name(cursor, least, first, x),
            _ => self.grouped(cursor, first, Start::BehindName(x)),
        }
    }

    /// What begins with a parenthesis: a quantifier, a cast or an expression in parentheses.
    #[tactic(auto, unfolding(crate::specs::Reading::group))]
    pub fn group(&self, cursor: &mut Cursor<'_>, least: usize) -> Result<Found, ParseError>
        requires nests { Nests self.now.room (F.pre self.now.expr) (F.post self.now.expr) }
        requires room { self.now.room < 1000 }
        requires some { 0 < self.now.room }
        ensures reads { Reads parsed (rule spec.group cursor.old.note self.now.room self.now.quantifiers least (seen cursor.old)) result (seen cursor.new) }
        ensures kept { IsKept cursor.old cursor.new }
        ensures bounded { IfOk result (λ f. f.depth ≤ self.now.room + 1) }
    {
        let first = cursor.expect(Mark::LeftParen)?;
        match cursor.peek() {
            Mark::Forall | Mark::Exists => self.quantified(cursor, first),
            Mark::Int | Mark::Long | Mark::Boolean if allows_prefix(least) => {
                self.typed_cast(cursor, first)
            }
            Mark::Name => self.named_group(cursor, least, first),
            _ => self.grouped(cursor, first, Start::AtFirst),
        }
    }
}
