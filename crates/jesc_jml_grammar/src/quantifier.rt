//! Quantifiers.

ghost use Rattle.std.specs.Prelude.{◌≡◌, ◌+◌, ◌<◌, ◌≤◌, IfOk};
ghost use Rattle.jesc_jml_grammar.specs.Reading as spec;
ghost use Rattle.jesc_jml_grammar.specs.Tails as tails;
ghost use Rattle.jesc_jml_grammar.specs.Steps.{Reads};
ghost use Rattle.jesc_jml_grammar.specs.Seen.{seen, lexeme, IsKept};
ghost use Rattle.jesc_jml_grammar.specs.Nests.{Nests, parsed, bounds_of, rule};

use crate::cursor::{Cursor, Lexeme};
use crate::fault::ParseError;
use crate::found::{Bounds, Found, Start};
use crate::grammar::Grammar;
use crate::make_tree::make_quantifier;
use crate::mark::Mark;
use crate::span::join;
use crate::step::same_mark;
use std::alloc::Global;

fn is_quantifier_mark(mark: Mark) -> bool
    ensures { result ≡ spec.is_quantifier_mark mark }
{
    match mark {
        Mark::Forall | Mark::Exists => true,
        _ => false,
    }
}

fn is_bound_mark(mark: Mark) -> bool
    ensures { result ≡ spec.is_bound_mark mark }
{
    match mark {
        Mark::Less | Mark::LessEqual => true,
        _ => false,
    }
}

impl<
    F: Fn(Global, &mut Cursor<'_>, usize, usize, usize, Start<'_>) -> Result<Found, ParseError>,
> Grammar<F> {
    /// Whether the quantifier speaks of all.
    #[tactic(auto, unfolding(crate::specs::Reading::quantifier_word))]
    fn quantifier_word(&self, cursor: &mut Cursor<'_>) -> Result<bool, ParseError>
        ensures reads { Reads (λ b. b) (rule spec.quantifier_word cursor.old.note self.now.room self.now.quantifiers (seen cursor.old)) result (seen cursor.new) }
        ensures kept { IsKept cursor.old cursor.new }
        ensures some { IfOk result (λ _. 0 < self.now.quantifiers) }
    {
        let mark = cursor.peek();
        if !is_quantifier_mark(mark) {
            return Err(cursor.refuse());
        }
        if self.quantifiers == 0 {
            return Err(cursor.too_deep());
        }
        cursor.take_one()?;
        Ok(same_mark(mark, Mark::Forall))
    }

    /// Whether the bound is left out.
    #[tactic(auto, unfolding(crate::specs::Reading::bound_sign))]
    fn bound_sign(&self, cursor: &mut Cursor<'_>) -> Result<bool, ParseError>
        ensures reads { Reads (λ b. b) (rule spec.bound_sign cursor.old.note self.now.room self.now.quantifiers (seen cursor.old)) result (seen cursor.new) }
        ensures kept { IsKept cursor.old cursor.new }
    {
        let mark = cursor.peek();
        if !is_bound_mark(mark) {
            return Err(cursor.refuse());
        }
        cursor.take_one()?;
        Ok(same_mark(mark, Mark::Less))
    }

    /// The name again.
    #[tactic(auto, unfolding(crate::specs::Reading::same_name))]
    fn same_name<'a>(
        &self,
        cursor: &mut Cursor<'a>,
        x: Lexeme<'_>,
    ) -> Result<Lexeme<'a>, ParseError>
        ensures reads { Reads lexeme (rule spec.same_name cursor.old.note self.now.room self.now.quantifiers (lexeme x.entry) (seen cursor.old)) result (seen cursor.new) }
        ensures kept { IsKept cursor.old cursor.new }
    {
        if cursor.is_name_again(x.text) {
            cursor.take_one()
        } else {
            Err(cursor.refuse())
        }
    }

    /// The upper bound, behind the lower one.
    fn upper_bound(
        &self,
        cursor: &mut Cursor<'_>,
        x: Lexeme<'_>,
        low: Found,
        low_strict: bool,
    ) -> Result<Bounds, ParseError>
        requires nests { Nests self.now.room (F.pre self.now.expr) (F.post self.now.expr) }
        requires some { 0 < self.now.quantifiers }
        requires fits { low.depth ≤ self.now.room }
        ensures reads { Reads bounds_of (rule tails.upper_bound cursor.old.note self.now.room self.now.quantifiers (lexeme x.entry) (parsed low) low_strict (seen cursor.old)) result (seen cursor.new) }
        ensures kept { IsKept cursor.old cursor.new }
        ensures low { IfOk result (λ b. b.low.depth ≤ self.now.room) }
        ensures high { IfOk result (λ b. b.high.depth ≤ self.now.room) }
    {
        self.same_name(cursor, x)?;
        let high_strict = self.bound_sign(cursor)?;
        let high = self.inner(cursor, self.quantifiers - 1, 8, Start::AtFirst)?;
        Ok(Bounds {
            low,
            low_strict,
            high,
            high_strict,
        })
    }

    /// The bounds of a quantifier's variable.
    #[tactic(auto, unfolding(crate::specs::Reading::bounds))]
    fn bounds(&self, cursor: &mut Cursor<'_>, x: Lexeme<'_>) -> Result<Bounds, ParseError>
        requires nests { Nests self.now.room (F.pre self.now.expr) (F.post self.now.expr) }
        requires some { 0 < self.now.quantifiers }
        ensures reads { Reads bounds_of (rule spec.bounds cursor.old.note self.now.room self.now.quantifiers (lexeme x.entry) (seen cursor.old)) result (seen cursor.new) }
        ensures kept { IsKept cursor.old cursor.new }
        ensures low { IfOk result (λ b. b.low.depth ≤ self.now.room) }
        ensures high { IfOk result (λ b. b.high.depth ≤ self.now.room) }
    {
        let low = self.inner(cursor, self.quantifiers - 1, 8, Start::AtFirst)?;
        let low_strict = self.bound_sign(cursor)?;
        self.same_name(cursor, x)?;
        cursor.expect(Mark::And)?;
        self.upper_bound(cursor, x, low, low_strict)
    }

    /// What a quantifier says, behind its bounds.
    fn quantified_body(
        &self,
        cursor: &mut Cursor<'_>,
        first: Lexeme<'_>,
        universal: bool,
        x: Lexeme<'_>,
        bounds: Bounds,
    ) -> Result<Found, ParseError>
        requires nests { Nests self.now.room (F.pre self.now.expr) (F.post self.now.expr) }
        requires room { self.now.room < 1000 }
        requires some { 0 < self.now.quantifiers }
        requires low { bounds.low.depth ≤ self.now.room }
        requires high { bounds.high.depth ≤ self.now.room }
        ensures reads { Reads parsed (rule tails.quantified_body cursor.old.note self.now.room self.now.quantifiers (lexeme first.entry) universal (lexeme x.entry) (bounds_of bounds) (seen cursor.old)) result (seen cursor.new) }
        ensures kept { IsKept cursor.old cursor.new }
        ensures bounded { IfOk result (λ f. f.depth ≤ self.now.room + 1) }
    {
        cursor.expect(Mark::Semicolon)?;
        let body = self.inner(cursor, self.quantifiers - 1, 1, Start::AtFirst)?;
        let last = cursor.expect(Mark::RightParen)?;
        let span = join(first.span, last.span);
        Ok(make_quantifier(self.alloc, span, universal, x, bounds, body)?)
    }

    /// A quantifier, behind its parenthesis.
    #[tactic(auto, unfolding(crate::specs::Reading::quantified))]
    pub fn quantified(
        &self,
        cursor: &mut Cursor<'_>,
        first: Lexeme<'_>,
    ) -> Result<Found, ParseError>
        requires nests { Nests self.now.room (F.pre self.now.expr) (F.post self.now.expr) }
        requires room { self.now.room < 1000 }
        ensures reads { Reads parsed (rule spec.quantified cursor.old.note self.now.room self.now.quantifiers (lexeme first.entry) (seen cursor.old)) result (seen cursor.new) }
        ensures kept { IsKept cursor.old cursor.new }
        ensures bounded { IfOk result (λ f. f.depth ≤ self.now.room + 1) }
    {
        let universal = self.quantifier_word(cursor)?;
        cursor.expect(Mark::Int)?;
        let x = cursor.expect(Mark::Name)?;
        cursor.expect(Mark::Semicolon)?;
        let bounds = self.bounds(cursor, x)?;
        self.quantified_body(cursor, first, universal, x, bounds)
    }
}
