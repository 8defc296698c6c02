//! Store references.

ghost use Rattle.std.specs.Prelude.{◌≡◌, ◌<◌, ◌≤◌, true, IfOk};
ghost use Rattle.jesc_ast.specs.SpecTrees.{store_view};
ghost use Rattle.jesc_jml_grammar.specs.Reading as spec;
ghost use Rattle.jesc_jml_grammar.specs.Steps.{Reads};
ghost use Rattle.jesc_jml_grammar.specs.Seen.{seen, lexeme, IsKept};
ghost use Rattle.jesc_jml_grammar.specs.Nests.{Nests, parsed};
ghost use Rattle.jesc_jml_grammar.specs.ClauseReading as rules;
ghost use Rattle.jesc_jml_grammar.specs.ClauseSeen as views;
ghost use Rattle.jesc_jml_grammar.specs.ClauseSeen.{note_rule, measured, path_of, step_of, IsWithin, IsStepWithin};

use crate::cursor::{Cursor, Lexeme};
use crate::fault::{Fault, ParseError};
use crate::found::{Found, Start};
use crate::grammar::{Grammar, turns};
use crate::make::{leaf, make_name};
use crate::make_store::{close_path, make_all, make_member_path, make_range, make_star, store_of};
use crate::mark::Mark;
use crate::note_word::{NoteWord, same_word};
use crate::part::{Measured, Path, StoreStep};
use crate::step::same_mark;
use jesc_ast::{ExprNode, StoreTree};
use std::alloc::Global;

impl<
    F: Fn(Global, &mut Cursor<'_>, usize, usize, usize, Start<'_>) -> Result<Found, ParseError>,
> Grammar<F> {
    /// An expression of an annotation.
    pub fn expression(&self, cursor: &mut Cursor<'_>) -> Result<Found, ParseError>
        requires nests { Nests self.now.room (F.pre self.now.expr) (F.post self.now.expr) }
        requires side { cursor.old.note ≡ true }
        ensures reads { Reads parsed (note_rule rules.expression self.now.room self.now.quantifiers (seen cursor.old)) result (seen cursor.new) }
        ensures kept { IsKept cursor.old cursor.new }
        ensures bounded { IfOk result (λ f. f.depth ≤ self.now.room) }
    {
        self.inner(cursor, self.quantifiers, 1, Start::AtFirst)
    }

    /// What a path begins with.
    #[tactic(auto, unfolding(crate::specs::ClauseReading::path_first, crate::specs::ClauseReading::path_name, crate::specs::ClauseReading::path_this))]
    fn path_first<'a>(&self, cursor: &mut Cursor<'a>) -> Result<Path<'a>, ParseError>
        requires side { cursor.old.note ≡ true }
        ensures reads { Reads path_of (note_rule rules.path_first self.now.room self.now.quantifiers (seen cursor.old)) result (seen cursor.new) }
        ensures kept { IsKept cursor.old cursor.new }
        ensures within { IfOk result (IsWithin self.now.room) }
    {
        match cursor.peek() {
            Mark::Name | Mark::This if self.room == 0 => Err(cursor.too_deep()),
            Mark::Name => {
                let x = cursor.expect_note(Mark::Name)?;
                Ok(Path::Plain(make_name(self.alloc, x)?))
            }
            Mark::This => {
                let x = cursor.expect_note(Mark::This)?;
                Ok(Path::Plain(leaf(self.alloc, x.span, ExprNode::This)?))
            }
            _ => Err(cursor.refuse()),
        }
    }

    #[tactic(auto, unfolding(crate::specs::ClauseReading::starred))]
    fn starred<'a>(&self, cursor: &mut Cursor<'a>, e: Found) -> Result<StoreStep<'a>, ParseError>
        requires side { cursor.old.note ≡ true }
        ensures reads { Reads step_of (note_rule rules.starred self.now.room self.now.quantifiers (parsed e) (seen cursor.old)) result (seen cursor.new) }
        ensures kept { IsKept cursor.old cursor.new }
        ensures within { IfOk result (IsStepWithin self.now.room) }
    {
        let last = cursor.expect_note(Mark::Times)?;
        Ok(StoreStep::IsRead(make_star(self.alloc, e, last)?))
    }

    #[tactic(auto, unfolding(crate::specs::ClauseReading::path_member))]
    fn path_member<'a>(
        &self,
        cursor: &mut Cursor<'a>,
        e: Found,
        dot: Lexeme<'a>,
    ) -> Result<StoreStep<'a>, ParseError>
        requires side { cursor.old.note ≡ true }
        requires room { self.now.room < 1000 }
        requires fits { e.depth < self.now.room }
        ensures reads { Reads step_of (note_rule rules.path_member self.now.room self.now.quantifiers (parsed e) (lexeme dot.entry) (seen cursor.old)) result (seen cursor.new) }
        ensures kept { IsKept cursor.old cursor.new }
        ensures within { IfOk result (IsStepWithin self.now.room) }
    {
        let x = cursor.expect_note(Mark::Name)?;
        Ok(StoreStep::GoesOn(make_member_path(self.alloc, e, dot, x)?))
    }

    #[tactic(auto, unfolding(crate::specs::ClauseReading::path_dotted))]
    fn path_dotted<'a>(
        &self,
        cursor: &mut Cursor<'a>,
        e: Found,
    ) -> Result<StoreStep<'a>, ParseError>
        requires side { cursor.old.note ≡ true }
        requires room { self.now.room < 1000 }
        requires fits { e.depth ≤ self.now.room }
        ensures reads { Reads step_of (note_rule rules.path_dotted self.now.room self.now.quantifiers (parsed e) (seen cursor.old)) result (seen cursor.new) }
        ensures kept { IsKept cursor.old cursor.new }
        ensures within { IfOk result (IsStepWithin self.now.room) }
    {
        let dot = cursor.expect_note(Mark::Dot)?;
        match cursor.peek() {
            Mark::Times => self.starred(cursor, e),
            Mark::Name if e.depth == self.room => Err(cursor.too_deep()),
            Mark::Name => self.path_member(cursor, e, dot),
            _ => Err(cursor.refuse()),
        }
    }

    #[tactic(auto, unfolding(crate::specs::ClauseReading::all_starred))]
    fn all_starred<'a>(
        &self,
        cursor: &mut Cursor<'a>,
        e: Found,
    ) -> Result<StoreStep<'a>, ParseError>
        requires side { cursor.old.note ≡ true }
        ensures reads { Reads step_of (note_rule rules.all_starred self.now.room self.now.quantifiers (parsed e) (seen cursor.old)) result (seen cursor.new) }
        ensures kept { IsKept cursor.old cursor.new }
        ensures within { IfOk result (IsStepWithin self.now.room) }
    {
        cursor.expect_note(Mark::Times)?;
        let last = cursor.expect_note(Mark::RightBracket)?;
        Ok(StoreStep::IsRead(make_all(self.alloc, e, last)?))
    }

    /// Behind the first bound of a range.
    #[tactic(auto, unfolding(crate::specs::ClauseReading::ranged))]
    fn ranged<'a>(
        &self,
        cursor: &mut Cursor<'a>,
        e: Found,
        low: Found,
    ) -> Result<StoreStep<'a>, ParseError>
        requires nests { Nests self.now.room (F.pre self.now.expr) (F.post self.now.expr) }
        requires side { cursor.old.note ≡ true }
        ensures reads { Reads step_of (note_rule rules.ranged self.now.room self.now.quantifiers (parsed e) (parsed low) (seen cursor.old)) result (seen cursor.new) }
        ensures kept { IsKept cursor.old cursor.new }
        ensures within { IfOk result (IsStepWithin self.now.room) }
    {
        cursor.expect_word(NoteWord::Range)?;
        let high = self.expression(cursor)?;
        let last = cursor.expect_note(Mark::RightBracket)?;
        Ok(StoreStep::IsRead(make_range(self.alloc, e, low, high, last)?))
    }

    #[tactic(auto, unfolding(crate::specs::ClauseReading::path_index))]
    fn path_index<'a>(
        &self,
        cursor: &mut Cursor<'a>,
        e: Found,
        bracket: Lexeme<'a>,
        i: Found,
    ) -> Result<StoreStep<'a>, ParseError>
        requires side { cursor.old.note ≡ true }
        requires fits { e.depth ≤ self.now.room }
        requires index { i.depth ≤ self.now.room }
        ensures reads { Reads step_of (note_rule rules.path_index self.now.room self.now.quantifiers (parsed e) (lexeme bracket.entry) (parsed i) (seen cursor.old)) result (seen cursor.new) }
        ensures kept { IsKept cursor.old cursor.new }
        ensures within { IfOk result (IsStepWithin self.now.room) }
    {
        let last = cursor.expect_note(Mark::RightBracket)?;
        Ok(StoreStep::GoesOn(Path::WithIndex(e, bracket, i, last)))
    }

    /// Behind a bracket: all elements, an index, or the bounds of a range.
    #[tactic(auto, unfolding(crate::specs::ClauseReading::path_bracketed, crate::specs::ClauseReading::bounded_by))]
    fn path_bracketed<'a>(
        &self,
        cursor: &mut Cursor<'a>,
        e: Found,
    ) -> Result<StoreStep<'a>, ParseError>
        requires nests { Nests self.now.room (F.pre self.now.expr) (F.post self.now.expr) }
        requires side { cursor.old.note ≡ true }
        requires fits { e.depth ≤ self.now.room }
        ensures reads { Reads step_of (note_rule rules.path_bracketed self.now.room self.now.quantifiers (parsed e) (seen cursor.old)) result (seen cursor.new) }
        ensures kept { IsKept cursor.old cursor.new }
        ensures within { IfOk result (IsStepWithin self.now.room) }
    {
        let bracket = cursor.expect_note(Mark::LeftBracket)?;
        if same_mark(cursor.peek(), Mark::Times) {
            return self.all_starred(cursor, e);
        }
        let i = self.expression(cursor)?;
        if same_word(cursor.peek_word(), NoteWord::Range) {
            self.ranged(cursor, e, i)
        } else {
            self.path_index(cursor, e, bracket, i)
        }
    }

    fn longer_by_dot<'a>(
        &self,
        cursor: &mut Cursor<'a>,
        path: Path<'a>,
    ) -> Result<StoreStep<'a>, ParseError>
        requires side { cursor.old.note ≡ true }
        requires room { self.now.room < 1000 }
        requires fits { IsWithin self.now.room path }
        ensures reads { Reads step_of (views.longer_by self.now.room self.now.quantifiers rules.path_dotted (path_of path.entry) (seen cursor.old)) result (seen cursor.new) }
        ensures kept { IsKept cursor.old cursor.new }
        ensures within { IfOk result (IsStepWithin self.now.room) }
    {
        let e = close_path(self.alloc, path)?;
        if e.depth > self.room {
            return Err(cursor.too_deep());
        }
        self.path_dotted(cursor, e)
    }

    fn longer_by_bracket<'a>(
        &self,
        cursor: &mut Cursor<'a>,
        path: Path<'a>,
    ) -> Result<StoreStep<'a>, ParseError>
        requires nests { Nests self.now.room (F.pre self.now.expr) (F.post self.now.expr) }
        requires side { cursor.old.note ≡ true }
        requires room { self.now.room < 1000 }
        requires fits { IsWithin self.now.room path }
        ensures reads { Reads step_of (views.longer_by self.now.room self.now.quantifiers rules.path_bracketed (path_of path.entry) (seen cursor.old)) result (seen cursor.new) }
        ensures kept { IsKept cursor.old cursor.new }
        ensures within { IfOk result (IsStepWithin self.now.room) }
    {
        let e = close_path(self.alloc, path)?;
        if e.depth > self.room {
            return Err(cursor.too_deep());
        }
        self.path_bracketed(cursor, e)
    }

    #[tactic(auto, unfolding(crate::specs::ClauseReading::store_step))]
    fn store_step<'a>(
        &self,
        cursor: &mut Cursor<'a>,
        path: Path<'a>,
    ) -> Result<StoreStep<'a>, ParseError>
        requires nests { Nests self.now.room (F.pre self.now.expr) (F.post self.now.expr) }
        requires side { cursor.old.note ≡ true }
        requires room { self.now.room < 1000 }
        requires fits { IsWithin self.now.room path }
        ensures reads { Reads step_of (note_rule rules.store_step self.now.room self.now.quantifiers (path_of path.entry) (seen cursor.old)) result (seen cursor.new) }
        ensures kept { IsKept cursor.old cursor.new }
        ensures within { IfOk result (IsStepWithin self.now.room) }
    {
        match cursor.peek() {
            Mark::Dot => self.longer_by_dot(cursor, path),
            Mark::LeftBracket => self.longer_by_bracket(cursor, path),
            _ => Ok(StoreStep::IsRead(store_of(self.alloc, path)?)),
        }
    }

    #[tactic(auto, using(crate::proofs::StoreTurns::store_goes_on, crate::proofs::StoreTurns::store_ends))]
    fn store_behind<'a>(
        &self,
        cursor: &mut Cursor<'a>,
        first: Path<'a>,
    ) -> Result<Measured<StoreTree>, ParseError>
        requires nests { Nests self.now.room (F.pre self.now.expr) (F.post self.now.expr) }
        requires side { cursor.old.note ≡ true }
        requires room { self.now.room < 1000 }
        requires fits { IsWithin self.now.room first }
        ensures reads { Reads (measured store_view) (views.stores_left self.now.room self.now.quantifiers spec.turns (path_of first.entry) (seen cursor.old)) result (seen cursor.new) }
        ensures kept { IsKept cursor.old cursor.new }
    {
        let mut path = first;
        let turns = turns();
        for _turn in 0..turns {
            match self.store_step(cursor, path)? {
                StoreStep::GoesOn(next) => path = next,
                StoreStep::IsRead(store) => return Ok(store),
            }
        }
        Err(ParseError::Fault(Fault::Long))
    }

    /// A store reference.
    #[tactic(auto, unfolding(crate::specs::ClauseReading::one_store))]
    pub fn one_store(&self, cursor: &mut Cursor<'_>) -> Result<Measured<StoreTree>, ParseError>
        requires nests { Nests self.now.room (F.pre self.now.expr) (F.post self.now.expr) }
        requires side { cursor.old.note ≡ true }
        requires room { self.now.room < 1000 }
        ensures reads { Reads (measured store_view) (note_rule rules.one_store self.now.room self.now.quantifiers (seen cursor.old)) result (seen cursor.new) }
        ensures kept { IsKept cursor.old cursor.new }
    {
        let path = self.path_first(cursor)?;
        self.store_behind(cursor, path)
    }
}
