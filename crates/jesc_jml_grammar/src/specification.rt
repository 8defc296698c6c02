//! Specifications of methods.

ghost use Rattle.std.specs.Prelude.{◌≡◌, ◌<◌, true, map};
ghost use Rattle.jesc_jml_grammar.specs.Reading as spec;
ghost use Rattle.jesc_jml_grammar.specs.Steps.{Reads};
ghost use Rattle.jesc_jml_grammar.specs.Seen.{seen, lexeme, IsKept};
ghost use Rattle.jesc_jml_grammar.specs.Nests.{Nests};
ghost use Rattle.jesc_jml_grammar.specs.ClauseReading as rules;
ghost use Rattle.jesc_jml_grammar.specs.ClauseSeen as views;
ghost use Rattle.jesc_ast.specs.SpecTrees.{case_view, spec_view};
ghost use Rattle.jesc_jml_grammar.specs.ClauseSeen.{note_rule, measured};

use crate::cursor::{Cursor, Lexeme};
use crate::fault::{Fault, ParseError};
use crate::found::{Found, Start};
use crate::grammar::{Grammar, turns};
use crate::make_spec::{make_specification, with_case};
use crate::note_word::NoteWord;
use crate::part::Measured;
use jesc_ast::{CaseTree, SpecTree};
use jesc_text::List;
use std::alloc::Global;

impl<
    F: Fn(Global, &mut Cursor<'_>, usize, usize, usize, Start<'_>) -> Result<Found, ParseError>,
> Grammar<F> {
    #[tactic(auto, using(crate::proofs::ListTurns::until_stops, crate::proofs::ListTurns::until_goes_on, crate::proofs::ListTurns::until_ends))]
    fn cases_left(
        &self,
        cursor: &mut Cursor<'_>,
        first: Measured<List<CaseTree>>,
    ) -> Result<Measured<List<CaseTree>>, ParseError>
        requires nests { Nests self.now.room (F.pre self.now.expr) (F.post self.now.expr) }
        requires side { cursor.old.note ≡ true }
        requires room { self.now.room < 1000 }
        ensures reads { Reads (measured (map case_view)) (views.cases_left self.now.room self.now.quantifiers spec.turns (measured (map case_view) first) (seen cursor.old)) result (seen cursor.new) }
        ensures kept { IsKept cursor.old cursor.new }
    {
        let mut found = first;
        let turns = turns();
        for _turn in 0..turns {
            if !cursor.is_at_word(NoteWord::Also) {
                return Ok(found);
            }
            cursor.expect_word(NoteWord::Also)?;
            let next = self.one_case(cursor)?;
            found = with_case(found, next)?;
        }
        Err(ParseError::Fault(Fault::Long))
    }

    /// Further cases, behind the first.
    #[tactic(auto, unfolding(crate::specs::ClauseReading::more_cases))]
    fn more_cases(
        &self,
        cursor: &mut Cursor<'_>,
        first: Measured<CaseTree>,
    ) -> Result<Measured<List<CaseTree>>, ParseError>
        requires nests { Nests self.now.room (F.pre self.now.expr) (F.post self.now.expr) }
        requires side { cursor.old.note ≡ true }
        requires room { self.now.room < 1000 }
        ensures reads { Reads (measured (map case_view)) (note_rule rules.more_cases self.now.room self.now.quantifiers (measured case_view first) (seen cursor.old)) result (seen cursor.new) }
        ensures kept { IsKept cursor.old cursor.new }
    {
        let none = Measured {
            tree: List::new(self.alloc),
            depth: 0,
        };
        self.cases_left(cursor, with_case(none, first)?)
    }

    /// Cases with `also` between, one at least.
    #[tactic(auto, unfolding(crate::specs::ClauseReading::cases, crate::specs::ClauseReading::more_cases, crate::specs::ClauseLists::separated))]
    fn cases(&self, cursor: &mut Cursor<'_>) -> Result<Measured<List<CaseTree>>, ParseError>
        requires nests { Nests self.now.room (F.pre self.now.expr) (F.post self.now.expr) }
        requires side { cursor.old.note ≡ true }
        requires room { self.now.room < 1000 }
        ensures reads { Reads (measured (map case_view)) (note_rule rules.cases self.now.room self.now.quantifiers (seen cursor.old)) result (seen cursor.new) }
        ensures kept { IsKept cursor.old cursor.new }
    {
        let first = self.one_case(cursor)?;
        self.more_cases(cursor, first)
    }

    #[tactic(auto, unfolding(crate::specs::ClauseReading::specification_of))]
    fn specification_of(
        &self,
        cursor: &mut Cursor<'_>,
        also: bool,
    ) -> Result<Measured<SpecTree>, ParseError>
        requires nests { Nests self.now.room (F.pre self.now.expr) (F.post self.now.expr) }
        requires side { cursor.old.note ≡ true }
        requires room { self.now.room < 1000 }
        ensures reads { Reads (measured spec_view) (note_rule rules.specification_of self.now.room self.now.quantifiers also (seen cursor.old)) result (seen cursor.new) }
        ensures kept { IsKept cursor.old cursor.new }
    {
        let cases = self.cases(cursor)?;
        Ok(make_specification(also, cases))
    }

    /// The longest specification of a method.
    #[tactic(auto, unfolding(crate::specs::ClauseReading::specification))]
    pub fn specification(&self, cursor: &mut Cursor<'_>) -> Result<Measured<SpecTree>, ParseError>
        requires nests { Nests self.now.room (F.pre self.now.expr) (F.post self.now.expr) }
        requires side { cursor.old.note ≡ true }
        requires room { self.now.room < 1000 }
        ensures reads { Reads (measured spec_view) (note_rule rules.specification self.now.room self.now.quantifiers (seen cursor.old)) result (seen cursor.new) }
        ensures kept { IsKept cursor.old cursor.new }
    {
        if cursor.is_at_word(NoteWord::Also) {
            cursor.expect_word(NoteWord::Also)?;
            return self.specification_of(cursor, true);
        }
        self.specification_of(cursor, false)
    }

    /// The longest specification of a method, behind the visibility that it begins with.
    #[tactic(auto, unfolding(crate::specs::ClauseReading::specification_behind))]
    pub fn specification_behind(
        &self,
        cursor: &mut Cursor<'_>,
        visibility: Lexeme<'_>,
    ) -> Result<Measured<SpecTree>, ParseError>
        requires nests { Nests self.now.room (F.pre self.now.expr) (F.post self.now.expr) }
        requires side { cursor.old.note ≡ true }
        requires room { self.now.room < 1000 }
        ensures reads { Reads (measured spec_view) (note_rule rules.specification_behind self.now.room self.now.quantifiers (lexeme visibility.entry) (seen cursor.old)) result (seen cursor.new) }
        ensures kept { IsKept cursor.old cursor.new }
    {
        let first = self.case_behind(cursor, Some(visibility))?;
        let cases = self.more_cases(cursor, first)?;
        Ok(make_specification(false, cases))
    }
}
