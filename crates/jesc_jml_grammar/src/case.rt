//! Cases of a specification.

ghost use Rattle.std.specs.Prelude.{◌≡◌, ◌<◌, true, map};
ghost use Rattle.jesc_jml_grammar.specs.Steps.{Reads};
ghost use Rattle.jesc_jml_grammar.specs.Seen.{seen, lexeme, IsKept};
ghost use Rattle.jesc_jml_grammar.specs.Nests.{Nests};
ghost use Rattle.jesc_jml_grammar.specs.ClauseReading as rules;
ghost use Rattle.jesc_ast.specs.Trees.{clause_view};
ghost use Rattle.jesc_ast.specs.SpecTrees.{promise_view, case_view};
ghost use Rattle.jesc_jml_grammar.specs.ClauseFound as found;
ghost use Rattle.jesc_jml_grammar.specs.ClauseSeen.{note_rule, measured, ended, optional_lexeme, kept_word};

use crate::cursor::{Cursor, Lexeme};
use crate::fault::{Fault, ParseError};
use crate::found::{Found, Start};
use crate::grammar::{Grammar, turns};
use crate::make_spec::{make_case, with_clause, with_promise};
use crate::note_word::{NoteWord, is_heading_word, may_begin_clause};
use crate::part::{CaseHead, Ended, Measured};
use jesc_ast::{CaseTree, ClauseTree, SpecClause};
use jesc_text::{List, Span};
use std::alloc::Global;

fn span_from(visibility: Option<Lexeme<'_>>, x: Lexeme<'_>) -> Span
    ensures { result ≡ found.span_from (optional_lexeme visibility.entry) (lexeme x.entry) }
{
    match visibility {
        None => x.span,
        Some(v) => v.span,
    }
}

impl<
    F: Fn(Global, &mut Cursor<'_>, usize, usize, usize, Start<'_>) -> Result<Found, ParseError>,
> Grammar<F> {
    /// The `requires` clauses, behind a token of this span.
    #[tactic(auto, unfolding(crate::specs::ClauseReading::demands), using(crate::proofs::ListTurns::until_stops, crate::proofs::ListTurns::until_goes_on, crate::proofs::ListTurns::until_ends))]
    fn demands(
        &self,
        cursor: &mut Cursor<'_>,
        last: Span,
    ) -> Result<Ended<List<ClauseTree>>, ParseError>
        requires nests { Nests self.now.room (F.pre self.now.expr) (F.post self.now.expr) }
        requires side { cursor.old.note ≡ true }
        ensures reads { Reads (ended (map clause_view)) (note_rule rules.demands self.now.room self.now.quantifiers last (seen cursor.old)) result (seen cursor.new) }
        ensures kept { IsKept cursor.old cursor.new }
    {
        let mut found = Ended {
            tree: List::new(self.alloc),
            depth: 0,
            last,
        };
        let turns = turns();
        for _turn in 0..turns {
            if !cursor.is_at_word(NoteWord::Requires) {
                return Ok(found);
            }
            let next = self.clause_of(cursor, NoteWord::Requires)?;
            found = with_clause(found, next)?;
        }
        Err(ParseError::Fault(Fault::Long))
    }

    /// The other clauses that the heading allows, behind a token of this span.
    #[tactic(auto, unfolding(crate::specs::ClauseReading::spec_clauses), using(crate::proofs::ListTurns::until_stops, crate::proofs::ListTurns::until_goes_on, crate::proofs::ListTurns::until_ends))]
    fn spec_clauses(
        &self,
        cursor: &mut Cursor<'_>,
        heading: NoteWord,
        last: Span,
    ) -> Result<Ended<List<SpecClause>>, ParseError>
        requires nests { Nests self.now.room (F.pre self.now.expr) (F.post self.now.expr) }
        requires side { cursor.old.note ≡ true }
        requires room { self.now.room < 1000 }
        ensures reads { Reads (ended (map promise_view)) (note_rule rules.spec_clauses self.now.room self.now.quantifiers heading last (seen cursor.old)) result (seen cursor.new) }
        ensures kept { IsKept cursor.old cursor.new }
    {
        let mut found = Ended {
            tree: List::new(self.alloc),
            depth: 0,
            last,
        };
        let turns = turns();
        for _turn in 0..turns {
            if !may_begin_clause(heading, cursor.peek_word()) {
                return Ok(found);
            }
            let next = self.spec_clause(cursor)?;
            found = with_promise(found, next)?;
        }
        Err(ParseError::Fault(Fault::Long))
    }

    /// Behind what a case begins with, which ends with a token of this span.
    #[tactic(auto, unfolding(crate::specs::ClauseReading::case_body))]
    fn case_body(
        &self,
        cursor: &mut Cursor<'_>,
        head: CaseHead<'_>,
        last: Span,
    ) -> Result<Measured<CaseTree>, ParseError>
        requires nests { Nests self.now.room (F.pre self.now.expr) (F.post self.now.expr) }
        requires side { cursor.old.note ≡ true }
        requires room { self.now.room < 1000 }
        ensures reads { Reads (measured case_view) (note_rule rules.case_body self.now.room self.now.quantifiers head.entry.first (kept_word head.entry.visibility) (kept_word head.entry.heading) head.entry.word last (seen cursor.old)) result (seen cursor.new) }
        ensures kept { IsKept cursor.old cursor.new }
    {
        let demands = self.demands(cursor, last)?;
        let clauses = self.spec_clauses(cursor, head.word, demands.last)?;
        Ok(make_case(self.alloc, head, demands, clauses)?)
    }

    #[tactic(auto, unfolding(crate::specs::ClauseReading::heading))]
    fn heading<'a>(&self, cursor: &mut Cursor<'a>) -> Result<Lexeme<'a>, ParseError>
        ensures reads { Reads lexeme (note_rule rules.heading self.now.room self.now.quantifiers (seen cursor.old)) result (seen cursor.new) }
        ensures kept { IsKept cursor.old cursor.new }
    {
        if is_heading_word(cursor.peek_word()) {
            cursor.take_one()
        } else {
            Err(cursor.refuse())
        }
    }

    /// A case with a heading, behind its visibility.
    #[tactic(auto, unfolding(crate::specs::ClauseReading::case_behind))]
    pub fn case_behind(
        &self,
        cursor: &mut Cursor<'_>,
        visibility: Option<Lexeme<'_>>,
    ) -> Result<Measured<CaseTree>, ParseError>
        requires nests { Nests self.now.room (F.pre self.now.expr) (F.post self.now.expr) }
        requires side { cursor.old.note ≡ true }
        requires room { self.now.room < 1000 }
        ensures reads { Reads (measured case_view) (note_rule rules.case_behind self.now.room self.now.quantifiers (optional_lexeme visibility.entry) (seen cursor.old)) result (seen cursor.new) }
        ensures kept { IsKept cursor.old cursor.new }
    {
        let word = cursor.peek_word();
        let x = self.heading(cursor)?;
        let head = CaseHead {
            first: span_from(visibility, x),
            visibility,
            heading: Some(x),
            word,
        };
        self.case_body(cursor, head, x.span)
    }

    #[tactic(auto, unfolding(crate::specs::ClauseReading::seen_case))]
    fn seen_case(&self, cursor: &mut Cursor<'_>) -> Result<Measured<CaseTree>, ParseError>
        requires nests { Nests self.now.room (F.pre self.now.expr) (F.post self.now.expr) }
        requires side { cursor.old.note ≡ true }
        requires room { self.now.room < 1000 }
        ensures reads { Reads (measured case_view) (note_rule rules.seen_case self.now.room self.now.quantifiers (seen cursor.old)) result (seen cursor.new) }
        ensures kept { IsKept cursor.old cursor.new }
    {
        let v = cursor.expect_word(NoteWord::Visibility)?;
        self.case_behind(cursor, Some(v))
    }

    /// A case without a heading.
    #[tactic(auto, unfolding(crate::specs::ClauseReading::bare_case))]
    fn bare_case(&self, cursor: &mut Cursor<'_>) -> Result<Measured<CaseTree>, ParseError>
        requires nests { Nests self.now.room (F.pre self.now.expr) (F.post self.now.expr) }
        requires side { cursor.old.note ≡ true }
        requires room { self.now.room < 1000 }
        ensures reads { Reads (measured case_view) (note_rule rules.bare_case self.now.room self.now.quantifiers (seen cursor.old)) result (seen cursor.new) }
        ensures kept { IsKept cursor.old cursor.new }
    {
        let first = cursor.next_span();
        let head = CaseHead {
            first,
            visibility: None,
            heading: None,
            word: NoteWord::Other,
        };
        self.case_body(cursor, head, first)
    }

    /// A case of a specification.
    #[tactic(auto, unfolding(crate::specs::ClauseReading::one_case))]
    pub fn one_case(&self, cursor: &mut Cursor<'_>) -> Result<Measured<CaseTree>, ParseError>
        requires nests { Nests self.now.room (F.pre self.now.expr) (F.post self.now.expr) }
        requires side { cursor.old.note ≡ true }
        requires room { self.now.room < 1000 }
        ensures reads { Reads (measured case_view) (note_rule rules.one_case self.now.room self.now.quantifiers (seen cursor.old)) result (seen cursor.new) }
        ensures kept { IsKept cursor.old cursor.new }
    {
        match cursor.peek_word() {
            NoteWord::Visibility => self.seen_case(cursor),
            NoteWord::Behavior | NoteWord::NormalBehavior | NoteWord::ExceptionalBehavior => {
                self.case_behind(cursor, None)
            }
            NoteWord::Requires | NoteWord::Ensures | NoteWord::Assignable => self.bare_case(cursor),
            NoteWord::Signals | NoteWord::SignalsOnly => self.bare_case(cursor),
            _ => Err(cursor.refuse()),
        }
    }
}
