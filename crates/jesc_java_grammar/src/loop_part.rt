//! The parts of a loop: its invariants, and what the head of a `for` begins and ends with.

ghost use Rattle.std.specs.Prelude.{◌≡◌, ◌+◌, ◌<◌, ◌≤◌, false, true, map, max, IfOk};
ghost use Rattle.jesc_ast.specs.Trees.{clause, clause_view};
ghost use Rattle.jesc_jml_grammar.specs.ClauseFound.{sized, with_more};
ghost use Rattle.jesc_jml_grammar.specs.ClauseSeen.{measured};
ghost use Rattle.jesc_jml_grammar.specs.Nests.{parsed};
ghost use Rattle.jesc_jml_grammar.specs.Reading as expressions;
ghost use Rattle.jesc_jml_grammar.specs.Seen.{seen, lexeme, IsKept};
ghost use Rattle.jesc_jml_grammar.specs.Steps.{Reads};
ghost use Rattle.jesc_java_grammar.specs.StatementFound as makers;
ghost use Rattle.jesc_java_grammar.specs.StatementReading as spec;
ghost use Rattle.jesc_java_grammar.specs.Views.{part, piece, optional_statement, invariants_left};

use crate::lexing::{is_invariant, take_invariant};
use crate::part::Parts;
use jesc_ast::{ClauseTree, Stmt};
use jesc_jml_grammar::cursor::{Cursor, Lexeme};
use jesc_jml_grammar::fault::{Fault, ParseError};
use jesc_jml_grammar::found::Found;
use jesc_jml_grammar::grammar::turns;
use jesc_jml_grammar::make::word_of;
use jesc_jml_grammar::mark::Mark;
use jesc_jml_grammar::part::Measured;
use jesc_jml_grammar::step::same_mark;
use jesc_text::{List, OutOfMemory};
use std::alloc::Global;

fn make_invariant(
    alloc: Global,
    word: Lexeme<'_>,
    e: Found,
) -> Result<Measured<ClauseTree>, OutOfMemory>
    ensures value { IfOk result (λ c. measured clause_view c ≡ sized (clause (expressions.word_of (lexeme word.entry)) (parsed e).tree) (parsed e).depth) }
{
    Ok(Measured {
        tree: ClauseTree {
            word: word_of(alloc, word)?,
            e: e.expr,
        },
        depth: e.depth,
    })
}

fn with_invariant(
    mut found: Measured<List<ClauseTree>>,
    next: Measured<ClauseTree>,
) -> Result<Measured<List<ClauseTree>>, OutOfMemory>
    ensures value { IfOk result (λ f. measured (map clause_view) f ≡ with_more (measured (map clause_view) found) (measured clause_view next)) }
    ensures depth { IfOk result (λ f. f.depth ≡ max found.depth next.depth) }
{
    found.tree.push(next.tree)?;
    found.depth = found.depth.max(next.depth);
    Ok(found)
}

fn make_part(found: Measured<Stmt>) -> Measured<Option<Stmt>>
    ensures { measured optional_statement result ≡ makers.part_of (piece found) }
{
    Measured {
        tree: Some(found.tree),
        depth: found.depth,
    }
}

fn no_part() -> Measured<Option<Stmt>>
    ensures { measured optional_statement result ≡ makers.no_part }
{
    Measured {
        tree: None,
        depth: 0,
    }
}

impl Parts {
    // ---- invariants

    #[tactic(auto, unfolding(crate::specs::StatementReading::invariant))]
    fn invariant_inside(&self, cursor: &mut Cursor<'_>) -> Result<Measured<ClauseTree>, ParseError>
        requires room { self.now.room < 1000 }
        requires side { cursor.old.note ≡ true }
        ensures reads { Reads (measured clause_view) (part spec.invariant self.now.room (seen cursor.old)) result (seen cursor.new) }
        ensures kept { IsKept cursor.old cursor.new }
        ensures bounded { IfOk result (λ f. f.depth ≤ self.now.room) }
    {
        let word = take_invariant(cursor)?;
        let e = self.whole(cursor)?;
        cursor.expect(Mark::Semicolon)?;
        Ok(make_invariant(self.alloc, word, e)?)
    }

    /// An invariant, seen from the code around.
    fn invariant(&self, cursor: &mut Cursor<'_>) -> Result<Measured<ClauseTree>, ParseError>
        requires room { self.now.room < 1000 }
        requires side { cursor.old.note ≡ false }
        ensures reads { Reads (measured clause_view) (part spec.invariant self.now.room (seen cursor.old)) result (seen cursor.new) }
        ensures kept { IsKept cursor.old cursor.new }
        ensures bounded { IfOk result (λ f. f.depth ≤ self.now.room) }
    {
        cursor.note = true;
        let found = self.invariant_inside(cursor);
        cursor.note = false;
        found
    }

    /// Further invariants, behind these.
    #[tactic(auto, using(crate::proofs::ListTurns::until_stops, crate::proofs::ListTurns::until_goes_on, crate::proofs::ListTurns::until_ends))]
    fn invariants_left(
        &self,
        cursor: &mut Cursor<'_>,
        first: Measured<List<ClauseTree>>,
    ) -> Result<Measured<List<ClauseTree>>, ParseError>
        requires room { self.now.room < 1000 }
        requires side { cursor.old.note ≡ false }
        requires fits { first.depth ≤ self.now.room }
        ensures reads { Reads (measured (map clause_view)) (invariants_left self.now.room expressions.turns (measured (map clause_view) first) (seen cursor.old)) result (seen cursor.new) }
        ensures kept { IsKept cursor.old cursor.new }
        ensures bounded { IfOk result (λ f. f.depth ≤ self.now.room) }
    {
        let mut found = first;
        let turns = turns();
        for _turn in 0..turns {
            if !is_invariant(cursor) {
                return Ok(found);
            }
            let next = self.invariant(cursor)?;
            found = with_invariant(found, next)?;
        }
        Err(ParseError::Fault(Fault::Long))
    }

    /// The invariants before a loop.
    #[tactic(auto, unfolding(crate::specs::StatementReading::invariants))]
    pub fn invariants(
        &self,
        cursor: &mut Cursor<'_>,
    ) -> Result<Measured<List<ClauseTree>>, ParseError>
        requires room { self.now.room < 1000 }
        requires side { cursor.old.note ≡ false }
        ensures reads { Reads (measured (map clause_view)) (part spec.invariants self.now.room (seen cursor.old)) result (seen cursor.new) }
        ensures kept { IsKept cursor.old cursor.new }
        ensures bounded { IfOk result (λ f. f.depth ≤ self.now.room) }
    {
        let none = Measured {
            tree: List::new(self.alloc),
            depth: 0,
        };
        self.invariants_left(cursor, none)
    }

    // ---- the head of a `for`

    /// What a `for` begins with, up to its first semicolon.
    #[tactic(auto, unfolding(crate::specs::StatementReading::for_first))]
    pub fn for_first(&self, cursor: &mut Cursor<'_>) -> Result<Measured<Option<Stmt>>, ParseError>
        requires room { self.now.room < 1000 }
        requires side { cursor.old.note ≡ false }
        ensures reads { Reads (measured optional_statement) (part spec.for_first self.now.room (seen cursor.old)) result (seen cursor.new) }
        ensures kept { IsKept cursor.old cursor.new }
        ensures bounded { IfOk result (λ f. f.depth ≤ self.now.room + 1) }
    {
        if same_mark(cursor.peek(), Mark::Semicolon) {
            return Ok(no_part());
        }
        let found = self.simple(cursor, true, false)?;
        Ok(make_part(found))
    }

    /// What a `for` does behind each turn, up to the closing parenthesis.
    #[tactic(auto, unfolding(crate::specs::StatementReading::for_last))]
    pub fn for_last(&self, cursor: &mut Cursor<'_>) -> Result<Measured<Option<Stmt>>, ParseError>
        requires room { self.now.room < 1000 }
        requires side { cursor.old.note ≡ false }
        ensures reads { Reads (measured optional_statement) (part spec.for_last self.now.room (seen cursor.old)) result (seen cursor.new) }
        ensures kept { IsKept cursor.old cursor.new }
        ensures bounded { IfOk result (λ f. f.depth ≤ self.now.room + 1) }
    {
        if same_mark(cursor.peek(), Mark::RightParen) {
            return Ok(no_part());
        }
        let found = self.simple(cursor, false, true)?;
        Ok(make_part(found))
    }
}
