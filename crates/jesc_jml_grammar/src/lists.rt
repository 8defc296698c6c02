//! Lists of words.

ghost use Rattle.std.specs.Prelude.{◌≡◌, true, IfOk};
ghost use Rattle.jesc_jml_grammar.specs.Steps.{Reads};
ghost use Rattle.jesc_jml_grammar.specs.Seen.{seen, lexeme, IsKept};
ghost use Rattle.jesc_jml_grammar.specs.Reading as spec;
ghost use Rattle.jesc_jml_grammar.specs.ClauseReading as rules;
ghost use Rattle.jesc_jml_grammar.specs.ClauseSeen as views;
ghost use Rattle.jesc_jml_grammar.specs.ClauseSeen.{note_rule};

use crate::cursor::{Cursor, Lexeme};
use crate::fault::{Fault, ParseError};
use crate::found::{Found, Start};
use crate::grammar::{Grammar, turns};
use crate::make::word_of;
use crate::mark::Mark;
use crate::note_word::is_modifier_word;
use jesc_ast::Word;
use jesc_text::{List, OutOfMemory};
use std::alloc::Global;

/// The words with one more.
pub fn with_word(
    alloc: Global,
    mut words: List<Word>,
    x: Lexeme<'_>,
) -> Result<List<Word>, OutOfMemory>
    ensures { IfOk result (λ all. all ≡ rules.with_word words (lexeme x.entry)) }
{
    words.push(word_of(alloc, x)?)?;
    Ok(words)
}

impl<
    F: Fn(Global, &mut Cursor<'_>, usize, usize, usize, Start<'_>) -> Result<Found, ParseError>,
> Grammar<F> {
    #[tactic(auto, using(crate::proofs::ListTurns::until_stops, crate::proofs::ListTurns::until_goes_on, crate::proofs::ListTurns::until_ends))]
    fn more_names(
        &self,
        cursor: &mut Cursor<'_>,
        first: List<Word>,
    ) -> Result<List<Word>, ParseError>
        requires side { cursor.old.note ≡ true }
        ensures reads { Reads (λ words. words) (views.more_names spec.turns first (seen cursor.old)) result (seen cursor.new) }
        ensures kept { IsKept cursor.old cursor.new }
    {
        let mut words = first;
        let turns = turns();
        for _turn in 0..turns {
            if !cursor.is_at(Mark::Comma) {
                return Ok(words);
            }
            cursor.expect_note(Mark::Comma)?;
            let x = cursor.expect_note(Mark::Name)?;
            words = with_word(self.alloc, words, x)?;
        }
        Err(ParseError::Fault(Fault::Long))
    }

    /// Names with commas between, one at least.
    #[tactic(auto, unfolding(crate::specs::ClauseReading::names, crate::specs::ClauseLists::separated))]
    pub fn names(&self, cursor: &mut Cursor<'_>) -> Result<List<Word>, ParseError>
        requires side { cursor.old.note ≡ true }
        ensures reads { Reads (λ words. words) (note_rule rules.names self.now.room self.now.quantifiers (seen cursor.old)) result (seen cursor.new) }
        ensures kept { IsKept cursor.old cursor.new }
    {
        let x = cursor.expect_note(Mark::Name)?;
        let first = with_word(self.alloc, List::new(self.alloc), x)?;
        self.more_names(cursor, first)
    }

    /// A modifier.
    #[tactic(auto, unfolding(crate::specs::ClauseReading::modifier))]
    fn modifier<'a>(&self, cursor: &mut Cursor<'a>) -> Result<Lexeme<'a>, ParseError>
        ensures reads { Reads lexeme (note_rule rules.modifier self.now.room self.now.quantifiers (seen cursor.old)) result (seen cursor.new) }
        ensures kept { IsKept cursor.old cursor.new }
    {
        if is_modifier_word(cursor.peek_word()) {
            cursor.take_one()
        } else {
            Err(cursor.refuse())
        }
    }

    /// Modifiers behind other words.
    #[tactic(auto, unfolding(crate::specs::ClauseReading::modifiers), using(crate::proofs::ListTurns::until_stops, crate::proofs::ListTurns::until_goes_on, crate::proofs::ListTurns::until_ends))]
    pub fn modifiers(
        &self,
        cursor: &mut Cursor<'_>,
        first: List<Word>,
    ) -> Result<List<Word>, ParseError>
        requires side { cursor.old.note ≡ true }
        ensures reads { Reads (λ words. words) (note_rule rules.modifiers self.now.room self.now.quantifiers first (seen cursor.old)) result (seen cursor.new) }
        ensures kept { IsKept cursor.old cursor.new }
    {
        let mut words = first;
        let turns = turns();
        for _turn in 0..turns {
            if !is_modifier_word(cursor.peek_word()) {
                return Ok(words);
            }
            let x = self.modifier(cursor)?;
            words = with_word(self.alloc, words, x)?;
        }
        Err(ParseError::Fault(Fault::Long))
    }
}
