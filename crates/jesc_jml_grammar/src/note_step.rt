//! The steps of a cursor that sees annotations.

ghost use Rattle.std.specs.Prelude.{◌≡◌, true};
ghost use Rattle.jesc_jml_grammar.specs.Steps as steps;
ghost use Rattle.jesc_jml_grammar.specs.Steps.{Reads};
ghost use Rattle.jesc_jml_grammar.specs.ClauseMarks as spec;
ghost use Rattle.jesc_jml_grammar.specs.Seen.{seen, lexeme, IsKept};

use crate::cursor::{Cursor, Lexeme};
use crate::fault::ParseError;
use crate::mark::Mark;
use crate::note_word::{NoteWord, same_word, word_of_kind};
use crate::step::{same_mark, text_at};
use jesc_text::Span;

impl<'a> Cursor<'a> {
    /// What the next token is to the rules of specifications.
    #[tactic(auto, unfolding(crate::specs::ClauseMarks::word_at))]
    pub fn peek_word(&self) -> NoteWord
        ensures { result ≡ spec.word_at (seen self.now) }
    {
        match self.rest {
            [] => NoteWord::Other,
            [token, ..] => {
                if token.note {
                    word_of_kind(token.kind, text_at(self.text, *token))
                } else {
                    NoteWord::Other
                }
            }
        }
    }

    /// Takes the next token, if it is of this word.
    #[tactic(auto, unfolding(crate::specs::ClauseMarks::expect_word))]
    pub fn expect_word(&mut self, word: NoteWord) -> Result<Lexeme<'a>, ParseError>
        ensures reads { Reads lexeme (spec.expect_word word (seen self.old)) result (seen self.new) }
        ensures kept { IsKept self.old self.new }
    {
        if same_word(self.peek_word(), word) {
            self.take_one()
        } else {
            Err(self.refuse())
        }
    }

    /// The span of the next token, where there is one.
    pub fn next_span(&self) -> Span
        ensures { result ≡ spec.span_at (seen self.now) }
    {
        match self.rest {
            [] => Span {
                file: 0,
                from: 0,
                to: 0,
            },
            [token, ..] => token.span,
        }
    }

    /// Whether the next token is of this mark.
    pub fn is_at(&self, mark: Mark) -> bool
        requires { self.now.note ≡ true }
        ensures { result ≡ spec.at_mark mark (seen self.now) }
    {
        same_mark(self.peek(), mark)
    }

    /// Whether the next token is of this word.
    pub fn is_at_word(&self, word: NoteWord) -> bool
        ensures { result ≡ spec.at_word word (seen self.now) }
    {
        same_word(self.peek_word(), word)
    }

    /// Takes the next token, if it is of this mark.
    pub fn expect_note(&mut self, mark: Mark) -> Result<Lexeme<'a>, ParseError>
        requires { self.old.note ≡ true }
        ensures reads { Reads lexeme (steps.expect true mark (seen self.old)) result (seen self.new) }
        ensures kept { IsKept self.old self.new }
    {
        self.expect(mark)
    }
}
