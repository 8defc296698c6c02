//! Names and modifiers of code.

ghost use Rattle.std.specs.Prelude.{◌≡◌, false};
ghost use Rattle.jesc_jml_grammar.specs.Reading.{turns as all_turns};
ghost use Rattle.jesc_jml_grammar.specs.Seen.{seen, lexeme, IsKept};
ghost use Rattle.jesc_jml_grammar.specs.Steps.{Reads};
ghost use Rattle.jesc_java_grammar.specs.FileMarks as marks;
ghost use Rattle.jesc_java_grammar.specs.FileReading as spec;
ghost use Rattle.jesc_java_grammar.specs.FileViews as views;
ghost use Rattle.jesc_java_grammar.specs.Views.{part};

use crate::files::Files;
use crate::lexing::{at_modifier, is_word, peek_member, take_modifier, take_sign, take_word};
use crate::member_mark::MemberMark;
use jesc_ast::Word;
use jesc_jml_grammar::cursor::{Cursor, Lexeme};
use jesc_jml_grammar::fault::{Fault, ParseError};
use jesc_jml_grammar::grammar::turns;
use jesc_jml_grammar::lists::with_word;
use jesc_jml_grammar::mark::Mark;
use jesc_jml_grammar::step::same_mark;
use jesc_text::List;

/// Whether the next token is of this mark, seen from code.
pub fn is_at(cursor: &Cursor<'_>, mark: Mark) -> bool
    requires side { cursor.now.note ≡ false }
    ensures { result ≡ marks.at_code mark (seen cursor.now) }
{
    same_mark(cursor.peek(), mark)
}

/// Behind a comma a name.
fn further_name<'a>(cursor: &mut Cursor<'a>) -> Result<Lexeme<'a>, ParseError>
    requires side { cursor.old.note ≡ false }
    ensures reads { Reads lexeme (views.further_name (seen cursor.old)) result (seen cursor.new) }
    ensures kept { IsKept cursor.old cursor.new }
{
    cursor.expect(Mark::Comma)?;
    cursor.expect(Mark::Name)
}

impl Files {
    #[tactic(auto, using(crate::proofs::ListTurns::until_stops, crate::proofs::ListTurns::until_goes_on, crate::proofs::ListTurns::until_ends))]
    fn more_names(
        &self,
        cursor: &mut Cursor<'_>,
        first: List<Word>,
    ) -> Result<List<Word>, ParseError>
        requires side { cursor.old.note ≡ false }
        ensures reads { Reads (λ words. words) (views.more_names all_turns first (seen cursor.old)) result (seen cursor.new) }
        ensures kept { IsKept cursor.old cursor.new }
    {
        let mut words = first;
        let turns = turns();
        for _turn in 0..turns {
            if !is_at(cursor, Mark::Comma) {
                return Ok(words);
            }
            let x = further_name(cursor)?;
            words = with_word(self.alloc, words, x)?;
        }
        Err(ParseError::Fault(Fault::Long))
    }

    /// Names with commas between, one at least.
    #[tactic(auto, unfolding(crate::specs::FileReading::names, jesc_jml_grammar::specs::ClauseLists::separated))]
    fn names(&self, cursor: &mut Cursor<'_>) -> Result<List<Word>, ParseError>
        requires side { cursor.old.note ≡ false }
        ensures reads { Reads (λ words. words) (part spec.names self.now.room (seen cursor.old)) result (seen cursor.new) }
        ensures kept { IsKept cursor.old cursor.new }
    {
        let x = cursor.expect(Mark::Name)?;
        let first = with_word(self.alloc, List::new(self.alloc), x)?;
        self.more_names(cursor, first)
    }

    /// Names behind this word, or none.
    #[tactic(auto, unfolding(crate::specs::FileReading::names_after))]
    pub fn names_after(
        &self,
        cursor: &mut Cursor<'_>,
        text: &[u8],
    ) -> Result<List<Word>, ParseError>
        requires side { cursor.old.note ≡ false }
        ensures reads { Reads (λ words. words) (part spec.names_after self.now.room text.now (seen cursor.old)) result (seen cursor.new) }
        ensures kept { IsKept cursor.old cursor.new }
    {
        if is_word(cursor, text) {
            take_word(cursor, text)?;
            return self.names(cursor);
        }
        Ok(List::new(self.alloc))
    }

    /// `@Override`.
    fn override_<'a>(&self, cursor: &mut Cursor<'a>) -> Result<Lexeme<'a>, ParseError>
        requires side { cursor.old.note ≡ false }
        ensures reads { Reads lexeme (part spec.override self.now.room (seen cursor.old)) result (seen cursor.new) }
        ensures kept { IsKept cursor.old cursor.new }
    {
        take_sign(cursor, b"@")?;
        take_word(cursor, b"Override")
    }

    /// A modifier.
    #[tactic(auto, unfolding(crate::specs::FileReading::modifier))]
    fn modifier<'a>(&self, cursor: &mut Cursor<'a>) -> Result<Lexeme<'a>, ParseError>
        requires side { cursor.old.note ≡ false }
        ensures reads { Reads lexeme (part spec.modifier self.now.room (seen cursor.old)) result (seen cursor.new) }
        ensures kept { IsKept cursor.old cursor.new }
    {
        match peek_member(cursor) {
            MemberMark::At => self.override_(cursor),
            _ => take_modifier(cursor),
        }
    }

    /// Modifiers behind other words.
    #[tactic(auto, unfolding(crate::specs::FileReading::modifiers), using(crate::proofs::ListTurns::until_stops, crate::proofs::ListTurns::until_goes_on, crate::proofs::ListTurns::until_ends))]
    pub fn modifiers(
        &self,
        cursor: &mut Cursor<'_>,
        words: List<Word>,
    ) -> Result<List<Word>, ParseError>
        requires side { cursor.old.note ≡ false }
        ensures reads { Reads (λ words. words) (part spec.modifiers self.now.room words (seen cursor.old)) result (seen cursor.new) }
        ensures kept { IsKept cursor.old cursor.new }
    {
        let mut found = words;
        let turns = turns();
        for _turn in 0..turns {
            if !at_modifier(cursor) {
                return Ok(found);
            }
            let x = self.modifier(cursor)?;
            found = with_word(self.alloc, found, x)?;
        }
        Err(ParseError::Fault(Fault::Long))
    }
}
