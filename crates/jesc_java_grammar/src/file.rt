//! Whole files.

ghost use Rattle.std.specs.Prelude.{◌≡◌, ◌<◌, false};
ghost use Rattle.jesc_jml_grammar.specs.ClauseSeen.{measured};
ghost use Rattle.jesc_jml_grammar.specs.Reading.{turns as all_turns};
ghost use Rattle.jesc_jml_grammar.specs.Seen.{seen, lexeme, IsKept};
ghost use Rattle.jesc_jml_grammar.specs.Steps.{Reads};
ghost use Rattle.jesc_java_grammar.specs.FileReading as spec;
ghost use Rattle.jesc_java_grammar.specs.ClassViews as views;
ghost use Rattle.jesc_java_grammar.specs.UnitViews.{unit_view};
ghost use Rattle.jesc_java_grammar.specs.Views.{part};

use crate::files::Files;
use crate::lexing::{is_word, take_word};
use crate::make_class::{Unit, make_unit};
use jesc_ast::Word;
use jesc_jml_grammar::cursor::{Cursor, Lexeme};
use jesc_jml_grammar::fault::{Fault, ParseError};
use jesc_jml_grammar::grammar::turns;
use jesc_jml_grammar::lists::with_word;
use jesc_jml_grammar::mark::Mark;
use jesc_jml_grammar::part::Measured;
use jesc_jml_grammar::step::same_mark;
use jesc_text::List;

/// Behind a dot a name.
fn further_part<'a>(cursor: &mut Cursor<'a>) -> Result<Lexeme<'a>, ParseError>
    requires side { cursor.old.note ≡ false }
    ensures reads { Reads lexeme (views.further_part (seen cursor.old)) result (seen cursor.new) }
    ensures kept { IsKept cursor.old cursor.new }
{
    cursor.expect(Mark::Dot)?;
    cursor.expect(Mark::Name)
}

impl Files {
    #[tactic(auto, using(crate::proofs::ListTurns::until_stops, crate::proofs::ListTurns::until_goes_on, crate::proofs::ListTurns::until_ends))]
    fn more_dotted(
        &self,
        cursor: &mut Cursor<'_>,
        first: List<Word>,
    ) -> Result<List<Word>, ParseError>
        requires side { cursor.old.note ≡ false }
        ensures reads { Reads (λ words. words) (views.more_dotted all_turns first (seen cursor.old)) result (seen cursor.new) }
        ensures kept { IsKept cursor.old cursor.new }
    {
        let mut words = first;
        let turns = turns();
        for _turn in 0..turns {
            if !same_mark(cursor.peek(), Mark::Dot) {
                return Ok(words);
            }
            let x = further_part(cursor)?;
            words = with_word(self.alloc, words, x)?;
        }
        Err(ParseError::Fault(Fault::Long))
    }

    /// Names with dots between, one at least.
    #[tactic(auto, unfolding(crate::specs::FileReading::dotted, jesc_jml_grammar::specs::ClauseLists::separated))]
    fn dotted(&self, cursor: &mut Cursor<'_>) -> Result<List<Word>, ParseError>
        requires side { cursor.old.note ≡ false }
        ensures reads { Reads (λ words. words) (part spec.dotted self.now.room (seen cursor.old)) result (seen cursor.new) }
        ensures kept { IsKept cursor.old cursor.new }
    {
        let x = cursor.expect(Mark::Name)?;
        let first = with_word(self.alloc, List::new(self.alloc), x)?;
        self.more_dotted(cursor, first)
    }

    #[tactic(auto, unfolding(crate::specs::FileReading::some_package))]
    fn some_package(&self, cursor: &mut Cursor<'_>) -> Result<List<Word>, ParseError>
        requires side { cursor.old.note ≡ false }
        ensures reads { Reads (λ words. words) (part spec.some_package self.now.room (seen cursor.old)) result (seen cursor.new) }
        ensures kept { IsKept cursor.old cursor.new }
    {
        take_word(cursor, b"package")?;
        let found = self.dotted(cursor)?;
        cursor.expect(Mark::Semicolon)?;
        Ok(found)
    }

    /// The package of a file, or none.
    #[tactic(auto, unfolding(crate::specs::FileReading::package_line))]
    fn package_line(&self, cursor: &mut Cursor<'_>) -> Result<List<Word>, ParseError>
        requires side { cursor.old.note ≡ false }
        ensures reads { Reads (λ words. words) (part spec.package_line self.now.room (seen cursor.old)) result (seen cursor.new) }
        ensures kept { IsKept cursor.old cursor.new }
    {
        if is_word(cursor, b"package") {
            self.some_package(cursor)
        } else {
            Ok(List::new(self.alloc))
        }
    }

    /// All that a file holds.
    #[tactic(auto, unfolding(crate::specs::FileReading::whole_file, crate::specs::FileReading::file))]
    pub fn file(&self, cursor: &mut Cursor<'_>) -> Result<Measured<Unit>, ParseError>
        requires room { self.now.room < 1000 }
        requires side { cursor.old.note ≡ false }
        ensures reads { Reads (measured unit_view) (spec.whole_file all_turns self.now.room 3 (seen cursor.old)) result (seen cursor.new) }
        ensures kept { IsKept cursor.old cursor.new }
    {
        let names = self.package_line(cursor)?;
        let classes = self.classes(cursor)?;
        Ok(make_unit(names, classes))
    }
}
