//! Classes and interfaces.

ghost use Rattle.std.specs.Prelude.{◌≡◌, ◌<◌, false, map};
ghost use Rattle.jesc_ast.specs.FileTrees.{class_view};
ghost use Rattle.jesc_jml_grammar.specs.ClauseSeen.{measured};
ghost use Rattle.jesc_jml_grammar.specs.Reading.{turns as all_turns};
ghost use Rattle.jesc_jml_grammar.specs.Seen.{seen, IsKept};
ghost use Rattle.jesc_jml_grammar.specs.Steps.{Reads};
ghost use Rattle.jesc_java_grammar.specs.FileMarks.{before_end};
ghost use Rattle.jesc_java_grammar.specs.FileReading as spec;
ghost use Rattle.jesc_java_grammar.specs.ClassViews as views;
ghost use Rattle.jesc_java_grammar.specs.ClassViews.{heading_view};
ghost use Rattle.jesc_java_grammar.specs.Views.{part};

use crate::files::Files;
use crate::lexing::take_sign;
use crate::make_class::{Heading, make_class, with_class};
use jesc_ast::{ClassTree, Word};
use jesc_jml_grammar::cursor::Cursor;
use jesc_jml_grammar::fault::{Fault, ParseError};
use jesc_jml_grammar::grammar::turns;
use jesc_jml_grammar::part::Measured;
use jesc_text::{List, Span};

fn is_before_end(cursor: &Cursor<'_>) -> bool
    ensures { result ≡ before_end (seen cursor.now) }
{
    match cursor.rest {
        [] => false,
        [_, ..] => true,
    }
}

impl Files {
    /// Behind the heading, with the span of the first token.
    #[tactic(auto, unfolding(crate::specs::FileReading::class_rest))]
    fn class_rest(
        &self,
        cursor: &mut Cursor<'_>,
        first: Span,
        words: List<Word>,
        heading: Heading<'_>,
    ) -> Result<Measured<ClassTree>, ParseError>
        requires room { self.now.room < 1000 }
        requires side { cursor.old.note ≡ false }
        ensures reads { Reads (measured class_view) (part spec.class_rest self.now.room first words (heading_view heading.entry) (seen cursor.old)) result (seen cursor.new) }
        ensures kept { IsKept cursor.old cursor.new }
    {
        take_sign(cursor, b"{")?;
        let members = self.members(cursor)?;
        let last = take_sign(cursor, b"}")?;
        Ok(make_class(self.alloc, first, words, heading, members, last)?)
    }

    /// A class or an interface.
    #[tactic(auto, unfolding(crate::specs::FileReading::class_))]
    fn class(&self, cursor: &mut Cursor<'_>) -> Result<Measured<ClassTree>, ParseError>
        requires room { self.now.room < 1000 }
        requires side { cursor.old.note ≡ false }
        ensures reads { Reads (measured class_view) (part spec.class_ self.now.room (seen cursor.old)) result (seen cursor.new) }
        ensures kept { IsKept cursor.old cursor.new }
    {
        let first = cursor.next_span();
        let words = self.modifiers(cursor, List::new(self.alloc))?;
        let heading = self.heading(cursor)?;
        self.class_rest(cursor, first, words, heading)
    }

    /// Classes up to the end, behind others.
    #[tactic(auto, using(crate::proofs::ListTurns::until_stops, crate::proofs::ListTurns::until_goes_on, crate::proofs::ListTurns::until_ends))]
    fn more_classes(
        &self,
        cursor: &mut Cursor<'_>,
        first: Measured<List<ClassTree>>,
    ) -> Result<Measured<List<ClassTree>>, ParseError>
        requires room { self.now.room < 1000 }
        requires side { cursor.old.note ≡ false }
        ensures reads { Reads (measured (map class_view)) (views.more_classes self.now.room all_turns (measured (map class_view) first) (seen cursor.old)) result (seen cursor.new) }
        ensures kept { IsKept cursor.old cursor.new }
    {
        let mut found = first;
        let turns = turns();
        for _turn in 0..turns {
            if !is_before_end(cursor) {
                return Ok(found);
            }
            let next = self.class(cursor)?;
            found = with_class(found, next)?;
        }
        Err(ParseError::Fault(Fault::Long))
    }

    /// Classes up to the end.
    #[tactic(auto, unfolding(crate::specs::FileReading::classes))]
    pub fn classes(&self, cursor: &mut Cursor<'_>) -> Result<Measured<List<ClassTree>>, ParseError>
        requires room { self.now.room < 1000 }
        requires side { cursor.old.note ≡ false }
        ensures reads { Reads (measured (map class_view)) (part spec.classes self.now.room (seen cursor.old)) result (seen cursor.new) }
        ensures kept { IsKept cursor.old cursor.new }
    {
        let none = Measured {
            tree: List::new(self.alloc),
            depth: 0,
        };
        self.more_classes(cursor, none)
    }
}
