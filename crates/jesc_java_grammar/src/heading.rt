//! What classes begin with, behind their modifiers.

ghost use Rattle.std.specs.Prelude.{◌≡◌, false};
ghost use Rattle.jesc_jml_grammar.specs.Seen.{seen, IsKept};
ghost use Rattle.jesc_jml_grammar.specs.Steps.{Reads};
ghost use Rattle.jesc_java_grammar.specs.FileReading as spec;
ghost use Rattle.jesc_java_grammar.specs.ClassViews.{heading_view};
ghost use Rattle.jesc_java_grammar.specs.Views.{part};

use crate::files::Files;
use crate::lexing::{is_word, peek_member, take_word};
use crate::make_class::Heading;
use crate::member_mark::MemberMark;
use jesc_ast::Word;
use jesc_jml_grammar::cursor::Cursor;
use jesc_jml_grammar::fault::ParseError;
use jesc_jml_grammar::lists::with_word;
use jesc_jml_grammar::mark::Mark;
use jesc_text::List;

impl Files {
    /// The class that a class extends, or none.
    #[tactic(auto, unfolding(crate::specs::FileReading::superclass))]
    fn superclass(&self, cursor: &mut Cursor<'_>) -> Result<List<Word>, ParseError>
        requires side { cursor.old.note ≡ false }
        ensures reads { Reads (λ words. words) (part spec.superclass self.now.room (seen cursor.old)) result (seen cursor.new) }
        ensures kept { IsKept cursor.old cursor.new }
    {
        if !is_word(cursor, b"extends") {
            return Ok(List::new(self.alloc));
        }
        take_word(cursor, b"extends")?;
        let x = cursor.expect(Mark::Name)?;
        Ok(with_word(self.alloc, List::new(self.alloc), x)?)
    }

    #[tactic(auto, unfolding(crate::specs::FileReading::class_heading))]
    fn class_heading<'a>(&self, cursor: &mut Cursor<'a>) -> Result<Heading<'a>, ParseError>
        requires side { cursor.old.note ≡ false }
        ensures reads { Reads heading_view (part spec.class_heading self.now.room (seen cursor.old)) result (seen cursor.new) }
        ensures kept { IsKept cursor.old cursor.new }
    {
        take_word(cursor, b"class")?;
        let name = cursor.expect(Mark::Name)?;
        let extends = self.superclass(cursor)?;
        let implements = self.names_after(cursor, b"implements")?;
        Ok(Heading {
            is_interface: false,
            name,
            extends,
            implements,
        })
    }

    #[tactic(auto, unfolding(crate::specs::FileReading::interface_heading))]
    fn interface_heading<'a>(&self, cursor: &mut Cursor<'a>) -> Result<Heading<'a>, ParseError>
        requires side { cursor.old.note ≡ false }
        ensures reads { Reads heading_view (part spec.interface_heading self.now.room (seen cursor.old)) result (seen cursor.new) }
        ensures kept { IsKept cursor.old cursor.new }
    {
        take_word(cursor, b"interface")?;
        let name = cursor.expect(Mark::Name)?;
        let extends = self.names_after(cursor, b"extends")?;
        Ok(Heading {
            is_interface: true,
            name,
            extends,
            implements: List::new(self.alloc),
        })
    }

    #[tactic(auto, unfolding(crate::specs::FileReading::heading))]
    pub fn heading<'a>(&self, cursor: &mut Cursor<'a>) -> Result<Heading<'a>, ParseError>
        requires side { cursor.old.note ≡ false }
        ensures reads { Reads heading_view (part spec.heading self.now.room (seen cursor.old)) result (seen cursor.new) }
        ensures kept { IsKept cursor.old cursor.new }
    {
        match peek_member(cursor) {
            MemberMark::Class => self.class_heading(cursor),
            MemberMark::Interface => self.interface_heading(cursor),
            _ => Err(cursor.refuse()),
        }
    }
}
