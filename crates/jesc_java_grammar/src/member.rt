//! Members of classes.

ghost use Rattle.std.specs.Prelude.{◌≡◌, ◌<◌, false, map};
ghost use Rattle.jesc_ast.specs.FileTrees.{member_form, member_view};
ghost use Rattle.jesc_jml_grammar.specs.ClauseSeen.{measured, ended};
ghost use Rattle.jesc_jml_grammar.specs.Reading.{turns as all_turns};
ghost use Rattle.jesc_jml_grammar.specs.Seen.{seen, IsKept};
ghost use Rattle.jesc_jml_grammar.specs.Steps.{Reads};
ghost use Rattle.jesc_java_grammar.specs.FileReading as spec;
ghost use Rattle.jesc_java_grammar.specs.ClassViews as views;
ghost use Rattle.jesc_java_grammar.specs.Views.{part};

use crate::files::Files;
use crate::lexing::is_sign;
use crate::make_class::{make_member, with_member};
use jesc_ast::{MemberNode, MemberTree};
use jesc_jml_grammar::cursor::Cursor;
use jesc_jml_grammar::fault::{Fault, ParseError};
use jesc_jml_grammar::grammar::turns;
use jesc_jml_grammar::mark::Mark;
use jesc_jml_grammar::note_word::NoteWord;
use jesc_jml_grammar::part::{Ended, Measured};
use jesc_jml_grammar::step::same_mark;
use jesc_text::List;

impl Files {
    /// A lone semicolon.
    #[tactic(auto, unfolding(crate::specs::FileReading::empty_form))]
    fn empty_form(&self, cursor: &mut Cursor<'_>) -> Result<Ended<MemberNode>, ParseError>
        requires side { cursor.old.note ≡ false }
        ensures reads { Reads (ended member_form) (part spec.empty_form self.now.room (seen cursor.old)) result (seen cursor.new) }
        ensures kept { IsKept cursor.old cursor.new }
    {
        let only = cursor.expect(Mark::Semicolon)?;
        Ok(Ended {
            tree: MemberNode::Empty,
            depth: 0,
            last: only.span,
        })
    }

    /// A member that begins with a token of code.
    #[tactic(auto, unfolding(crate::specs::FileReading::code_form))]
    fn code_form(&self, cursor: &mut Cursor<'_>) -> Result<Ended<MemberNode>, ParseError>
        requires room { self.now.room < 1000 }
        requires side { cursor.old.note ≡ false }
        ensures reads { Reads (ended member_form) (part spec.code_form self.now.room (seen cursor.old)) result (seen cursor.new) }
        ensures kept { IsKept cursor.old cursor.new }
    {
        if same_mark(cursor.peek(), Mark::Semicolon) {
            self.empty_form(cursor)
        } else {
            self.bare_form(cursor, List::new(self.alloc))
        }
    }

    #[tactic(auto, unfolding(crate::specs::FileReading::form))]
    fn form(&self, cursor: &mut Cursor<'_>) -> Result<Ended<MemberNode>, ParseError>
        requires room { self.now.room < 1000 }
        requires side { cursor.old.note ≡ false }
        ensures reads { Reads (ended member_form) (part spec.form self.now.room (seen cursor.old)) result (seen cursor.new) }
        ensures kept { IsKept cursor.old cursor.new }
    {
        match cursor.peek_word() {
            NoteWord::Visibility => self.visible_form(cursor),
            NoteWord::Instance
            | NoteWord::Modifier
            | NoteWord::Invariant
            | NoteWord::Represents
            | NoteWord::Field => self.noted_form(cursor, List::new(self.alloc)),
            NoteWord::Also
            | NoteWord::Behavior
            | NoteWord::NormalBehavior
            | NoteWord::ExceptionalBehavior
            | NoteWord::Requires
            | NoteWord::Ensures
            | NoteWord::Assignable
            | NoteWord::Signals
            | NoteWord::SignalsOnly => self.specified_form(cursor),
            _ => self.code_form(cursor),
        }
    }

    #[tactic(auto, unfolding(crate::specs::FileReading::member))]
    fn member(&self, cursor: &mut Cursor<'_>) -> Result<Measured<MemberTree>, ParseError>
        requires room { self.now.room < 1000 }
        requires side { cursor.old.note ≡ false }
        ensures reads { Reads (measured member_view) (part spec.member self.now.room (seen cursor.old)) result (seen cursor.new) }
        ensures kept { IsKept cursor.old cursor.new }
    {
        let first = cursor.next_span();
        let form = self.form(cursor)?;
        Ok(make_member(self.alloc, first, form)?)
    }

    /// Members up to a brace, behind others.
    #[tactic(auto, using(crate::proofs::ListTurns::until_stops, crate::proofs::ListTurns::until_goes_on, crate::proofs::ListTurns::until_ends))]
    fn more_members(
        &self,
        cursor: &mut Cursor<'_>,
        first: Measured<List<MemberTree>>,
    ) -> Result<Measured<List<MemberTree>>, ParseError>
        requires room { self.now.room < 1000 }
        requires side { cursor.old.note ≡ false }
        ensures reads { Reads (measured (map member_view)) (views.more_members self.now.room all_turns (measured (map member_view) first) (seen cursor.old)) result (seen cursor.new) }
        ensures kept { IsKept cursor.old cursor.new }
    {
        let mut found = first;
        let turns = turns();
        for _turn in 0..turns {
            if is_sign(cursor, b"}") {
                return Ok(found);
            }
            let next = self.member(cursor)?;
            found = with_member(found, next)?;
        }
        Err(ParseError::Fault(Fault::Long))
    }

    /// Members up to a brace.
    #[tactic(auto, unfolding(crate::specs::FileReading::members))]
    pub fn members(&self, cursor: &mut Cursor<'_>) -> Result<Measured<List<MemberTree>>, ParseError>
        requires room { self.now.room < 1000 }
        requires side { cursor.old.note ≡ false }
        ensures reads { Reads (measured (map member_view)) (part spec.members self.now.room (seen cursor.old)) result (seen cursor.new) }
        ensures kept { IsKept cursor.old cursor.new }
    {
        let none = Measured {
            tree: List::new(self.alloc),
            depth: 0,
        };
        self.more_members(cursor, none)
    }
}
