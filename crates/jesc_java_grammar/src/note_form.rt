//! Members that begin with a specification, and members that stand in annotations.

ghost use Rattle.std.specs.Prelude.{◌≡◌, ◌<◌, false};
ghost use Rattle.jesc_ast.specs.FileTrees.{member_form};
ghost use Rattle.jesc_ast.specs.SpecTrees.{spec_view, optional_spec_view};
ghost use Rattle.jesc_jml_grammar.specs.ClauseReading as clauses;
ghost use Rattle.jesc_jml_grammar.specs.ClauseSeen.{measured, ended, note_rule};
ghost use Rattle.jesc_jml_grammar.specs.Seen.{seen, lexeme, IsKept};
ghost use Rattle.jesc_jml_grammar.specs.Steps.{Reads};
ghost use Rattle.jesc_java_grammar.specs.FileReading as spec;
ghost use Rattle.jesc_java_grammar.specs.Views.{part};

use crate::files::Files;
use crate::part::QUANTIFIERS;
use jesc_ast::{MemberNode, SpecTree, Word};
use jesc_jml_grammar::cursor::{Cursor, Lexeme};
use jesc_jml_grammar::expr::expr;
use jesc_jml_grammar::fault::ParseError;
use jesc_jml_grammar::grammar::Grammar;
use jesc_jml_grammar::lists::with_word;
use jesc_jml_grammar::note_word::{NoteWord, is_heading_word};
use jesc_jml_grammar::part::{Ended, Measured};
use jesc_text::List;

fn some_spec(t: Measured<SpecTree>) -> Measured<Option<SpecTree>>
    ensures { measured optional_spec_view result ≡ spec.some_spec (measured spec_view t) }
{
    Measured {
        tree: Some(t.tree),
        depth: t.depth,
    }
}

impl Files {
    // What stands in annotations, seen from the code around.

    fn specification(&self, cursor: &mut Cursor<'_>) -> Result<Measured<SpecTree>, ParseError>
        requires room { self.now.room < 1000 }
        requires side { cursor.old.note ≡ false }
        ensures reads { Reads (measured spec_view) (note_rule clauses.specification self.now.room 3 (seen cursor.old)) result (seen cursor.new) }
        ensures kept { IsKept cursor.old cursor.new }
    {
        cursor.note = true;
        let found = Grammar {
            alloc: self.alloc,
            room: self.room,
            quantifiers: QUANTIFIERS,
            expr,
        }
        .specification(cursor);
        cursor.note = false;
        found
    }

    fn specification_behind(
        &self,
        cursor: &mut Cursor<'_>,
        visibility: Lexeme<'_>,
    ) -> Result<Measured<SpecTree>, ParseError>
        requires room { self.now.room < 1000 }
        requires side { cursor.old.note ≡ false }
        ensures reads { Reads (measured spec_view) (note_rule clauses.specification_behind self.now.room 3 (lexeme visibility.entry) (seen cursor.old)) result (seen cursor.new) }
        ensures kept { IsKept cursor.old cursor.new }
    {
        cursor.note = true;
        let found = Grammar {
            alloc: self.alloc,
            room: self.room,
            quantifiers: QUANTIFIERS,
            expr,
        }
        .specification_behind(cursor, visibility);
        cursor.note = false;
        found
    }

    fn note_modifiers(
        &self,
        cursor: &mut Cursor<'_>,
        words: List<Word>,
    ) -> Result<List<Word>, ParseError>
        requires side { cursor.old.note ≡ false }
        ensures reads { Reads (λ words. words) (note_rule clauses.modifiers self.now.room 3 words (seen cursor.old)) result (seen cursor.new) }
        ensures kept { IsKept cursor.old cursor.new }
    {
        cursor.note = true;
        let found = Grammar {
            alloc: self.alloc,
            room: self.room,
            quantifiers: QUANTIFIERS,
            expr,
        }
        .modifiers(cursor, words);
        cursor.note = false;
        found
    }

    /// An invariant, a represents clause or a specification field, behind these modifiers.
    fn note_form(
        &self,
        cursor: &mut Cursor<'_>,
        words: List<Word>,
    ) -> Result<Ended<MemberNode>, ParseError>
        requires room { self.now.room < 1000 }
        requires side { cursor.old.note ≡ false }
        ensures reads { Reads (ended member_form) (part spec.note_form self.now.room words (seen cursor.old)) result (seen cursor.new) }
        ensures kept { IsKept cursor.old cursor.new }
    {
        cursor.note = true;
        let found = Grammar {
            alloc: self.alloc,
            room: self.room,
            quantifiers: QUANTIFIERS,
            expr,
        }
        .form_behind(cursor, words);
        cursor.note = false;
        found
    }

    // Members.

    /// A member of code without a specification, behind these modifiers.
    pub fn bare_form(
        &self,
        cursor: &mut Cursor<'_>,
        words: List<Word>,
    ) -> Result<Ended<MemberNode>, ParseError>
        requires room { self.now.room < 1000 }
        requires side { cursor.old.note ≡ false }
        ensures reads { Reads (ended member_form) (part spec.java_form self.now.room spec.no_spec words (seen cursor.old)) result (seen cursor.new) }
        ensures kept { IsKept cursor.old cursor.new }
    {
        let none = Measured {
            tree: None,
            depth: 0,
        };
        self.java_form(cursor, none, words)
    }

    /// A member that begins with a specification.
    #[tactic(auto, unfolding(crate::specs::FileReading::specified_form))]
    pub fn specified_form(&self, cursor: &mut Cursor<'_>) -> Result<Ended<MemberNode>, ParseError>
        requires room { self.now.room < 1000 }
        requires side { cursor.old.note ≡ false }
        ensures reads { Reads (ended member_form) (part spec.specified_form self.now.room (seen cursor.old)) result (seen cursor.new) }
        ensures kept { IsKept cursor.old cursor.new }
    {
        let t = self.specification(cursor)?;
        self.java_form(cursor, some_spec(t), List::new(self.alloc))
    }

    /// The same, behind the visibility that the specification begins with.
    #[tactic(auto, unfolding(crate::specs::FileReading::specified_behind))]
    fn specified_behind(
        &self,
        cursor: &mut Cursor<'_>,
        visibility: Lexeme<'_>,
    ) -> Result<Ended<MemberNode>, ParseError>
        requires room { self.now.room < 1000 }
        requires side { cursor.old.note ≡ false }
        ensures reads { Reads (ended member_form) (part spec.specified_behind self.now.room (lexeme visibility.entry) (seen cursor.old)) result (seen cursor.new) }
        ensures kept { IsKept cursor.old cursor.new }
    {
        let t = self.specification_behind(cursor, visibility)?;
        self.java_form(cursor, some_spec(t), List::new(self.alloc))
    }

    /// A member behind modifiers of an annotation, of which more may come.
    #[tactic(auto, unfolding(crate::specs::FileReading::noted_form))]
    pub fn noted_form(
        &self,
        cursor: &mut Cursor<'_>,
        words: List<Word>,
    ) -> Result<Ended<MemberNode>, ParseError>
        requires room { self.now.room < 1000 }
        requires side { cursor.old.note ≡ false }
        ensures reads { Reads (ended member_form) (part spec.noted_form self.now.room words (seen cursor.old)) result (seen cursor.new) }
        ensures kept { IsKept cursor.old cursor.new }
    {
        let all = self.note_modifiers(cursor, words)?;
        match cursor.peek_word() {
            NoteWord::Invariant | NoteWord::Represents | NoteWord::Field => {
                self.note_form(cursor, all)
            }
            _ => self.bare_form(cursor, all),
        }
    }

    /// A member that begins with the visibility of an annotation.
    #[tactic(auto, unfolding(crate::specs::FileReading::visible_form))]
    pub fn visible_form(&self, cursor: &mut Cursor<'_>) -> Result<Ended<MemberNode>, ParseError>
        requires room { self.now.room < 1000 }
        requires side { cursor.old.note ≡ false }
        ensures reads { Reads (ended member_form) (part spec.visible_form self.now.room (seen cursor.old)) result (seen cursor.new) }
        ensures kept { IsKept cursor.old cursor.new }
    {
        let visibility = cursor.expect_word(NoteWord::Visibility)?;
        if is_heading_word(cursor.peek_word()) {
            return self.specified_behind(cursor, visibility);
        }
        let words = with_word(self.alloc, List::new(self.alloc), visibility)?;
        self.noted_form(cursor, words)
    }
}
