//! Members that stand in annotations: invariants, represents clauses and specification fields.

ghost use Rattle.std.specs.Prelude.{◌≡◌, true};
ghost use Rattle.jesc_jml_grammar.specs.Steps.{Reads};
ghost use Rattle.jesc_jml_grammar.specs.Seen.{seen, lexeme, IsKept};
ghost use Rattle.jesc_jml_grammar.specs.Nests.{Nests};
ghost use Rattle.jesc_jml_grammar.specs.ClauseReading as rules;
ghost use Rattle.jesc_ast.specs.FileTrees.{member_form, member_view};
ghost use Rattle.jesc_jml_grammar.specs.ClauseSeen.{note_rule, measured, ended, value_seen};

use crate::cursor::{Cursor, Lexeme};
use crate::fault::ParseError;
use crate::found::{Found, Start};
use crate::grammar::Grammar;
use crate::lists::with_word;
use crate::make_form::{
    allow_field, allow_invariant, allow_represents, make_annotated, make_field, make_invariant,
    make_represents, make_value,
};
use crate::mark::Mark;
use crate::note_word::{NoteWord, is_represents_sign};
use crate::part::{Ended, FieldHead, Measured, Value};
use jesc_ast::{MemberNode, MemberTree, Word};
use jesc_text::{List, Span};
use std::alloc::Global;

impl<
    F: Fn(Global, &mut Cursor<'_>, usize, usize, usize, Start<'_>) -> Result<Found, ParseError>,
> Grammar<F> {
    /// An invariant, behind its modifiers.
    #[tactic(auto, unfolding(crate::specs::ClauseReading::invariant_behind))]
    fn invariant_behind(
        &self,
        cursor: &mut Cursor<'_>,
        words: List<Word>,
    ) -> Result<Ended<MemberNode>, ParseError>
        requires nests { Nests self.now.room (F.pre self.now.expr) (F.post self.now.expr) }
        requires side { cursor.old.note ≡ true }
        ensures reads { Reads (ended member_form) (note_rule rules.invariant_behind self.now.room self.now.quantifiers words (seen cursor.old)) result (seen cursor.new) }
        ensures kept { IsKept cursor.old cursor.new }
    {
        cursor.expect_word(NoteWord::Invariant)?;
        let e = self.expression(cursor)?;
        let last = cursor.expect_note(Mark::Semicolon)?;
        Ok(make_invariant(self.alloc, words, e, last)?)
    }

    #[tactic(auto, unfolding(crate::specs::ClauseReading::represents_sign))]
    fn represents_sign<'a>(&self, cursor: &mut Cursor<'a>) -> Result<Lexeme<'a>, ParseError>
        ensures reads { Reads lexeme (note_rule rules.represents_sign self.now.room self.now.quantifiers (seen cursor.old)) result (seen cursor.new) }
        ensures kept { IsKept cursor.old cursor.new }
    {
        if is_represents_sign(cursor.peek_word()) {
            cursor.take_one()
        } else {
            Err(cursor.refuse())
        }
    }

    /// A represents clause, behind its modifiers.
    #[tactic(auto, unfolding(crate::specs::ClauseReading::represents_behind))]
    fn represents_behind(
        &self,
        cursor: &mut Cursor<'_>,
        words: &List<Word>,
    ) -> Result<Ended<MemberNode>, ParseError>
        requires nests { Nests self.now.room (F.pre self.now.expr) (F.post self.now.expr) }
        requires side { cursor.old.note ≡ true }
        ensures reads { Reads (ended member_form) (note_rule rules.represents_behind self.now.room self.now.quantifiers words.now (seen cursor.old)) result (seen cursor.new) }
        ensures kept { IsKept cursor.old cursor.new }
    {
        cursor.expect_word(NoteWord::Represents)?;
        let x = cursor.expect_note(Mark::Name)?;
        let sign = self.represents_sign(cursor)?;
        let e = self.expression(cursor)?;
        let last = cursor.expect_note(Mark::Semicolon)?;
        Ok(make_represents(self.alloc, words, x, sign, e, last)?)
    }

    /// An initial value that may be missing.
    #[tactic(auto, unfolding(crate::specs::ClauseReading::value, crate::specs::ClauseReading::some_value))]
    fn value(&self, cursor: &mut Cursor<'_>) -> Result<Value, ParseError>
        requires nests { Nests self.now.room (F.pre self.now.expr) (F.post self.now.expr) }
        requires side { cursor.old.note ≡ true }
        ensures reads { Reads value_seen (note_rule rules.value self.now.room self.now.quantifiers (seen cursor.old)) result (seen cursor.new) }
        ensures kept { IsKept cursor.old cursor.new }
    {
        if cursor.is_at_word(NoteWord::Equals) {
            let equals = cursor.expect_word(NoteWord::Equals)?;
            let e = self.expression(cursor)?;
            return Ok(make_value(equals, e));
        }
        Ok(Value {
            equals: None,
            e: None,
            depth: 0,
        })
    }

    /// The data groups of a field, which may be missing, behind the field's semicolon.
    #[tactic(auto, unfolding(crate::specs::ClauseReading::groups, crate::specs::ClauseReading::some_groups))]
    pub fn groups(
        &self,
        cursor: &mut Cursor<'_>,
        last: Lexeme<'_>,
    ) -> Result<Ended<List<Word>>, ParseError>
        requires side { cursor.old.note ≡ true }
        ensures reads { Reads (ended (λ words. words)) (note_rule rules.groups self.now.room self.now.quantifiers (lexeme last.entry) (seen cursor.old)) result (seen cursor.new) }
        ensures kept { IsKept cursor.old cursor.new }
    {
        if !cursor.is_at_word(NoteWord::In) {
            return Ok(Ended {
                tree: List::new(self.alloc),
                depth: 0,
                last: last.span,
            });
        }
        cursor.expect_word(NoteWord::In)?;
        let words = self.names(cursor)?;
        let last = cursor.expect_note(Mark::Semicolon)?;
        Ok(Ended {
            tree: words,
            depth: 0,
            last: last.span,
        })
    }

    /// Behind the type and the name of a field.
    #[tactic(auto, unfolding(crate::specs::ClauseReading::field_ending))]
    fn field_ending(
        &self,
        cursor: &mut Cursor<'_>,
        head: FieldHead<'_>,
    ) -> Result<Ended<MemberNode>, ParseError>
        requires nests { Nests self.now.room (F.pre self.now.expr) (F.post self.now.expr) }
        requires side { cursor.old.note ≡ true }
        ensures reads { Reads (ended member_form) (note_rule rules.field_ending self.now.room self.now.quantifiers head.entry.words head.entry.ty (lexeme head.entry.name) (seen cursor.old)) result (seen cursor.new) }
        ensures kept { IsKept cursor.old cursor.new }
    {
        let value = self.value(cursor)?;
        let last = cursor.expect_note(Mark::Semicolon)?;
        let groups = self.groups(cursor, last)?;
        Ok(make_field(self.alloc, head, value, groups)?)
    }

    /// A field, behind all its modifiers.
    #[tactic(auto, unfolding(crate::specs::ClauseReading::field_behind))]
    fn field_behind(
        &self,
        cursor: &mut Cursor<'_>,
        words: List<Word>,
    ) -> Result<Ended<MemberNode>, ParseError>
        requires nests { Nests self.now.room (F.pre self.now.expr) (F.post self.now.expr) }
        requires side { cursor.old.note ≡ true }
        ensures reads { Reads (ended member_form) (note_rule rules.field_behind self.now.room self.now.quantifiers words (seen cursor.old)) result (seen cursor.new) }
        ensures kept { IsKept cursor.old cursor.new }
    {
        let ty = self.type_(cursor)?;
        let name = cursor.expect_note(Mark::Name)?;
        self.field_ending(cursor, FieldHead { words, ty, name })
    }

    /// A specification field, behind the modifiers before `ghost` or `model`.
    #[tactic(auto, unfolding(crate::specs::ClauseReading::spec_field_behind))]
    fn spec_field_behind(
        &self,
        cursor: &mut Cursor<'_>,
        words: List<Word>,
    ) -> Result<Ended<MemberNode>, ParseError>
        requires nests { Nests self.now.room (F.pre self.now.expr) (F.post self.now.expr) }
        requires side { cursor.old.note ≡ true }
        ensures reads { Reads (ended member_form) (note_rule rules.spec_field_behind self.now.room self.now.quantifiers words (seen cursor.old)) result (seen cursor.new) }
        ensures kept { IsKept cursor.old cursor.new }
    {
        let x = cursor.expect_word(NoteWord::Field)?;
        let some = with_word(self.alloc, words, x)?;
        let all = self.modifiers(cursor, some)?;
        self.field_behind(cursor, all)
    }

    #[tactic(auto, unfolding(crate::specs::ClauseReading::form_behind))]
    pub fn form_behind(
        &self,
        cursor: &mut Cursor<'_>,
        words: List<Word>,
    ) -> Result<Ended<MemberNode>, ParseError>
        requires nests { Nests self.now.room (F.pre self.now.expr) (F.post self.now.expr) }
        requires side { cursor.old.note ≡ true }
        ensures reads { Reads (ended member_form) (note_rule rules.form_behind self.now.room self.now.quantifiers words (seen cursor.old)) result (seen cursor.new) }
        ensures kept { IsKept cursor.old cursor.new }
    {
        match cursor.peek_word() {
            NoteWord::Invariant if allow_invariant(&words) => self.invariant_behind(cursor, words),
            NoteWord::Represents if allow_represents(&words) => self.represents_behind(
                cursor, &words,
            ),
            NoteWord::Field if allow_field(&words) => self.spec_field_behind(cursor, words),
            _ => Err(cursor.refuse()),
        }
    }

    /// A member that stands in annotations, behind modifiers that were read before, of which `first` is the first span.
    #[tactic(auto, unfolding(crate::specs::ClauseReading::member_behind))]
    pub fn member_behind(
        &self,
        cursor: &mut Cursor<'_>,
        first: Span,
        words: List<Word>,
    ) -> Result<Measured<MemberTree>, ParseError>
        requires nests { Nests self.now.room (F.pre self.now.expr) (F.post self.now.expr) }
        requires side { cursor.old.note ≡ true }
        ensures reads { Reads (measured member_view) (note_rule rules.member_behind self.now.room self.now.quantifiers first words (seen cursor.old)) result (seen cursor.new) }
        ensures kept { IsKept cursor.old cursor.new }
    {
        let form = self.form_behind(cursor, words)?;
        Ok(make_annotated(self.alloc, first, form)?)
    }

    /// The longest invariant, represents clause or specification field.
    #[tactic(auto, unfolding(crate::specs::ClauseReading::member_annotation))]
    pub fn member_annotation(
        &self,
        cursor: &mut Cursor<'_>,
    ) -> Result<Measured<MemberTree>, ParseError>
        requires nests { Nests self.now.room (F.pre self.now.expr) (F.post self.now.expr) }
        requires side { cursor.old.note ≡ true }
        ensures reads { Reads (measured member_view) (note_rule rules.member_annotation self.now.room self.now.quantifiers (seen cursor.old)) result (seen cursor.new) }
        ensures kept { IsKept cursor.old cursor.new }
    {
        let first = cursor.next_span();
        let words = self.modifiers(cursor, List::new(self.alloc))?;
        self.member_behind(cursor, first, words)
    }
}
