//! Fields, behind their names.

ghost use Rattle.std.specs.Prelude.{◌≡◌, ◌<◌, false};
ghost use Rattle.jesc_ast.specs.FileTrees.{member_form};
ghost use Rattle.jesc_jml_grammar.specs.ClauseReading.{groups as groups_rule};
ghost use Rattle.jesc_jml_grammar.specs.ClauseSeen.{note_rule, ended, value_seen};
ghost use Rattle.jesc_jml_grammar.specs.Seen.{seen, lexeme, IsKept};
ghost use Rattle.jesc_jml_grammar.specs.Steps.{Reads};
ghost use Rattle.jesc_java_grammar.specs.FileReading as spec;
ghost use Rattle.jesc_java_grammar.specs.Views.{part};

use crate::files::Files;
use crate::lexing::{is_sign, take_sign};
use crate::make_member::make_field;
use crate::part::{Parts, QUANTIFIERS};
use jesc_ast::{MemberNode, Word};
use jesc_jml_grammar::cursor::{Cursor, Lexeme};
use jesc_jml_grammar::expr::expr;
use jesc_jml_grammar::fault::ParseError;
use jesc_jml_grammar::grammar::Grammar;
use jesc_jml_grammar::make_form::make_value;
use jesc_jml_grammar::mark::Mark;
use jesc_jml_grammar::part::{Ended, FieldHead, Value};
use jesc_text::List;

impl Files {
    /// An initial value that may be missing.
    #[tactic(auto, unfolding(crate::specs::FileReading::value, crate::specs::FileReading::some_value))]
    fn value(&self, cursor: &mut Cursor<'_>) -> Result<Value, ParseError>
        requires room { self.now.room < 1000 }
        requires side { cursor.old.note ≡ false }
        ensures reads { Reads value_seen (part spec.value self.now.room (seen cursor.old)) result (seen cursor.new) }
        ensures kept { IsKept cursor.old cursor.new }
    {
        if !is_sign(cursor, b"=") {
            return Ok(Value {
                equals: None,
                e: None,
                depth: 0,
            });
        }
        let equals = take_sign(cursor, b"=")?;
        let e = Parts {
            alloc: self.alloc,
            room: self.room,
        }
        .whole(cursor)?;
        Ok(make_value(equals, e))
    }

    /// The data groups of a field, which stand in an annotation and may be missing, behind the field's semicolon.
    fn groups(
        &self,
        cursor: &mut Cursor<'_>,
        last: Lexeme<'_>,
    ) -> Result<Ended<List<Word>>, ParseError>
        requires side { cursor.old.note ≡ false }
        ensures reads { Reads (ended (λ words. words)) (note_rule groups_rule self.now.room 3 (lexeme last.entry) (seen cursor.old)) result (seen cursor.new) }
        ensures kept { IsKept cursor.old cursor.new }
    {
        let grammar = Grammar {
            alloc: self.alloc,
            room: self.room,
            quantifiers: QUANTIFIERS,
            expr,
        };
        cursor.note = true;
        let found = grammar.groups(cursor, last);
        cursor.note = false;
        found
    }

    /// A field, behind its name.
    #[tactic(auto, unfolding(crate::specs::FileReading::field_behind))]
    pub fn field_behind(
        &self,
        cursor: &mut Cursor<'_>,
        head: FieldHead<'_>,
    ) -> Result<Ended<MemberNode>, ParseError>
        requires room { self.now.room < 1000 }
        requires side { cursor.old.note ≡ false }
        ensures reads { Reads (ended member_form) (part spec.field_behind self.now.room head.entry.words head.entry.ty (lexeme head.entry.name) (seen cursor.old)) result (seen cursor.new) }
        ensures kept { IsKept cursor.old cursor.new }
    {
        let value = self.value(cursor)?;
        let last = cursor.expect(Mark::Semicolon)?;
        let groups = self.groups(cursor, last)?;
        Ok(make_field(self.alloc, head, value, groups)?)
    }
}
