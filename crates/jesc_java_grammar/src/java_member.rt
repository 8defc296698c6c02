//! Members of Java, behind their specifications and modifiers.

ghost use Rattle.std.specs.Prelude.{◌≡◌, ◌<◌, false};
ghost use Rattle.jesc_ast.specs.FileTrees.{member_form};
ghost use Rattle.jesc_ast.specs.SpecTrees.{optional_spec_view};
ghost use Rattle.jesc_jml_grammar.specs.ClauseSeen.{measured, ended};
ghost use Rattle.jesc_jml_grammar.specs.Seen.{seen, lexeme, IsKept};
ghost use Rattle.jesc_jml_grammar.specs.Steps.{Reads};
ghost use Rattle.jesc_java_grammar.specs.FileReading as rules;
ghost use Rattle.jesc_java_grammar.specs.Views.{part};

use crate::files::Files;
use crate::lexing::peek_member;
use crate::make_member::MethodHead;
use crate::member_mark::MemberMark;
use crate::names::is_at;
use jesc_ast::{MemberNode, SpecTree, TypeTree, Word};
use jesc_jml_grammar::cursor::{Cursor, Lexeme};
use jesc_jml_grammar::fault::ParseError;
use jesc_jml_grammar::mark::Mark;
use jesc_jml_grammar::part::{Ended, FieldHead, Measured};
use jesc_text::List;

fn is_specified(spec: &Option<SpecTree>) -> bool
    ensures { result ≡ rules.is_specified (optional_spec_view spec.now) }
{
    match spec {
        None => false,
        Some(_) => true,
    }
}

impl Files {
    /// A method or a field, behind its type; what is specified is a method.
    #[tactic(auto, unfolding(crate::specs::FileReading::typed_form))]
    fn typed_form(
        &self,
        cursor: &mut Cursor<'_>,
        spec: Measured<Option<SpecTree>>,
        words: List<Word>,
        ty: TypeTree,
    ) -> Result<Ended<MemberNode>, ParseError>
        requires room { self.now.room < 1000 }
        requires side { cursor.old.note ≡ false }
        ensures reads { Reads (ended member_form) (part rules.typed_form self.now.room (measured optional_spec_view spec) words ty (seen cursor.old)) result (seen cursor.new) }
        ensures kept { IsKept cursor.old cursor.new }
    {
        let name = cursor.expect(Mark::Name)?;
        if is_at(cursor, Mark::LeftParen) || is_specified(&spec.tree) {
            let head = MethodHead {
                spec,
                modifiers: words,
                name,
            };
            self.method_behind(cursor, head, Some(ty))
        } else {
            self.field_behind(cursor, FieldHead { words, ty, name })
        }
    }

    /// What begins with a type that is a name, behind that name.
    #[tactic(auto, unfolding(crate::specs::FileReading::named_type))]
    fn named_type(
        &self,
        cursor: &mut Cursor<'_>,
        spec: Measured<Option<SpecTree>>,
        words: List<Word>,
        x: Lexeme<'_>,
    ) -> Result<Ended<MemberNode>, ParseError>
        requires room { self.now.room < 1000 }
        requires side { cursor.old.note ≡ false }
        ensures reads { Reads (ended member_form) (part rules.named_type self.now.room (measured optional_spec_view spec) words (lexeme x.entry) (seen cursor.old)) result (seen cursor.new) }
        ensures kept { IsKept cursor.old cursor.new }
    {
        let ty = self.code_type_behind(cursor, x)?;
        self.typed_form(cursor, spec, words, ty)
    }

    /// A constructor, or what begins with a type that is a name.
    #[tactic(auto, unfolding(crate::specs::FileReading::named_form))]
    fn named_form(
        &self,
        cursor: &mut Cursor<'_>,
        spec: Measured<Option<SpecTree>>,
        words: List<Word>,
    ) -> Result<Ended<MemberNode>, ParseError>
        requires room { self.now.room < 1000 }
        requires side { cursor.old.note ≡ false }
        ensures reads { Reads (ended member_form) (part rules.named_form self.now.room (measured optional_spec_view spec) words (seen cursor.old)) result (seen cursor.new) }
        ensures kept { IsKept cursor.old cursor.new }
    {
        let name = cursor.expect(Mark::Name)?;
        if is_at(cursor, Mark::LeftParen) {
            let head = MethodHead {
                spec,
                modifiers: words,
                name,
            };
            self.constructor_behind(cursor, head)
        } else {
            self.named_type(cursor, spec, words, name)
        }
    }

    /// What begins with a type.
    #[tactic(auto, unfolding(crate::specs::FileReading::other_type))]
    fn other_type(
        &self,
        cursor: &mut Cursor<'_>,
        spec: Measured<Option<SpecTree>>,
        words: List<Word>,
    ) -> Result<Ended<MemberNode>, ParseError>
        requires room { self.now.room < 1000 }
        requires side { cursor.old.note ≡ false }
        ensures reads { Reads (ended member_form) (part rules.other_type self.now.room (measured optional_spec_view spec) words (seen cursor.old)) result (seen cursor.new) }
        ensures kept { IsKept cursor.old cursor.new }
    {
        let ty = self.code_type(cursor)?;
        self.typed_form(cursor, spec, words, ty)
    }

    #[tactic(auto, unfolding(crate::specs::FileReading::plain_form))]
    fn plain_form(
        &self,
        cursor: &mut Cursor<'_>,
        spec: Measured<Option<SpecTree>>,
        words: List<Word>,
    ) -> Result<Ended<MemberNode>, ParseError>
        requires room { self.now.room < 1000 }
        requires side { cursor.old.note ≡ false }
        ensures reads { Reads (ended member_form) (part rules.plain_form self.now.room (measured optional_spec_view spec) words (seen cursor.old)) result (seen cursor.new) }
        ensures kept { IsKept cursor.old cursor.new }
    {
        if is_at(cursor, Mark::Name) {
            self.named_form(cursor, spec, words)
        } else {
            self.other_type(cursor, spec, words)
        }
    }

    /// A member of Java, behind its specification, which may be missing, and these modifiers.
    #[tactic(auto, unfolding(crate::specs::FileReading::java_form))]
    pub fn java_form(
        &self,
        cursor: &mut Cursor<'_>,
        spec: Measured<Option<SpecTree>>,
        words: List<Word>,
    ) -> Result<Ended<MemberNode>, ParseError>
        requires room { self.now.room < 1000 }
        requires side { cursor.old.note ≡ false }
        ensures reads { Reads (ended member_form) (part rules.java_form self.now.room (measured optional_spec_view spec) words (seen cursor.old)) result (seen cursor.new) }
        ensures kept { IsKept cursor.old cursor.new }
    {
        let all = self.modifiers(cursor, words)?;
        match peek_member(cursor) {
            MemberMark::Void => self.void_method(cursor, spec, all),
            _ => self.plain_form(cursor, spec, all),
        }
    }
}
