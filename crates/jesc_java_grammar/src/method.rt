//! Methods and constructors, behind their names.

ghost use Rattle.std.specs.Prelude.{◌≡◌, ◌<◌, false};
ghost use Rattle.jesc_ast.specs.FileTrees.{member_form, optional_body_view};
ghost use Rattle.jesc_ast.specs.SpecTrees.{optional_spec_view};
ghost use Rattle.jesc_jml_grammar.specs.ClauseSeen.{measured, ended};
ghost use Rattle.jesc_jml_grammar.specs.Seen.{seen, lexeme, IsKept};
ghost use Rattle.jesc_jml_grammar.specs.Steps.{Reads};
ghost use Rattle.jesc_java_grammar.specs.FileReading as rules;
ghost use Rattle.jesc_java_grammar.specs.Views.{part};

use crate::body::Statements;
use crate::files::Files;
use crate::lexing::take_word;
use crate::make_member::{MethodHead, make_constructor, make_method, some_body};
use crate::names::is_at;
use crate::statement::statement;
use jesc_ast::{BodyTree, MemberNode, SpecTree, TypeTree, Word};
use jesc_jml_grammar::cursor::Cursor;
use jesc_jml_grammar::fault::ParseError;
use jesc_jml_grammar::mark::Mark;
use jesc_jml_grammar::part::{Ended, Measured};
use jesc_text::List;

impl Files {
    /// A body, or a semicolon in its place.
    #[tactic(auto, unfolding(crate::specs::FileReading::method_body, crate::specs::FileReading::no_body, crate::specs::FileReading::braced_body))]
    fn method_body(&self, cursor: &mut Cursor<'_>) -> Result<Ended<Option<BodyTree>>, ParseError>
        requires room { self.now.room < 1000 }
        requires side { cursor.old.note ≡ false }
        ensures reads { Reads (ended optional_body_view) (part rules.method_body self.now.room (seen cursor.old)) result (seen cursor.new) }
        ensures kept { IsKept cursor.old cursor.new }
    {
        if is_at(cursor, Mark::Semicolon) {
            let only = cursor.expect(Mark::Semicolon)?;
            return Ok(Ended {
                tree: None,
                depth: 0,
                last: only.span,
            });
        }
        let body = Statements {
            alloc: self.alloc,
            room: self.room,
            statement,
        }
        .braced(cursor)?;
        Ok(some_body(body))
    }

    /// A method, behind its name.
    #[tactic(auto, unfolding(crate::specs::FileReading::method_behind))]
    pub fn method_behind(
        &self,
        cursor: &mut Cursor<'_>,
        head: MethodHead<'_>,
        ty: Option<TypeTree>,
    ) -> Result<Ended<MemberNode>, ParseError>
        requires room { self.now.room < 1000 }
        requires side { cursor.old.note ≡ false }
        ensures reads { Reads (ended member_form) (part rules.method_behind self.now.room (measured optional_spec_view head.entry.spec) head.entry.modifiers ty (lexeme head.entry.name) (seen cursor.old)) result (seen cursor.new) }
        ensures kept { IsKept cursor.old cursor.new }
    {
        let signature = self.signature(cursor)?;
        let body = self.method_body(cursor)?;
        Ok(make_method(self.alloc, head, ty, signature, body)?)
    }

    /// A constructor, behind its name.
    #[tactic(auto, unfolding(crate::specs::FileReading::constructor_behind))]
    pub fn constructor_behind(
        &self,
        cursor: &mut Cursor<'_>,
        head: MethodHead<'_>,
    ) -> Result<Ended<MemberNode>, ParseError>
        requires room { self.now.room < 1000 }
        requires side { cursor.old.note ≡ false }
        ensures reads { Reads (ended member_form) (part rules.constructor_behind self.now.room (measured optional_spec_view head.entry.spec) head.entry.modifiers (lexeme head.entry.name) (seen cursor.old)) result (seen cursor.new) }
        ensures kept { IsKept cursor.old cursor.new }
    {
        let signature = self.signature(cursor)?;
        let body = Statements {
            alloc: self.alloc,
            room: self.room,
            statement,
        }
        .constructor_body(cursor)?;
        Ok(make_constructor(self.alloc, head, signature, body)?)
    }

    /// A method without a result, behind its modifiers.
    #[tactic(auto, unfolding(crate::specs::FileReading::void_method))]
    pub fn void_method(
        &self,
        cursor: &mut Cursor<'_>,
        spec: Measured<Option<SpecTree>>,
        modifiers: List<Word>,
    ) -> Result<Ended<MemberNode>, ParseError>
        requires room { self.now.room < 1000 }
        requires side { cursor.old.note ≡ false }
        ensures reads { Reads (ended member_form) (part rules.void_method self.now.room (measured optional_spec_view spec) modifiers (seen cursor.old)) result (seen cursor.new) }
        ensures kept { IsKept cursor.old cursor.new }
    {
        take_word(cursor, b"void")?;
        let name = cursor.expect(Mark::Name)?;
        let head = MethodHead {
            spec,
            modifiers,
            name,
        };
        self.method_behind(cursor, head, None)
    }
}
