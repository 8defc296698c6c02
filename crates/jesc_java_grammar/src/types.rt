//! Types of code.

ghost use Rattle.std.specs.Prelude.{◌≡◌, false};
ghost use Rattle.jesc_jml_grammar.specs.Seen.{seen, lexeme, IsKept};
ghost use Rattle.jesc_jml_grammar.specs.Steps.{Reads};
ghost use Rattle.jesc_java_grammar.specs.FileViews as views;

use crate::files::Files;
use crate::part::QUANTIFIERS;
use jesc_ast::TypeTree;
use jesc_jml_grammar::cursor::{Cursor, Lexeme};
use jesc_jml_grammar::expr::expr;
use jesc_jml_grammar::fault::ParseError;
use jesc_jml_grammar::grammar::Grammar;

impl Files {
    /// A type.
    pub fn code_type(&self, cursor: &mut Cursor<'_>) -> Result<TypeTree, ParseError>
        requires side { cursor.old.note ≡ false }
        ensures reads { Reads (λ t. t) (views.code_type self.now.room (seen cursor.old)) result (seen cursor.new) }
        ensures kept { IsKept cursor.old cursor.new }
    {
        Grammar {
            alloc: self.alloc,
            room: self.room,
            quantifiers: QUANTIFIERS,
            expr,
        }
        .type_(cursor)
    }

    /// A type, behind its first word.
    pub fn code_type_behind(
        &self,
        cursor: &mut Cursor<'_>,
        x: Lexeme<'_>,
    ) -> Result<TypeTree, ParseError>
        requires side { cursor.old.note ≡ false }
        ensures reads { Reads (λ t. t) (views.code_type_behind self.now.room (lexeme x.entry) (seen cursor.old)) result (seen cursor.new) }
        ensures kept { IsKept cursor.old cursor.new }
    {
        Grammar {
            alloc: self.alloc,
            room: self.room,
            quantifiers: QUANTIFIERS,
            expr,
        }
        .type_behind(cursor, x)
    }
}
