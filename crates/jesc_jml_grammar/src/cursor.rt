//! A place among tokens, seen from one side.

ghost use Rattle.std.specs.Prelude.{length, IsTrue};
ghost use Rattle.std.specs.List.{list_all};
ghost use Rattle.jesc_ast.specs.Lexemes.{is_within};

use jesc_lexer::{Token, TokenKind};
use jesc_text::Span;

/// A token with its text.
#[derive(Drop, Clone, Copy)]
pub struct Lexeme<'a> {
    pub kind: TokenKind,
    pub text: &'a [u8],
    pub span: Span,
    pub note: bool,
}

/// The tokens that are left of a text, seen from code or, with `note`, from annotations.
#[derive(Drop)]
pub struct Cursor<'a> {
    pub text: &'a [u8],
    pub rest: &'a [Token],
    pub note: bool,
    ghost within: { IsTrue (list_all (is_within (length text.now)) rest.now) },
}
