//! A token with its text, and tests of it.

ghost use Rattle.std.specs.Prelude.{◌≡◌, length, IsTrue};
ghost use Rattle.jesc_ast.specs.Lexemes.{is_within, lexeme_of};
ghost use Rattle.jesc_first.specs.Parsing.{same_kind, is_plain, is_token};
ghost use Rattle.jesc_first.specs.Seen.{lexeme};

use jesc_lexer::{Token, TokenKind};
use jesc_text::Span;

/// A token with its text.
#[derive(Debug, Drop, Clone, Copy)]
pub struct Lexeme<'a> {
    pub kind: TokenKind,
    pub text: &'a [u8],
    pub span: Span,
    pub note: bool,
}

/// The token with its slice of the text.
pub fn lexeme_at<'a>(text: &'a [u8], token: &Token) -> Lexeme<'a>
    requires { IsTrue (is_within (length text.now) token.now) }
    ensures { lexeme result ≡ lexeme_of text.now token.now }
{
    Lexeme {
        kind: token.kind,
        text: &text[token.span.from as usize..token.span.to as usize],
        span: token.span,
        note: token.note,
    }
}

pub fn is_of_kind(found: &Lexeme<'_>, kind: TokenKind) -> bool
    ensures { result ≡ same_kind found.now.kind kind }
{
    found.kind == kind
}

/// Whether it is a word outside annotations.
pub fn is_plain_word(found: &Lexeme<'_>) -> bool
    ensures { result ≡ is_plain (lexeme found.now) }
{
    is_of_kind(found, TokenKind::Word) && !found.note
}

/// Whether it is this one.
pub fn fits(found: &Lexeme<'_>, kind: TokenKind, note: bool, text: &[u8]) -> bool
    ensures { result ≡ is_token kind note text.now (lexeme found.now) }
{
    is_of_kind(found, kind) && found.note == note && found.text == text
}
