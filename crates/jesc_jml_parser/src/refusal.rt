//! The syntax error of the token at which no tree goes on.

ghost use Rattle.std.specs.Prelude.{◌≡◌, ◌≤◌, IsTrue, length, slice_get};
ghost use Rattle.std.specs.List.{list_all};
ghost use Rattle.jesc_ast.specs.Lexemes.{is_within, lexeme_of};
ghost use Rattle.jesc_jml_parser.specs.Refusals.{file_of as file_of_tokens, place_of_next};
ghost use Rattle.jesc_jml_parser.specs.laws.Told.{Tells, IsShown, IsErrorOf};
ghost use Rattle.jesc_jml_grammar.specs.Seen.{lexeme};

use crate::error::SyntaxError;
use crate::left_out::is_left_out;
use jesc_jml_grammar::cursor::Lexeme;
use jesc_jml_grammar::fault::{Fault, ParseError};
use jesc_jml_grammar::make::text_of;
use jesc_lexer::{Token, Tokens};
use jesc_text::{Place, place_of};
use std::alloc::Global;

fn file_of(tokens: &[Token]) -> u32
    ensures { result ≡ file_of_tokens tokens.now }
{
    match tokens.get(tokens.len().saturating_sub(1)) {
        Some(last) => last.span.file,
        None => 0,
    }
}

/// The place of the token at this index, or of the end of the text.
pub fn place_at(tokens: &Tokens, at: usize) -> Place
    requires short { length tokens.now.text ≤ 1048576 }
    requires within { IsTrue (list_all (is_within (length tokens.now.text)) tokens.now.list) }
    ensures { result ≡ place_of_next tokens.now (slice_get tokens.now.list at) }
{
    let text = tokens.text.as_slice();
    let list = tokens.list.as_slice();
    match list.get(at) {
        Some(token) => place_of(text, token.span.file, token.span.from),
        None => place_of(text, file_of(list), text.len() as u32),
    }
}

fn lexeme_at<'a>(text: &'a [u8], token: Token) -> Lexeme<'a>
    requires { IsTrue (is_within (length text.now) token) }
    ensures { lexeme result ≡ lexeme_of text.now token }
{
    Lexeme {
        kind: token.kind,
        text: &text[token.span.from as usize..token.span.to as usize],
        span: token.span,
        note: token.note,
    }
}

/// The error with a copy of the text.
fn with_text(alloc: Global, left_out: bool, place: Place, bytes: &[u8]) -> SyntaxError
    ensures { IsShown left_out place bytes.now result }
{
    match text_of(alloc, bytes) {
        Ok(word) if left_out => SyntaxError::LeftOut { place, word },
        Ok(text) => SyntaxError::Token { place, text },
        Err(_) => SyntaxError::OutOfMemory,
    }
}

/// The error of a token that no tree goes on with.
pub fn unexpected(alloc: Global, tokens: &Tokens, at: usize) -> SyntaxError
    requires short { length tokens.now.text ≤ 1048576 }
    requires within { IsTrue (list_all (is_within (length tokens.now.text)) tokens.now.list) }
    ensures { Tells tokens.now (slice_get tokens.now.list at) result }
{
    let place = place_at(tokens, at);
    match tokens.list.as_slice().get(at) {
        None => with_text(alloc, false, place, b"end of file"),
        Some(token) => {
            let x = lexeme_at(tokens.text.as_slice(), *token);
            with_text(alloc, is_left_out(x), place, x.text)
        }
    }
}

/// The error of a fault that this many tokens are left behind.
pub fn error_of(alloc: Global, tokens: &Tokens, error: ParseError) -> SyntaxError
    requires short { length tokens.now.text ≤ 1048576 }
    requires within { IsTrue (list_all (is_within (length tokens.now.text)) tokens.now.list) }
    ensures { IsErrorOf tokens.now error result }
{
    let len = tokens.list.as_slice().len();
    match error {
        ParseError::Memory | ParseError::Fault(Fault::Long) => SyntaxError::OutOfMemory,
        ParseError::Fault(Fault::Unexpected(left)) => {
            unexpected(alloc, tokens, len.saturating_sub(left))
        }
        ParseError::Fault(Fault::Deep(left)) => SyntaxError::Deep {
            place: place_at(tokens, len.saturating_sub(left)),
        },
    }
}
