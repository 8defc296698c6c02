//! The token that begins a text.
ghost use Rattle.std.specs.Prelude.{◌≡◌, ◌<◌, length};
ghost use Rattle.std.specs.Char.{is_ascii_digit};
ghost use Rattle.jesc_lexer.specs.Characters.{begins};
ghost use Rattle.jesc_lexer.specs.Lexemes.{backslash_part_len, sign_at, token_at};

use crate::number::number_at;
use crate::piece::Piece;
use crate::scan::{first_char, letter_run};
use crate::sign::sign_len;
use crate::token::TokenKind;
use crate::word::{starts_word, word_len};

/// Whether a digit begins the bytes.
fn starts_digit(bytes: &[u8]) -> bool
    requires { 0 < length bytes.now }
    ensures { result ≡ begins is_ascii_digit bytes.now }
{
    bytes[0].is_ascii_digit()
}

/// The letters and underscores after the backslash that begins the bytes, 0 where none does.
fn backslash_part_len(bytes: &[u8]) -> usize
    requires { 0 < length bytes.now }
    ensures value { result ≡ backslash_part_len bytes.now }
    ensures within { result < length bytes.now }
{
    if bytes[0] != b'\\' {
        return 0;
    }
    letter_run(&bytes[1..])
}

/// The sign of so many bytes; with none the character is in no token.
fn sign_at(size: usize, text: &str) -> Piece
    ensures { result ≡ sign_at size text.now }
{
    if size > 0 {
        Piece::Lexeme(TokenKind::Sign, size)
    } else {
        Piece::Bad(3, first_char(text))
    }
}

/// The token that begins the text, or its refusal.
///
/// `note` tells that it stands in an annotation, and `arrow` that `<-` is a sign there.
pub fn token_at(text: &str, note: bool, arrow: bool) -> Piece
    requires { 0 < length text.now }
    ensures { result ≡ token_at note arrow text.now }
{
    if starts_word(text) {
        return Piece::Lexeme(TokenKind::Word, word_len(text));
    }
    let bytes = text.as_bytes();
    if starts_digit(bytes) {
        return number_at(text);
    }
    let letters = backslash_part_len(bytes);
    if letters > 0 {
        return Piece::Lexeme(TokenKind::Backslash, 1 + letters);
    }
    sign_at(sign_len(bytes, note, arrow), text)
}
