//! Numbers: how far one reaches, and whether it is within its bound.
ghost use Rattle.std.specs.Prelude.{◌≡◌, ◌≤◌, ◌||◌, nat_lt, ◌^◌, length, take, drop, true, if◌then◌else◌};
ghost use Rattle.std.specs.Str.{IsCharBoundary, chars};
ghost use Rattle.std.specs.Char.{is_ascii_digit};
ghost use Rattle.unicode_ident.specs.Ident.{is_xid_continue};
ghost use Rattle.jesc_lexer.specs.Characters.{begins, is_suffix};
ghost use Rattle.jesc_lexer.specs.Lexemes.{digits_len, digits_value_of, number_at};

use crate::piece::Piece;
use crate::scan::{digit_run, first_char, last_underscores, rest_of};
use crate::token::TokenKind;

/// The greatest plain number, and the greatest one with a suffix: each fits after a unary minus alone.
const INT_LIMIT: u64 = 2147483648;

const LONG_LIMIT: u64 = 9223372036854775808;

/// The length of the digits at the front: of `0` alone, or of digits and underscores up to the last digit.
fn digits_len(bytes: &[u8]) -> usize
    ensures value { result ≡ digits_len bytes.now }
    ensures within { result ≤ length bytes.now }
{
    if bytes.starts_with(b"0") {
        return 1;
    }
    let run = digit_run(bytes);
    run - last_underscores(&bytes[..run])
}

/// Whether the value of the digits is beyond the limit. Other bytes among them are passed over.
fn is_beyond(bytes: &[u8], limit: u64) -> bool
    requires { limit ≤ 2 ^ 63 }
    ensures { result ≡ nat_lt limit (digits_value_of bytes.now) }
{
    let mut value = 0u128;
    for byte in bytes {
        if byte.is_ascii_digit() && value <= limit as u128 {
            value = value * 10 + (*byte - b'0') as u128;
        }
    }
    value > limit as u128
}

/// Whether a letter, a digit or an underscore begins the text.
fn begins_continue(text: &str) -> bool
    ensures { result ≡ begins is_xid_continue (chars text.now) }
{
    match first_char(text) {
        Some(c) => unicode_ident::is_xid_continue(c),
        None => false,
    }
}

/// Whether the suffix `L` or `l` stands at the place.
fn has_suffix_at(bytes: &[u8], place: usize) -> bool
    ensures { result ≡ begins is_suffix (drop place bytes.now) }
{
    if place >= bytes.len() {
        return false;
    }
    bytes[place] == b'L' || bytes[place] == b'l'
}

/// The number of so many bytes, of which so many are digits, unless something is wrong with it.
fn checked(text: &str, digits: usize, whole: usize, limit: u64) -> Piece
    requires digits { digits ≤ length text.now }
    requires edge { IsCharBoundary text.now whole }
    requires limit { limit ≤ 2 ^ 63 }
    ensures { result ≡ (if begins is_xid_continue (chars (drop whole text.now)) || nat_lt limit (digits_value_of (take digits text.now)) then Piece.Bad 4 None else Piece.Lexeme TokenKind.Number whole) }
{
    if begins_continue(rest_of(text, whole)) {
        return Piece::Bad(4, None);
    }
    if is_beyond(&text.as_bytes()[..digits], limit) {
        return Piece::Bad(4, None);
    }
    Piece::Lexeme(TokenKind::Number, whole)
}

/// The number that begins the text, unless something is wrong with it.
pub fn number_at(text: &str) -> Piece
    requires { begins is_ascii_digit text.now ≡ true }
    ensures { result ≡ number_at text.now }
{
    let bytes = text.as_bytes();
    let digits = digits_len(bytes);
    if has_suffix_at(bytes, digits) {
        return checked(text, digits, digits + 1, LONG_LIMIT);
    }
    checked(text, digits, digits, INT_LIMIT)
}
