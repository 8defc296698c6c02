//! Words: which characters they have, and how far one reaches.
ghost use Rattle.std.specs.Prelude.{◌≡◌, ◌<◌, ◌||◌, ◌==◌, length};
ghost use Rattle.std.specs.List.{prefix_len};
ghost use Rattle.std.specs.Char.{is_ascii_alphabetic};
ghost use Rattle.std.specs.Str.{chars};
ghost use Rattle.jesc_lexer.specs.Characters.{is_word_start, is_word_part, is_ascii_word_part, begins};
ghost use Rattle.jesc_lexer.specs.Lexemes.{word_len};

use crate::scan::{first_char, rest_of};

/// Whether a word may begin with the character.
pub fn is_word_start(c: char) -> bool
    ensures { result ≡ is_word_start c }
{
    unicode_ident::is_xid_start(c) || c == '_' || c == '$'
}

/// Whether a word may go on with the character.
pub fn is_word_part(c: char) -> bool
    ensures { result ≡ is_word_part c }
{
    unicode_ident::is_xid_continue(c) || c == '$'
}

/// Whether a word may begin with the byte, which is ASCII.
fn is_ascii_start(byte: u8) -> bool
    ensures { result ≡ (is_ascii_alphabetic byte || (byte == 95) || (byte == 36)) }
{
    byte.is_ascii_alphabetic() || byte == b'_' || byte == b'$'
}

/// Whether a word begins the text.
pub fn starts_word(text: &str) -> bool
    requires { 0 < length text.now }
    ensures { result ≡ begins is_word_start (chars text.now) }
{
    let first = text.as_bytes()[0];
    if first < 128 {
        return is_ascii_start(first);
    }
    match first_char(text) {
        Some(c) => is_word_start(c),
        None => false,
    }
}

/// The ASCII characters of words at the front.
fn ascii_run(bytes: &[u8]) -> usize
    ensures { result ≡ prefix_len is_ascii_word_part bytes.now }
{
    bytes
        .iter()
        .take_while(|b| b.is_ascii_alphanumeric() || **b == b'_' || **b == b'$')
        .count()
}

/// The length of the characters of words at the front, one character at a time.
fn decoded_len(text: &str) -> usize
    ensures { result ≡ word_len text.now }
{
    let mut length = 0;
    while let Some(c) = first_char(rest_of(text, length)) {
        if !is_word_part(c) {
            break;
        }
        length += c.len_utf8();
    }
    length
}

/// The length in bytes of the characters of words at the front. Most words are ASCII, and are read as bytes.
pub fn word_len(text: &str) -> usize
    ensures { result ≡ word_len text.now }
{
    let bytes = text.as_bytes();
    let run = ascii_run(bytes);
    if run == bytes.len() {
        return run;
    }
    if bytes[run] < 128 {
        return run;
    }
    decoded_len(text)
}
