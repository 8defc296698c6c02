//! How far runs of bytes and of characters reach from the beginning of a text.
ghost use Rattle.std.specs.Prelude.{◌≡◌, ◌≤◌, ◌<◌, ◌+◌, ◌||◌, ◌==◌, length, drop, IsTrue, IfSome, codes, nat_eq};
ghost use Rattle.std.specs.List.{prefix_len, suffix_len, starts_with, list_any};
ghost use Rattle.std.specs.Str.{IsCharBoundary, chars};
ghost use Rattle.jesc_lexer.specs.Characters.{is_white, is_line_feed, is_at_sign, is_underscore, is_digit_part, is_backslash_part, first_of};
ghost use Rattle.jesc_lexer.specs.Pieces.{line_len, closing};

/// Whether the byte is white space.
pub fn is_white(byte: u8) -> bool
    ensures { result ≡ is_white byte }
{
    matches!(byte, b' ' | b'\t' | b'\n' | b'\r' | 12)
}

/// The length of the white space at the front.
pub fn white_len(bytes: &[u8]) -> usize
    ensures value { result ≡ prefix_len is_white bytes.now }
    ensures within { result ≤ length bytes.now }
{
    bytes.iter().take_while(|b| is_white(**b)).count()
}

/// The length of the run of at signs at the front.
pub fn at_signs(bytes: &[u8]) -> usize
    ensures value { result ≡ prefix_len is_at_sign bytes.now }
    ensures within { result ≤ length bytes.now }
{
    bytes.iter().take_while(|b| **b == b'@').count()
}

/// The length of the run of at signs at the end.
pub fn last_at_signs(bytes: &[u8]) -> usize
    ensures value { result ≡ suffix_len is_at_sign bytes.now }
    ensures within { result ≤ length bytes.now }
{
    bytes.iter().rev().take_while(|b| **b == b'@').count()
}

/// How many bytes stand before the first line feed, or before the end.
pub fn line_len(bytes: &[u8]) -> usize
    ensures value { result ≡ line_len bytes.now }
    ensures within { result ≤ length bytes.now }
{
    bytes.iter().take_while(|b| **b != b'\n').count()
}

/// Whether a line feed is among the bytes.
pub fn has_line_feed(bytes: &[u8]) -> bool
    ensures { result ≡ list_any is_line_feed bytes.now }
{
    bytes.iter().any(|b| *b == b'\n')
}

/// The digits and underscores at the front.
pub fn digit_run(bytes: &[u8]) -> usize
    ensures { result ≡ prefix_len is_digit_part bytes.now }
{
    bytes
        .iter()
        .take_while(|b| b.is_ascii_digit() || **b == b'_')
        .count()
}

/// The underscores at the end.
pub fn last_underscores(bytes: &[u8]) -> usize
    ensures { result ≡ suffix_len is_underscore bytes.now }
{
    bytes.iter().rev().take_while(|b| **b == b'_').count()
}

/// The ASCII letters and underscores at the front.
pub fn letter_run(bytes: &[u8]) -> usize
    ensures value { result ≡ prefix_len is_backslash_part bytes.now }
    ensures within { result ≤ length bytes.now }
{
    bytes
        .iter()
        .take_while(|b| b.is_ascii_alphabetic() || **b == b'_')
        .count()
}

/// Whether `*/` stands at the place.
fn closes_at(bytes: &[u8], place: usize) -> bool
    requires { place ≤ length bytes.now }
    ensures value { result ≡ starts_with nat_eq (drop place bytes.now) (codes "*/") }
    ensures within { IsTrue result → place + 2 ≤ length bytes.now }
{
    bytes[place..].starts_with(b"*/")
}

/// Where the first `*/` begins.
pub fn closing(bytes: &[u8]) -> Option<usize>
    ensures value { result ≡ closing bytes.now }
    ensures within { IfSome result (λ k. k + 2 ≤ length bytes.now) }
{
    let mut at = 0;
    while at < bytes.len() {
        if closes_at(bytes, at) {
            return Some(at);
        }
        at += 1;
    }
    None
}

/// The first character.
pub fn first_char(text: &str) -> Option<char>
    ensures { result ≡ first_of (chars text.now) }
{
    text.chars().next()
}

/// What of the text stands from a place on, where a character begins or the text ends.
pub fn rest_of(text: &str, place: usize) -> &str
    requires { IsCharBoundary text.now place }
    ensures { result.now ≡ drop place text.now }
{
    &text[place..]
}
