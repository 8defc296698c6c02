//! What begins a text in code and inside an annotation: white space, a comment, an annotation or a token.
ghost use Rattle.std.specs.Prelude.{find, not, ◌≡◌, ◌<◌, ◌+◌, ◌^◌, length, Option, IfSome};
ghost use Rattle.std.specs.Str.{chars};
ghost use Rattle.jesc_lexer.specs.Characters.{begins, is_key_mark};
ghost use Rattle.jesc_lexer.specs.Pieces.{blank_len, skip_comment, is_conditional, is_key_part, note_piece, annotation, comment, block_comment, line_comment, code_piece};

use crate::lexeme::token_at;
use crate::piece::{CodePiece, Note, Piece};
use crate::scan::{
    at_signs, closing, first_char, has_line_feed, is_white, last_at_signs, line_len, rest_of,
    white_len,
};
use crate::word::is_word_part;

/// The white space at the front; in a block annotation with the at signs after it where a line begins in it.
#[tactic(auto, unfolding(crate::specs::Pieces::blank_len))]
fn blank_len(bytes: &[u8], block: bool) -> usize
    ensures { result ≡ blank_len block bytes.now }
{
    let white = white_len(bytes);
    if !block {
        return white;
    }
    if !has_line_feed(&bytes[..white]) {
        return white;
    }
    white + at_signs(&bytes[white..])
}

/// The plain comment that is closed at the place after its first two bytes, or refused where it is not closed.
fn skip_comment(close: Option<usize>) -> Piece
    requires { IfSome close (λ k. k < 2 ^ 63) }
    ensures { result ≡ skip_comment close }
{
    match close {
        Some(place) => Piece::Blank(place + 4),
        None => Piece::Bad(2, None),
    }
}

/// What begins the inside of an annotation, or what is left of it.
///
/// `arrow` tells that `<-` is a sign at its front.
pub fn note_piece(text: &str, block: bool, arrow: bool) -> Piece
    requires { 0 < length text.now }
    ensures { result ≡ note_piece block arrow text.now }
{
    let bytes = text.as_bytes();
    if is_white(bytes[0]) {
        return Piece::Blank(blank_len(bytes, block));
    }
    if bytes.starts_with(b"//") {
        return Piece::Blank(line_len(bytes));
    }
    if !bytes.starts_with(b"/*") {
        return token_at(text, true, arrow);
    }
    if block {
        return Piece::Bad(3, Some('/'));
    }
    skip_comment(closing(&bytes[2..]))
}

/// The annotation of which these are the bytes after `//` or `/*`, up to its end or its `*/`.
fn annotation(body: &[u8], block: bool, whole: usize) -> Note
    ensures { result ≡ annotation block body.now whole }
{
    let lead = at_signs(body);
    let trail = last_at_signs(&body[lead..]);
    let kept = if block {
        body.len() - trail
    } else {
        body.len()
    };
    Note {
        block,
        from: 2 + lead,
        to: 2 + kept,
        length: whole,
    }
}

/// The comment of which these are the bytes after `//` or `/*`, up to its end or its `*/`.
fn comment(body: &[u8], block: bool, whole: usize) -> CodePiece
    ensures { result ≡ comment block body.now whole }
{
    if body.starts_with(b"@") {
        return CodePiece::Annotation(annotation(body, block, whole));
    }
    CodePiece::Plain(Piece::Blank(whole))
}

/// Whether a group of keys goes on with the character.
fn is_key_part(c: char) -> bool
    ensures { result ≡ is_key_part c }
{
    is_word_part(c) || c == '+' || c == '-'
}

/// The first character that belongs to no group of keys.
fn behind_keys(text: &str) -> Option<char>
    ensures { result ≡ find (λ c. not (is_key_part c)) (chars text.now) }
{
    text.chars().find(|c| !is_key_part(*c))
}

/// Whether a group of keys begins the text.
fn begins_keys(text: &str) -> bool
    ensures { result ≡ begins is_key_mark (chars text.now) }
{
    match first_char(text) {
        Some(c) => c == '+' || c == '-',
        None => false,
    }
}

/// Whether groups of keys and then an at sign stand at the front.
#[tactic(auto, unfolding(crate::specs::Pieces::is_conditional))]
fn is_conditional(text: &str) -> bool
    ensures { result ≡ is_conditional text.now }
{
    begins_keys(text) && behind_keys(text) == Some('@')
}

/// The comment up to the line feed or the end, of which this is the text after `//`.
#[tactic(auto, unfolding(crate::specs::Pieces::line_comment))]
fn line_comment(text: &str) -> CodePiece
    ensures { result ≡ line_comment text.now }
{
    if is_conditional(text) {
        return CodePiece::Plain(Piece::Bad(6, None));
    }
    let bytes = text.as_bytes();
    let length = line_len(bytes);
    comment(&bytes[..length], false, 2 + length)
}

/// The comment of which this is the text after `/*`, refused where it is not closed.
#[tactic(auto, unfolding(crate::specs::Pieces::block_comment))]
fn block_comment(text: &str) -> CodePiece
    ensures { result ≡ block_comment text.now }
{
    let bytes = text.as_bytes();
    match closing(bytes) {
        None => CodePiece::Plain(Piece::Bad(2, None)),
        Some(place) => {
            if is_conditional(text) {
                return CodePiece::Plain(Piece::Bad(6, None));
            }
            comment(&bytes[..place], true, place + 4)
        }
    }
}

/// What begins the text in code.
pub fn code_piece(text: &str) -> CodePiece
    requires { 0 < length text.now }
    ensures { result ≡ code_piece text.now }
{
    let bytes = text.as_bytes();
    if is_white(bytes[0]) {
        return CodePiece::Plain(Piece::Blank(white_len(bytes)));
    }
    if bytes.starts_with(b"//") {
        return line_comment(rest_of(text, 2));
    }
    if bytes.starts_with(b"/*") {
        return block_comment(rest_of(text, 2));
    }
    CodePiece::Plain(token_at(text, false, false))
}
