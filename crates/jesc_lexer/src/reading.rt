//! Reading a text piece by piece: the code of a file, and the inside of each of its annotations.
ghost use Rattle.std.specs.Prelude.{true, ◌≡◌, ◌≤◌, ◌<◌, ◌+◌, ◌-◌, ◌∷◌, ◌++◌, [], length, drop, take, OnOk, IfOk};
ghost use Rattle.std.specs.Str.{IsCharBoundary};
ghost use Rattle.jesc_lexer.specs.Inner.{Continues, Reads, fits_at, StopsBy, AreBefore, Ends, IsStep, IsTextOf, StandsAt};
ghost use Rattle.jesc_lexer.specs.Reading.{token_text, token, is_word, is_represents, after_represents, behind, behind_code, note_tokens, code_tokens};
ghost use Rattle.jesc_lexer.specs.Spans.{AreSpans, Bytes};
ghost use Rattle.jesc_lexer.specs.Pieces.{note_piece, code_piece};

use crate::comment::{code_piece, note_piece};
use crate::piece::{CodePiece, Note, Piece, Refusal, Stop};
use crate::scan::rest_of;
use crate::token::{Token, TokenKind};
use jesc_text::{List, Span};

/// Whether the kind is that of words.
fn is_word(kind: TokenKind) -> bool
    ensures { result ≡ is_word kind }
{
    match kind {
        TokenKind::Word => true,
        TokenKind::Backslash => false,
        TokenKind::Number => false,
        TokenKind::Sign => false,
    }
}

/// Whether the bytes are the word `represents`.
fn is_represents(bytes: &[u8]) -> bool
    ensures { result ≡ is_represents bytes.now }
{
    if !bytes.starts_with(b"represents") {
        return false;
    }
    bytes.len() == 10
}

/// The bytes of a token.
fn text_of<'a>(text: &'a [u8], token: &Token) -> &'a [u8]
    requires order { token.now.span.from ≤ token.now.span.to }
    requires within { token.now.span.to ≤ length text.now }
    ensures { result.now ≡ token_text text.now token.now }
{
    &text[token.span.from as usize..token.span.to as usize]
}

/// Whether the last token is a word that stands directly after the word `represents`.
fn after_represents(text: &[u8], tokens: &[Token]) -> bool
    requires { AreSpans (length text.now) 0 tokens.now }
    ensures { result ≡ after_represents text.now tokens.now }
{
    let count = tokens.len();
    if count < 2 {
        return false;
    }
    if !is_word(tokens[count - 1].kind) {
        return false;
    }
    is_represents(text_of(text, &tokens[count - 2]))
}

/// Appends a token.
fn push_token(
    tokens: &mut List<Token>,
    file: u32,
    note: bool,
    at: usize,
    kind: TokenKind,
    size: usize,
) -> Result<(), Stop>
    requires { at + size ≤ 1048576 }
    ensures ok { OnOk result (tokens.new ≡ tokens.old ++ token file note at kind size ∷ []) }
    ensures memory { (refusal : Refusal) → ¬ (result ≡ Err (Stop.Refused refusal)) }
{
    let span = Span {
        file,
        from: at as u32,
        to: (at + size) as u32,
    };
    match tokens.push(Token { kind, span, note }) {
        Ok(()) => Ok(()),
        Err(_) => Err(Stop::OutOfMemory),
    }
}

/// Takes a piece that begins at the offset, and tells how many bytes it has.
fn take_piece(
    tokens: &mut List<Token>,
    file: u32,
    note: bool,
    at: usize,
    piece: Piece,
) -> Result<usize, Stop>
    requires { fits_at at piece }
    ensures reads { Continues (λ next. behind next file note at tokens.old piece) result tokens.new }
    ensures place { StopsBy at result }
    ensures step { (text rest : Bytes) → IsStep rest piece → IsTextOf note rest piece → StandsAt text at rest → at + length rest ≤ length text → AreBefore text at tokens.old → IfOk result (λ n. Ends rest n × AreBefore text (at + n) tokens.new) }
{
    match piece {
        Piece::Blank(size) => Ok(size),
        Piece::Lexeme(kind, size) => {
            push_token(tokens, file, note, at, kind, size)?;
            Ok(size)
        }
        Piece::Bad(number, character) => {
            Err(Stop::Refused(Refusal {
                number,
                at,
                character,
            }))
        }
    }
}

/// Takes the piece that begins the rest of an annotation's inside at the offset, and tells how many bytes it has.
fn take_note(
    tokens: &mut List<Token>,
    text: &[u8],
    file: u32,
    block: bool,
    rest: &str,
    at: usize,
) -> Result<usize, Stop>
    requires short { length text.now ≤ 1048576 }
    requires within { at + length rest.now ≤ length text.now }
    requires some { 0 < length rest.now }
    requires here { StandsAt text.now at rest.now }
    requires before { AreBefore text.now at tokens.old }
    ensures reads { Continues (λ next. behind next file true at tokens.old (note_piece block (after_represents text.now tokens.old) rest.now)) result tokens.new }
    ensures place { StopsBy at result }
    ensures step { IfOk result (λ n. Ends rest.now n × AreBefore text.now (at + n) tokens.new) }
{
    let arrow = after_represents(text, tokens.as_slice());
    take_piece(tokens, file, true, at, note_piece(rest, block, arrow))
}

/// Reads the inside of an annotation, which begins at the offset `start` of the text.
///
/// Answers the first refusal, or `OutOfMemory`; the tokens up to there are then in the list.
fn read_note(
    tokens: &mut List<Token>,
    text: &[u8],
    file: u32,
    block: bool,
    inside: &str,
    start: usize,
) -> Result<(), Stop>
    requires short { length text.now ≤ 1048576 }
    requires within { start + length inside.now ≤ length text.now }
    requires here { StandsAt text.now start inside.now }
    requires before { AreBefore text.now start tokens.old }
    ensures reads { Reads (note_tokens text.now file block inside.now 0 start tokens.old) result tokens.new }
    ensures place { StopsBy (start + length inside.now) result }
    ensures before { OnOk result (AreBefore text.now (start + length inside.now) tokens.new) }
{
    let mut at = 0;
    while at < inside.len() {
        at += take_note(tokens, text, file, block, rest_of(inside, at), start + at)?;
    }
    Ok(())
}

/// The inside of an annotation.
fn inside_of<'a>(text: &'a str, note: &Note) -> &'a str
    requires from { IsCharBoundary text.now note.now.from }
    requires to { IsCharBoundary text.now note.now.to }
    requires order { note.now.from ≤ note.now.to }
    ensures { result.now ≡ take (note.now.to - note.now.from) (drop note.now.from text.now) }
{
    &text[note.from..note.to]
}

/// Takes the piece that begins the rest of the code at the offset, and tells how many bytes it has.
fn take_code(
    tokens: &mut List<Token>,
    text: &[u8],
    file: u32,
    rest: &str,
    at: usize,
) -> Result<usize, Stop>
    requires short { length text.now ≤ 1048576 }
    requires within { at + length rest.now ≤ length text.now }
    requires some { 0 < length rest.now }
    requires here { StandsAt text.now at rest.now }
    requires before { AreBefore text.now at tokens.old }
    ensures reads { Continues (λ next. behind_code next text.now file at rest.now tokens.old (code_piece rest.now)) result tokens.new }
    ensures place { StopsBy (at + length rest.now) result }
    ensures step { IfOk result (λ n. Ends rest.now n × AreBefore text.now (at + n) tokens.new) }
{
    match code_piece(rest) {
        CodePiece::Plain(piece) => take_piece(tokens, file, false, at, piece),
        CodePiece::Annotation(note) => {
            let inside = inside_of(rest, &note);
            read_note(tokens, text, file, note.block, inside, at + note.from)?;
            Ok(note.length)
        }
    }
}

/// Reads the code of a whole file, with its annotations.
///
/// Answers the first refusal, or `OutOfMemory`.
pub fn read_code(tokens: &mut List<Token>, text: &str, file: u32) -> Result<(), Stop>
    requires short { length text.now ≤ 1048576 }
    requires empty { tokens.old ≡ [] }
    ensures reads { Reads (code_tokens text.now file text.now 0 0 []) result tokens.new }
    ensures place { StopsBy (length text.now) result }
    ensures before { OnOk result (AreBefore text.now (length text.now) tokens.new) }
{
    let mut at = 0;
    while at < text.len() {
        at += take_code(tokens, text.as_bytes(), file, rest_of(text, at), at)?;
    }
    Ok(())
}
