ghost use Rattle.std.specs.Prelude.{◌≤◌, length};

use crate::row::{put, put_count};
use jesc_jml_parser::SyntaxError;
use jesc_lexer::Tokens;
use jesc_text::{Place, Text, place_of};

/// Appends a place: the end of the text, or a line and a column. The first line is counted without the `open` bytes
/// that stand in front of a row's text.
fn put_place(into: &mut Text, tokens: &Tokens, open: usize, place: Place)
    requires { length tokens.now.text ≤ 1048576 }
{
    let text = tokens.text.as_slice();
    if place == place_of(text, 0, text.len() as u32) {
        put(into, b" at the end");
    } else {
        let unseen = if place.line == 1 { open } else { 0 };
        put(into, b" at ");
        put_count(into, place.line as usize);
        put(into, b":");
        put_count(into, (place.col as usize).saturating_sub(unseen));
    }
}

/// Appends why a text is refused, as `token goto at 1:5`, `left out assume at the end` or `deep at 1:200`.
pub fn put_error(into: &mut Text, tokens: &Tokens, open: usize, error: &SyntaxError)
    requires { length tokens.now.text ≤ 1048576 }
{
    match error {
        SyntaxError::Token { place, text } => {
            put(into, b"token ");
            put(into, text.as_slice());
            put_place(into, tokens, open, *place);
        }
        SyntaxError::LeftOut { place, word } => {
            put(into, b"left out ");
            put(into, word.as_slice());
            put_place(into, tokens, open, *place);
        }
        SyntaxError::Deep { place } => {
            put(into, b"deep");
            put_place(into, tokens, open, *place);
        }
        SyntaxError::OutOfMemory => put(into, b"out of memory"),
    }
}

/// Appends how far the tokens up to the token `next` reach: `all`, or as `up to 5` how many bytes of the row's text.
pub fn put_reach(into: &mut Text, tokens: &Tokens, open: usize, next: u32) {
    let list = tokens.list.as_slice();
    if next as usize == list.len() {
        put(into, b"all");
    } else {
        put(into, b"up to ");
        match list.get((next as usize).saturating_sub(1)) {
            Some(last) => put_count(into, (last.span.to as usize).saturating_sub(open)),
            None => put(into, b"?"),
        }
    }
}

/// Appends what a parser answered: a tree and the token behind it, or a refusal.
pub fn put_answer<T: Drop>(
    into: &mut Text,
    tokens: &Tokens,
    open: usize,
    answer: Result<(T, u32), SyntaxError>,
)
    requires { length tokens.now.text ≤ 1048576 }
{
    match &answer {
        Ok(found) => put_reach(into, tokens, open, found.1),
        Err(error) => put_error(into, tokens, open, error),
    }
}
