use jesc_text::{Text, put_number};
use std::alloc::Global;

/// Appends the bytes, as far as memory goes.
pub fn put(into: &mut Text, bytes: &[u8]) {
    let _done = into.append(bytes).is_ok();
}

/// Appends a number in decimal.
pub fn put_count(into: &mut Text, count: usize) {
    let _done = put_number(into, count as i128).is_ok();
}

/// These texts, one behind another.
pub fn joined(alloc: Global, parts: &[&str]) -> Text {
    let mut out = Text::new(alloc);
    for part in parts {
        put(&mut out, part.as_bytes());
    }
    out
}

/// Appends a word, with a space before it where it isn't the first.
pub fn put_word(into: &mut Text, word: &str) {
    if into.len() > 0 {
        put(into, b" ");
    }
    put(into, word.as_bytes());
}

/// Appends a number as a word.
pub fn put_number_word(into: &mut Text, number: usize) {
    put_word(into, "");
    put_count(into, number);
}

/// Whether a line of a table is a row.
pub fn is_row(line: &str) -> bool {
    !line.is_empty() && !line.starts_with('#')
}

/// A row's text, and what has to be found in it.
pub fn parts_of(row: &str) -> (&str, &str) {
    match row.split_once(" # ") {
        Some(parts) => parts,
        None => (row, "all"),
    }
}

/// The number in front of a text, and the text behind a space.
pub fn number_of(text: &str) -> (u32, &str) {
    match text.split_once(' ') {
        Some((number, rest)) => match number.parse::<u32>() {
            Ok(number) => (number, rest),
            Err(_) => (0, text),
        },
        None => (0, text),
    }
}

/// Appends lines that stand in one, with `¶` between.
fn put_lines(into: &mut Text, lines: &str) {
    let mut first = true;
    for line in lines.split('¶') {
        if !first {
            put(into, b"\n");
        }
        first = false;
        put(into, line.as_bytes());
    }
}

/// Appends a piece so many times.
pub fn put_times(into: &mut Text, times: u32, piece: &str) {
    for _time in 0..times {
        put_lines(into, piece);
    }
}

/// Appends the text that a row's text stands for.
pub fn put_text(into: &mut Text, text: &str) {
    for part in text.split('⟨') {
        match part.split_once('⟩') {
            Some((group, rest)) => {
                let (times, piece) = number_of(group);
                put_times(into, times, piece);
                put_lines(into, rest);
            }
            None => put_lines(into, part),
        }
    }
}

/// The text as it is shown.
pub fn said(text: &Text) -> &str {
    std::str::from_utf8(text.as_slice()).unwrap_or("?")
}
