//! Tables of rows and the parsers that read them. `jesc_rows` says how a row is written.

ghost use Rattle.std.specs.Prelude.{◌≤◌, length};
ghost use Rattle.jesc_lexer.specs.Spans.{AreSpans};

use jesc_jml_parser::{parse_clauses, parse_expr, parse_member_annotation};
use jesc_lexer::{Tokens, lex};
use jesc_rows::{is_row, joined, number_of, parts_of, put, put_answer, put_count, put_text, said};
use jesc_text::Text;
use std::alloc::Global;
use std::process::Abort;

/// What is read.
#[derive(Clone, Copy)]
enum Rule {
    Code,
    Note,
    Specification,
    Member,
}

/// A parser, and what stands around the texts of its rows.
#[derive(Clone, Copy)]
pub struct Reader {
    rule: Rule,
    open: &'static str,
    close: &'static str,
}

/// Expressions in code.
pub const CODE: Reader = Reader {
    rule: Rule::Code,
    open: "",
    close: "",
};

/// Expressions in one annotation.
pub const NOTE: Reader = Reader {
    rule: Rule::Note,
    open: "/*@ ",
    close: " */",
};

/// Expressions of annotations in a file.
pub const FILE_NOTE: Reader = Reader {
    rule: Rule::Note,
    open: "",
    close: "",
};

/// Specifications in one annotation.
pub const SPECIFICATION: Reader = Reader {
    rule: Rule::Specification,
    open: "/*@ ",
    close: " */",
};

/// Specifications in a file.
pub const FILE_SPECIFICATION: Reader = Reader {
    rule: Rule::Specification,
    open: "",
    close: "",
};

/// Members in one annotation.
pub const MEMBER: Reader = Reader {
    rule: Rule::Member,
    open: "/*@ ",
    close: " */",
};

/// Members of annotations in a file.
pub const FILE_MEMBER: Reader = Reader {
    rule: Rule::Member,
    open: "",
    close: "",
};

/// Appends what the parser finds in the tokens from this one on.
fn put_found(into: &mut Text, alloc: Global, reader: Reader, tokens: &Tokens, from: u32)
    requires spans { AreSpans (length tokens.now.text) 0 tokens.now.list }
    requires short { length tokens.now.text ≤ 1048576 }
    requires from { from ≤ length tokens.now.list }
{
    let open = reader.open.len();
    match reader.rule {
        Rule::Code => put_answer(into, tokens, open, parse_expr(alloc, tokens, from, false)),
        Rule::Note => put_answer(into, tokens, open, parse_expr(alloc, tokens, from, true)),
        Rule::Specification => put_answer(into, tokens, open, parse_clauses(alloc, tokens, from)),
        Rule::Member => put_answer(
            into,
            tokens,
            open,
            parse_member_annotation(alloc, tokens, from),
        ),
    }
}

/// What is found in a file from a token on, in one line.
fn found(alloc: Global, reader: Reader, bytes: &[u8], from: u32) -> Text {
    let mut out = Text::new(alloc);
    if bytes.len() <= 1048576 {
        if let Ok(tokens) = &lex(alloc, 0, bytes) {
            if from as usize <= tokens.list.len() {
                put_found(&mut out, alloc, reader, tokens, from);
            } else {
                put(&mut out, b"no tokens");
            }
        }
    }
    out
}

/// The file in which a row's text stands.
fn source(alloc: Global, reader: Reader, text: &str) -> Text {
    let mut source = Text::new(alloc);
    put_text(&mut source, reader.open);
    put_text(&mut source, text);
    put_text(&mut source, reader.close);
    source
}

/// Asserts what a row says, from the token `from` on.
fn expect_row(rt: &impl Abort, alloc: Global, reader: Reader, from: u32, row: &str) {
    let (text, wanted) = parts_of(row);
    let source = source(alloc, reader, text);
    let found = found(alloc, reader, source.as_slice(), from);
    let line = said(&found);
    assert!(rt; line == wanted, "at {text}: {line}");
}

/// Asserts what each row says.
pub fn expect_rows(rt: &impl Abort, alloc: Global, reader: Reader, table: &str) {
    for line in table.lines() {
        if is_row(line) {
            expect_row(rt, alloc, reader, 0, line);
        }
    }
}

/// Asserts what each row says, from the token on whose number it begins with.
pub fn expect_from(rt: &impl Abort, alloc: Global, reader: Reader, table: &str) {
    for line in table.lines() {
        if is_row(line) {
            let (from, row) = number_of(line);
            expect_row(rt, alloc, reader, from, row);
        }
    }
}

/// Asserts that the text is read up to `rest`.
fn expect_before(rt: &impl Abort, alloc: Global, reader: Reader, text: &str, rest: &str) {
    let mut row = joined(alloc, &[text, rest, " # up to "]);
    put_count(&mut row, text.len());
    expect_row(rt, alloc, reader, 0, said(&row));
}

/// Asserts that the text of each row is read as a whole, and no further where one of `endings` stands behind it.
pub fn expect_texts(rt: &impl Abort, alloc: Global, reader: Reader, table: &str, endings: &[&str]) {
    for text in table.lines() {
        if is_row(text) {
            expect_row(rt, alloc, reader, 0, text);
            for rest in endings {
                expect_before(rt, alloc, reader, text, rest);
            }
        }
    }
}

/// Asserts that each of the texts is read up to each of the words.
pub fn expect_before_words(
    rt: &impl Abort,
    alloc: Global,
    reader: Reader,
    texts: &[&str],
    words: &str,
) {
    for word in words.lines() {
        if is_row(word) {
            for text in texts {
                expect_before(rt, alloc, reader, text, word);
            }
        }
    }
}

/// Asserts that the word is refused so between two texts.
fn expect_word(
    rt: &impl Abort,
    alloc: Global,
    reader: Reader,
    around: (&str, &str),
    kind: &str,
    word: &str,
) {
    let (before, behind) = around;
    let mut row = joined(alloc, &[before, word, behind, " # ", kind, word, " at 1:"]);
    put_count(&mut row, before.len().saturating_add(1));
    expect_row(rt, alloc, reader, 0, said(&row));
}

/// Asserts that each of the words is refused so behind each of some texts and before another.
pub fn expect_words(
    rt: &impl Abort,
    alloc: Global,
    reader: Reader,
    around: (&[&str], &str),
    kind: &str,
    words: &str,
) {
    for word in words.lines() {
        if is_row(word) {
            for before in around.0 {
                expect_word(rt, alloc, reader, (before, around.1), kind, word);
            }
        }
    }
}
