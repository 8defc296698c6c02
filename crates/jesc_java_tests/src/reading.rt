//! Tables of rows, read as files. `jesc_rows` says how a row is written.

ghost use Rattle.std.specs.Prelude.{◌≤◌, length};
ghost use Rattle.jesc_lexer.specs.Spans.{AreSpans};

use jesc_java_parser::parse_file;
use jesc_lexer::{Tokens, lex};
use jesc_rows::{is_row, number_of, parts_of, put, put_error, put_text, put_times, said};
use jesc_text::Text;
use std::alloc::Global;
use std::process::Abort;

/// What stands around the texts of a table in a file.
#[derive(Clone, Copy)]
pub struct Frame {
    open: &'static str,
    close: &'static str,
}

/// Whole files.
pub const FILE: Frame = Frame {
    open: "",
    close: "",
};

/// The members of a class.
pub const CLASS: Frame = Frame {
    open: "class A { ",
    close: " }",
};

/// The statements of a method.
pub const BODY: Frame = Frame {
    open: "class A { void f() { ",
    close: " } }",
};

/// Appends what the tokens are read as.
fn put_found(into: &mut Text, alloc: Global, tokens: &Tokens, open: usize)
    requires spans { AreSpans (length tokens.now.text) 0 tokens.now.list }
    requires short { length tokens.now.text ≤ 1048576 }
{
    match &parse_file(alloc, tokens) {
        Ok(_) => put(into, b"all"),
        Err(error) => put_error(into, tokens, open, error),
    }
}

/// What is found in a text in so many blocks, in one line.
fn found(alloc: Global, frame: Frame, blocks: u32, text: &str) -> Text {
    let mut source = Text::new(alloc);
    put(&mut source, frame.open.as_bytes());
    put_times(&mut source, blocks, "{");
    let open = source.len();
    put_text(&mut source, text);
    put_times(&mut source, blocks, "}");
    put(&mut source, frame.close.as_bytes());
    let mut out = Text::new(alloc);
    if source.len() <= 1048576 {
        match &lex(alloc, 0, source.as_slice()) {
            Ok(tokens) => put_found(&mut out, alloc, tokens, open),
            Err(_) => put(&mut out, b"no tokens"),
        }
    }
    out
}

/// Asserts what a row says, in so many blocks.
fn expect_row(rt: &impl Abort, alloc: Global, frame: Frame, blocks: u32, row: &str) {
    let (text, wanted) = parts_of(row);
    let found = found(alloc, frame, blocks, text);
    let line = said(&found);
    assert!(rt; line == wanted, "in {blocks} at {text}: {line}");
}

/// Asserts what each row says.
pub fn expect_rows(rt: &impl Abort, alloc: Global, frame: Frame, table: &str) {
    for line in table.lines() {
        if is_row(line) {
            expect_row(rt, alloc, frame, 0, line);
        }
    }
}

/// Asserts what each row says, in a method in as many blocks as the number in front of the text.
pub fn expect_blocks(rt: &impl Abort, alloc: Global, table: &str) {
    for line in table.lines() {
        if is_row(line) {
            let (blocks, row) = number_of(line);
            expect_row(rt, alloc, BODY, blocks, row);
        }
    }
}

/// Asserts that the text is too deep in so many blocks.
fn expect_deep(rt: &impl Abort, alloc: Global, blocks: u32, text: &str) {
    let found = found(alloc, BODY, blocks, text);
    assert!(rt; said(&found).starts_with("deep at "), "in {blocks}: {text}");
}

/// Asserts that each row is read in as many blocks as the number in front of it, but too deep in one more.
pub fn expect_limits(rt: &impl Abort, alloc: Global, table: &str) {
    for line in table.lines() {
        if is_row(line) {
            let (blocks, text) = number_of(line);
            expect_row(rt, alloc, BODY, blocks, text);
            expect_deep(rt, alloc, blocks.saturating_add(1), text);
        }
    }
}
