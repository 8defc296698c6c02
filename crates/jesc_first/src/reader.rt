//! The reader of the first profile.

ghost use Rattle.std.specs.Prelude.{◌≡◌, ◌≤◌, ◌++◌, length, None, IfOk, IfErr, IsTrue};
ghost use Rattle.std.specs.List.{list_all};
ghost use Rattle.jesc_lexer.specs.Spans.{AreSpans};
ghost use Rattle.jesc_ast.specs.Lexemes.{is_within, lexemes};
ghost use Rattle.jesc_first.specs.Accepted.{Accepted, names_of};
ghost use Rattle.jesc_first.specs.Outside.{IsOutside};
ghost use Rattle.jesc_first.specs.Parsing.{parsed};

mod body;
mod clauses;
mod cursor;
mod foreign;
mod header;
mod lexeme;
mod methods;
mod names;
mod phase;
mod place;
mod recognizer;
mod reserved;
mod step;
mod sums;
mod transition;

use crate::reader::cursor::Stop;
use crate::reader::methods::read_file;
use crate::reader::place::place_in;
use crate::reader::step::cursor_of;
use crate::tree::Class;
use jesc_lexer::Tokens;
use jesc_text::{List, OutOfMemory};
pub use names::Names;
use std::alloc::Global;

/// Why a file could not be read.
#[derive(Debug, Drop, Clone, Copy, PartialEq, Eq)]
pub enum ReadError {
    /// The file is outside the first profile, and this is the number of the first token that shows it, counted from 0.
    /// Where the file ends too early, it is the number of all tokens.
    Outside { at: u32 },
    /// Memory ran out.
    OutOfMemory,
}

/// The refusal of tokens that are no file.
fn refusal<'a>(alloc: Global, tokens: &'a Tokens, names: &mut Names<'a>) -> ReadError
    requires within { IsTrue (list_all (is_within (length tokens.now.text)) tokens.now.list) }
    requires few { length tokens.now.list ≤ 1048576 }
    requires unread { parsed names.old (lexemes tokens.now) ≡ None }
    ensures { IsOutside names.old (lexemes tokens.now) result }
{
    let cursor = cursor_of(tokens);
    match place_in(alloc, &cursor, names) {
        Ok(place) => ReadError::Outside {
            at: (cursor.left() - place.left()) as u32,
        },
        Err(OutOfMemory) => ReadError::OutOfMemory,
    }
}

/// Reads the tokens of a file, as `lex` makes them, as classes of the first profile, in their order.
///
/// `names` has the names of the classes of earlier files, which the classes of this file may not have; theirs are added
/// to it. Answers `Outside` exactly where the tokens are no such classes, with the first token up to which no file
/// begins, or with a name before it in the specification of a method that has no parameter of this name. Answers
/// `OutOfMemory` where there is no room for the trees or the names. After an error `names` may have further names.
pub fn read_classes<'a>(
    alloc: Global,
    tokens: &'a Tokens,
    names: &mut Names<'a>,
) -> Result<List<Class>, ReadError>
    requires spans { AreSpans (length tokens.now.text) 0 tokens.now.list }
    requires short { length tokens.now.text ≤ 1048576 }
    ensures accepted { IfOk result (λ classes. Accepted names.old (lexemes tokens.now) classes × (names.new ≡ names.old ++ names_of classes)) }
    ensures refused { IfErr result (λ error. IsOutside names.old (lexemes tokens.now) error) }
{
    let before = names.len();
    let mut cursor = cursor_of(tokens);
    match read_file(alloc, &mut cursor, names) {
        Ok(classes) => Ok(classes),
        Err(Stop::Refused) => {
            names.cut(before);
            Err(refusal(alloc, tokens, names))
        }
        Err(Stop::Memory) => Err(ReadError::OutOfMemory),
    }
}
