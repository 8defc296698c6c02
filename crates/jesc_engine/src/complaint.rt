//! The one line of `err`, for the answers that have one.

ghost use Rattle.std.specs.Prelude.{◌≡◌, ◌++◌, IfOk, OnOk, codes};
ghost use Rattle.jesc_io.specs.Contents.{Gains};
ghost use Rattle.jesc_io.specs.Faults.{HasCause};
ghost use Rattle.jesc_engine.specs.Ends.{usage_line};
ghost use Rattle.jesc_engine.specs.Refusals.{refused_at, lexical_text, lexical_line, syntax_line, too_large_together_line};
ghost use Rattle.jesc_engine.specs.Causes.{stop_line};

use crate::report::put_count;
use crate::stop::{Cause, Stop};
use jesc_io::{IoError, Sink};
use jesc_jml_parser::SyntaxError;
use jesc_text::{OutOfMemory, Place, Text};
use std::alloc::Global;

/// Says what the words of a command are.
pub(crate) fn say_usage<E: Sink>(err: &mut E) -> Result<(), IoError>
    ensures gains { Gains (E.taken err.old) (E.taken err.new) usage_line result }
    ensures cause { HasCause (E.faults err.old) (E.faults err.new) 0 0 result }
{
    err.put(b"jesc: usage: --esc FILE... | --check FILE... | --demo N\n")
}

/// `FILE`, and then words.
fn name_line(alloc: Global, name: &str, words: &[u8]) -> Result<Text, OutOfMemory>
    ensures { IfOk result (λ line. line ≡ name.now ++ words.now) }
{
    let mut line = Text::new(alloc);
    line.append(name.as_bytes())?;
    line.append(words)?;
    Ok(line)
}

/// That the files have too many bytes together.
fn too_large_together(alloc: Global, bytes: usize) -> Result<Text, OutOfMemory>
    ensures { IfOk result (λ line. line ≡ too_large_together_line bytes) }
{
    let mut line = Text::new(alloc);
    line.append(b"refused: F2 files too large together: ")?;
    put_count(&mut line, bytes)?;
    line.append(b"\n")?;
    Ok(line)
}

/// `FILE:LINE:COL: refused: `.
fn refused_at(alloc: Global, name: &str, place: Place) -> Result<Text, OutOfMemory>
    ensures { IfOk result (λ line. line ≡ refused_at name.now place) }
{
    let mut line = Text::new(alloc);
    line.append(name.as_bytes())?;
    line.append(b":")?;
    put_count(&mut line, place.line as usize)?;
    line.append(b":")?;
    put_count(&mut line, place.col as usize)?;
    line.append(b": refused: ")?;
    Ok(line)
}

/// The line of a refusal at a place: words, and then what stands there.
fn place_line(
    alloc: Global,
    name: &str,
    place: Place,
    words: &[u8],
    text: &[u8],
) -> Result<Text, OutOfMemory>
    ensures { IfOk result (λ line. line ≡ refused_at name.now place ++ words.now ++ text.now ++ codes "\n") }
{
    let mut line = refused_at(alloc, name, place)?;
    line.append(words)?;
    line.append(text)?;
    line.append(b"\n")?;
    Ok(line)
}

/// Appends words, and then what they speak of.
fn put_both(into: &mut Text, words: &[u8], text: &[u8]) -> Result<(), OutOfMemory>
    ensures { OnOk result (into.new ≡ into.old ++ (words.now ++ text.now)) }
{
    into.append(words)?;
    into.append(text)
}

/// Appends the number and the text of a lexical refusal.
fn put_lexical(into: &mut Text, number: u8, word: &[u8]) -> Result<(), OutOfMemory>
    ensures { OnOk result (into.new ≡ into.old ++ lexical_text number word.now) }
{
    match number {
        1 => into.append(b"L1 not UTF-8"),
        2 => into.append(b"L2 comment not closed"),
        3 => put_both(into, b"L3 character not in the grammar: ", word),
        4 => into.append(b"L4 bad number"),
        5 => into.append(b"L5 Unicode escape"),
        _ => into.append(b"L6 conditional annotation"),
    }
}

/// The line of a lexical refusal.
fn lexical(
    alloc: Global,
    name: &str,
    number: u8,
    place: Place,
    word: &[u8],
) -> Result<Text, OutOfMemory>
    ensures { IfOk result (λ line. line ≡ lexical_line name.now number place word.now) }
{
    let mut line = refused_at(alloc, name, place)?;
    put_lexical(&mut line, number, word)?;
    line.append(b"\n")?;
    Ok(line)
}

/// The line of a syntactic refusal. Want of memory has none.
fn syntactic(alloc: Global, name: &str, error: &SyntaxError) -> Result<Text, OutOfMemory>
    ensures { IfOk result (λ line. line ≡ syntax_line name.now error.now) }
{
    match error {
        SyntaxError::Token { place, text } => place_line(
            alloc,
            name,
            *place,
            b"S1 unexpected token: ",
            text.as_slice(),
        ),
        SyntaxError::LeftOut { place, word } => {
            place_line(alloc, name, *place, b"S2 left-out word: ", word.as_slice())
        }
        SyntaxError::Deep { place } => {
            place_line(alloc, name, *place, b"S3 nested too deeply", b"")
        }
        SyntaxError::OutOfMemory => Ok(Text::new(alloc)),
    }
}

/// The line of what stopped the reading. Want of memory has none.
fn line_of(alloc: Global, stop: &Stop) -> Result<Text, OutOfMemory>
    ensures { IfOk result (λ line. line ≡ stop_line stop.now) }
{
    let name = stop.name;
    match &stop.cause {
        Cause::CannotRead => name_line(alloc, name, b": cannot read\n"),
        Cause::TooLarge => name_line(alloc, name, b": refused: F1 file too large\n"),
        Cause::TooLargeTogether(bytes) => too_large_together(alloc, *bytes),
        Cause::Lexical {
            number,
            place,
            word,
        } => lexical(alloc, name, *number, *place, word.as_slice()),
        Cause::Syntax(error) => syntactic(alloc, name, error),
        Cause::Outside { place, text } => place_line(
            alloc,
            name,
            *place,
            b"P1 outside the first profile: ",
            text.as_slice(),
        ),
        Cause::OutOfMemory => Ok(Text::new(alloc)),
    }
}

/// Says what stopped the reading.
#[tactic(auto, using(crate::proofs::Gaining::gains_none))]
pub(crate) fn say_stop<E: Sink>(alloc: Global, stop: &Stop, err: &mut E) -> Result<(), IoError>
    ensures gains { Gains (E.taken err.old) (E.taken err.new) (stop_line stop.now) result }
    ensures cause { HasCause (E.faults err.old) (E.faults err.new) 0 0 result }
{
    match line_of(alloc, stop) {
        Ok(line) => err.put(line.as_slice()),
        Err(_) => Err(IoError::OutOfMemory),
    }
}
