//! The classes of the files.

ghost use Rattle.std.specs.Prelude.{◌≡◌, ◌≢◌, ◌≤◌, ◌++◌, ℕ, Option, IfSome, IfOk, IfErr, length, slice_get, []};
ghost use Rattle.jesc_io.specs.Contents.{Store};
ghost use Rattle.jesc_lexer.specs.Spans.{AreSpans};
ghost use Rattle.jesc_ast.specs.Lexemes.{lexemes};
ghost use Rattle.jesc_jml_parser.specs.Refusals.{file_of as last_file, place_of_next, text_of_next};
ghost use Rattle.jesc_first.specs.Accepted.{Accepted, names_of};
ghost use Rattle.jesc_engine.specs.Sources.{AreSources};
ghost use Rattle.jesc_engine.specs.Causes.{IsStop, IsStray, IsOutsideAt, LiesWithin};
ghost use Rattle.jesc_engine.specs.Files.{source_names, source_tokens, class_sources, AreClassed};

use crate::file::{ClassFile, SourceFile};
use crate::stop::{Cause, Stop};
use jesc_first::{Class, Names, ReadError, read_classes};
use jesc_lexer::{Token, Tokens};
use jesc_text::{List, OutOfMemory, Place, Text, place_of};
use std::alloc::Global;

/// The number of the file that has these tokens, and 0 where there are none.
fn file_of(tokens: &[Token]) -> u32
    ensures { result ≡ last_file tokens.now }
{
    match tokens.last() {
        Some(token) => token.span.file,
        None => 0,
    }
}

/// The token of this number.
fn nth(tokens: &[Token], at: u32) -> Option<Token>
    ensures { result ≡ slice_get tokens.now at }
{
    tokens.get(at as usize).copied()
}

/// The token of this number, which lies in the text.
fn token_at(tokens: &Tokens, at: u32) -> Option<Token>
    requires { AreSpans (length tokens.now.text) 0 tokens.now.list }
    ensures token { result ≡ slice_get tokens.now.list at }
    ensures within { IfSome result (λ token. LiesWithin (length tokens.now.text) token) }
{
    nth(tokens.list.as_slice(), at)
}

/// The place of this token, or of the end of the file.
fn place_at(tokens: &Tokens, at: u32) -> Place
    requires spans { AreSpans (length tokens.now.text) 0 tokens.now.list }
    requires short { length tokens.now.text ≤ 1048576 }
    ensures { result ≡ place_of_next tokens.now (slice_get tokens.now.list at) }
{
    let text = tokens.text.as_slice();
    match token_at(tokens, at) {
        Some(token) => place_of(text, token.span.file, token.span.from),
        None => place_of(text, file_of(tokens.list.as_slice()), text.len() as u32),
    }
}

/// The text of this token, or `end of file`.
fn text_at(alloc: Global, tokens: &Tokens, at: u32) -> Result<Text, OutOfMemory>
    requires { AreSpans (length tokens.now.text) 0 tokens.now.list }
    ensures { IfOk result (λ text. text ≡ text_of_next tokens.now (slice_get tokens.now.list at)) }
{
    let text = tokens.text.as_slice();
    let mut word = Text::new(alloc);
    match token_at(tokens, at) {
        Some(token) => word.append(&text[token.span.from as usize..token.span.to as usize])?,
        None => word.append(b"end of file")?,
    }
    Ok(word)
}

/// That the file is outside the first profile, as this token shows, or the end of the file.
fn outside(alloc: Global, tokens: &Tokens, at: u32) -> Cause
    requires spans { AreSpans (length tokens.now.text) 0 tokens.now.list }
    requires short { length tokens.now.text ≤ 1048576 }
    ensures { IsOutsideAt tokens.now at result }
{
    match text_at(alloc, tokens, at) {
        Ok(text) => Cause::Outside {
            place: place_at(tokens, at),
            text,
        },
        Err(_) => Cause::OutOfMemory,
    }
}

/// Reads the classes of the next file.
fn classes_of<'a>(
    alloc: Global,
    tokens: &'a Tokens,
    names: &mut Names<'a>,
) -> Result<List<Class>, Cause>
    requires spans { AreSpans (length tokens.now.text) 0 tokens.now.list }
    requires short { length tokens.now.text ≤ 1048576 }
    ensures accepted { IfOk result (λ classes. Accepted names.old (lexemes tokens.now) classes × (names.new ≡ names.old ++ names_of classes)) }
    ensures stray { IfErr result (λ cause. IsStray names.old tokens.now cause) }
{
    match read_classes(alloc, tokens, names) {
        Ok(classes) => Ok(classes),
        Err(ReadError::Outside { at }) => Err(outside(alloc, tokens, at)),
        Err(ReadError::OutOfMemory) => Err(Cause::OutOfMemory),
    }
}

/// Reads the classes of all files, in order, up to the first that is outside the first profile.
pub(crate) fn read_program<'a, 'b>(
    alloc: Global,
    sources: &'a [SourceFile<'b>],
) -> Result<List<ClassFile<'a, 'b>>, Stop<'b>>
    ensures classed { IfOk result (λ files. AreClassed [] files) }
    ensures sources { IfOk result (λ files. class_sources files ≡ sources.now) }
    ensures found { IfErr result (λ stop. stop.cause ≢ Cause.CannotRead) }
    ensures stopped { (told : Option Store) (reads reads' : ℕ) → AreSources told (source_names sources.now) (source_tokens sources.now) → IfErr result (λ stop. IsStop told (source_names sources.now) reads reads' stop) }
{
    let mut names = Names::new(alloc);
    let mut files = List::new(alloc);
    for source in sources {
        match classes_of(alloc, &source.tokens, &mut names) {
            Ok(classes) => match files.push(ClassFile { source, classes }) {
                Ok(_) => {}
                Err(_) => return Err(Stop {
                    name: source.name,
                    cause: Cause::OutOfMemory,
                }),
            },
            Err(cause) => return Err(Stop {
                name: source.name,
                cause,
            }),
        }
    }
    Ok(files)
}
