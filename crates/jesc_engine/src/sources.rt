//! The files of the command, each with its tokens.
//!
//! A file is read, and refused if it must be, before the next one is opened.

ghost use Rattle.std.specs.Prelude.{◌≡◌, ◌+◌, ◌≤◌, ◌<◌, List as Items, IfOk, IfErr, OnOk, length, map};
ghost use Rattle.std.specs.String.{string_bytes};
ghost use Rattle.jesc_io.specs.Contents.{SameContents};
ghost use Rattle.jesc_lexer.specs.Spans.{AreSpans};
ghost use Rattle.jesc_lexer.specs.declared.token.Tokens.{Tokens as AllTokens};
ghost use Rattle.jesc_engine.specs.Sources.{HasUnit, AreSources, total};
ghost use Rattle.jesc_engine.specs.Causes.{IsUnit, IsParsing, IsCause, IsStop};
ghost use Rattle.jesc_engine.specs.Files.{source_names, source_tokens, IsNext};

use crate::file::SourceFile;
use crate::stop::{Cause, Stop};
use jesc_io::{Files, read_whole};
use jesc_java_parser::parse_file;
use jesc_lexer::{Tokens, lex};
use jesc_text::List;
use std::alloc::Global;

/// How many bytes the files of a command may have together.
const TOGETHER: usize = 8_388_608;

/// The files that were read so far, and how many bytes they have.
#[derive(Drop)]
struct Sources<'a> {
    files: List<SourceFile<'a>>,
    bytes: usize,
}

/// The tokens, where they spell a file of the grammar.
fn parsed(alloc: Global, tokens: Tokens) -> Result<Tokens, Cause>
    requires spans { AreSpans (length tokens.text) 0 tokens.list }
    requires short { length tokens.text ≤ 1048576 }
    ensures same { IfOk result (λ same. same ≡ tokens) }
    ensures unit { IfOk result (λ same. IsUnit tokens) }
    ensures refused { IfErr result (λ cause. IsParsing tokens cause) }
{
    match parse_file(alloc, &tokens) {
        Ok(_) => Ok(tokens),
        Err(error) => Err(Cause::from(error)),
    }
}

/// Reads the file of this name, whose place among the files is `number`. Those before it have `earlier` bytes.
fn read_source<F: Files>(
    alloc: Global,
    files: &mut F,
    name: &str,
    number: u32,
    earlier: usize,
) -> Result<Tokens, Cause>
    requires { earlier ≤ 8388608 }
    ensures unit { IfOk result (λ tokens. HasUnit (F.told files.old) number name.now tokens) }
    ensures spans { IfOk result (λ tokens. AreSpans (length tokens.text) 0 tokens.list) }
    ensures small { IfOk result (λ tokens. earlier + length tokens.text ≤ 8388608) }
    ensures steady { IfOk result (λ tokens. F.read_faults files.new ≡ F.read_faults files.old) }
    ensures refused { (before : Items AllTokens) → number ≡ length before → earlier ≡ total before → IfErr result (λ cause. IsCause (F.told files.old) before name.now (F.read_faults files.old) (F.read_faults files.new) cause) }
    ensures unwritten { F.write_faults files.new ≡ F.write_faults files.old }
    ensures same { SameContents (F.told files.old) (F.told files.new) }
{
    let bytes = read_whole(alloc, files, name)?;
    let together = earlier + bytes.len();
    if together > TOGETHER {
        return Err(Cause::TooLargeTogether(together));
    }
    let tokens = lex(alloc, number, bytes.as_slice())?;
    parsed(alloc, tokens)
}

/// Reads the next file.
fn read_next<'a, F: Files>(
    alloc: Global,
    files: &mut F,
    name: &'a str,
    sources: &mut Sources<'a>,
) -> Result<(), Cause>
    requires few { length sources.old.files < 64 }
    requires sum { sources.old.bytes ≡ total (source_tokens sources.old.files) }
    requires small { sources.old.bytes ≤ 8388608 }
    ensures more { OnOk result (IsNext (F.told files.old) name.now sources.old sources.new) }
    ensures steady { OnOk result (F.read_faults files.new ≡ F.read_faults files.old) }
    ensures refused { IfErr result (λ cause. IsCause (F.told files.old) (source_tokens sources.old.files) name.now (F.read_faults files.old) (F.read_faults files.new) cause) }
    ensures unwritten { F.write_faults files.new ≡ F.write_faults files.old }
    ensures same { SameContents (F.told files.old) (F.told files.new) }
{
    let number = sources.files.len() as u32;
    let tokens = read_source(alloc, files, name, number, sources.bytes)?;
    sources.bytes += tokens.text.len();
    sources.files.push(SourceFile { name, tokens })?;
    Ok(())
}

/// Reads the files of these names, in order, up to the first that stops it.
pub(crate) fn read_sources<'a, F: Files>(
    alloc: Global,
    files: &mut F,
    names: &'a [String],
) -> Result<List<SourceFile<'a>>, Stop<'a>>
    requires { length names.now ≤ 64 }
    ensures sources { IfOk result (λ sources. AreSources (F.told files.old) (map string_bytes names.now) (source_tokens sources)) }
    ensures names { IfOk result (λ sources. source_names sources ≡ map string_bytes names.now) }
    ensures stopped { IfErr result (λ stop. IsStop (F.told files.old) (map string_bytes names.now) (F.read_faults files.old) (F.read_faults files.new) stop) }
    ensures unwritten { F.write_faults files.new ≡ F.write_faults files.old }
    ensures same { SameContents (F.told files.old) (F.told files.new) }
{
    let mut sources = Sources {
        files: List::new(alloc),
        bytes: 0,
    };
    for word in names {
        let name = word.as_str();
        match read_next(alloc, files, name, &mut sources) {
            Ok(_) => {}
            Err(cause) => return Err(Stop { name, cause }),
        }
    }
    Ok(sources.files)
}
