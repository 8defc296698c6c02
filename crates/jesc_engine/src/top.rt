//! The top call.

ghost use Rattle.std.specs.Prelude.{◌≡◌, ◌≢◌, ◌⊎◌, ◌≤◌, ℕ, List, [], Option, length, map};
ghost use Rattle.std.specs.List.{list_all};
ghost use Rattle.std.specs.String.{string_bytes};
ghost use Rattle.jesc_io.specs.Faults.{Rose};
ghost use Rattle.jesc_io.specs.Contents.{Store, SameContents};
ghost use Rattle.jesc_engine.specs.Command.{IsCommand, names_of};
ghost use Rattle.jesc_engine.specs.Sources.{AreSources};
ghost use Rattle.jesc_engine.specs.Refusals.{IsRefusal};
ghost use Rattle.jesc_engine.specs.Report.{all_judgements, is_verified as verified};
ghost use Rattle.jesc_engine.specs.Judged.{HoldSafeProgram};
ghost use Rattle.jesc_engine.specs.Ends.{EndsOn, Ends};
ghost use Rattle.jesc_engine.specs.Causes.{IsStop};
ghost use Rattle.jesc_engine.specs.Files.{source_names, source_tokens, class_sources, AreClassed, report_of};
ghost use Rattle.jesc_engine.specs.After.{status_after, verdict_of};

use crate::answer::Judgement;
use crate::classes::read_program;
use crate::complaint::{say_stop, say_usage};
use crate::file::{ClassFile, JudgedFile, SourceFile};
use crate::judge::judge_all;
use crate::report::is_verified;
use crate::sources::read_sources;
use crate::stop::{Cause, Stop};
use crate::words::file_words;
use crate::writing::write_report;
use jesc_io::{Files, IoError, Sink};
use std::alloc::Global;

/// How a call of `run` ended. The program ends with the number.
#[derive(Debug, Drop, Clone, Copy, PartialEq, Eq)]
pub enum Status {
    /// 0: each check of each duty is proved.
    Verified,
    /// 1: some check is not, and a line tells it.
    Warned,
    /// 2: a file is refused.
    Refused,
    /// 3: the words are no command.
    Usage,
    /// 4: a file can't be read.
    ReadFault,
    /// 5: an output failed.
    WriteFault,
    /// 6: memory ran out.
    OutOfMemory,
    /// 7: some duty was skipped, which no command that is built asks for.
    Partial,
}

/// The status of an answer whose text was written so.
fn ended(answer: Status, written: Result<(), IoError>) -> Status
    ensures { result ≡ status_after answer written }
{
    match written {
        Ok(_) => answer,
        Err(IoError::Failed) => Status::WriteFault,
        Err(IoError::OutOfMemory) => Status::OutOfMemory,
    }
}

/// Whether each duty is verified.
fn are_verified(judgements: &[Judgement]) -> bool
    ensures { result ≡ list_all (λ judgement. verified judgement.findings) judgements.now }
{
    judgements
        .iter()
        .all(|judgement| is_verified(judgement.findings.as_slice()))
}

/// Whether each duty of all files is.
fn all_are_verified(files: &[JudgedFile]) -> bool
    ensures { result ≡ list_all (λ file. list_all (λ judgement. verified judgement.findings) file.judgements) files.now }
{
    files
        .iter()
        .all(|file| are_verified(file.judgements.as_slice()))
}

/// The answer that the judgements on all files give.
#[tactic(auto, using(crate::proofs::Counts::all_all))]
fn verdict(files: &[JudgedFile]) -> Status
    ensures { result ≡ verdict_of (all_judgements (map report_of files.now)) }
{
    if all_are_verified(files) {
        Status::Verified
    } else {
        Status::Warned
    }
}

/// Says what stopped the reading, if it wasn't want of memory.
fn complain<E: Sink>(alloc: Global, stop: &Stop, err: &mut E) -> Status
    ensures ends { (told : Option Store) (names : List (List ℕ)) (reads reads' : ℕ) (out : Option (List ℕ)) → IsStop told names reads reads' stop.now → EndsOn told names reads reads' out out (E.taken err.old) (E.taken err.new) result }
    ensures usage { result ≢ Status.Usage }
    ensures read_fault { result ≡ Status.ReadFault → stop.now.cause ≡ Cause.CannotRead }
    ensures write_fault { result ≡ Status.WriteFault → Rose (E.faults err.old) (E.faults err.new) }
{
    match &stop.cause {
        Cause::OutOfMemory => Status::OutOfMemory,
        Cause::CannotRead => ended(Status::ReadFault, say_stop(alloc, stop, err)),
        _ => ended(Status::Refused, say_stop(alloc, stop, err)),
    }
}

/// Judges the classes of all files and reports on them.
fn check_program<O: Sink>(alloc: Global, files: &[ClassFile], out: &mut O) -> Status
    requires { length files.now ≤ 64 }
    ensures ends { (told : Option Store) (reads reads' : ℕ) (err : Option (List ℕ)) → AreClassed [] files.now → AreSources told (source_names (class_sources files.now)) (source_tokens (class_sources files.now)) → EndsOn told (source_names (class_sources files.now)) reads reads' (O.taken out.old) (O.taken out.new) err err result }
    ensures usage { result ≢ Status.Usage }
    ensures read_fault { result ≢ Status.ReadFault }
    ensures write_fault { result ≡ Status.WriteFault → Rose (O.faults out.old) (O.faults out.new) }
{
    match judge_all(alloc, files) {
        Ok(judged) => {
            let written = write_report(alloc, judged.as_slice(), out);
            ended(verdict(judged.as_slice()), written)
        }
        Err(_) => Status::OutOfMemory,
    }
}

/// Reads the classes of the files, and judges them or says where a file is outside the first profile.
fn check_sources<O: Sink, E: Sink>(
    alloc: Global,
    sources: &[SourceFile],
    out: &mut O,
    err: &mut E,
) -> Status
    requires { length sources.now ≤ 64 }
    ensures ends { (told : Option Store) (reads reads' : ℕ) → AreSources told (source_names sources.now) (source_tokens sources.now) → EndsOn told (source_names sources.now) reads reads' (O.taken out.old) (O.taken out.new) (E.taken err.old) (E.taken err.new) result }
    ensures usage { result ≢ Status.Usage }
    ensures read_fault { result ≢ Status.ReadFault }
    ensures write_fault { result ≡ Status.WriteFault → Rose (O.faults out.old) (O.faults out.new) ⊎ Rose (E.faults err.old) (E.faults err.new) }
{
    match read_program(alloc, sources) {
        Ok(files) => check_program(alloc, files.as_slice(), out),
        Err(stop) => complain(alloc, &stop, err),
    }
}

/// Reads the files of these names and checks them.
fn check_files<F: Files, O: Sink, E: Sink>(
    alloc: Global,
    names: &[String],
    files: &mut F,
    out: &mut O,
    err: &mut E,
) -> Status
    requires { length names.now ≤ 64 }
    ensures ends { EndsOn (F.told files.old) (map string_bytes names.now) (F.read_faults files.old) (F.read_faults files.new) (O.taken out.old) (O.taken out.new) (E.taken err.old) (E.taken err.new) result }
    ensures usage { result ≢ Status.Usage }
    ensures read_fault { result ≡ Status.ReadFault → Rose (F.read_faults files.old) (F.read_faults files.new) }
    ensures write_fault { result ≡ Status.WriteFault → Rose (O.faults out.old) (O.faults out.new) ⊎ Rose (E.faults err.old) (E.faults err.new) }
    ensures unwritten { F.write_faults files.new ≡ F.write_faults files.old }
    ensures same { SameContents (F.told files.old) (F.told files.new) }
{
    match read_sources(alloc, files, names) {
        Ok(sources) => check_sources(alloc, sources.as_slice(), out, err),
        Err(stop) => complain(alloc, &stop, err),
    }
}

/// Runs the command of these words: `--esc FILE ..` checks each duty of the classes in 1 to 64 files.
///
/// `Verified` says that no call of any method of the classes fails a check, whatever its arguments and its steps.
/// `Warned` says that some check isn't proved; where its line ends in `open`, some call fails it. `Refused`, `Usage`
/// and `ReadFault` come with one line of `err`. `WriteFault` and `OutOfMemory` leave a prefix of a report or of such a
/// line, whose cause is there, or nothing.
pub fn run<F: Files, O: Sink, E: Sink>(
    alloc: Global,
    words: &[String],
    files: &mut F,
    out: &mut O,
    err: &mut E,
) -> Status
    // what was written, and why this status came
    ensures ends { Ends words.now (F.told files.old) (F.read_faults files.old) (F.read_faults files.new) (O.taken out.old) (O.taken out.new) (E.taken err.old) (E.taken err.new) result }
    // verified: the files spell files of the grammar and are an accepted program, and no call fails a check
    ensures safe { result ≡ Status.Verified → HoldSafeProgram (F.told files.old) (names_of words.now) }
    ensures refused { result ≡ Status.Refused → (line : List ℕ) × IsRefusal (F.told files.old) (names_of words.now) line }
    ensures usage { result ≡ Status.Usage → ¬ (IsCommand words.now) }
    ensures command { result ≢ Status.Usage → result ≢ Status.WriteFault → result ≢ Status.OutOfMemory → IsCommand words.now }
    ensures read_fault { result ≡ Status.ReadFault → Rose (F.read_faults files.old) (F.read_faults files.new) }
    ensures write_fault { result ≡ Status.WriteFault → Rose (O.faults out.old) (O.faults out.new) ⊎ Rose (E.faults err.old) (E.faults err.new) }
    ensures unwritten { F.write_faults files.new ≡ F.write_faults files.old }
    ensures same { SameContents (F.told files.old) (F.told files.new) }
{
    match file_words(words) {
        Some(names) => check_files(alloc, names, files, out, err),
        None => ended(Status::Usage, say_usage(err)),
    }
}
