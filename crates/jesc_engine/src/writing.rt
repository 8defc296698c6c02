//! A report, written to an output: one piece for each duty, and one for the last line.

ghost use Rattle.std.specs.Prelude.{◌≤◌, length, map};
ghost use Rattle.std.specs.List.{flat_map};
ghost use Rattle.jesc_io.specs.Contents.{Gains};
ghost use Rattle.jesc_io.specs.Faults.{HasCause};
ghost use Rattle.jesc_engine.specs.Report.{duty_lines, file_lines, all_judgements, last_line, report};
ghost use Rattle.jesc_engine.specs.Files.{report_of};

use crate::answer::Judgement;
use crate::file::JudgedFile;
use crate::report::{Source, put_duty, put_last_line};
use jesc_io::{IoError, Sink};
use jesc_text::Text;
use std::alloc::Global;

/// Writes the lines of a duty.
#[tactic(auto, using(crate::proofs::Gaining::gains_none))]
fn write_duty<O: Sink>(
    alloc: Global,
    source: &Source,
    judgement: &Judgement,
    out: &mut O,
) -> Result<(), IoError>
    ensures gains { Gains (O.taken out.old) (O.taken out.new) (duty_lines source.now.name.now source.now.bytes.now judgement.now) result }
    ensures cause { HasCause (O.faults out.old) (O.faults out.new) 0 0 result }
{
    let mut text = Text::new(alloc);
    match put_duty(&mut text, source, judgement) {
        Ok(_) => out.put(text.as_slice()),
        Err(_) => Err(IoError::OutOfMemory),
    }
}

/// Writes the lines of all duties.
fn write_duties<O: Sink>(
    alloc: Global,
    source: &Source,
    judgements: &[Judgement],
    out: &mut O,
) -> Result<(), IoError>
    ensures gains { Gains (O.taken out.old) (O.taken out.new) (flat_map (duty_lines source.now.name.now source.now.bytes.now) judgements.now) result }
    ensures cause { HasCause (O.faults out.old) (O.faults out.new) 0 0 result }
{
    for judgement in judgements {
        match write_duty(alloc, source, judgement, out) {
            Ok(_) => {}
            Err(error) => return Err(error),
        }
    }
    Ok(())
}

/// Writes the lines of a file.
#[tactic(auto, using(crate::proofs::Gaining::gains_none))]
fn write_file<O: Sink>(alloc: Global, file: &JudgedFile, out: &mut O) -> Result<(), IoError>
    ensures gains { Gains (O.taken out.old) (O.taken out.new) (file_lines (report_of file.now)) result }
    ensures cause { HasCause (O.faults out.old) (O.faults out.new) 0 0 result }
{
    match Source::new(alloc, file.source.name, file.source.tokens.text.as_slice()) {
        Ok(source) => write_duties(alloc, &source, file.judgements.as_slice(), out),
        Err(_) => Err(IoError::OutOfMemory),
    }
}

/// Writes the lines of all files.
fn write_files<O: Sink>(alloc: Global, files: &[JudgedFile], out: &mut O) -> Result<(), IoError>
    ensures gains { Gains (O.taken out.old) (O.taken out.new) (flat_map (λ file. file_lines (report_of file)) files.now) result }
    ensures cause { HasCause (O.faults out.old) (O.faults out.new) 0 0 result }
{
    for file in files {
        match write_file(alloc, file, out) {
            Ok(_) => {}
            Err(error) => return Err(error),
        }
    }
    Ok(())
}

/// Writes the last line.
#[tactic(auto, using(crate::proofs::Gaining::gains_none))]
fn write_last_line<O: Sink>(alloc: Global, files: &[JudgedFile], out: &mut O) -> Result<(), IoError>
    requires { length files.now ≤ 64 }
    ensures gains { Gains (O.taken out.old) (O.taken out.new) (last_line (all_judgements (map report_of files.now))) result }
    ensures cause { HasCause (O.faults out.old) (O.faults out.new) 0 0 result }
{
    let mut text = Text::new(alloc);
    match put_last_line(&mut text, files) {
        Ok(_) => out.put(text.as_slice()),
        Err(_) => Err(IoError::OutOfMemory),
    }
}

/// Writes the report. An error leaves a prefix of it written, and nothing is written after one.
#[tactic(auto, using(crate::proofs::Gaining::gains_then, crate::proofs::Gaining::gains_part))]
pub(crate) fn write_report<O: Sink>(
    alloc: Global,
    files: &[JudgedFile],
    out: &mut O,
) -> Result<(), IoError>
    requires { length files.now ≤ 64 }
    ensures gains { Gains (O.taken out.old) (O.taken out.new) (report (map report_of files.now)) result }
    ensures cause { HasCause (O.faults out.old) (O.faults out.new) 0 0 result }
{
    match write_files(alloc, files, out) {
        Ok(_) => write_last_line(alloc, files, out),
        Err(error) => Err(error),
    }
}
