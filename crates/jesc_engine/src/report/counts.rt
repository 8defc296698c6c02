//! The counts of duties.

ghost use Rattle.std.specs.Prelude.{◌≡◌, ◌≤◌, ◌++◌, OnOk, length, map};
ghost use Rattle.jesc_engine.specs.Report.{all_judgements, last_line, count_verified as verified_count, count_warned as warned_count};
ghost use Rattle.jesc_engine.specs.Files.{report_of};

use crate::answer::Judgement;
use crate::file::JudgedFile;
use crate::report::{is_verified, put_count};
use jesc_text::{OutOfMemory, Text};

/// How many duties are verified.
fn verified_among(judgements: &[Judgement]) -> usize
    ensures count { result ≡ verified_count judgements.now }
    ensures bound { result ≤ length judgements.now }
{
    judgements
        .iter()
        .filter(|judgement| is_verified(judgement.findings.as_slice()))
        .count()
}

/// How many duties are not verified.
fn warned_among(judgements: &[Judgement]) -> usize
    ensures count { result ≡ warned_count judgements.now }
    ensures bound { result ≤ length judgements.now }
{
    judgements
        .iter()
        .filter(|judgement| !is_verified(judgement.findings.as_slice()))
        .count()
}

/// How many duties of all files there are.
#[tactic(auto, using(crate::proofs::Counts::length_all))]
fn count_duties(files: &[JudgedFile]) -> usize
    requires { length files.now ≤ 64 }
    ensures { result ≡ length (all_judgements (map report_of files.now)) }
{
    let mut count = 0;
    for file in files {
        count += file.judgements.len();
    }
    count
}

/// How many of them are verified.
#[tactic(auto, using(crate::proofs::Counts::count_all))]
fn count_verified(files: &[JudgedFile]) -> usize
    requires { length files.now ≤ 64 }
    ensures { result ≡ verified_count (all_judgements (map report_of files.now)) }
{
    let mut count = 0;
    for file in files {
        count += verified_among(file.judgements.as_slice());
    }
    count
}

/// How many of them are not.
#[tactic(auto, using(crate::proofs::Counts::count_all))]
fn count_warned(files: &[JudgedFile]) -> usize
    requires { length files.now ≤ 64 }
    ensures { result ≡ warned_count (all_judgements (map report_of files.now)) }
{
    let mut count = 0;
    for file in files {
        count += warned_among(file.judgements.as_slice());
    }
    count
}

/// Appends the line with the counts of all duties.
pub(crate) fn put_last_line(into: &mut Text, files: &[JudgedFile]) -> Result<(), OutOfMemory>
    requires { length files.now ≤ 64 }
    ensures { OnOk result (into.new ≡ into.old ++ last_line (all_judgements (map report_of files.now))) }
{
    into.append(b"methods ")?;
    put_count(into, count_duties(files))?;
    into.append(b", verified ")?;
    put_count(into, count_verified(files))?;
    into.append(b", warned ")?;
    put_count(into, count_warned(files))?;
    into.append(b", skipped 0\n")?;
    Ok(())
}
