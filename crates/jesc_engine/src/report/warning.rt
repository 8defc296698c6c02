ghost use Rattle.std.specs.Prelude.{◌≡◌, ◌++◌, OnOk, codes};
ghost use Rattle.std.specs.Fmt.{decimal, signed_decimal};
ghost use Rattle.jesc_engine.specs.Report.{kind_word, cause_text, by_text, warning_line, finding_line};

use crate::answer::{Answer, Finding};
use crate::report::{Source, put_count, put_place};
use jesc_first::Kind;
use jesc_text::{OutOfMemory, Text, put_number};

fn put_kind(into: &mut Text, kind: Kind) -> Result<(), OutOfMemory>
    ensures { OnOk result (into.new ≡ into.old ++ kind_word kind) }
{
    match kind {
        Kind::Overflow => into.append(b"Overflow"),
        Kind::Assert => into.append(b"Assert"),
        Kind::Undefined => into.append(b"Undefined"),
        Kind::Postcondition => into.append(b"Postcondition"),
    }
}

/// Appends words, and then a count.
fn put_counted(into: &mut Text, words: &[u8], n: u32) -> Result<(), OutOfMemory>
    ensures { OnOk result (into.new ≡ into.old ++ (words.now ++ decimal n)) }
{
    into.append(words)?;
    put_count(into, n as usize)
}

fn put_wide_number(into: &mut Text, n: &i128) -> Result<(), OutOfMemory>
    ensures { OnOk result (into.new ≡ into.old ++ (codes "wide number " ++ signed_decimal n.now)) }
{
    into.append(b"wide number ")?;
    put_number(into, *n)?;
    Ok(())
}

fn put_cause(into: &mut Text, answer: &Answer) -> Result<(), OutOfMemory>
    ensures { OnOk result (into.new ≡ into.old ++ cause_text answer.now) }
{
    match answer {
        Answer::Proved => Ok(()),
        Answer::Open => into.append(b"open"),
        Answer::WideForms(n) => put_counted(into, b"wide forms ", *n),
        Answer::WidePairs(n) => put_counted(into, b"wide pairs ", *n),
        Answer::WideNumber(n) => put_wide_number(into, n),
        Answer::Gap => into.append(b"gap"),
    }
}

/// Appends the second place of a warning, if it has one.
fn put_by(into: &mut Text, source: &Source, by: Option<u32>) -> Result<(), OutOfMemory>
    ensures { OnOk result (into.new ≡ into.old ++ by_text source.now.name.now source.now.bytes.now by) }
{
    match by {
        None => Ok(()),
        Some(offset) => {
            into.append(b" ")?;
            put_place(into, source, offset)
        }
    }
}

/// Appends the line of a finding on a duty that isn't proved.
fn put_warning(
    into: &mut Text,
    source: &Source,
    duty: &[u8],
    finding: &Finding,
) -> Result<(), OutOfMemory>
    ensures { OnOk result (into.new ≡ into.old ++ warning_line source.now.name.now source.now.bytes.now duty.now finding.now) }
{
    put_place(into, source, finding.check.at)?;
    into.append(b": warning: ")?;
    put_kind(into, finding.check.kind)?;
    put_by(into, source, finding.check.by)?;
    into.append(b" in ")?;
    into.append(duty)?;
    into.append(b": ")?;
    put_cause(into, &finding.answer)?;
    into.append(b"\n")?;
    Ok(())
}

/// Appends the line of a finding, if it has one.
pub(crate) fn put_finding(
    into: &mut Text,
    source: &Source,
    duty: &[u8],
    finding: &Finding,
) -> Result<(), OutOfMemory>
    ensures { OnOk result (into.new ≡ into.old ++ finding_line source.now.name.now source.now.bytes.now duty.now finding.now) }
{
    if finding.answer.is_proved() {
        return Ok(());
    }
    put_warning(into, source, duty, finding)
}
