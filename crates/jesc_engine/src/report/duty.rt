ghost use Rattle.std.specs.Prelude.{◌≡◌, ◌++◌, OnOk, IfOk};
ghost use Rattle.std.specs.List.{flat_map};
ghost use Rattle.jesc_engine.specs.Report.{duty_text, finding_line, verdict_line, duty_lines, is_verified as verified};

use crate::answer::{Finding, Judgement};
use crate::report::warning::put_finding;
use crate::report::{Source, put_count};
use jesc_first::Method;
use jesc_text::{OutOfMemory, Text};
use std::alloc::Global;

/// The name of a duty, `CLASS.METHOD/PARAMETERS`.
pub(crate) fn duty_name(alloc: Global, class: &[u8], method: &Method) -> Result<Text, OutOfMemory>
    ensures { IfOk result (λ text. text ≡ duty_text class.now method.now) }
{
    let mut text = Text::new(alloc);
    text.append(class)?;
    text.append(b".")?;
    text.append(method.name.as_slice())?;
    text.append(b"/")?;
    put_count(&mut text, method.parameters.len())?;
    Ok(text)
}

/// Whether each finding is proved.
pub(crate) fn is_verified(findings: &[Finding]) -> bool
    ensures { result ≡ verified findings.now }
{
    findings.iter().all(|finding| finding.answer.is_proved())
}

fn put_findings(into: &mut Text, source: &Source, judgement: &Judgement) -> Result<(), OutOfMemory>
    ensures { OnOk result (into.new ≡ into.old ++ flat_map (finding_line source.now.name.now source.now.bytes.now judgement.now.duty) judgement.now.findings) }
{
    for finding in judgement.findings.as_slice() {
        put_finding(into, source, judgement.duty.as_slice(), finding)?;
    }
    Ok(())
}

fn put_verdict(into: &mut Text, judgement: &Judgement) -> Result<(), OutOfMemory>
    ensures { OnOk result (into.new ≡ into.old ++ verdict_line judgement.now) }
{
    into.append(judgement.duty.as_slice())?;
    if is_verified(judgement.findings.as_slice()) {
        into.append(b" verified\n")
    } else {
        into.append(b" not verified\n")
    }
}

/// Appends the lines of a duty: its warnings in order, and then its verdict.
pub(crate) fn put_duty(
    into: &mut Text,
    source: &Source,
    judgement: &Judgement,
) -> Result<(), OutOfMemory>
    ensures { OnOk result (into.new ≡ into.old ++ duty_lines source.now.name.now source.now.bytes.now judgement.now) }
{
    put_findings(into, source, judgement)?;
    put_verdict(into, judgement)
}
