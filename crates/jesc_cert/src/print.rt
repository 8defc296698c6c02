//! The text of a certificate.

ghost use Rattle.std.specs.Prelude.{◌≡◌, ◌++◌, [], ◌∷◌, OnOk};
ghost use Rattle.std.specs.Fmt.{signed_decimal};
ghost use Rattle.jesc_cert.specs.Texts.{block_lines, ended, letter, line_text, numbers_text};

use crate::cert::{Cert, CertKind, CertLine};
use jesc_text::{OutOfMemory, Text, put_number};

/// Appends the block of a certificate: the line `cond` with the name of the duty and the number of the condition, and then the
/// certificate's lines.
///
/// Answers `OutOfMemory` where there is no room; the text then ends in a part of the block.
pub fn print_cert(into: &mut Text, duty: &[u8], number: u32, cert: &Cert) -> Result<(), OutOfMemory>
    ensures { OnOk result (into.new ≡ into.old ++ ended (block_lines (duty.now, number, cert.now))) }
{
    into.append(b"cond ")?;
    into.append(duty)?;
    into.append(b" ")?;
    put_number(into, number as i128)?;
    into.append(b"\n")?;
    for line in cert.lines.as_slice() {
        print_line(into, line)?;
    }
    Ok(())
}

/// Appends a line.
fn print_line(into: &mut Text, line: &CertLine) -> Result<(), OutOfMemory>
    ensures { OnOk result (into.new ≡ into.old ++ ended (line_text line.now ∷ [])) }
{
    into.append(letter_of(line.kind))?;
    print_numbers(into, line.numbers.as_slice())?;
    into.append(b"\n")
}

/// Appends numbers, each behind a space.
fn print_numbers(into: &mut Text, numbers: &[i128]) -> Result<(), OutOfMemory>
    ensures { OnOk result (into.new ≡ into.old ++ numbers_text numbers.now) }
{
    for number in numbers {
        print_number(into, number)?;
    }
    Ok(())
}

/// Appends a number, behind a space.
fn print_number(into: &mut Text, number: &i128) -> Result<(), OutOfMemory>
    ensures { OnOk result (into.new ≡ into.old ++ 32 ∷ signed_decimal number.now) }
{
    into.append(b" ")?;
    let n = *number;
    put_number(into, n)?;
    Ok(())
}

/// The letter of a kind of line.
fn letter_of(kind: CertKind) -> &'static [u8]
    ensures { result.now ≡ letter kind }
{
    match kind {
        CertKind::T => b"t",
        CertKind::G => b"g",
        CertKind::R => b"r",
        CertKind::Q => b"q",
        CertKind::S => b"s",
        CertKind::C => b"c",
        CertKind::M => b"m",
    }
}
