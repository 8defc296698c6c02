//! One line of a file of certificates.

ghost use Rattle.std.specs.Prelude.{◌≡◌, ◌≤◌, ◌<◌, ◌^◌, ◌++◌, [], ◌∷◌, ◌↔◌, IsTrue, IfOk, MatchOption, All, length, codes};
ghost use Rattle.std.specs.Fmt.{decimal};
ghost use Rattle.jesc_cert.specs.Texts.{HasForm, Counts, letter};
ghost use Rattle.jesc_cert.specs.Inner.{
  IsFirst,
  IsFeed,
  Without,
  IsWithin,
  IsNext,
  HasNoNext,
  AreNumbers,
  IsReadLine,
  IsReadCond,
  IsReadNumber,
};

use crate::cert::{CertKind, CertLine};
use jesc_text::{List, OutOfMemory, Text, read_number};
use std::alloc::Global;

/// How many bytes stand before the first such byte, or in all.
pub fn bytes_before(bytes: &[u8], byte: u8) -> usize
    ensures { IsFirst byte bytes.now result }
{
    for i in 0..bytes.len() {
        if bytes[i] == byte {
            return i;
        }
    }
    bytes.len()
}

/// How many bytes the line at the front has before its line feed, or None where there is no line feed.
pub fn line_feed(bytes: &[u8]) -> Option<usize>
    ensures { MatchOption result (Without 10 bytes.now) (λ count. IsFeed bytes.now count) }
{
    let count = bytes_before(bytes, b'\n');
    if count == bytes.len() {
        return None;
    }
    Some(count)
}

/// The number that the bytes spell, where it is at most so large.
fn read_small(bytes: &[u8], most: u32) -> Option<u32>
    ensures { IsReadNumber most [] bytes.now result }
{
    match read_number(bytes) {
        Some(n) => {
            if n < 0 {
                return None;
            }
            if n > most as i128 {
                return None;
            }
            Some(n as u32)
        }
        None => None,
    }
}

/// The number of rounds, which is at most 5, that the line tells.
pub fn read_rounds(line: &[u8]) -> Option<u32>
    ensures { IsReadNumber 5 (codes "rounds ") line.now result }
{
    if !line.starts_with(b"rounds ") {
        return None;
    }
    read_small(&line[7..], 5)
}

/// The name of the duty and the number of the condition, where the line begins a certificate.
pub fn read_cond(alloc: Global, line: &[u8]) -> Result<Option<(Text, u32)>, OutOfMemory>
    requires { Without 10 line.now }
    ensures { IfOk result (IsReadCond line.now) }
{
    if !line.starts_with(b"cond ") {
        return Ok(None);
    }
    let rest = &line[5..];
    let count = bytes_before(rest, b' ');
    if count == 0 {
        return Ok(None);
    }
    if count == rest.len() {
        return Ok(None);
    }
    let number = match read_small(&rest[count + 1..], u32::MAX) {
        Some(number) => number,
        None => return Ok(None),
    };
    let mut duty = Text::new(alloc);
    duty.append(&rest[..count])?;
    Ok(Some((duty, number)))
}

/// The line of a certificate that these bytes are the text of.
pub fn read_line(alloc: Global, line: &[u8]) -> Result<Option<CertLine>, OutOfMemory>
    ensures { IfOk result (IsReadLine line.now) }
{
    if line.is_empty() {
        return Ok(None);
    }
    let kind = match kind_of(line[0]) {
        Some(kind) => kind,
        None => return Ok(None),
    };
    let numbers = match read_numbers(alloc, &line[1..])? {
        Some(numbers) => numbers,
        None => return Ok(None),
    };
    if !has_form(kind, numbers.as_slice()) {
        return Ok(None);
    }
    Ok(Some(CertLine { kind, numbers }))
}

/// The kind with this letter.
fn kind_of(byte: u8) -> Option<CertKind>
    ensures { MatchOption result ((kind : CertKind) → letter kind ≡ byte ∷ [] → ⊥) (λ kind. letter kind ≡ byte ∷ []) }
{
    match byte {
        b't' => Some(CertKind::T),
        b'g' => Some(CertKind::G),
        b'r' => Some(CertKind::R),
        b'q' => Some(CertKind::Q),
        b's' => Some(CertKind::S),
        b'c' => Some(CertKind::C),
        b'm' => Some(CertKind::M),
        _ => None,
    }
}

/// The numbers that the bytes are the text of, each behind a space.
fn read_numbers(alloc: Global, bytes: &[u8]) -> Result<Option<List<i128>>, OutOfMemory>
    ensures { IfOk result (AreNumbers bytes.now) }
{
    let mut numbers = List::new(alloc);
    let mut rest = bytes;
    while rest.len() > 0 {
        match next_number(rest) {
            Some((number, count)) => {
                numbers.push(number)?;
                rest = &rest[count..];
            }
            None => return Ok(None),
        }
    }
    Ok(Some(numbers))
}

/// The number at the front of the bytes, behind a space, and how many bytes it takes.
fn next_number(bytes: &[u8]) -> Option<(i128, usize)>
    ensures { MatchOption result (HasNoNext bytes.now) (λ p. IsNext bytes.now p.0 p.1) }
{
    if bytes.is_empty() {
        return None;
    }
    if bytes[0] != b' ' {
        return None;
    }
    let rest = &bytes[1..];
    let count = bytes_before(rest, b' ');
    match read_number(&rest[..count]) {
        Some(number) => Some((number, count + 1)),
        None => None,
    }
}

/// Whether a line of this kind has so many numbers.
fn has_form(kind: CertKind, numbers: &[i128]) -> bool
    requires { All IsWithin numbers.now }
    ensures { IsTrue result ↔ HasForm kind numbers.now }
{
    match kind {
        CertKind::T => numbers.len() >= 1 && counts(&numbers[1..], 2, 0),
        CertKind::G => numbers.len() == 2,
        CertKind::R => counts(numbers, 1, 1),
        CertKind::Q => numbers.len() >= 6 && counts(&numbers[6..], 2, 0),
        CertKind::S => numbers.len() == 1,
        CertKind::C => numbers.len() == 1,
        CertKind::M => numbers.len() == 1,
    }
}

/// Whether the first number is a count, and behind it stand so many times as many numbers, and some more.
fn counts(numbers: &[i128], times: u128, more: u128) -> bool
    requires within { All IsWithin numbers.now }
    requires times { times ≤ 2 }
    requires more { more ≤ 1 }
    ensures { IsTrue result ↔ Counts times more numbers.now }
{
    if numbers.is_empty() {
        return false;
    }
    let count = numbers[0];
    if count < 0 {
        return false;
    }
    (numbers.len() - 1) as u128 == times * count as u128 + more
}
