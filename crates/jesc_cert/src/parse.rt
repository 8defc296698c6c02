//! The certificates of a file.

ghost use Rattle.std.specs.Prelude.{◌≡◌, ◌≤◌, ◌+◌, IfOk, length, take, count_by};
ghost use Rattle.jesc_text.specs.Places.{is_line_feed};
ghost use Rattle.jesc_cert.specs.Texts.{IsText, IsBad};
ghost use Rattle.jesc_cert.specs.Inner.{OnBad, AreBlocks, AreLines, IsReadBlock, IsReadFile};

use crate::cert::{Cert, CertError, CertLine, Certs};
use crate::line_reader::{line_feed, read_cond, read_line, read_rounds};
use jesc_text::{List, OutOfMemory, Text};
use std::alloc::Global;

/// The certificates that the bytes are the text of.
///
/// Answers `Bad` where they are the text of none, with the first line that can't be continued. Answers `OutOfMemory` where
/// there is no room for the certificates.
pub fn parse_cert(alloc: Global, bytes: &[u8]) -> Result<Certs, CertError>
    ensures text { IfOk result (IsText bytes.now) }
    ensures bad { OnBad (IsBad bytes.now) result }
{
    let at = match read_file(alloc, bytes)? {
        Ok(certs) => return Ok(certs),
        Err(at) => at,
    };
    let line = line_feeds(&bytes[..at]);
    if line >= u32::MAX as usize {
        return Err(CertError::OutOfMemory);
    }
    Err(CertError::Bad {
        line: line as u32 + 1,
    })
}

/// The number of line feeds.
fn line_feeds(bytes: &[u8]) -> usize
    ensures { result ≡ count_by is_line_feed bytes.now }
{
    let mut count = 0;
    for i in 0..bytes.len() {
        if bytes[i] == b'\n' {
            count += 1;
        }
    }
    count
}

/// The certificates that the bytes are the text of, or where the first line begins that can't be continued.
fn read_file(alloc: Global, bytes: &[u8]) -> Result<Result<Certs, usize>, OutOfMemory>
    ensures { IfOk result (IsReadFile bytes.now) }
{
    let first = match line_feed(bytes) {
        Some(first) => first,
        None => return Ok(Err(0)),
    };
    if &bytes[..first] != b"jescert 1".as_slice() {
        return Ok(Err(0));
    }
    let from = first + 1;
    let second = match line_feed(&bytes[from..]) {
        Some(second) => second,
        None => return Ok(Err(from)),
    };
    let rounds = match read_rounds(&bytes[from..from + second]) {
        Some(rounds) => rounds,
        None => return Ok(Err(from)),
    };
    let from = from + second + 1;
    let (list, count) = read_blocks(alloc, &bytes[from..])?;
    let from = from + count;
    let rest = &bytes[from..];
    if !rest.starts_with(b"end\n") {
        return Ok(Err(from));
    }
    if rest.len() > 4 {
        return Ok(Err(from + 4));
    }
    Ok(Ok(Certs { rounds, list }))
}

/// The certificates at the front, up to a line that begins none, and how many bytes they take.
fn read_blocks(alloc: Global, bytes: &[u8]) -> Result<(List<(Text, u32, Cert)>, usize), OutOfMemory>
    ensures { IfOk result (λ p. AreBlocks bytes.now p.0 p.1) }
{
    let mut list = List::new(alloc);
    let mut at = 0;
    while at < bytes.len() {
        match read_block(alloc, &bytes[at..])? {
            Some((block, count)) => {
                list.push(block)?;
                at += count;
            }
            None => return Ok((list, at)),
        }
    }
    Ok((list, at))
}

/// The certificate at the front, up to a line that is none of its lines, and how many bytes it takes.
fn read_block(
    alloc: Global,
    bytes: &[u8],
) -> Result<Option<((Text, u32, Cert), usize)>, OutOfMemory>
    ensures { IfOk result (IsReadBlock bytes.now) }
{
    let first = match line_feed(bytes) {
        Some(first) => first,
        None => return Ok(None),
    };
    let (duty, number) = match read_cond(alloc, &bytes[..first])? {
        Some(cond) => cond,
        None => return Ok(None),
    };
    let (lines, count) = read_lines(alloc, &bytes[first + 1..])?;
    Ok(Some(((duty, number, Cert { lines }), first + 1 + count)))
}

/// The lines of a certificate at the front, up to one that is none, and how many bytes they take.
fn read_lines(alloc: Global, bytes: &[u8]) -> Result<(List<CertLine>, usize), OutOfMemory>
    ensures { IfOk result (λ p. AreLines bytes.now p.0 p.1) }
{
    let mut lines = List::new(alloc);
    let mut at = 0;
    while at < bytes.len() {
        let count = match line_feed(&bytes[at..]) {
            Some(count) => count,
            None => return Ok((lines, at)),
        };
        match read_line(alloc, &bytes[at..at + count])? {
            Some(line) => {
                lines.push(line)?;
                at += count + 1;
            }
            None => return Ok((lines, at)),
        }
    }
    Ok((lines, at))
}
