//! A file with its name, and a table of where its lines start.
//!
//! The table is made once, so that a place costs a binary search and no walk over the file.

ghost use Rattle.std.specs.Prelude.{◌≡◌, ◌≤◌, ◌+◌, length, IfOk};
ghost use Rattle.jesc_text.specs.Places.{line_at, column_at};
ghost use Rattle.jesc_engine.specs.Starts.{AreStarts};

use jesc_text::{List, OutOfMemory};
use std::alloc::Global;

/// A file of at most 1,048,576 bytes.
#[derive(Drop)]
pub(crate) struct Source<'a> {
    pub name: &'a str,
    pub bytes: &'a [u8],
    starts: List<u32>,
    ghost table: { AreStarts bytes.now starts },
    ghost short: { length bytes.now ≤ 1048576 },
}

/// The offset of each line's first byte.
fn line_starts(alloc: Global, bytes: &[u8]) -> Result<List<u32>, OutOfMemory>
    requires { length bytes.now ≤ 1048576 }
    ensures { IfOk result (λ starts. AreStarts bytes.now starts) }
{
    let mut starts = List::new(alloc);
    starts.push(0)?;
    for (i, byte) in bytes.iter().enumerate() {
        if *byte == b'\n' {
            starts.push(i as u32 + 1)?;
        }
    }
    Ok(starts)
}

/// How many lines start at the offset or before it.
fn count_up_to(bytes: &[u8], starts: &[u32], offset: u32) -> usize
    requires within { offset ≤ length bytes.now }
    requires table { AreStarts bytes.now starts.now }
    ensures { result ≡ line_at bytes.now offset }
{
    let mut low = 0;
    let mut high = starts.len();
    while low < high {
        let middle = low + (high - low) / 2;
        if starts[middle] <= offset {
            low = middle + 1;
        } else {
            high = middle;
        }
    }
    low
}

impl<'a> Source<'a> {
    /// The file of this name with these bytes.
    pub fn new(alloc: Global, name: &'a str, bytes: &'a [u8]) -> Result<Source<'a>, OutOfMemory>
        requires { length bytes.now ≤ 1048576 }
        ensures name { IfOk result (λ source. source.name.now ≡ name.now) }
        ensures bytes { IfOk result (λ source. source.bytes.now ≡ bytes.now) }
    {
        let starts = line_starts(alloc, bytes)?;
        Ok(Source {
            name,
            bytes,
            starts,
        })
    }

    /// The line and the column of an offset, both counted from 1. An offset beyond the end has the place of the end.
    pub fn place(&self, offset: u32) -> (u32, u32)
        ensures line { result.0 ≡ line_at self.now.bytes.now offset }
        ensures column { result.1 ≡ column_at self.now.bytes.now offset }
    {
        let starts = self.starts.as_slice();
        let at = offset.min(self.bytes.len() as u32);
        let line = count_up_to(self.bytes, starts, at);
        (line as u32, at - starts[line - 1] + 1)
    }
}
