//! Of each version of a map how many of its values are marked.

ghost use Rattle.std.specs.Prelude.{◌≡◌, ◌<◌, [], false, length, get_or, map, take, IfOk};
ghost use Rattle.jesc_lookup.specs.Tallies.{mark_of, marked_in};

use crate::versions::Versions;
use jesc_text::{List, OutOfMemory};
use std::alloc::Global;

/// The tallies of these versions; `marks` tells of each value whether it is marked.
///
/// Answers `OutOfMemory` where there is no room for them. The time is that of one look-up for each version.
pub fn tallies_of(
    alloc: Global,
    versions: &Versions,
    marks: &[bool],
) -> Result<List<u64>, OutOfMemory>
    ensures { IfOk result (λ tallies. tallies ≡ map (marked_in marks.now) versions.now) }
{
    let mut tallies = List::new(alloc);
    for version in 0..versions.len() {
        let tally = tally_of(versions, marks, tallies.as_slice(), version);
        tallies.push(tally)?;
    }
    Ok(tallies)
}

/// The tally of a version, of which those before have theirs.
fn tally_of(versions: &Versions, marks: &[bool], tallies: &[u64], version: usize) -> u64
    requires version { version < length versions.now }
    requires tallies { tallies.now ≡ map (marked_in marks.now) (take version versions.now) }
    ensures { result ≡ marked_in marks.now (get_or versions.now version []) }
{
    let made = versions.made(version);
    if version == 0 {
        return 0;
    }
    let old = mark(marks, versions.get(made.from, made.key));
    let new = mark(marks, Some(made.value));
    tallies[made.from as usize] + new - old
}

/// One for a marked value, and none for another or where there is no value.
fn mark(marks: &[bool], value: Option<u32>) -> u64
    ensures { result ≡ mark_of marks.now value }
{
    match value {
        None => 0,
        Some(value) => { if is_marked(marks, value) { 1 } else { 0 } }
    }
}

/// Whether the value is marked; one without a mark is not.
fn is_marked(marks: &[bool], value: u32) -> bool
    ensures { result ≡ get_or marks.now value false }
{
    let place = value as usize;
    place < marks.len() && marks[place]
}
