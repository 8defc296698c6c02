//! The line of each class: itself and its supertypes in the order of lookup, each where it comes first.

ghost use Rattle.std.specs.Prelude.{◌≡◌, ◌<◌, ◌≤◌, ℕ, [], ◌∷◌, length, get_or, None, map, IfOk, OnOk};
ghost use Rattle.std.specs.List.{All};
ghost use Rattle.jesc_classes.specs.Order.{IsWithin};
ghost use Rattle.jesc_lookup.specs.Lines.{AreExtras, IsExtra};
ghost use Rattle.jesc_lookup.specs.LineSets.{AddsLine, AreAbove, AreKnown, Climbs, HasLine, IsRoom, Meets, Merges};
ghost use Rattle.jesc_lookup.specs.Numbering.{IsArranged};

use crate::rows::{empty_rows, zeros};
use crate::versions::Versions;
use jesc_text::{List, OutOfMemory};
use std::alloc::Global;
use std::mem;

/// A line while it grows: the version that has its classes, and those behind the line of the first supertype.
#[derive(Drop)]
struct Line {
    version: u32,
    extra: List<u32>,
}

/// Of each class by number, the classes of its line behind that of its first supertype.
///
/// `order` has the numbers of the classes, each behind its supertypes. Nothing here is quadratic over a chain of classes.
/// Answers `OutOfMemory` where there is no room for the lists.
pub fn extras(
    alloc: Global,
    graph: &[List<u32>],
    order: &[u32],
) -> Result<List<List<u32>>, OutOfMemory>
    requires { IsArranged graph.now order.now }
    ensures { IfOk result (AreExtras graph.now) }
{
    let mut versions = Versions::new(alloc, graph.len() as u32)?;
    let mut held = zeros(alloc, graph.len())?;
    let mut rows = empty_rows(alloc, graph.len())?;
    for class in order {
        let line = line_of(
            alloc,
            graph,
            rows.as_slice(),
            held.as_slice(),
            &mut versions,
            *class,
        )?;
        held[*class as usize] = line.version;
        rows[*class as usize] = line.extra;
    }
    listed(alloc, rows)
}

/// The rows as a list.
fn listed(alloc: Global, rows: Vec<List<u32>>) -> Result<List<List<u32>>, OutOfMemory>
    ensures { IfOk result (λ list. list ≡ rows.items) }
{
    let mut rows = rows;
    let mut list = List::new(alloc);
    for at in 0..rows.len() {
        let row = mem::replace(&mut rows[at], List::new(alloc));
        list.push(row)?;
    }
    Ok(list)
}

/// The line of the class, where those of the classes above it are known.
fn line_of(
    alloc: Global,
    graph: &[List<u32>],
    rows: &[List<u32>],
    held: &[u32],
    versions: &mut Versions,
    class: u32,
) -> Result<Line, OutOfMemory>
    requires known { AreKnown graph.now rows.now held.now versions.old class }
    ensures { IfOk result (HasLine graph.now versions.old versions.new class) }
{
    let supers = graph[class as usize].as_slice();
    let version = match supers.first() {
        Some(first) => held[*first as usize],
        None => 0,
    };
    let mut line = Line {
        version,
        extra: List::new(alloc),
    };
    for at in 1..supers.len() {
        add_line(graph, rows, versions, &mut line, supers[at])?;
    }
    line.version = versions.put(line.version, class, 0)?;
    Ok(line)
}

/// Adds what the line of the class has and the given one has not.
fn add_line(
    graph: &[List<u32>],
    rows: &[List<u32>],
    versions: &mut Versions,
    line: &mut Line,
    class: u32,
) -> Result<(), OutOfMemory>
    requires room { IsRoom graph.now versions.old line.old }
    requires class { class < length graph.now }
    requires above { AreAbove graph.now rows.now class }
    ensures { OnOk result (AddsLine graph.now versions.old line.old versions.new line.new class) }
{
    let start = line.extra.len();
    climb(graph, versions, line, class)?;
    let mut end = line.extra.len();
    while end > start {
        end -= 1;
        let above = line.extra.as_slice()[end];
        merge(versions, line, rows[above as usize].as_slice())?;
    }
    Ok(())
}

/// Adds the class, its first supertype, and so on, as far as they are new.
fn climb(
    graph: &[List<u32>],
    versions: &mut Versions,
    line: &mut Line,
    class: u32,
) -> Result<(), OutOfMemory>
    requires within { IsWithin graph.now }
    requires room { IsRoom graph.now versions.old line.old }
    requires class { class < length graph.now }
    ensures { OnOk result (Climbs graph.now versions.old line.old versions.new line.new class) }
{
    let mut next = class;
    while meet(versions, line, next)? {
        let Some(above) = graph[next as usize].as_slice().first() else {
            return Ok(());
        };
        next = *above;
    }
    Ok(())
}

/// Adds those of the classes that are new.
fn merge(versions: &mut Versions, line: &mut Line, classes: &[u32]) -> Result<(), OutOfMemory>
    requires there { line.old.version < length versions.old }
    requires classes { All (λ class. class < length (get_or versions.old line.old.version [])) classes.now }
    ensures { OnOk result (Merges versions.old line.old versions.new line.new classes.now) }
{
    for class in classes {
        meet(versions, line, *class)?;
    }
    Ok(())
}

/// Adds the class if it is new, and tells whether it is.
fn meet(versions: &mut Versions, line: &mut Line, class: u32) -> Result<bool, OutOfMemory>
    requires there { line.old.version < length versions.old }
    requires class { class < length (get_or versions.old line.old.version []) }
    ensures { IfOk result (Meets versions.old line.old versions.new line.new class) }
{
    if versions.get(line.version, class).is_some() {
        return Ok(false);
    }
    line.version = versions.put(line.version, class, 0)?;
    line.extra.push(class)?;
    Ok(true)
}
