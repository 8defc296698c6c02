//! Which classes may be thrown.

ghost use Rattle.std.specs.Prelude.{◌≡◌, ◌<◌, true, false, get_or, length, replicate, IfOk};
ghost use Rattle.std.specs.List.{All, list_any};
ghost use Rattle.jesc_lookup.specs.Numbering.{IsArranged};
ghost use Rattle.jesc_member_rules.specs.Throwables.{AreThrowables};

use jesc_text::{List, OutOfMemory};
use std::alloc::Global;

/// The number of the class Throwable.
const THROWABLE: u32 = 1;

/// Of each class by number, whether it is Throwable or below it. `order` has the classes, each behind its supertypes.
///
/// Answers `OutOfMemory` where there is no room for the list.
pub fn throwables(
    alloc: Global,
    graph: &[List<u32>],
    order: &[u32],
) -> Result<List<bool>, OutOfMemory>
    requires { IsArranged graph.now order.now }
    ensures { IfOk result (AreThrowables graph.now) }
{
    let mut marks = unmarked(alloc, graph.len())?;
    for class in order {
        let is_below = is_one_marked(marks.as_slice(), graph[*class as usize].as_slice());
        let is_thrown = is_below || *class == THROWABLE;
        marks[*class as usize] = is_thrown;
    }
    listed(alloc, marks.as_slice())
}

/// Whether one of these classes has a mark.
fn is_one_marked(marks: &[bool], classes: &[u32]) -> bool
    requires { All (λ class. class < length marks.now) classes.now }
    ensures { result ≡ list_any (λ class. get_or marks.now class false) classes.now }
{
    classes.iter().any(|class| marks[*class as usize])
}

/// So many classes, none of which is marked.
fn unmarked(alloc: Global, count: usize) -> Result<Vec<bool>, OutOfMemory>
    ensures { IfOk result (λ marks. marks.items ≡ replicate count false) }
{
    match vec![in alloc; false; count] {
        Ok(marks) => Ok(marks),
        Err(_) => Err(OutOfMemory),
    }
}

/// A list of these marks.
fn listed(alloc: Global, marks: &[bool]) -> Result<List<bool>, OutOfMemory>
    ensures { IfOk result (λ list. list ≡ marks.now) }
{
    let mut list = List::new(alloc);
    for mark in marks {
        list.push(*mark)?;
    }
    Ok(list)
}
