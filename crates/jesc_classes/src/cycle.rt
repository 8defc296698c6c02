//! Whether a class is its own supertype by way of one that its heading names.

ghost use Rattle.std.specs.Prelude.{◌≡◌, ◌≤◌, ◌<◌, ◌^◌, ◌↔◌, ◌⊎◌, true, false, length, replicate, slice_index, IfOk};
ghost use Rattle.std.specs.List.{All};
ghost use Rattle.jesc_classes.specs.Order.{Above, IsWithin};
ghost use Rattle.jesc_classes.specs.Ranks.{AreRanks};

use crate::components::component_numbers;
use jesc_text::{List, OutOfMemory};
use std::alloc::Global;

/// A rank of each class, which no supertype of it passes: of two classes on one cycle it is the same.
///
/// Classes that are on no cycle together have different ranks, so that a test of ranks spares nearly every walk; the
/// proof rests on the first sentence alone. The time is linear in the number of supertypes. Answers `OutOfMemory`
/// where there is no room for the tables.
pub fn ranks(alloc: Global, graph: &[List<u32>]) -> Result<List<u32>, OutOfMemory>
    requires few { length graph.now < 2 ^ 32 }
    requires within { IsWithin graph.now }
    ensures { IfOk result (λ ranks. AreRanks graph.now ranks) }
{
    // The numbers are tested, so that nothing rests on the search for components. They only spare walks: were they
    // wrong, zeros would stand here, and each answer of `is_on_cycle` would still be right.
    let numbers = component_numbers(alloc, graph)?;
    if are_ranks(graph, numbers.as_slice()) {
        return Ok(numbers);
    }
    zeros(alloc, graph.len())
}

/// Whether the class lies on a cycle by way of the one above, which its heading names.
///
/// Answers `OutOfMemory` where there is no room for the walk over supertypes.
pub fn is_on_cycle(
    alloc: Global,
    graph: &[List<u32>],
    ranks: &[u32],
    class: u32,
    above: u32,
) -> Result<bool, OutOfMemory>
    requires few { length graph.now < 2 ^ 32 }
    requires within { IsWithin graph.now }
    requires ranks { AreRanks graph.now ranks.now }
    requires class { class < length graph.now }
    requires above { above < length graph.now }
    ensures { IfOk result (λ yes. (yes ≡ true) ↔ ((above ≡ class) ⊎ Above graph.now above class)) }
{
    if ranks[above as usize] < ranks[class as usize] {
        return Ok(false);
    }
    reaches(alloc, graph, above, class)
}

/// Whether the ranks are as many as the classes, and no supertype passes a class.
fn are_ranks(graph: &[List<u32>], ranks: &[u32]) -> bool
    requires { IsWithin graph.now }
    ensures { result ≡ true → AreRanks graph.now ranks.now }
{
    if ranks.len() != graph.len() {
        return false;
    }
    for (class, supertypes) in graph.iter().enumerate() {
        if !are_within(ranks, supertypes.as_slice(), ranks[class]) {
            return false;
        }
    }
    true
}

/// Whether none of these classes has a greater rank than that.
fn are_within(ranks: &[u32], classes: &[u32], most: u32) -> bool
    requires { All (λ class. class < length ranks.now) classes.now }
    ensures { result ≡ true → All (λ class. slice_index ranks.now class ≤ most) classes.now }
{
    classes.iter().all(|class| ranks[*class as usize] <= most)
}

/// So many zeros.
fn zeros(alloc: Global, count: usize) -> Result<List<u32>, OutOfMemory>
    ensures { IfOk result (λ list. list ≡ replicate count 0) }
{
    let mut list = List::new(alloc);
    for _ in 0..count {
        list.push(0)?;
    }
    Ok(list)
}

/// Whether the second class is the first one or a supertype of it, direct or not.
///
/// Each class is met once, as it is marked then, so the walk is linear in the number of supertypes.
fn reaches(alloc: Global, graph: &[List<u32>], first: u32, second: u32) -> Result<bool, OutOfMemory>
    requires within { IsWithin graph.now }
    requires first { first < length graph.now }
    requires second { second < length graph.now }
    ensures { IfOk result (λ yes. (yes ≡ true) ↔ ((first ≡ second) ⊎ Above graph.now first second)) }
{
    let mut marks = unmarked(alloc, graph.len())?;
    let mut met = List::new(alloc);
    marks[first as usize] = true;
    met.push(first)?;
    let mut k = 0;
    while k < met.len() {
        let class = met.as_slice()[k];
        for above in graph[class as usize].as_slice() {
            if !marks[*above as usize] {
                marks[*above as usize] = true;
                met.push(*above)?;
            }
        }
        k += 1;
    }
    Ok(marks[second as usize])
}

/// So many classes, none of which is marked.
fn unmarked(alloc: Global, count: usize) -> Result<Vec<bool>, OutOfMemory>
    ensures { IfOk result (λ marks. marks.items ≡ replicate count false) }
{
    match vec![in alloc; false; count] {
        Ok(marks) => Ok(marks),
        Err(_) => Err(OutOfMemory),
    }
}
