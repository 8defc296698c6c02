//! What is above a number in a graph.

ghost use Rattle.std.specs.Prelude.{◌≡◌, ◌↔◌, ◌⊎◌, ◌<◌, ℕ, nat_eq, false, length, IfOk, OnOk};
ghost use Rattle.std.specs.List.{Contains, IsDistinct};
ghost use Rattle.jesc_classes.specs.Order.{Above, IsWithin};
ghost use Rattle.jesc_members.specs.GroupTables.{AreSame, GoesOn};

use jesc_text::{List, OutOfMemory};
use std::alloc::Global;
use std::collections::BTreeSet;

/// All numbers above that one, each once and in no order.
///
/// Answers `OutOfMemory` where there is no room for the walk. The time is in near proportion to the rows of what is found.
pub fn reached(alloc: Global, graph: &[List<u32>], start: u32) -> Result<List<u32>, OutOfMemory>
    requires within { IsWithin graph.now }
    requires start { start < length graph.now }
    ensures all { IfOk result (λ found. (q : ℕ) → Contains found q ↔ Above graph.now start q) }
    ensures once { IfOk result (λ found. IsDistinct nat_eq found) }
{
    let mut met = BTreeSet::new(alloc);
    let mut found = List::new(alloc);
    add_new(graph[start as usize].as_slice(), &mut met, &mut found)?;
    let mut k = 0;
    while k < found.len() {
        let next = found.as_slice()[k];
        add_new(graph[next as usize].as_slice(), &mut met, &mut found)?;
        k += 1;
    }
    Ok(found)
}

/// Adds those numbers that were not met.
fn add_new(
    numbers: &[u32],
    met: &mut BTreeSet<u32>,
    found: &mut List<u32>,
) -> Result<(), OutOfMemory>
    requires { AreSame met.old.keys found.old }
    ensures same { OnOk result (AreSame met.new.keys found.new) }
    ensures on { OnOk result (GoesOn numbers.now found.old found.new) }
{
    for number in numbers {
        if is_new(met, *number)? {
            found.push(*number)?;
        }
    }
    Ok(())
}

/// Adds a number, and answers whether it was not met.
fn is_new(met: &mut BTreeSet<u32>, number: u32) -> Result<bool, OutOfMemory>
    ensures added { OnOk result ((q : ℕ) → Contains met.new.keys q ↔ (Contains met.old.keys q ⊎ (q ≡ number))) }
    ensures old { IfOk result (λ yes. (yes ≡ false) ↔ Contains met.old.keys number) }
{
    if met.contains(&number) {
        return Ok(false);
    }
    match met.insert(number) {
        Ok(_) => Ok(true),
        Err(_) => Err(OutOfMemory),
    }
}
