//! A graph with its edges turned round.

ghost use Rattle.std.specs.Prelude.{ℕ, ◌≡◌, ◌↔◌, ◌⊎◌, ◌<◌, ◌^◌, length, IfOk, OnOk};
ghost use Rattle.std.specs.List.{All, Contains};
ghost use Rattle.jesc_classes.specs.Order.{IsWithin, supers};
ghost use Rattle.jesc_members.specs.GroupTables.{IsReverse};

use jesc_lookup::empty_rows;
use jesc_text::{List, OutOfMemory};
use std::alloc::Global;

/// Of each number, the numbers in whose rows it stands.
///
/// Answers `OutOfMemory` where there is no room for the rows.
pub fn reversed(alloc: Global, graph: &[List<u32>]) -> Result<Vec<List<u32>>, OutOfMemory>
    requires few { length graph.now < 2 ^ 32 }
    requires within { IsWithin graph.now }
    ensures { IfOk result (λ rows. IsReverse graph.now rows.items) }
{
    let mut rows = empty_rows(alloc, graph.len())?;
    for (number, row) in graph.iter().enumerate() {
        add_to_each(&mut rows, row.as_slice(), number as u32)?;
    }
    Ok(rows)
}

/// Appends the item to each of these rows.
fn add_to_each(rows: &mut Vec<List<u32>>, places: &[u32], item: u32) -> Result<(), OutOfMemory>
    requires { All (λ place. place < length rows.old.items) places.now }
    ensures count { OnOk result (length rows.new.items ≡ length rows.old.items) }
    ensures each { OnOk result ((f g : ℕ) → Contains (supers rows.new.items g) f ↔ (Contains (supers rows.old.items g) f ⊎ (Contains places.now g × (f ≡ item)))) }
{
    for place in places {
        rows[*place as usize].push(item)?;
    }
    Ok(())
}
