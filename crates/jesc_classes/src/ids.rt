//! The id of each class by its number.

ghost use Rattle.std.specs.Prelude.{◌≡◌, ◌<◌, ◌≤◌, ◌^◌, ◌++◌, ◌∷◌, [], ℕ, length, get_or, IfOk, OnOk};
ghost use Rattle.jesc_classes.specs.Entries.{AreApart, id_in};

use jesc_text::OutOfMemory;
use std::alloc::Global;

/// Of each class its id, by an order that has all classes.
///
/// Answers `OutOfMemory` where there is no room for the table.
pub fn ids_of(alloc: Global, order: &[u32]) -> Result<Vec<u32>, OutOfMemory>
    requires few { length order.now < 2 ^ 32 }
    requires apart { AreApart order.now }
    requires within { (i : ℕ) → i < length order.now → get_or order.now i 0 < length order.now }
    ensures count { IfOk result (λ ids. length ids.items ≡ length order.now) }
    ensures ids { IfOk result (λ ids. (k : ℕ) → k < length order.now → id_in ids.items (get_or order.now k 0) ≡ k) }
{
    let mut ids = zeros(alloc, order.len())?;
    for id in 0..order.len() {
        ids[order[id] as usize] = id as u32;
    }
    Ok(ids)
}

/// So many zeros.
fn zeros(alloc: Global, count: usize) -> Result<Vec<u32>, OutOfMemory>
    ensures { IfOk result (λ zeros. length zeros.items ≡ count) }
{
    let mut zeros = Vec::new(alloc);
    for _ in 0..count {
        push(&mut zeros, 0)?;
    }
    Ok(zeros)
}

/// Appends a number.
fn push(numbers: &mut Vec<u32>, number: u32) -> Result<(), OutOfMemory>
    ensures { OnOk result (numbers.new.items ≡ numbers.old.items ++ number ∷ []) }
{
    match numbers.push(number) {
        Ok(_) => Ok(()),
        Err(_) => Err(OutOfMemory),
    }
}
