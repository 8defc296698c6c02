//! The places of numbers in an order.

ghost use Rattle.std.specs.Prelude.{ℕ, ◌≡◌, ◌<◌, ◌^◌, ◌++◌, ◌∷◌, [], length, get_or, IfOk, OnOk};
ghost use Rattle.std.specs.List.{Contains};
ghost use Rattle.jesc_classes.specs.Entries.{AreApart, AreIds};

use jesc_text::OutOfMemory;
use std::alloc::Global;

/// Of each number below the count its place in the order, which has them all.
///
/// Answers `OutOfMemory` where there is no room for the table.
pub fn places_of(alloc: Global, order: &[u32], count: usize) -> Result<Vec<u32>, OutOfMemory>
    requires few { length order.now < 2 ^ 32 }
    requires apart { AreApart order.now }
    requires within { (i : ℕ) → i < length order.now → get_or order.now i 0 < count }
    requires whole { (n : ℕ) → n < count → Contains order.now n }
    ensures count { IfOk result (λ ids. length ids.items ≡ count) }
    ensures ids { IfOk result (λ ids. AreIds order.now ids.items) }
{
    let mut ids = zeros(alloc, count)?;
    for id in 0..order.len() {
        ids[order[id] as usize] = id as u32;
    }
    Ok(ids)
}

/// So many zeros.
fn zeros(alloc: Global, count: usize) -> Result<Vec<u32>, OutOfMemory>
    ensures { IfOk result (λ zeros. length zeros.items ≡ count) }
{
    let mut zeros = Vec::new(alloc);
    for _ in 0..count {
        push(&mut zeros, 0)?;
    }
    Ok(zeros)
}

/// Appends a number.
fn push(numbers: &mut Vec<u32>, number: u32) -> Result<(), OutOfMemory>
    ensures { OnOk result (numbers.new.items ≡ numbers.old.items ++ number ∷ []) }
{
    match numbers.push(number) {
        Ok(_) => Ok(()),
        Err(_) => Err(OutOfMemory),
    }
}
