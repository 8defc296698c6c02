//! Lists of one row for each class, before they are filled.

ghost use Rattle.std.specs.Prelude.{◌≡◌, [], replicate, IfOk};

use jesc_text::{List, OutOfMemory};
use std::alloc::Global;

/// So many zeros. Answers `OutOfMemory` where there is no room for them.
pub fn zeros(alloc: Global, count: usize) -> Result<Vec<u32>, OutOfMemory>
    ensures { IfOk result (λ list. list.items ≡ replicate count 0) }
{
    match vec![in alloc; 0u32; count] {
        Ok(list) => Ok(list),
        Err(_) => Err(OutOfMemory),
    }
}

/// So many empty lists. Answers `OutOfMemory` where there is no room for them.
pub fn empty_rows(alloc: Global, count: usize) -> Result<Vec<List<u32>>, OutOfMemory>
    ensures { IfOk result (λ rows. rows.items ≡ replicate count []) }
{
    let mut rows = Vec::new(alloc);
    for _row in 0..count {
        let Ok(_) = rows.push(List::new(alloc)) else {
            return Err(OutOfMemory);
        };
    }
    Ok(rows)
}
