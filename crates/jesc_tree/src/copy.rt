//! An equal copy of each tree.
//!
//! Each call answers `OutOfMemory` where there is no room for the copy.

ghost use Rattle.std.specs.Prelude.{◌≡◌, IfOk};

mod class;
mod expr;
mod spec;
mod stmt;

use jesc_text::{List, OutOfMemory, Text};
use std::alloc::Global;

/// An equal text.
fn copy_text(alloc: Global, text: &Text) -> Result<Text, OutOfMemory>
    ensures { IfOk result (λ copy. copy ≡ text.now) }
{
    let mut copy = Text::new(alloc);
    copy.append(text.as_slice())?;
    Ok(copy)
}

/// An equal list of ids.
fn copy_ids<I: Copy + Drop>(alloc: Global, ids: &List<I>) -> Result<List<I>, OutOfMemory>
    ensures { IfOk result (λ copy. copy ≡ ids.now) }
{
    let mut copy = List::new(alloc);
    for id in ids.as_slice() {
        copy.push(*id)?;
    }
    Ok(copy)
}
