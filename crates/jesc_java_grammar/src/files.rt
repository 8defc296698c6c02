//! The rules of files and of what stands in them.

use std::alloc::Global;

/// The rules of files.
#[derive(Clone, Copy)]
pub struct Files {
    pub alloc: Global,
    /// How many nodes there may be from the root of an expression or a statement in a member to its deepest leaf.
    pub room: usize,
}
