//! An equal copy of each tree.
//!
//! Each call answers `OutOfMemory` where there is no room for the copy.

mod steps;
mod term;
