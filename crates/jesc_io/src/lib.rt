//! The outside as the program sees it: files and outputs, each with a count of its own faults.
//!
//! The clauses of the two traits say what an object tells of its contents and which answer has which cause. The
//! objects in memory tell all of it, and serve tests and proofs; the thin adapters over the disk and the outputs
//! tell nothing but their counts.
//!
//! Start with the traits in `outside`, then `whole`, which reads a file to its end. `disk` has the adapters. The objects
//! in memory are built up in `faults` (planned faults), `memory`, `mem_files`, `steady_files` and `sinks`.
//!
//! The definitions, in reading order: `Contents` (what files and sinks tell), `Faults` (which answer has which cause),
//! `Whole` (what reading a whole file answers), and for the objects in memory `Schedule` and `Memory`.
#![tactic(auto)]

mod disk;
mod faults;
mod mem_files;
mod memory;
mod outside;
mod sinks;
mod steady_files;
mod whole;

pub use disk::{DiskFiles, StdSink};
pub use mem_files::MemFiles;
pub use outside::{Files, IoError, Sink};
pub use sinks::{MemSink, SteadySink};
pub use steady_files::SteadyFiles;
pub use whole::{ReadError, read_whole};
