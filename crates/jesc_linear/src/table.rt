//! The table of rows: a log of the steps that made them, and the rows that stand, in the order of their numbers.
//!
//! Each row that ever entered has its step in the log, so the log's steps derive whatever ends it, and a row that was set
//! aside is still there for the way back.

ghost use Rattle.std.specs.Prelude.{◌≡◌, ◌+◌, ◌<◌, ◌^◌, [], ◌∷◌, ◌++◌, length, IfOk, OnOk, OnErr};
ghost use Rattle.jesc_linear.specs.Tables.{IsSlot, row_at};

use crate::rows::{LinStep, Row};
use crate::stop::Slot;
use jesc_text::{List, OutOfMemory};
use std::alloc::Global;

/// The rows that stand, the number of the next derived row, and the pairs of all stages so far.
#[derive(Drop)]
pub struct Table {
    pub log: List<LinStep>,
    pub slots: Vec<Slot>,
    pub next: u32,
    pub pairs: u32,
}

impl Table {
    /// An empty table before any row is put in, where so many are given.
    pub(crate) fn new(alloc: Global, given: u32) -> Table
        ensures log { result.log ≡ [] }
        ensures slots { result.slots.items ≡ [] }
        ensures next { result.next ≡ given }
        ensures pairs { result.pairs ≡ 0 }
    {
        Table {
            log: List::new(alloc),
            slots: Vec::new(alloc),
            next: given,
            pairs: 0,
        }
    }
}

/// The row that a slot stands for.
pub(crate) fn row_in<'a>(log: &'a List<LinStep>, slot: Slot) -> &'a Row
    requires { IsSlot log.now slot }
    ensures { result.now ≡ row_at log.now slot.at }
{
    &log.as_slice()[slot.at as usize].row
}

/// Adds a step to the log, and gives its place there. Answers `OutOfMemory` too where the rows would number 2^32.
pub(crate) fn push_step(
    rows: &[Row],
    log: &mut List<LinStep>,
    step: LinStep,
) -> Result<u32, OutOfMemory>
    requires { length rows.now + length log.old < 2 ^ 32 }
    ensures place { IfOk result (λ at. at ≡ length log.old) }
    ensures ok { OnOk result (log.new ≡ log.old ++ step ∷ []) }
    ensures err { OnErr result (log.new ≡ log.old) }
    ensures few { length rows.now + length log.new < 2 ^ 32 }
{
    let at = log.len();
    if rows.len() + at >= u32::MAX as usize {
        return Err(OutOfMemory);
    }
    log.push(step)?;
    Ok(at as u32)
}
