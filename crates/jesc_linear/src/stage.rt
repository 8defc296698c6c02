//! The elimination, stage by stage: the variable in the fewest pairs of an upper and a lower row is cancelled in each pair,
//! and its rows are set aside.

ghost use Rattle.std.specs.Prelude.{◌≡◌, [], ◌∷◌, ◌++◌, Bool, not, if◌then◌else◌, Ok, All, List as Items, IfOk, OnOk, OnErr, filter, pos, int_lt, MatchResult};
ghost use Rattle.jesc_linear.specs.Elimination as spec;
ghost use Rattle.jesc_linear.specs.Elimination.{Solves, Values, IsNext, pairs_of};
ghost use Rattle.jesc_linear.specs.Tables.{IsTable, IsSlot, AreStages, Ends, Extends, Goes, back, entry_of, entries_of, table_of};
ghost use Rattle.jesc_linear.specs.Stages.{GivesStage};

use crate::choice::{Choice, next_term};
use crate::pairs::put_all_sums;
use crate::rows::{LinStep, Row, coefficient};
use crate::stop::{Slot, Stop};
use crate::table::{Table, row_in};
use jesc_text::{List, OutOfMemory};
use std::alloc::Global;

/// The most pairs that all stages together may have.
const MOST_PAIRS: u32 = 200_000;

/// A variable that was eliminated, and the rows that were set aside for it, by number.
#[derive(Drop)]
pub struct Stage {
    pub term: u32,
    pub held: Vec<Slot>,
}

/// Counts the pairs of a stage to come.
fn count_pairs(table: &mut Table, more: u64) -> Result<(), Stop>
    ensures log { table.new.log ≡ table.old.log }
    ensures slots { table.new.slots ≡ table.old.slots }
    ensures course { Goes table.new.log (λ u. table_of table.new) (spec.counted more (table_of table.old)) result }
{
    if more > u32::MAX as u64 {
        return Err(Stop::Memory);
    }
    match table.pairs.checked_add(more as u32) {
        None => Err(Stop::Memory),
        Some(pairs) => {
            if pairs > MOST_PAIRS {
                return Err(Stop::Pairs(pairs));
            }
            table.pairs = pairs;
            Ok(())
        }
    }
}

/// Puts a slot to the upper or the lower ones, by its row's coefficient.
fn put_side(
    uppers: &mut List<Slot>,
    lowers: &mut List<Slot>,
    slot: Slot,
    own: i64,
) -> Result<(), OutOfMemory>
    ensures uppers { OnOk result (uppers.new ≡ uppers.old ++ (if int_lt (pos 0) own then slot ∷ [] else [])) }
    ensures lowers { OnOk result (lowers.new ≡ lowers.old ++ (if int_lt own (pos 0) then slot ∷ [] else [])) }
{
    if own > 0 {
        uppers.push(slot)?;
    } else if own < 0 {
        lowers.push(slot)?;
    }
    Ok(())
}

/// Adds the slots of the upper and of the lower rows of a term, in order.
fn add_sides(
    log: &List<LinStep>,
    slots: &[Slot],
    term: u32,
    uppers: &mut List<Slot>,
    lowers: &mut List<Slot>,
) -> Result<(), OutOfMemory>
    requires { All (IsSlot log.now) slots.now }
    ensures uppers { OnOk result (uppers.new ≡ uppers.old ++ filter (λ slot. spec.is_upper term (entry_of log.now slot)) slots.now) }
    ensures lowers { OnOk result (lowers.new ≡ lowers.old ++ filter (λ slot. spec.is_lower term (entry_of log.now slot)) slots.now) }
{
    for slot in slots {
        put_side(
            uppers,
            lowers,
            *slot,
            coefficient(row_in(log, *slot).form.as_slice(), term),
        )?;
    }
    Ok(())
}

/// Puts the sums of a term's upper and lower rows into the table.
fn put_stage_sums(alloc: Global, rows: &[Row], table: &mut Table, term: u32) -> Result<(), Stop>
    requires { IsTable rows.now table.old }
    ensures table { IsTable rows.now table.new }
    ensures log { Extends table.old.log table.new.log }
    ensures course { Goes table.new.log (λ u. table_of table.new) (spec.put_all_sums term (filter (spec.is_upper term) (entries_of table.old.log table.old.slots.items)) (filter (spec.is_lower term) (entries_of table.old.log table.old.slots.items)) (table_of table.old)) result }
{
    let mut uppers = List::new(alloc);
    let mut lowers = List::new(alloc);
    add_sides(
        &table.log,
        table.slots.as_slice(),
        term,
        &mut uppers,
        &mut lowers,
    )?;
    put_all_sums(
        alloc,
        rows,
        table,
        term,
        uppers.as_slice(),
        lowers.as_slice(),
    )
}

/// Whether the slot's row has the term.
fn has_term(log: &List<LinStep>, slot: Slot, term: u32) -> bool
    requires { IsSlot log.now slot }
    ensures { result ≡ spec.has_term term (entry_of log.now slot) }
{
    coefficient(row_in(log, slot).form.as_slice(), term) != 0
}

fn push_slot(slots: &mut Vec<Slot>, slot: Slot) -> Result<(), OutOfMemory>
    ensures { OnOk result (slots.new.items ≡ slots.old.items ++ slot ∷ []) }
{
    match slots.push(slot) {
        Ok(_) => Ok(()),
        Err(_) => Err(OutOfMemory),
    }
}

/// Puts a slot to those held or to the rest.
fn put_apart(
    held: &mut Vec<Slot>,
    rest: &mut Vec<Slot>,
    slot: Slot,
    has: bool,
) -> Result<(), OutOfMemory>
    ensures held { OnOk result (held.new.items ≡ held.old.items ++ (if has then slot ∷ [] else [])) }
    ensures rest { OnOk result (rest.new.items ≡ rest.old.items ++ (if not has then slot ∷ [] else [])) }
{
    if has {
        push_slot(held, slot)
    } else {
        push_slot(rest, slot)
    }
}

/// Adds the slots of the rows with the term, and of those without, in order.
fn add_apart(
    log: &List<LinStep>,
    slots: &[Slot],
    term: u32,
    held: &mut Vec<Slot>,
    rest: &mut Vec<Slot>,
) -> Result<(), OutOfMemory>
    requires { All (IsSlot log.now) slots.now }
    ensures held { OnOk result (held.new.items ≡ held.old.items ++ filter (λ slot. spec.has_term term (entry_of log.now slot)) slots.now) }
    ensures rest { OnOk result (rest.new.items ≡ rest.old.items ++ filter (λ slot. not (spec.has_term term (entry_of log.now slot))) slots.now) }
{
    for slot in slots {
        put_apart(held, rest, *slot, has_term(log, *slot, term))?;
    }
    Ok(())
}

/// Takes the rows with the term out of the table. Where memory runs out, the table is as it was.
fn set_aside(alloc: Global, table: &mut Table, term: u32) -> Result<Vec<Slot>, OutOfMemory>
    requires { All (IsSlot table.old.log) table.old.slots.items }
    ensures log { table.new.log ≡ table.old.log }
    ensures unchanged { OnErr result (table.new.slots.items ≡ table.old.slots.items) }
    ensures held { IfOk result (λ held. held.items ≡ filter (λ slot. spec.has_term term (entry_of table.old.log slot)) table.old.slots.items) }
    ensures rest { OnOk result (table.new.slots.items ≡ filter (λ slot. not (spec.has_term term (entry_of table.old.log slot))) table.old.slots.items) }
    ensures next { table.new.next ≡ table.old.next }
    ensures pairs { table.new.pairs ≡ table.old.pairs }
{
    let mut held = Vec::new(alloc);
    let mut rest = Vec::new(alloc);
    add_apart(
        &table.log,
        table.slots.as_slice(),
        term,
        &mut held,
        &mut rest,
    )?;
    table.slots = rest;
    Ok(held)
}

/// Eliminates one variable.
fn run_stage(alloc: Global, rows: &[Row], table: &mut Table, choice: Choice) -> Result<Stage, Stop>
    requires table { IsTable rows.now table.old }
    requires pairs { choice.pairs ≡ pairs_of (entries_of table.old.log table.old.slots.items) choice.term }
    ensures table { IsTable rows.now table.new }
    ensures log { Extends table.old.log table.new.log }
    ensures held { IfOk result (λ stage. All (IsSlot table.new.log) stage.held.items) }
    ensures course { GivesStage table.new.log choice.term (table_of table.old) (table_of table.new) result }
{
    count_pairs(table, choice.pairs)?;
    put_stage_sums(alloc, rows, table, choice.term)?;
    let held = set_aside(alloc, table, choice.term)?;
    Ok(Stage {
        term: choice.term,
        held,
    })
}

/// Eliminates every variable, and adds each stage to the empty list.
///
/// Where it goes through, the course from the table is that through the stages; where it stops, the course ends so.
pub(crate) fn eliminate(
    alloc: Global,
    rows: &[Row],
    table: &mut Table,
    stages: &mut List<Stage>,
) -> Result<(), Stop>
    requires table { IsTable rows.now table.old }
    requires stages { stages.old ≡ [] }
    ensures table { IsTable rows.now table.new }
    ensures stages { AreStages table.new.log stages.new }
    ensures course { MatchResult result (λ u. Solves (table_of table.old) (back table.new.log stages.new (Ok []))) (λ stop. Ends table.new.log stop (Solves (table_of table.old))) }
{
    for _stage in 0..u32::MAX {
        match next_term(alloc, &table.log, table.slots.as_slice())? {
            None => return Ok(()),
            Some(choice) => {
                let stage = run_stage(alloc, rows, table, choice)?;
                stages.push(stage)?;
            }
        }
    }
    Err(Stop::Memory)
}
