//! How a row enters the table.

ghost use Rattle.std.specs.Prelude.{◌≡◌, ℕ, [], ◌∷◌, ◌++◌, true, false, not, ◌&&◌, ◌==◌, map, filter, All, IfOk, OnOk, OnErr, slice_get};
ghost use Rattle.std.specs.List.{list_any};
ghost use Rattle.std.specs.Ordering.{int_eq};
ghost use Rattle.jesc_linear.specs.Steps.{DerivesFrom};
ghost use Rattle.jesc_linear.specs.Inner.{row_of};
ghost use Rattle.jesc_linear.specs.Elimination.{put_row, limited, covers as does_cover, same_form, stays as will_stay};
ghost use Rattle.jesc_linear.specs.Marks.{mark_of as the_mark_of};
ghost use Rattle.jesc_linear.specs.Tables.{IsTable, IsSlot, Extends, Goes, entries_of, entry_of, row_at};

use crate::marks::mark_of;
use crate::rows::{LinStep, Row};
use crate::stop::{Slot, Stop};
use crate::table::{Table, push_step, row_in};
use jesc_text::{List, OutOfMemory};

/// The most rows that the table may hold.
const MOST_ROWS: usize = 3_000;

fn is_same_part(first: (i64, u32), second: (i64, u32)) -> bool
    ensures { result ≡ (int_eq first.0 second.0 && (first.1 == second.1)) }
{
    first.0 == second.0 && first.1 == second.1
}

#[tactic(auto, using(crate::proofs::Forming::other_lengths, crate::proofs::Forming::same_at))]
fn is_same_form(first: &[(i64, u32)], second: &[(i64, u32)]) -> bool
    ensures { result ≡ same_form first.now second.now }
{
    if first.len() != second.len() {
        return false;
    }
    for k in 0..first.len() {
        if !is_same_part(first[k], second[k]) {
            return false;
        }
    }
    true
}

/// Whether the slot's row has this form, whose mark is given.
#[tactic(auto, using(crate::proofs::Forming::other_marks))]
fn has_form(log: &List<LinStep>, slot: Slot, mark: u64, form: &[(i64, u32)]) -> bool
    requires slot { IsSlot log.now slot }
    requires mark { mark ≡ the_mark_of form.now }
    ensures { result ≡ same_form (row_at log.now slot.at).form form.now }
{
    if slot.mark != mark {
        return false;
    }
    is_same_form(row_in(log, slot).form.as_slice(), form)
}

/// Whether some slot's row has this form.
fn is_known(log: &List<LinStep>, slots: &[Slot], mark: u64, form: &[(i64, u32)]) -> bool
    requires slots { All (IsSlot log.now) slots.now }
    requires mark { mark ≡ the_mark_of form.now }
    ensures { result ≡ list_any (λ entry. same_form entry.row.form form.now) (entries_of log.now slots.now) }
{
    for slot in slots {
        if has_form(log, *slot, mark, form) {
            return true;
        }
    }
    false
}

/// Whether the slot's row has the row's form, and a bound that is no greater.
fn covers(log: &List<LinStep>, slot: Slot, mark: u64, row: &Row) -> bool
    requires slot { IsSlot log.now slot }
    requires mark { mark ≡ the_mark_of row.now.form }
    ensures { result ≡ does_cover row.now (entry_of log.now slot) }
{
    if !has_form(log, slot, mark, row.form.as_slice()) {
        return false;
    }
    row_in(log, slot).bound <= row.bound
}

/// Whether some slot's row covers the row.
fn is_covered(log: &List<LinStep>, slots: &[Slot], mark: u64, row: &Row) -> bool
    requires slots { All (IsSlot log.now) slots.now }
    requires mark { mark ≡ the_mark_of row.now.form }
    ensures { result ≡ list_any (does_cover row.now) (entries_of log.now slots.now) }
{
    for slot in slots {
        if covers(log, *slot, mark, row) {
            return true;
        }
    }
    false
}

/// Drops the slots whose rows have this form.
fn drop_form(log: &List<LinStep>, slots: &mut Vec<Slot>, mark: u64, form: &[(i64, u32)])
    requires slots { All (IsSlot log.now) slots.old.items }
    requires mark { mark ≡ the_mark_of form.now }
    ensures { slots.new.items ≡ filter (λ slot. not (same_form (row_at log.now slot.at).form form.now)) slots.old.items }
{
    let mut kept = 0;
    for at in 0..slots.len() {
        let slot = slots[at];
        if !has_form(log, slot, mark, form) {
            slots[kept] = slot;
            kept += 1;
        }
    }
    slots.truncate(kept);
}

/// Whether no slot's row covers the row. If so, the slots whose rows have its form are dropped.
fn make_way(log: &List<LinStep>, slots: &mut Vec<Slot>, mark: u64, row: &Row) -> bool
    requires slots { All (IsSlot log.now) slots.old.items }
    requires mark { mark ≡ the_mark_of row.now.form }
    ensures stays { result ≡ not (list_any (does_cover row.now) (entries_of log.now slots.old.items)) }
    ensures slots { All (IsSlot log.now) slots.new.items }
    ensures dropped { result ≡ true → entries_of log.now slots.new.items ≡ filter (λ entry. not (same_form entry.row.form row.now.form)) (entries_of log.now slots.old.items) }
    ensures same { result ≡ false → slots.new.items ≡ slots.old.items }
{
    if !is_known(log, slots.as_slice(), mark, row.form.as_slice()) {
        return true;
    }
    if is_covered(log, slots.as_slice(), mark, row) {
        return false;
    }
    drop_form(log, slots, mark, row.form.as_slice());
    true
}

/// Appends a slot.
fn push_slot(slots: &mut Vec<Slot>, slot: Slot) -> Result<(), OutOfMemory>
    ensures ok { OnOk result (slots.new.items ≡ slots.old.items ++ slot ∷ []) }
    ensures err { OnErr result (slots.new.items ≡ slots.old.items) }
{
    match slots.push(slot) {
        Ok(_) => Ok(()),
        Err(_) => Err(OutOfMemory),
    }
}

/// Stops where more than 3,000 rows stand in the table.
fn look_at_length(table: &Table) -> Result<(), Stop>
    ensures { Goes table.now.log (λ u. entries_of table.now.log table.now.slots.items) (limited (entries_of table.now.log table.now.slots.items)) result }
{
    let length = table.slots.len();
    if length <= MOST_ROWS {
        return Ok(());
    }
    match u32::try_from(length) {
        Ok(length) => Err(Stop::Forms(length)),
        Err(_) => Err(Stop::Memory),
    }
}

/// Enters the step's row, of that mark, as the last one.
fn put_last(
    rows: &[Row],
    table: &mut Table,
    number: u32,
    mark: u64,
    step: LinStep,
) -> Result<bool, Stop>
    requires table { IsTable rows.now table.old }
    requires step { DerivesFrom (slice_get (rows.now ++ map row_of table.old.log) step.i) (slice_get (rows.now ++ map row_of table.old.log) step.j) step }
    requires mark { mark ≡ the_mark_of step.row.form }
    ensures table { IsTable rows.now table.new }
    ensures log { Extends table.old.log table.new.log }
    ensures next { table.new.next ≡ table.old.next }
    ensures pairs { table.new.pairs ≡ table.old.pairs }
    ensures course { Goes table.new.log (λ stays. entries_of table.new.log table.new.slots.items) (limited (entries_of table.old.log table.old.slots.items ++ record { number = number; row = step.row } ∷ [])) result }
    ensures stays { IfOk result (λ stays. stays ≡ true) }
{
    let at = push_step(rows, &mut table.log, step)?;
    push_slot(&mut table.slots, Slot { number, at, mark })?;
    look_at_length(table)?;
    Ok(true)
}

/// Drops a row without a term, or ends the search where it says that 0 is at most a negative number.
fn put_constant(rows: &[Row], table: &mut Table, step: LinStep) -> Result<bool, Stop>
    requires table { IsTable rows.now table.old }
    requires step { DerivesFrom (slice_get (rows.now ++ map row_of table.old.log) step.i) (slice_get (rows.now ++ map row_of table.old.log) step.j) step }
    requires form { step.row.form ≡ [] }
    ensures table { IsTable rows.now table.new }
    ensures log { Extends table.old.log table.new.log }
    ensures next { table.new.next ≡ table.old.next }
    ensures pairs { table.new.pairs ≡ table.old.pairs }
    ensures course { (number : ℕ) → Goes table.new.log (λ stays. entries_of table.new.log table.new.slots.items) (put_row number step.row (entries_of table.old.log table.old.slots.items)) result }
    ensures stays { IfOk result (λ stays. stays ≡ will_stay (entries_of table.old.log table.old.slots.items) step.row) }
{
    if step.row.bound >= 0 {
        return Ok(false);
    }
    push_step(rows, &mut table.log, step)?;
    Err(Stop::Absurd)
}

/// Enters the step's row under this number, and tells whether it stays: an empty form is dropped or ends the search, and of
/// two equal forms the one with the lesser bound stays, at a tie the older one.
///
/// A row that ends the search has its step at the end of the log.
pub(crate) fn put(rows: &[Row], table: &mut Table, number: u32, step: LinStep) -> Result<bool, Stop>
    requires table { IsTable rows.now table.old }
    requires step { DerivesFrom (slice_get (rows.now ++ map row_of table.old.log) step.i) (slice_get (rows.now ++ map row_of table.old.log) step.j) step }
    ensures table { IsTable rows.now table.new }
    ensures log { Extends table.old.log table.new.log }
    ensures next { table.new.next ≡ table.old.next }
    ensures pairs { table.new.pairs ≡ table.old.pairs }
    ensures course { Goes table.new.log (λ stays. entries_of table.new.log table.new.slots.items) (put_row number step.row (entries_of table.old.log table.old.slots.items)) result }
    ensures stays { IfOk result (λ stays. stays ≡ will_stay (entries_of table.old.log table.old.slots.items) step.row) }
{
    if step.row.form.as_slice().is_empty() {
        return put_constant(rows, table, step);
    }
    let mark = mark_of(step.row.form.as_slice());
    if !make_way(&table.log, &mut table.slots, mark, &step.row) {
        return Ok(false);
    }
    put_last(rows, table, number, mark, step)
}
