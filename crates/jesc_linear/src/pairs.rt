//! The sums of a stage's pairs of an upper and a lower row.

ghost use Rattle.std.specs.Prelude.{◌≡◌, ◌+◌, ◌<◌, ◌≤◌, ◌^◌, ◌++◌, ◌<ℤ◌, ◌+ℤ◌, ◌*ℤ◌, pos, length, map, slice_get, All, IfOk, unsigned_abs};
ghost use Rattle.jesc_linear.specs.Forms.{coefficient_of};
ghost use Rattle.jesc_linear.specs.Steps.{IsRow, AreSteps, DerivesFrom};
ghost use Rattle.jesc_linear.specs.Inner.{row_of};
ghost use Rattle.jesc_linear.specs.Divisors.{divided, divisor_of};
ghost use Rattle.jesc_linear.specs.Sums.{added as the_added, combined as the_combined, sum_of};
ghost use Rattle.jesc_linear.specs.Courses.{looked_at};
ghost use Rattle.jesc_linear.specs.Elimination as spec;
ghost use Rattle.jesc_linear.specs.Tables.{IsTable, IsSlot, Extends, Goes, Looks, entries_of, row_at, table_of};

use crate::divisor::multiplier;
use crate::entry::put;
use crate::merge::added;
use crate::reduce::{Quotient, reduced};
use crate::rows::{LinStep, Row, coefficient};
use crate::stop::{Slot, Stop};
use crate::table::{Table, row_in};
use jesc_text::List;
use std::alloc::Global;

/// Bounds of two rows, each with a multiplier.
fn combined_bound(a: i64, first: i128, b: i64, second: i128) -> i128
    requires a { unsigned_abs a ≤ 2 ^ 31 }
    requires first { unsigned_abs first ≤ 2 ^ 94 }
    requires b { unsigned_abs b ≤ 2 ^ 31 }
    requires second { unsigned_abs second ≤ 2 ^ 94 }
    ensures { result ≡ a *ℤ first +ℤ b *ℤ second }
{
    scaled_bound(a, first) + scaled_bound(b, second)
}

fn scaled_bound(factor: i64, bound: i128) -> i128
    requires factor { unsigned_abs factor ≤ 2 ^ 31 }
    requires bound { unsigned_abs bound ≤ 2 ^ 94 }
    ensures value { result ≡ factor *ℤ bound }
    ensures size { unsigned_abs result ≤ 2 ^ 125 }
{
    factor as i128 * bound
}

/// The sum of two rows, each with a multiplier, divided and looked at.
fn combined(alloc: Global, a: i64, first: &Row, b: i64, second: &Row) -> Result<Quotient, Stop>
    requires first { IsRow first.now }
    requires second { IsRow second.now }
    requires a { unsigned_abs a ≤ 2 ^ 31 }
    requires b { unsigned_abs b ≤ 2 ^ 31 }
    ensures course { Looks (λ quotient. quotient.row) (looked_at (divided (the_combined a first.now b second.now))) result }
    ensures divisor { IfOk result (λ quotient. quotient.divisor ≡ pos (divisor_of (the_added a first.now.form b second.now.form))) }
{
    let form = added(alloc, a, first.form.as_slice(), b, second.form.as_slice())?;
    let bound = combined_bound(a, first.bound, b, second.bound);
    reduced(alloc, form.as_slice(), bound)
}

/// The step that makes the sum of an upper and a lower row, with the least positive multipliers that cancel the term.
fn sum_step(
    alloc: Global,
    rows: &[Row],
    log: &List<LinStep>,
    term: u32,
    upper: Slot,
    lower: Slot,
) -> Result<LinStep, Stop>
    requires steps { AreSteps rows.now log.now }
    requires few { length rows.now + length log.now < 2 ^ 32 }
    requires upper { IsSlot log.now upper }
    requires lower { IsSlot log.now lower }
    requires upper_sign { pos 0 <ℤ coefficient_of (row_at log.now upper.at).form term }
    requires lower_sign { coefficient_of (row_at log.now lower.at).form term <ℤ pos 0 }
    ensures course { Looks (λ step. step.row) (looked_at (divided (sum_of term (row_at log.now upper.at) (row_at log.now lower.at)))) result }
    ensures derived { IfOk result (λ step. DerivesFrom (slice_get (rows.now ++ map row_of log.now) step.i) (slice_get (rows.now ++ map row_of log.now) step.j) step) }
{
    let first = row_in(log, upper);
    let second = row_in(log, lower);
    let left = coefficient(first.form.as_slice(), term);
    let right = coefficient(second.form.as_slice(), term);
    let a = multiplier(left, right);
    let b = multiplier(right, left);
    let quotient = combined(alloc, a, first, b, second)?;
    let given = rows.len() as u32;
    Ok(LinStep {
        a: a as i128,
        i: given + upper.at,
        b: b as i128,
        j: given + lower.at,
        d: quotient.divisor,
        row: quotient.row,
    })
}

/// Puts a derived row into the table as the next one, if it stays. Answers `Memory` too where the rows would number 2^32.
fn put_derived(rows: &[Row], table: &mut Table, step: LinStep) -> Result<(), Stop>
    requires table { IsTable rows.now table.old }
    requires step { DerivesFrom (slice_get (rows.now ++ map row_of table.old.log) step.i) (slice_get (rows.now ++ map row_of table.old.log) step.j) step }
    ensures table { IsTable rows.now table.new }
    ensures log { Extends table.old.log table.new.log }
    ensures course { Goes table.new.log (λ u. table_of table.new) (spec.put_derived step.row (table_of table.old)) result }
{
    let number = table.next;
    if !put(rows, table, number, step)? {
        return Ok(());
    }
    match number.checked_add(1) {
        Some(next) => {
            table.next = next;
            Ok(())
        }
        None => Err(Stop::Memory),
    }
}

/// Puts the sum of an upper and a lower row into the table, with the least positive multipliers that cancel the term.
fn put_sum(
    alloc: Global,
    rows: &[Row],
    table: &mut Table,
    term: u32,
    upper: Slot,
    lower: Slot,
) -> Result<(), Stop>
    requires table { IsTable rows.now table.old }
    requires upper { IsSlot table.old.log upper }
    requires lower { IsSlot table.old.log lower }
    requires upper_sign { pos 0 <ℤ coefficient_of (row_at table.old.log upper.at).form term }
    requires lower_sign { coefficient_of (row_at table.old.log lower.at).form term <ℤ pos 0 }
    ensures table { IsTable rows.now table.new }
    ensures log { Extends table.old.log table.new.log }
    ensures course { Goes table.new.log (λ u. table_of table.new) (spec.put_sum term (row_at table.old.log upper.at) (row_at table.old.log lower.at) (table_of table.old)) result }
{
    let step = sum_step(alloc, rows, &table.log, term, upper, lower)?;
    put_derived(rows, table, step)
}

/// Puts the sums of an upper row with each lower row.
fn put_sums(
    alloc: Global,
    rows: &[Row],
    table: &mut Table,
    term: u32,
    upper: Slot,
    lowers: &[Slot],
) -> Result<(), Stop>
    requires table { IsTable rows.now table.old }
    requires upper { IsSlot table.old.log upper }
    requires lowers { All (IsSlot table.old.log) lowers.now }
    requires upper_sign { pos 0 <ℤ coefficient_of (row_at table.old.log upper.at).form term }
    requires lower_signs { All (λ lower. coefficient_of (row_at table.old.log lower.at).form term <ℤ pos 0) lowers.now }
    ensures table { IsTable rows.now table.new }
    ensures log { Extends table.old.log table.new.log }
    ensures course { Goes table.new.log (λ u. table_of table.new) (spec.put_sums term (row_at table.old.log upper.at) (entries_of table.old.log lowers.now) (table_of table.old)) result }
{
    for lower in lowers {
        put_sum(alloc, rows, table, term, upper, *lower)?;
    }
    Ok(())
}

/// Puts the sums of each upper row with each lower row.
pub(crate) fn put_all_sums(
    alloc: Global,
    rows: &[Row],
    table: &mut Table,
    term: u32,
    uppers: &[Slot],
    lowers: &[Slot],
) -> Result<(), Stop>
    requires table { IsTable rows.now table.old }
    requires uppers { All (IsSlot table.old.log) uppers.now }
    requires lowers { All (IsSlot table.old.log) lowers.now }
    requires upper_signs { All (λ upper. pos 0 <ℤ coefficient_of (row_at table.old.log upper.at).form term) uppers.now }
    requires lower_signs { All (λ lower. coefficient_of (row_at table.old.log lower.at).form term <ℤ pos 0) lowers.now }
    ensures table { IsTable rows.now table.new }
    ensures log { Extends table.old.log table.new.log }
    ensures course { Goes table.new.log (λ u. table_of table.new) (spec.put_all_sums term (entries_of table.old.log uppers.now) (entries_of table.old.log lowers.now) (table_of table.old)) result }
{
    for upper in uppers {
        put_sums(alloc, rows, table, term, *upper, lowers)?;
    }
    Ok(())
}
