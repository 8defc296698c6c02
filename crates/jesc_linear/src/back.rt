//! The way back: with the stages' variables in reverse, each gets a value that its rows allow.
//!
//! The rows that a stage set aside have, beside its variable, only variables of later stages and ones that no stage had,
//! which are 0. So each row allows the whole numbers on one side of a limit. The least value that all rows allow is taken,
//! else the greatest, else 0.

ghost use Rattle.std.specs.Prelude.{◌≡◌, ◌≤◌, ◌^◌, ◌+ℤ◌, ◌*ℤ◌, ◌≤ℤ◌, ℕ, ℤ, pos, [], List as Items, All, IfOk, OnOk, MatchResult, unsigned_abs};
ghost use Rattle.std.specs.Int.{int_div_euclid};
ghost use Rattle.jesc_linear.specs.Forms.{coefficient_of};
ghost use Rattle.jesc_linear.specs.Steps.{IsNarrow, IsRow};
ghost use Rattle.jesc_linear.specs.Courses.{and_then, within};
ghost use Rattle.jesc_linear.specs.Elimination as spec;
ghost use Rattle.jesc_linear.specs.Elimination.{Values};
ghost use Rattle.jesc_linear.specs.Tables.{AreStages, Goes, HasValues, IsEnd, IsSlot, Looks, back, entries_of, entry_of, row_at};
ghost use Rattle.jesc_linear.specs.Limits.{AreWithin, limit_in, limits_in, side_in};
ghost use Rattle.jesc_linear.specs.declared.rows.LinStep.{LinStep as Step};

use crate::point::{set_value, value_of};
use crate::rows::{LinStep, Row, coefficient};
use crate::stage::Stage;
use crate::stop::{Slot, Stop};
use jesc_text::List;
use std::alloc::Global;

/// The strictest limit on one side, and the row that sets it.
#[derive(Clone, Copy)]
pub struct Limit {
    pub value: i128,
    pub slot: Slot,
}

/// The strictest limits on both sides.
#[derive(Clone, Copy)]
pub struct Limits {
    pub least: Option<Limit>,
    pub greatest: Option<Limit>,
}

fn product(coefficient: i64, value: i128) -> i128
    requires coefficient { unsigned_abs coefficient ≤ 2 ^ 31 }
    requires value { unsigned_abs value ≤ 2 ^ 94 }
    ensures value { result ≡ coefficient *ℤ value }
    ensures size { unsigned_abs result ≤ 2 ^ 125 }
{
    coefficient as i128 * value
}

/// A sum with one more product, unless it is out of range.
fn plus(sum: i128, coefficient: i64, value: i128) -> Result<i128, Stop>
    requires sum { unsigned_abs sum ≤ 2 ^ 125 }
    requires coefficient { unsigned_abs coefficient ≤ 2 ^ 31 }
    requires value { unsigned_abs value ≤ 2 ^ 94 }
    ensures course { Looks (λ more. more) (within 125 (sum +ℤ coefficient *ℤ value)) result }
    ensures size { IfOk result (λ more. unsigned_abs more ≤ 2 ^ 125) }
{
    let more = sum + product(coefficient, value);
    if more.unsigned_abs() > 1 << 125 {
        return Err(Stop::Number(more));
    }
    Ok(more)
}

/// The sum of a form without one variable, from the left.
fn sum_without(values: &[i128], term: u32, form: &[(i64, u32)]) -> Result<i128, Stop>
    requires values { AreWithin values.now }
    requires form { All IsNarrow form.now }
    ensures course { (found : Values) → HasValues values.now found → Looks (λ sum. sum) (spec.sum_without found term (pos 0) form.now) result }
    ensures size { IfOk result (λ sum. unsigned_abs sum ≤ 2 ^ 125) }
{
    let mut sum = 0;
    for part in form {
        if part.1 == term {
            continue;
        }
        sum = plus(sum, part.0, value_of(values, part.1 as usize))?;
    }
    Ok(sum)
}

/// A row's bound less the sum of its other terms.
fn slack_of(values: &[i128], term: u32, row: &Row) -> Result<i128, Stop>
    requires values { AreWithin values.now }
    requires row { IsRow row.now }
    ensures course { (found : Values) → HasValues values.now found → Looks (λ left. left) (spec.slack found term row.now) result }
    ensures size { IfOk result (λ left. unsigned_abs left ≤ 2 ^ 126) }
{
    let sum = sum_without(values, term, row.form.as_slice())?;
    Ok(row.bound - sum)
}

/// The quotient rounded down. Each held row has its stage's variable, so no caller divides by 0; it would be 0 or -1.
fn quotient(left: i128, size: i128) -> i128
    requires { pos 0 ≤ℤ size }
    ensures value { result ≡ int_div_euclid left size }
    ensures size { unsigned_abs result ≤ unsigned_abs left }
{
    if size == 0 {
        return if left < 0 { -1 } else { 0 };
    }
    left.div_euclid(size)
}

/// The lesser limit, at a tie the older.
fn lesser(older: Option<Limit>, limit: Limit) -> Limit
    ensures { (log : Items Step) → side_in log (Some result) ≡ spec.lesser (side_in log older) (limit_in log limit) }
{
    match older {
        Some(older) => {
            if limit.value < older.value {
                limit
            } else {
                older
            }
        }
        None => limit,
    }
}

/// The greater limit, at a tie the older.
fn greater(older: Option<Limit>, limit: Limit) -> Limit
    ensures { (log : Items Step) → side_in log (Some result) ≡ spec.greater (side_in log older) (limit_in log limit) }
{
    match older {
        Some(older) => {
            if older.value < limit.value {
                limit
            } else {
                older
            }
        }
        None => limit,
    }
}

/// The limits with one more row's: its coefficient times the variable is at most what is left to it.
fn tightened(limits: Limits, coefficient: i64, left: i128, slot: Slot) -> Limits
    requires { unsigned_abs left ≤ 2 ^ 126 }
    ensures { (log : Items Step) → (term : ℕ) → coefficient_of (row_at log slot.at).form term ≡ coefficient → limits_in log result ≡ spec.tightened term (entry_of log slot) left (limits_in log limits) }
{
    let value = quotient(left, (coefficient as i128).abs());
    if coefficient > 0 {
        let greatest = Some(lesser(limits.greatest, Limit { value, slot }));
        Limits {
            least: limits.least,
            greatest,
        }
    } else {
        let value = -value;
        let least = Some(greater(limits.least, Limit { value, slot }));
        Limits {
            least,
            greatest: limits.greatest,
        }
    }
}

/// The limits with those of the row of a slot.
fn with_row(
    log: &[LinStep],
    values: &[i128],
    term: u32,
    slot: Slot,
    limits: Limits,
) -> Result<Limits, Stop>
    requires rows { All (λ step. IsRow step.row) log.now }
    requires values { AreWithin values.now }
    requires slot { IsSlot log.now slot }
    ensures { (found : Values) → HasValues values.now found → Looks (limits_in log.now) (and_then (spec.slack found term (row_at log.now slot.at)) (λ left. Ok (spec.tightened term (entry_of log.now slot) left (limits_in log.now limits)))) result }
{
    let row = &log[slot.at as usize].row;
    let left = slack_of(values, term, row)?;
    Ok(tightened(limits, coefficient(row.form.as_slice(), term), left, slot))
}

/// The strictest limits of a stage's rows, which are looked at by number.
fn limits_of(log: &[LinStep], values: &[i128], term: u32, held: &[Slot]) -> Result<Limits, Stop>
    requires rows { All (λ step. IsRow step.row) log.now }
    requires values { AreWithin values.now }
    requires held { All (IsSlot log.now) held.now }
    ensures { (found : Values) → HasValues values.now found → Looks (limits_in log.now) (spec.limits_of found term (entries_of log.now held.now) spec.no_limits) result }
{
    let mut limits = Limits {
        least: None,
        greatest: None,
    };
    for slot in held {
        limits = with_row(log, values, term, *slot, limits)?;
    }
    Ok(limits)
}

/// The gap between two rows, the smaller number first.
fn gap(first: Slot, second: Slot) -> Stop
    ensures { (log : Items Step) → IsEnd {A = ℤ} log result (Err (spec.gap_of (entry_of log first) (entry_of log second))) }
{
    if first.number < second.number {
        Stop::Gap(first, second)
    } else {
        Stop::Gap(second, first)
    }
}

/// The least value allowed, else the greatest, else 0.
fn chosen(limits: Limits) -> Result<i128, Stop>
    ensures { (log : Items Step) → Goes log (λ value. value) (spec.chosen (side_in log limits.least) (side_in log limits.greatest)) result }
{
    match (limits.least, limits.greatest) {
        (Some(least), Some(greatest)) => {
            if greatest.value < least.value {
                Err(gap(least.slot, greatest.slot))
            } else {
                Ok(least.value)
            }
        }
        (Some(least), None) => Ok(least.value),
        (None, Some(greatest)) => Ok(greatest.value),
        (None, None) => Ok(0),
    }
}

/// Stops at a value that is out of range.
fn look_at_value(value: i128) -> Result<(), Stop>
    ensures course { Looks (λ u. value) (within 94 value) result }
    ensures size { OnOk result (unsigned_abs value ≤ 2 ^ 94) }
{
    if value.unsigned_abs() > 1 << 94 {
        return Err(Stop::Number(value));
    }
    Ok(())
}

/// Gives the variable of a stage its value.
fn give(log: &[LinStep], stage: &Stage, values: &mut Vec<i128>) -> Result<(), Stop>
    requires rows { All (λ step. IsRow step.row) log.now }
    requires held { All (IsSlot log.now) stage.now.held.items }
    requires values { AreWithin values.old.items }
    ensures values { OnOk result (AreWithin values.new.items) }
    ensures course { (found : Values) → HasValues values.old.items found → MatchResult result (λ u. (after : Values) × (spec.give stage.now.term (entries_of log.now stage.now.held.items) found ≡ Ok after) × HasValues values.new.items after) (λ stop. IsEnd log.now stop (spec.give stage.now.term (entries_of log.now stage.now.held.items) found)) }
{
    let limits = limits_of(log, values.as_slice(), stage.term, stage.held.as_slice())?;
    let value = chosen(limits)?;
    look_at_value(value)?;
    set_value(values, stage.term, value)?;
    Ok(())
}

/// Gives each variable its value, in the empty list of values by term.
pub(crate) fn go_back(
    log: &List<LinStep>,
    stages: &List<Stage>,
    values: &mut Vec<i128>,
) -> Result<(), Stop>
    requires rows { All (λ step. IsRow step.row) log.now }
    requires stages { AreStages log.now stages.now }
    requires values { values.old.items ≡ [] }
    ensures { MatchResult result (λ u. (found : Values) × (back log.now stages.now (Ok []) ≡ Ok found) × HasValues values.new.items found) (λ stop. IsEnd log.now stop (back log.now stages.now (Ok []))) }
{
    let stages = stages.as_slice();
    for at in (0..stages.len()).rev() {
        give(log.as_slice(), &stages[at], values)?;
    }
    Ok(())
}
