//! What the elimination of variables finds, with its evidence.

ghost use Rattle.std.specs.Prelude.{◌≡◌, ◌<◌, ◌^◌, [], length, All, IfOk, Ok, Err, MatchResult};
ghost use Rattle.jesc_linear.specs.Forms.{IsForm};
ghost use Rattle.jesc_linear.specs.Courses.Ending.{gap};
ghost use Rattle.jesc_linear.specs.Elimination.{HasOutcome, Decides, Values};
ghost use Rattle.jesc_linear.specs.Tables.{IsTable, Ends, HasValues, entry_of, row_at};
ghost use Rattle.jesc_linear.specs.Evidence.{HasEvidence, IsSound};

use crate::back::go_back;
use crate::given::put_given;
use crate::point::point_of;
use crate::rows::{LinStep, Row};
use crate::stage::{Stage, eliminate};
use crate::stop::{Slot, Stop};
use crate::table::Table;
use jesc_text::{List, OutOfMemory};
use std::alloc::Global;

/// What `decide` found.
#[derive(Debug, Drop)]
pub enum Outcome {
    /// No whole numbers meet the rows; `check_steps` takes these steps.
    Refuted(List<LinStep>),
    /// A value for each term number, from 0 to the greatest that occurs, which together meet every row.
    Point(List<i128>),
    /// The table of rows passed 3,000: its length.
    WideForms(u32),
    /// The pairs of all stages passed 200,000: their number.
    WidePairs(u32),
    /// The first number out of range: a coefficient beyond 2^31, a bound or value beyond 2^94, or a partial sum beyond 2^125.
    WideNumber(i128),
    /// The numbers of a lower and an upper row that leave a variable no whole number, the smaller first, and the rows as they stood.
    Gap(u32, Row, u32, Row),
}

/// Whether whole numbers meet the rows, by the elimination of one variable after the other.
///
/// Each row's form has to be in order. Rows are divided by the common divisor of their coefficients, their bounds rounded down; of equal forms
/// the lesser bound stays. Each stage takes the variable in the fewest pairs of an upper and a lower row, ties by the smaller term, and puts in
/// the place of its rows the sum of each pair. On the way back a variable gets its least allowed value, else its greatest, else 0.
/// `OutOfMemory` is the only error.
pub fn decide(alloc: Global, rows: &[Row]) -> Result<Outcome, OutOfMemory>
    requires few { length rows.now < 2 ^ 31 }
    requires forms { All (λ row. IsForm row.form) rows.now }
    ensures defined { IfOk result (λ outcome. HasOutcome rows.now outcome) }
    ensures evidence { IfOk result (λ outcome. HasEvidence rows.now outcome) }
    ensures sound { IfOk result (λ outcome. IsSound rows.now outcome) }
{
    let mut table = Table::new(alloc, rows.len() as u32);
    let mut stages = List::new(alloc);
    let mut values = Vec::new(alloc);
    match search(alloc, rows, &mut table, &mut stages, &mut values) {
        Ok(()) => Ok(Outcome::Point(point_of(alloc, rows, values.as_slice())?)),
        Err(stop) => outcome_of(alloc, rows, table, stop),
    }
}

/// Eliminates every variable and gives each one its value.
fn search(
    alloc: Global,
    rows: &[Row],
    table: &mut Table,
    stages: &mut List<Stage>,
    values: &mut Vec<i128>,
) -> Result<(), Stop>
    requires few { length rows.now < 2 ^ 31 }
    requires forms { All (λ row. IsForm row.form) rows.now }
    requires log { table.old.log ≡ [] }
    requires slots { table.old.slots.items ≡ [] }
    requires next { table.old.next ≡ length rows.now }
    requires pairs { table.old.pairs ≡ 0 }
    requires stages { stages.old ≡ [] }
    requires values { values.old.items ≡ [] }
    ensures table { IsTable rows.now table.new }
    ensures course { MatchResult result (λ u. (found : Values) × Decides rows.now (Ok found) × HasValues values.new.items found) (λ stop. Ends table.new.log stop (Decides rows.now)) }
{
    put_given(alloc, rows, table)?;
    eliminate(alloc, rows, table, stages)?;
    go_back(&table.log, stages, values)
}

/// The outcome where the search stopped.
fn outcome_of(alloc: Global, rows: &[Row], table: Table, stop: Stop) -> Result<Outcome, OutOfMemory>
    requires forms { All (λ row. IsForm row.form) rows.now }
    requires table { IsTable rows.now table }
    requires course { Ends table.log stop (Decides rows.now) }
    ensures defined { IfOk result (λ outcome. HasOutcome rows.now outcome) }
    ensures evidence { IfOk result (λ outcome. HasEvidence rows.now outcome) }
    ensures sound { IfOk result (λ outcome. IsSound rows.now outcome) }
{
    match stop {
        Stop::Memory => Err(OutOfMemory),
        Stop::Absurd => Ok(Outcome::Refuted(table.log)),
        Stop::Forms(count) => Ok(Outcome::WideForms(count)),
        Stop::Pairs(count) => Ok(Outcome::WidePairs(count)),
        Stop::Number(number) => Ok(Outcome::WideNumber(number)),
        Stop::Gap(first, second) => gap_of(alloc, rows, &table.log, first, second),
    }
}

/// The two rows of a gap, with their numbers.
fn gap_of(
    alloc: Global,
    rows: &[Row],
    log: &List<LinStep>,
    first: Slot,
    second: Slot,
) -> Result<Outcome, OutOfMemory>
    requires forms { All (λ row. IsForm row.form) rows.now }
    requires course { Decides rows.now (Err (gap (entry_of log.now first) (entry_of log.now second))) }
    ensures defined { IfOk result (λ outcome. HasOutcome rows.now outcome) }
    ensures evidence { IfOk result (λ outcome. HasEvidence rows.now outcome) }
    ensures sound { IfOk result (λ outcome. IsSound rows.now outcome) }
{
    let row = copied_row(alloc, log, first.at)?;
    let other = copied_row(alloc, log, second.at)?;
    Ok(Outcome::Gap(first.number, row, second.number, other))
}

/// A copy of the row of the step at that place, of none the empty row.
fn copied_row(alloc: Global, log: &List<LinStep>, at: u32) -> Result<Row, OutOfMemory>
    ensures { IfOk result (λ row. row ≡ row_at log.now at) }
{
    match log.as_slice().get(at as usize) {
        Some(step) => copied(alloc, &step.row),
        None => Ok(Row {
            form: List::new(alloc),
            bound: 0,
        }),
    }
}

fn copied(alloc: Global, row: &Row) -> Result<Row, OutOfMemory>
    ensures { IfOk result (λ copy. copy ≡ row.now) }
{
    let form = copied_form(alloc, row.form.as_slice())?;
    Ok(Row {
        form,
        bound: row.bound,
    })
}

fn copied_form(alloc: Global, form: &[(i64, u32)]) -> Result<List<(i64, u32)>, OutOfMemory>
    ensures { IfOk result (λ copy. copy ≡ form.now) }
{
    let mut copy = List::new(alloc);
    for part in form {
        copy.push(*part)?;
    }
    Ok(copy)
}
