//! The input rows as the first rows of the table.

ghost use Rattle.std.specs.Prelude.{◌≡◌, ◌<◌, ◌^◌, [], pos, length, slice_get, All, IfOk};
ghost use Rattle.jesc_linear.specs.Forms.{IsForm};
ghost use Rattle.jesc_linear.specs.Steps.{IsRow};
ghost use Rattle.jesc_linear.specs.Divisors.{divided, divisor_of};
ghost use Rattle.jesc_linear.specs.Courses.{and_then, looked_at};
ghost use Rattle.jesc_linear.specs.Elimination as spec;
ghost use Rattle.jesc_linear.specs.Tables.{IsTable, Goes, Looks, entries_of};

use crate::entry::put;
use crate::merge::widened;
use crate::reduce::{Quotient, look_at, reduced};
use crate::rows::{LinStep, Row};
use crate::stop::Stop;
use crate::table::Table;
use std::alloc::Global;

/// The row over the divisor of its form.
fn quotient_of(alloc: Global, row: &Row) -> Result<Quotient, Stop>
    requires { IsRow row.now }
    ensures course { Looks (λ quotient. quotient.row) (looked_at (divided row.now)) result }
    ensures divisor { IfOk result (λ quotient. quotient.divisor ≡ pos (divisor_of row.now.form)) }
{
    let wide = widened(alloc, row.form.as_slice())?;
    reduced(alloc, wide.as_slice(), row.bound)
}

/// Looks at an input row, divides it, and puts it into the table.
fn put_one(
    alloc: Global,
    rows: &[Row],
    table: &mut Table,
    number: u32,
    row: &Row,
) -> Result<(), Stop>
    requires table { IsTable rows.now table.old }
    requires form { IsForm row.now.form }
    requires row { slice_get rows.now number ≡ Some row.now }
    ensures table { IsTable rows.now table.new }
    ensures next { table.new.next ≡ table.old.next }
    ensures pairs { table.new.pairs ≡ table.old.pairs }
    ensures course { Goes table.new.log (λ u. entries_of table.new.log table.new.slots.items) (and_then (looked_at row.now) (λ same. spec.put_row number (divided row.now) (entries_of table.old.log table.old.slots.items))) result }
{
    look_at(row)?;
    let quotient = quotient_of(alloc, row)?;
    put(
        rows,
        table,
        number,
        LinStep {
            a: 1,
            i: number,
            b: 0,
            j: number,
            d: quotient.divisor,
            row: quotient.row,
        },
    )?;
    Ok(())
}

/// Puts the input rows into the empty table, in order.
pub(crate) fn put_given(alloc: Global, rows: &[Row], table: &mut Table) -> Result<(), Stop>
    requires few { length rows.now < 2 ^ 31 }
    requires forms { All (λ row. IsForm row.form) rows.now }
    requires log { table.old.log ≡ [] }
    requires slots { table.old.slots.items ≡ [] }
    ensures table { IsTable rows.now table.new }
    ensures next { table.new.next ≡ table.old.next }
    ensures pairs { table.new.pairs ≡ table.old.pairs }
    ensures course { Goes table.new.log (λ u. entries_of table.new.log table.new.slots.items) (spec.put_given 0 rows.now []) result }
{
    for k in 0..rows.len() {
        put_one(alloc, rows, table, k as u32, &rows[k])?;
    }
    Ok(())
}
