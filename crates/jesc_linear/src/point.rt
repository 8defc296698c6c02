//! Values by term, and the point that lists them.

ghost use Rattle.std.specs.Prelude.{◌≡◌, ℕ, ◌==◌, if◌then◌else◌, IfOk, OnOk};
ghost use Rattle.jesc_linear.specs.Rows.{value_at};
ghost use Rattle.jesc_linear.specs.Sums as sums;
ghost use Rattle.jesc_linear.specs.Elimination as spec;
ghost use Rattle.jesc_linear.specs.Elimination.{Values, listed};
ghost use Rattle.jesc_linear.specs.Tables.{HasValues};

use crate::rows::Row;
use jesc_text::{List, OutOfMemory};
use std::alloc::Global;

/// The value of a term: 0 past the end of the values. Takes no memory.
pub(crate) fn value_of(values: &[i128], term: usize) -> i128
    ensures { result ≡ value_at values.now term }
{
    match values.get(term) {
        Some(value) => *value,
        None => 0,
    }
}

/// Gives a term its value; terms before it that had none get 0.
pub(crate) fn set_value(values: &mut Vec<i128>, term: u32, value: i128) -> Result<(), OutOfMemory>
    ensures { (other : ℕ) → OnOk result (value_at values.new.items other ≡ (if term == other then value else value_at values.old.items other)) }
{
    let at = term as usize;
    if values.len() <= at && values.resize(at + 1, 0).is_err() {
        return Err(OutOfMemory);
    }
    values[at] = value;
    Ok(())
}

/// The least number above all terms of the form. Takes no memory.
fn end_of(form: &[(i64, u32)]) -> usize
    ensures { result ≡ sums.end_of form.now }
{
    let mut end = 0;
    for part in form {
        end = end.max(part.1 as usize + 1);
    }
    end
}

/// The least number above all terms of the rows. Takes no memory.
fn end_of_all(rows: &[Row]) -> usize
    ensures { result ≡ spec.end_of_all rows.now }
{
    let mut end = 0;
    for row in rows {
        end = end.max(end_of(row.form.as_slice()));
    }
    end
}

/// The values of all terms up to the greatest that occurs in the rows.
pub(crate) fn point_of(
    alloc: Global,
    rows: &[Row],
    values: &[i128],
) -> Result<List<i128>, OutOfMemory>
    ensures { IfOk result (λ point. (found : Values) → HasValues values.now found → point ≡ listed found 0 (spec.end_of_all rows.now)) }
{
    let mut point = List::new(alloc);
    for term in 0..end_of_all(rows) {
        point.push(value_of(values, term))?;
    }
    Ok(point)
}
