//! Rows over their greatest common divisor, in range.

ghost use Rattle.std.specs.Prelude.{[], ◌∷◌, ◌≡◌, ◌≢◌, ◌≤◌, ◌≤ℤ◌, ◌^◌, pos, All, IfOk, OnOk, map, int_div, unsigned_abs};
ghost use Rattle.jesc_linear.specs.Forms.{IsForm};
ghost use Rattle.jesc_linear.specs.Steps.{IsRow};
ghost use Rattle.jesc_linear.specs.Divisors.{divided, divisor_of as the_divisor_of};
ghost use Rattle.jesc_linear.specs.Courses.{look_at_form as the_look_at_form, looked_at, within};
ghost use Rattle.jesc_linear.specs.Tables.{Looks};

use crate::divisor::divisor_of;
use crate::rows::Row;
use crate::stop::Stop;
use jesc_text::{List, OutOfMemory};
use std::alloc::Global;

/// A row, and the number that it was divided by.
#[derive(Debug, Drop)]
pub(crate) struct Quotient {
    pub(crate) divisor: i128,
    pub(crate) row: Row,
}

/// The row of this form and bound, divided and then looked at: stops at the first number out of range.
pub(crate) fn reduced(alloc: Global, form: &[(i128, u32)], bound: i128) -> Result<Quotient, Stop>
    requires form { IsForm form.now }
    requires sizes { All (λ part. unsigned_abs part.0 ≤ 2 ^ 63) form.now }
    ensures course { Looks (λ quotient. quotient.row) (looked_at (divided (record { form = form.now; bound = bound }))) result }
    ensures divisor { IfOk result (λ quotient. quotient.divisor ≡ pos (the_divisor_of form.now)) }
    ensures row { IfOk result (λ quotient. IsRow quotient.row) }
{
    let divisor = divisor_of(form);
    let form = divided_form(alloc, form, divisor)?;
    let bound = narrow_bound(bound.div_euclid(divisor))?;
    Ok(Quotient {
        divisor,
        row: Row { form, bound },
    })
}

/// The form over a number above 0. Stops at the first quotient out of range.
fn divided_form(
    alloc: Global,
    form: &[(i128, u32)],
    divisor: i128,
) -> Result<List<(i64, u32)>, Stop>
    requires divisor { pos 1 ≤ℤ divisor }
    ensures course { Looks (λ quotient. tt) (the_look_at_form (map (λ part. (int_div part.0 divisor, part.1)) form.now)) result }
    ensures quotient { IfOk result (λ quotient. quotient ≡ map (λ part. (int_div part.0 divisor, part.1)) form.now) }
{
    let mut quotient = List::new(alloc);
    for part in form {
        let coefficient = narrow_coefficient(part.0 / divisor)?;
        quotient.push((coefficient, part.1))?;
    }
    Ok(quotient)
}

fn narrow_coefficient(number: i128) -> Result<i64, Stop>
    ensures { Looks (λ narrow. narrow) (within 31 number) result }
{
    if number.unsigned_abs() > 1 << 31 {
        return Err(Stop::Number(number));
    }
    Ok(number as i64)
}

fn narrow_bound(number: i128) -> Result<i128, Stop>
    ensures { Looks (λ narrow. narrow) (within 94 number) result }
{
    if number.unsigned_abs() > 1 << 94 {
        return Err(Stop::Number(number));
    }
    Ok(number)
}

/// Stops at the first number of a row that is out of range, the coefficients from the left and then the bound. Takes no
/// memory.
pub(crate) fn look_at(row: &Row) -> Result<(), Stop>
    ensures { Looks (λ u. row.now) (looked_at row.now) result }
{
    look_at_form(row.form.as_slice())?;
    if row.bound.unsigned_abs() > 1 << 94 {
        return Err(Stop::Number(row.bound));
    }
    Ok(())
}

fn look_at_form(form: &[(i64, u32)]) -> Result<(), Stop>
    ensures { Looks (λ u. tt) (the_look_at_form form.now) result }
{
    for part in form {
        if part.0.unsigned_abs() > 1 << 31 {
            return Err(Stop::Number(part.0 as i128));
        }
    }
    Ok(())
}
