//! The check of a refutation, step by step.
//!
//! A step is taken only where everything that it says is seen here: its rows, its numbers' ranges, its form term by term and its bound.
//! So nothing is asked of the caller, and a wrong log can't pass. Products of a multiplier and a coefficient stay within 2^126, and of a
//! multiplier and a bound within 2^125; the divisor times the bound would not, so the bound is compared after its division.
ghost use Rattle.std.specs.Prelude.{◌≡◌, ◌≤◌, ◌*◌, ◌↔◌, ◌^◌, ◌++◌, ℤ, pos, ◌+ℤ◌, ◌*ℤ◌, ◌≤ℤ◌, All, IsTrue, map, slice_get, unsigned_abs};
ghost use Rattle.std.specs.Option.{option_copied};
ghost use Rattle.std.specs.Int.{int_div_euclid};
ghost use Rattle.jesc_linear.specs.Forms.{RisesFrom, IsForm, IsNonzero};
ghost use Rattle.jesc_linear.specs.Rows.{HaveNoSolution};
ghost use Rattle.jesc_linear.specs.Steps.{IsNarrow, IsRow, InRange, Combines, Derives, DerivesFrom, IsAbsurd, EndsAbsurd, Refutes};
ghost use Rattle.jesc_linear.specs.Inner.{row_of, AgreesAt, AgreesOn};

use crate::rows::{LinStep, Row, coefficient};

/// Whether the terms of a form rise strictly.
fn rises(form: &[(i64, u32)]) -> bool
    ensures { IsTrue result ↔ RisesFrom 0 form.now }
{
    let mut low = 0u64;
    for part in form {
        if (part.1 as u64) < low {
            return false;
        }
        low = part.1 as u64 + 1;
    }
    true
}

fn is_nonzero(part: &(i64, u32)) -> bool
    ensures { IsTrue result ↔ IsNonzero part.now }
{
    part.0 != 0
}

fn is_narrow(part: &(i64, u32)) -> bool
    ensures { IsTrue result ↔ IsNarrow part.now }
{
    part.0.unsigned_abs() <= 1 << 31
}

fn are_nonzero(form: &[(i64, u32)]) -> bool
    ensures { IsTrue result ↔ All IsNonzero form.now }
{
    for part in form {
        if !is_nonzero(part) {
            return false;
        }
    }
    true
}

fn are_narrow(form: &[(i64, u32)]) -> bool
    ensures { IsTrue result ↔ All IsNarrow form.now }
{
    for part in form {
        if !is_narrow(part) {
            return false;
        }
    }
    true
}

/// Whether a form is in order: its terms rise strictly and no coefficient is 0.
pub fn is_form(form: &[(i64, u32)]) -> bool
    ensures { IsTrue result ↔ IsForm form.now }
{
    if !rises(form) {
        return false;
    }
    are_nonzero(form)
}

/// Whether steps may use and make the row.
fn is_row(row: &Row) -> bool
    ensures { IsTrue result ↔ IsRow row.now }
{
    if !is_form(row.form.as_slice()) {
        return false;
    }
    if !are_narrow(row.form.as_slice()) {
        return false;
    }
    row.bound.unsigned_abs() <= 1 << 94
}

/// Whether the multipliers and the divisor of a step are in range.
fn in_range(step: &LinStep) -> bool
    ensures { IsTrue result ↔ InRange step.now }
{
    1 <= step.a
        && step.a <= 1 << 31
        && 0 <= step.b
        && step.b <= 1 << 31
        && 1 <= step.d
        && step.d <= 1 << 63
}

fn scaled_coefficient(factor: i128, coefficient: i64) -> i128
    requires { unsigned_abs factor ≤ 2 ^ 63 }
    ensures value { result ≡ factor *ℤ coefficient }
    ensures size { unsigned_abs result ≤ unsigned_abs factor * 2 ^ 63 }
{
    factor * coefficient as i128
}

fn scaled_bound(factor: i128, bound: i128) -> i128
    requires factor { unsigned_abs factor ≤ 2 ^ 31 }
    requires bound { unsigned_abs bound ≤ 2 ^ 94 }
    ensures value { result ≡ factor *ℤ bound }
    ensures size { unsigned_abs result ≤ 2 ^ 125 }
{
    factor * bound
}

/// Whether the step's form is the combination, as far as this term goes.
fn agrees_at(first: &Row, second: &Row, step: &LinStep, term: u32) -> bool
    requires { InRange step.now }
    ensures { IsTrue result ↔ AgreesAt first.now second.now step.now term }
{
    let left = scaled_coefficient(step.a, coefficient(first.form.as_slice(), term));
    let right = scaled_coefficient(step.b, coefficient(second.form.as_slice(), term));
    let made = scaled_coefficient(step.d, coefficient(step.row.form.as_slice(), term));
    made == left + right
}

/// The same for each term of a form.
fn agrees_on(form: &[(i64, u32)], first: &Row, second: &Row, step: &LinStep) -> bool
    requires { InRange step.now }
    ensures { IsTrue result ↔ AgreesOn first.now second.now step.now form.now }
{
    for part in form {
        if !agrees_at(first, second, step, part.1) {
            return false;
        }
    }
    true
}

/// Whether the step's form is the combination of the two rows' forms. A term that none of the three has needs no look.
#[tactic(auto, using(crate::proofs::Terms::combined, crate::proofs::Terms::agrees_everywhere))]
fn combines(first: &Row, second: &Row, step: &LinStep) -> bool
    requires { InRange step.now }
    ensures { IsTrue result ↔ Combines step.now.a first.now.form step.now.b second.now.form step.now.d step.now.row.form }
{
    if !agrees_on(first.form.as_slice(), first, second, step) {
        return false;
    }
    if !agrees_on(second.form.as_slice(), first, second, step) {
        return false;
    }
    agrees_on(step.row.form.as_slice(), first, second, step)
}

/// The bound that the two rows give the step.
fn bound_of(first: &Row, second: &Row, step: &LinStep) -> i128
    requires range { InRange step.now }
    requires first { IsRow first.now }
    requires second { IsRow second.now }
    ensures { result ≡ int_div_euclid (step.now.a *ℤ first.now.bound +ℤ step.now.b *ℤ second.now.bound) step.now.d }
{
    (scaled_bound(step.a, first.bound) + scaled_bound(step.b, second.bound)).div_euclid(step.d)
}

fn has_bound(first: &Row, second: &Row, step: &LinStep) -> bool
    requires range { InRange step.now }
    requires first { IsRow first.now }
    requires second { IsRow second.now }
    requires made { IsRow step.now.row }
    ensures { IsTrue result ↔ (step.now.row.bound ≡ int_div_euclid (step.now.a *ℤ first.now.bound +ℤ step.now.b *ℤ second.now.bound) step.now.d) }
{
    bound_of(first, second, step) == step.row.bound
}

/// Whether the step's row is derived from these two.
fn derives(first: &Row, second: &Row, step: &LinStep) -> bool
    ensures { IsTrue result ↔ Derives first.now second.now step.now }
{
    if !in_range(step) {
        return false;
    }
    if !is_row(first) || !is_row(second) || !is_row(&step.row) {
        return false;
    }
    if !combines(first, second, step) {
        return false;
    }
    has_bound(first, second, step)
}

/// The row of a number: a given one, or that of an earlier step.
fn row_at<'a>(rows: &'a [Row], earlier: &'a [LinStep], number: u32) -> Option<&'a Row>
    ensures { option_copied result ≡ slice_get (rows.now ++ map row_of earlier.now) number }
{
    let number = number as usize;
    if number < rows.len() {
        Some(&rows[number])
    } else {
        match earlier.get(number - rows.len()) {
            Some(step) => Some(&step.row),
            None => None,
        }
    }
}

/// Whether the step is derived from the given rows and the steps before it. Takes no memory.
pub fn is_step(rows: &[Row], earlier: &[LinStep], step: &LinStep) -> bool
    ensures { IsTrue result ↔ DerivesFrom (slice_get (rows.now ++ map row_of earlier.now) step.now.i) (slice_get (rows.now ++ map row_of earlier.now) step.now.j) step.now }
{
    match row_at(rows, earlier, step.i) {
        None => false,
        Some(first) => match row_at(rows, earlier, step.j) {
            None => false,
            Some(second) => derives(first, second, step),
        },
    }
}

/// Whether the step's row says that 0 is at most a negative number. Takes no memory.
pub fn is_absurd(step: &LinStep) -> bool
    ensures { IsTrue result ↔ IsAbsurd step.now }
{
    if step.row.form.as_slice().is_empty() {
        return step.row.bound < 0;
    }
    false
}

/// Whether there is a last step, with a row that says so.
#[tactic(auto, using(crate::proofs::Logs::last_is_absurd, crate::proofs::Logs::ends_with_last))]
fn ends_absurd(steps: &[LinStep]) -> bool
    ensures { IsTrue result ↔ EndsAbsurd steps.now }
{
    match steps {
        [] => false,
        [.., last] => is_absurd(last),
    }
}

/// Whether the steps refute the rows, by the one walk over them.
fn are_taken(rows: &[Row], steps: &[LinStep]) -> bool
    ensures { IsTrue result ↔ Refutes steps.now rows.now }
{
    for k in 0..steps.len() {
        if !is_step(rows, &steps[..k], &steps[k]) {
            return false;
        }
    }
    ends_absurd(steps)
}

/// Whether these steps derive a contradiction from the rows, so that no whole numbers meet them.
///
/// Each step's row has to be exactly `(a * row i + b * row j) / d` with its bound rounded down, where a is at least 1, b at least 0, and d at
/// least 1 and a divisor of each coefficient; i and j are numbers of earlier rows. There is at least one step, and the last one's row is
/// the empty form with a negative bound. The answer is no where a or b passes 2^31, d passes 2^63, or a row that a step uses or makes is
/// not in order, has a coefficient beyond 2^31 or a bound beyond 2^94 in size. Takes no memory.
pub fn check_steps(rows: &[Row], steps: &[LinStep]) -> bool
    ensures exact { IsTrue result ↔ Refutes steps.now rows.now }
    ensures sound { IsTrue result → HaveNoSolution rows.now }
{
    are_taken(rows, steps)
}
