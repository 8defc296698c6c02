//! The one place that brings a comparison into normal form.

ghost use Rattle.std.specs.Prelude.{[], ◌≡◌, ◌≢◌, ◌<◌, ◌≤◌, ◌^◌, ◌≤ℤ◌, ℕ, ℤ, pos, int_le, IfOk, All, unsigned_abs};
ghost use Rattle.std.specs.Int.{◌∣◌, IsGcd};
ghost use Rattle.jesc_linear.specs.Forms.{IsForm, value};
ghost use Rattle.jesc_clauses.specs.Normals.{IsNormalOf, IsShort, Divides, scaled, is_so};

use crate::atom::Atom;
use jesc_text::{List, OutOfMemory};
use std::alloc::Global;

/// What a comparison comes to: a constant, an atom that holds or an atom that doesn't.
#[derive(Debug, Drop)]
pub enum Normal {
    Constant(bool),
    Holds(Atom),
    Fails(Atom),
}

/// The normal form of 'the sum is at most the bound'.
///
/// The coefficients' greatest common divisor is taken out and the bound rounded down. Where the first coefficient is
/// negative, the comparison is the negation of 'the turned sum is at most the turned bound less 1'.
pub fn normal_form(alloc: Global, form: &[(i64, u32)], bound: i128) -> Result<Normal, OutOfMemory>
    requires form { IsForm form.now }
    requires short { All IsShort form.now }
    requires bound { unsigned_abs bound ≤ 2 ^ 96 }
    ensures defined { IfOk result (IsNormalOf form.now bound) }
    ensures exact { (v : ℕ → ℤ) → IfOk result (λ n. is_so v n ≡ int_le (value v form.now) bound) }
{
    let Some(first) = form.first() else {
        return Ok(Normal::Constant(0 <= bound));
    };
    let divisor = divisor_of(form);
    let bound = bound.div_euclid(divisor as i128);
    if first.0 > 0 {
        let form = divided(alloc, form, divisor)?;
        Ok(Normal::Holds(Atom { form, bound }))
    } else {
        let form = divided(alloc, form, -divisor)?;
        Ok(Normal::Fails(Atom {
            form,
            bound: -bound - 1,
        }))
    }
}

/// The greatest common divisor of a form's coefficients, which are not 0. Takes no memory.
pub fn divisor_of(form: &[(i64, u32)]) -> i64
    requires form { IsForm form.now }
    requires short { All IsShort form.now }
    requires some { form.now ≢ [] }
    ensures low { pos 1 ≤ℤ result }
    ensures high { result ≤ℤ pos (2 ^ 33) }
    ensures divides { Divides (unsigned_abs result) form.now }
    ensures greatest { (d : ℕ) → Divides d form.now → d ∣ unsigned_abs result }
{
    let mut divisor = 0u64;
    for part in form {
        divisor = common_divisor(divisor, part.0.unsigned_abs());
    }
    divisor as i64
}

/// The greatest common divisor, the other number where one is 0.
fn common_divisor(first: u64, second: u64) -> u64
    ensures { IsGcd first second result }
{
    let mut greater = first;
    let mut lesser = second;
    while lesser != 0 {
        let rest = greater % lesser;
        greater = lesser;
        lesser = rest;
    }
    greater
}

/// The form over a divisor of its coefficients.
fn divided(
    alloc: Global,
    form: &[(i64, u32)],
    divisor: i64,
) -> Result<List<(i64, u32)>, OutOfMemory>
    requires short { All IsShort form.now }
    requires some { divisor ≢ pos 0 }
    requires divides { Divides (unsigned_abs divisor) form.now }
    ensures { IfOk result (λ over. scaled divisor over ≡ form.now) }
{
    let mut over = List::new(alloc);
    for part in form {
        over.push((part.0 / divisor, part.1))?;
    }
    Ok(over)
}
