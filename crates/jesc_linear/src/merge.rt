//! Sums of two forms.

ghost use Rattle.std.specs.Prelude.{[], ◌∷◌, ◌++◌, ◌≡◌, ◌≤◌, ◌^◌, ◌⊎◌, ◌+ℤ◌, ◌*ℤ◌, All, IfOk, OnOk, MatchOption, unsigned_abs};
ghost use Rattle.jesc_linear.specs.Forms.{IsForm};
ghost use Rattle.jesc_linear.specs.Steps.{IsNarrow};
ghost use Rattle.jesc_linear.specs.Sums as spec;
ghost use Rattle.jesc_linear.specs.Merges.{StartsFrom, IsFirst, head_at, past, with_part};

use jesc_text::OutOfMemory;
use std::alloc::Global;

/// The form with wider coefficients.
pub(crate) fn widened(alloc: Global, form: &[(i64, u32)]) -> Result<Vec<(i128, u32)>, OutOfMemory>
    ensures { IfOk result (λ wide. wide.items ≡ form.now) }
{
    let mut wide = Vec::new(alloc);
    for part in form {
        push(&mut wide, part.0 as i128, part.1)?;
    }
    Ok(wide)
}

/// The sum of two forms, each with a multiplier. Terms that cancel are left out.
pub(crate) fn added(
    alloc: Global,
    a: i64,
    first: &[(i64, u32)],
    b: i64,
    second: &[(i64, u32)],
) -> Result<Vec<(i128, u32)>, OutOfMemory>
    requires first { IsForm first.now }
    requires second { IsForm second.now }
    requires first_narrow { All IsNarrow first.now }
    requires second_narrow { All IsNarrow second.now }
    requires a { unsigned_abs a ≤ 2 ^ 31 }
    requires b { unsigned_abs b ≤ 2 ^ 31 }
    ensures { IfOk result (λ sum. sum.items ≡ spec.added a first.now b second.now) }
{
    let mut sum = Vec::new(alloc);
    let mut first = first;
    let mut second = second;
    while let Some(term) = lowest(first, second) {
        let coefficient = summed(a, head(first, term), b, head(second, term));
        append(&mut sum, coefficient, term)?;
        first = behind(first, term);
        second = behind(second, term);
    }
    Ok(sum)
}

/// The sum of two coefficients, each with a multiplier.
fn summed(a: i64, left: i64, b: i64, right: i64) -> i128
    requires a { unsigned_abs a ≤ 2 ^ 31 }
    requires left { unsigned_abs left ≤ 2 ^ 31 }
    requires b { unsigned_abs b ≤ 2 ^ 31 }
    requires right { unsigned_abs right ≤ 2 ^ 31 }
    ensures { result ≡ a *ℤ left +ℤ b *ℤ right }
{
    product(a, left) + product(b, right)
}

fn product(factor: i64, coefficient: i64) -> i128
    requires factor { unsigned_abs factor ≤ 2 ^ 31 }
    requires coefficient { unsigned_abs coefficient ≤ 2 ^ 31 }
    ensures value { result ≡ factor *ℤ coefficient }
    ensures size { unsigned_abs result ≤ 2 ^ 62 }
{
    factor as i128 * coefficient as i128
}

/// Appends a part whose coefficient isn't 0.
fn append(form: &mut Vec<(i128, u32)>, coefficient: i128, term: u32) -> Result<(), OutOfMemory>
    ensures { OnOk result (form.new.items ≡ with_part form.old.items coefficient term) }
{
    if coefficient == 0 {
        return Ok(());
    }
    push(form, coefficient, term)
}

fn push(form: &mut Vec<(i128, u32)>, coefficient: i128, term: u32) -> Result<(), OutOfMemory>
    ensures { OnOk result (form.new.items ≡ form.old.items ++ (coefficient, term) ∷ []) }
{
    match form.push((coefficient, term)) {
        Ok(_) => Ok(()),
        Err(_) => Err(OutOfMemory),
    }
}

/// The lower of the first terms of two forms.
fn lowest(first: &[(i64, u32)], second: &[(i64, u32)]) -> Option<u32>
    ensures { MatchOption result ((first.now ≡ []) × (second.now ≡ [])) (λ term. (IsFirst term first.now ⊎ IsFirst term second.now) × StartsFrom term first.now × StartsFrom term second.now) }
{
    match (first.first(), second.first()) {
        (Some(a), Some(b)) => Some(a.1.min(b.1)),
        (Some(a), None) => Some(a.1),
        (None, Some(b)) => Some(b.1),
        (None, None) => None,
    }
}

/// The coefficient of the form's first part, if it is of this term, and else 0.
fn head(form: &[(i64, u32)], term: u32) -> i64
    ensures { result ≡ head_at form.now term }
{
    match form.first() {
        Some(part) => { if part.1 == term { part.0 } else { 0 } }
        None => 0,
    }
}

/// What is behind the form's first part, if that is of this term, and else the form.
fn behind(form: &[(i64, u32)], term: u32) -> &[(i64, u32)]
    ensures { result.now ≡ past form.now term }
{
    match form.split_first() {
        Some((part, rest)) => { if part.1 == term { rest } else { form } }
        None => form,
    }
}
