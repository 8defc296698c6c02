//! Multiples of two forms, together.

ghost use Rattle.std.specs.Prelude.{[], ◌≡◌, ◌≤◌, ◌^◌, ◌⊎◌, OnOk, IfOk, MatchOption, unsigned_abs};
ghost use Rattle.jesc_clauses.specs.Merges.{IsSized, IsTogether, IsWideTogether, OnWide, StartsFrom, IsFirst, head_at, past, with_part};

use crate::error::ClauseError;
use jesc_text::{List, OutOfMemory};
use std::alloc::Global;

/// k times the first form and m times the second, together. Wide(n) comes where a coefficient n passes the limit in size.
pub(crate) fn together(
    alloc: Global,
    first: &[(i64, u32)],
    k: i128,
    second: &[(i64, u32)],
    m: i128,
    limit: u64,
) -> Result<List<(i64, u32)>, ClauseError>
    requires first { IsSized (2 ^ 31) first.now }
    requires second { IsSized (2 ^ 31) second.now }
    requires k { unsigned_abs k ≤ 2 ^ 94 }
    requires m { unsigned_abs m ≤ 2 ^ 94 }
    requires limit { limit ≤ 2 ^ 33 }
    ensures together { IfOk result (IsTogether limit k first.now m second.now) }
    ensures wide { OnWide (IsWideTogether limit k first.now m second.now) result }
{
    let mut form = List::new(alloc);
    let mut first = first;
    let mut second = second;
    while let Some(term) = lowest(first, second) {
        let coefficient = k * head(first, term) as i128 + m * head(second, term) as i128;
        if coefficient.unsigned_abs() > limit as u128 {
            return Err(ClauseError::Wide(coefficient));
        }
        append(&mut form, coefficient as i64, term)?;
        first = behind(first, term);
        second = behind(second, term);
    }
    Ok(form)
}

/// Appends a part whose coefficient isn't 0.
fn append(form: &mut List<(i64, u32)>, coefficient: i64, term: u32) -> Result<(), OutOfMemory>
    ensures { OnOk result (form.new ≡ with_part form.old coefficient term) }
{
    if coefficient == 0 {
        return Ok(());
    }
    form.push((coefficient, term))
}

/// The lower of the first terms of two forms.
fn lowest(first: &[(i64, u32)], second: &[(i64, u32)]) -> Option<u32>
    ensures { MatchOption result ((first.now ≡ []) × (second.now ≡ [])) (λ term. (IsFirst term first.now ⊎ IsFirst term second.now) × StartsFrom term first.now × StartsFrom term second.now) }
{
    match (first.first(), second.first()) {
        (Some(a), Some(b)) => Some(a.1.min(b.1)),
        (Some(a), None) => Some(a.1),
        (None, Some(b)) => Some(b.1),
        (None, None) => None,
    }
}

/// The coefficient of the form's first part, if it is of this term, and else 0.
fn head(form: &[(i64, u32)], term: u32) -> i64
    ensures { result ≡ head_at form.now term }
{
    match form.first() {
        Some(part) => { if part.1 == term { part.0 } else { 0 } }
        None => 0,
    }
}

/// What is behind the form's first part, if that is of this term, and else the form.
fn behind(form: &[(i64, u32)], term: u32) -> &[(i64, u32)]
    ensures { result.now ≡ past form.now term }
{
    match form.split_first() {
        Some((part, rest)) => { if part.1 == term { rest } else { form } }
        None => form,
    }
}
