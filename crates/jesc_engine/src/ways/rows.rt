ghost use Rattle.std.specs.Prelude.{◌≡◌, ◌<◌, ◌≤◌, ◌^◌, pos, negsuc, ◌+ℤ◌, ◌-ℤ◌, ◌*ℤ◌, [], ◌∷◌, ◌++◌, IfOk, unsigned_abs};
ghost use Rattle.jesc_linear.specs.Forms.{IsForm};
ghost use Rattle.jesc_engine.specs.Rows.{one_part, pair_form, constant_of, pair_constant, pair_row, tie_row, at_most, minus_at_most};
ghost use Rattle.jesc_engine.specs.Ways.{sign_of, opposite_of, less, no_more};
ghost use Rattle.jesc_engine.specs.Walk.{IsFactor, IsBelow};

use crate::ways::atom::Atom;
use jesc_first::Operator;
use jesc_linear::Row;
use jesc_text::{List, OutOfMemory};
use std::alloc::Global;

/// The form with this part alone.
fn single(alloc: Global, a: i64, term: u32) -> Result<List<(i64, u32)>, OutOfMemory>
    ensures { IfOk result (λ form. form ≡ (a, term) ∷ []) }
{
    let mut form = List::new(alloc);
    form.push((a, term))?;
    Ok(form)
}

/// The form with these two parts.
fn double(
    alloc: Global,
    a: i64,
    first: u32,
    b: i64,
    second: u32,
) -> Result<List<(i64, u32)>, OutOfMemory>
    ensures { IfOk result (λ form. form ≡ (a, first) ∷ (b, second) ∷ []) }
{
    let mut form = single(alloc, a, first)?;
    form.push((b, second))?;
    Ok(form)
}

/// The part of one term, none where the coefficient is 0.
fn part_or_none(alloc: Global, a: i64, term: u32) -> Result<List<(i64, u32)>, OutOfMemory>
    ensures { IfOk result (λ form. form ≡ one_part a term) }
{
    if a == 0 {
        return Ok(List::new(alloc));
    }
    single(alloc, a, term)
}

fn coefficient_sum(a: i64, b: i64) -> i64
    requires first { IsFactor a }
    requires second { IsFactor b }
    ensures { result ≡ a +ℤ b }
{
    a + b
}

/// The form `a * first + b * second`.
fn form_of_terms(
    alloc: Global,
    a: i64,
    first: u32,
    b: i64,
    second: u32,
) -> Result<List<(i64, u32)>, OutOfMemory>
    requires first { IsFactor a }
    requires second { IsFactor b }
    ensures { IfOk result (λ form. form ≡ pair_form a (Atom.Term first) b (Atom.Term second)) }
{
    if first < second {
        return double(alloc, a, first, b, second);
    }
    if second < first {
        return double(alloc, b, second, a, first);
    }
    part_or_none(alloc, coefficient_sum(a, b), first)
}

/// The form `a * x + b * y`, without their numbers.
fn form_of(alloc: Global, a: i64, x: Atom, b: i64, y: Atom) -> Result<List<(i64, u32)>, OutOfMemory>
    requires first { IsFactor a }
    requires second { IsFactor b }
    ensures { IfOk result (λ form. form ≡ pair_form a x b y) }
{
    match x {
        Atom::Number(_) => match y {
            Atom::Number(_) => Ok(List::new(alloc)),
            Atom::Term(second) => single(alloc, b, second),
        },
        Atom::Term(first) => match y {
            Atom::Number(_) => single(alloc, a, first),
            Atom::Term(second) => form_of_terms(alloc, a, first, b, second),
        },
    }
}

fn number_of(x: Atom) -> i64
    ensures { result ≡ constant_of x }
{
    match x {
        Atom::Number(number) => number,
        Atom::Term(_) => 0,
    }
}

fn product(a: i64, number: i64) -> i128
    requires { unsigned_abs a ≤ 2 ^ 31 }
    ensures value { result ≡ a *ℤ number }
    ensures size { unsigned_abs result ≤ 2 ^ 94 }
{
    a as i128 * number as i128
}

fn total(first: i128, second: i128) -> i128
    requires first { unsigned_abs first ≤ 2 ^ 94 }
    requires second { unsigned_abs second ≤ 2 ^ 94 }
    ensures value { result ≡ first +ℤ second }
    ensures size { unsigned_abs result ≤ 2 ^ 95 }
{
    first + second
}

/// What the numbers among x and y add to `a * x + b * y`.
fn constant(a: i64, x: Atom, b: i64, y: Atom) -> i128
    requires first { IsFactor a }
    requires second { IsFactor b }
    ensures value { result ≡ pair_constant a x b y }
    ensures size { unsigned_abs result ≤ 2 ^ 95 }
{
    total(product(a, number_of(x)), product(b, number_of(y)))
}

/// The bound without a constant of the left side.
fn remaining(bound: i64, constant: i128) -> i128
    requires { unsigned_abs constant ≤ 2 ^ 95 }
    ensures { result ≡ bound -ℤ constant }
{
    bound as i128 - constant
}

/// The row `a * x + b * y <= bound`.
fn pair_row(alloc: Global, a: i64, x: Atom, b: i64, y: Atom, bound: i64) -> Result<Row, OutOfMemory>
    requires first { IsFactor a }
    requires second { IsFactor b }
    ensures { IfOk result (λ row. row ≡ pair_row a x b y bound) }
{
    Ok(Row {
        form: form_of(alloc, a, x, b, y)?,
        bound: remaining(bound, constant(a, x, b, y)),
    })
}

/// The form `a * x + b * y + c * term`, without the numbers.
fn tie_form(
    alloc: Global,
    a: i64,
    x: Atom,
    b: i64,
    y: Atom,
    c: i64,
    term: u32,
) -> Result<List<(i64, u32)>, OutOfMemory>
    requires first { IsFactor a }
    requires second { IsFactor b }
    ensures { IfOk result (λ form. form ≡ pair_form a x b y ++ (c, term) ∷ []) }
{
    let mut form = form_of(alloc, a, x, b, y)?;
    form.push((c, term))?;
    Ok(form)
}

/// The row `a * x + b * y + c * term <= 0`, where the term is greater than those of x and y.
fn tie_row(
    alloc: Global,
    a: i64,
    x: Atom,
    b: i64,
    y: Atom,
    c: i64,
    term: u32,
) -> Result<Row, OutOfMemory>
    requires first { IsFactor a }
    requires second { IsFactor b }
    ensures { IfOk result (λ row. row ≡ tie_row a x b y c term) }
{
    Ok(Row {
        form: tie_form(alloc, a, x, b, y, c, term)?,
        bound: remaining(0, constant(a, x, b, y)),
    })
}

/// The row `term <= bound`.
pub(crate) fn at_most(alloc: Global, term: u32, bound: i64) -> Result<Row, OutOfMemory>
    ensures value { IfOk result (λ row. row ≡ at_most term bound) }
    ensures form { IfOk result (λ row. IsForm row.form) }
{
    Ok(Row {
        form: single(alloc, 1, term)?,
        bound: bound as i128,
    })
}

/// The row `-term <= bound`.
pub(crate) fn minus_at_most(alloc: Global, term: u32, bound: i64) -> Result<Row, OutOfMemory>
    ensures value { IfOk result (λ row. row ≡ minus_at_most term bound) }
    ensures form { IfOk result (λ row. IsForm row.form) }
{
    Ok(Row {
        form: single(alloc, -1, term)?,
        bound: bound as i128,
    })
}

/// The row `x < y`.
pub(crate) fn less(alloc: Global, x: Atom, y: Atom) -> Result<Row, OutOfMemory>
    ensures value { IfOk result (λ row. row ≡ less x y) }
    ensures form { IfOk result (λ row. IsForm row.form) }
{
    pair_row(alloc, 1, x, -1, y, -1)
}

/// The row `x <= y`.
pub(crate) fn no_more(alloc: Global, x: Atom, y: Atom) -> Result<Row, OutOfMemory>
    ensures value { IfOk result (λ row. row ≡ no_more x y) }
    ensures form { IfOk result (λ row. IsForm row.form) }
{
    pair_row(alloc, 1, x, -1, y, 0)
}

fn sign_of(operator: Operator) -> i64
    ensures value { result ≡ sign_of operator }
    ensures factor { IsFactor result }
{
    match operator {
        Operator::Plus => 1,
        Operator::Minus => -1,
    }
}

fn opposite_of(operator: Operator) -> i64
    ensures value { result ≡ opposite_of operator }
    ensures factor { IsFactor result }
{
    match operator {
        Operator::Plus => -1,
        Operator::Minus => 1,
    }
}

/// The row `term <= x + y` or `term <= x - y`, for a term greater than those of x and y.
#[tactic(auto, using(crate::proofs::RowForms::tie_is_form))]
pub(crate) fn tie_above(
    alloc: Global,
    x: Atom,
    operator: Operator,
    y: Atom,
    term: u32,
) -> Result<Row, OutOfMemory>
    requires left { IsBelow term x }
    requires right { IsBelow term y }
    ensures value { IfOk result (λ row. row ≡ tie_row (negsuc 0) x (opposite_of operator) y (pos 1) term) }
    ensures form { IfOk result (λ row. IsForm row.form) }
{
    tie_row(alloc, -1, x, opposite_of(operator), y, 1, term)
}

/// The row `x + y <= term` or `x - y <= term`, for a term greater than those of x and y.
#[tactic(auto, using(crate::proofs::RowForms::tie_is_form))]
pub(crate) fn tie_below(
    alloc: Global,
    x: Atom,
    operator: Operator,
    y: Atom,
    term: u32,
) -> Result<Row, OutOfMemory>
    requires left { IsBelow term x }
    requires right { IsBelow term y }
    ensures value { IfOk result (λ row. row ≡ tie_row (pos 1) x (sign_of operator) y (negsuc 0) term) }
    ensures form { IfOk result (λ row. IsForm row.form) }
{
    tie_row(alloc, 1, x, sign_of(operator), y, -1, term)
}
