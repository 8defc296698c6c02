//! Linear sums.

ghost use Rattle.std.specs.Prelude.{◌≡◌, [], ◌∷◌, pos, ◌≤◌, ◌<◌, ◌^◌, ◌+ℤ◌, ◌*ℤ◌, IfOk, unsigned_abs};
ghost use Rattle.jesc_linear.specs.Forms.{value};
ghost use Rattle.jesc_clauses.specs.Countermodels.{lin_value};
ghost use Rattle.jesc_clauses.specs.Merges.{OnWide, only_at};
ghost use Rattle.jesc_clauses.specs.Sums.{IsLin, IsMade, IsBelowAll, IsOneOf, IsTooWide, capped};

use crate::error::ClauseError;
use crate::merge::together;
use jesc_text::{List, OutOfMemory};
use std::alloc::Global;

/// The greatest size of a coefficient.
pub(crate) const MOST_COEFFICIENT: u64 = 1 << 31;

/// The greatest size of a constant.
const MOST_CONSTANT: u128 = 1 << 94;

/// The greatest size of a number that an error tells.
const MOST_TOLD: i128 = 1 << 126;

/// A sum of coefficients times numbered opaque terms, and a constant.
///
/// The terms rise strictly, and no coefficient is 0.
#[derive(Debug, Drop)]
pub struct Lin {
    pub form: List<(i64, u32)>,
    pub constant: i128,
}

/// The sum of one term.
pub(crate) fn single(alloc: Global, term: u32) -> Result<Lin, OutOfMemory>
    ensures { IfOk result (λ lin. lin ≡ record { form = (pos 1, term) ∷ []; constant = pos 0 }) }
{
    let mut form = List::new(alloc);
    form.push((1, term))?;
    Ok(Lin { form, constant: 0 })
}

/// The same sum in memory of its own.
pub(crate) fn copied(alloc: Global, lin: &Lin) -> Result<Lin, OutOfMemory>
    ensures { IfOk result (λ same. same ≡ lin.now) }
{
    let mut form = List::new(alloc);
    for part in lin.form.as_slice() {
        form.push(*part)?;
    }
    Ok(Lin {
        form,
        constant: lin.constant,
    })
}

/// The sum of two sums.
pub(crate) fn added(alloc: Global, x: &Lin, y: &Lin) -> Result<Lin, ClauseError>
    requires x { IsLin x.now }
    requires y { IsLin y.now }
    ensures made { IfOk result (IsMade (λ v. lin_value v x.now +ℤ lin_value v y.now) (λ n. IsBelowAll x.now n × IsBelowAll y.now n)) }
    ensures wide { OnWide (IsTooWide (IsOneOf (λ i. value (only_at i) x.now.form +ℤ value (only_at i) y.now.form)) (x.now.constant +ℤ y.now.constant)) result }
{
    let constant = narrow(x.constant + y.constant)?;
    let form = together(
        alloc,
        x.form.as_slice(),
        1,
        y.form.as_slice(),
        1,
        MOST_COEFFICIENT,
    )?;
    Ok(Lin { form, constant })
}

/// A number times a sum.
pub(crate) fn multiplied(alloc: Global, k: i128, x: &Lin) -> Result<Lin, ClauseError>
    requires k { unsigned_abs k ≤ 2 ^ 94 }
    requires x { IsLin x.now }
    ensures made { IfOk result (IsMade (λ v. k *ℤ lin_value v x.now) (IsBelowAll x.now)) }
    ensures wide { OnWide (IsTooWide (IsOneOf (λ i. k *ℤ value (only_at i) x.now.form)) (k *ℤ x.now.constant)) result }
{
    let constant = product(k, x.constant)?;
    let form = together(
        alloc,
        x.form.as_slice(),
        k,
        x.form.as_slice(),
        0,
        MOST_COEFFICIENT,
    )?;
    Ok(Lin { form, constant })
}

/// The number, if it is small enough for a constant.
pub(crate) fn narrow(n: i128) -> Result<i128, ClauseError>
    ensures small { IfOk result (λ m. (m ≡ n) × (unsigned_abs n ≤ 2 ^ 94)) }
    ensures wide { OnWide (λ m. (m ≡ capped n) × (2 ^ 94 < unsigned_abs n)) result }
{
    if n.unsigned_abs() <= MOST_CONSTANT {
        return Ok(n);
    }
    Err(ClauseError::Wide(n.min(MOST_TOLD).max(-MOST_TOLD)))
}

/// The product of two constants, if it is small enough for one.
fn product(k: i128, c: i128) -> Result<i128, ClauseError>
    requires k { unsigned_abs k ≤ 2 ^ 94 }
    requires c { unsigned_abs c ≤ 2 ^ 94 }
    ensures small { IfOk result (λ m. (m ≡ k *ℤ c) × (unsigned_abs (k *ℤ c) ≤ 2 ^ 94)) }
    ensures wide { OnWide (λ m. (m ≡ capped (k *ℤ c)) × (2 ^ 94 < unsigned_abs (k *ℤ c))) result }
{
    match k.checked_mul(c) {
        Some(product) => narrow(product),
        None => {
            if (k < 0) == (c < 0) {
                Err(ClauseError::Wide(MOST_TOLD))
            } else {
                Err(ClauseError::Wide(-MOST_TOLD))
            }
        }
    }
}
