//! Comparisons of sums.

ghost use Rattle.std.specs.Prelude.{◌≡◌, ℕ, ℤ, ◌^◌, pos, negsuc, int_le, IfOk, OnOk};
ghost use Rattle.jesc_clauses.specs.Countermodels.{lin_value};
ghost use Rattle.jesc_clauses.specs.Merges.{IsSized, IsTogether, OnWide};
ghost use Rattle.jesc_clauses.specs.Normals.{is_so};
ghost use Rattle.jesc_clauses.specs.Sums.{IsLin};
ghost use Rattle.jesc_clauses.specs.Comparisons.{IsComparison, IsNarrowAtom, IsNarrowNormal, IsShortAtom, IsShortNormal, IsWideAtom, IsWideNormal, IsWideComparison};

use crate::atom::Atom;
use crate::error::ClauseError;
use crate::lin::{Lin, MOST_COEFFICIENT, narrow};
use crate::merge::together;
use crate::normal::{Normal, normal_form};
use jesc_text::{List, OutOfMemory};
use std::alloc::Global;

/// What 'the first sum is at most the second' comes to.
///
/// Answers `Wide` where a number of the atom is too large, and `OutOfMemory` where there is no room for it.
pub fn at_most(alloc: Global, x: &Lin, y: &Lin) -> Result<Normal, ClauseError>
    requires x { IsLin x.now }
    requires y { IsLin y.now }
    ensures comparison { IfOk result (IsComparison x.now y.now) }
    ensures narrow { IfOk result IsNarrowNormal }
    ensures exact { (v : ℕ → ℤ) → IfOk result (λ n. is_so v n ≡ int_le (lin_value v x.now) (lin_value v y.now)) }
    ensures wide { OnWide (IsWideComparison x.now y.now) result }
{
    let form = difference(alloc, x.form.as_slice(), y.form.as_slice())?;
    let bound = y.constant - x.constant;
    let normal = normal_form(alloc, form.as_slice(), bound)?;
    look_at(&normal)?;
    Ok(normal)
}

/// The first form less the second.
fn difference(
    alloc: Global,
    x: &[(i64, u32)],
    y: &[(i64, u32)],
) -> Result<List<(i64, u32)>, OutOfMemory>
    requires x { IsSized (2 ^ 31) x.now }
    requires y { IsSized (2 ^ 31) y.now }
    ensures { IfOk result (IsTogether (2 ^ 33) (pos 1) x.now (negsuc 0) y.now) }
{
    match together(alloc, x, 1, y, -1, 1 << 33) {
        Ok(form) => Ok(form),
        Err(ClauseError::OutOfMemory) => Err(OutOfMemory),
        Err(ClauseError::Wide(_)) => unreachable!(),
    }
}

/// Answers Wide where a number of the atom is too large.
fn look_at(normal: &Normal) -> Result<(), ClauseError>
    requires { IsShortNormal normal.now }
    ensures narrow { OnOk result (IsNarrowNormal normal.now) }
    ensures wide { OnWide (IsWideNormal normal.now) result }
{
    match normal {
        Normal::Constant(_) => Ok(()),
        Normal::Holds(atom) => look_at_atom(atom),
        Normal::Fails(atom) => look_at_atom(atom),
    }
}

/// Answers Wide where a number of the atom is too large.
fn look_at_atom(atom: &Atom) -> Result<(), ClauseError>
    requires { IsShortAtom atom.now }
    ensures narrow { OnOk result (IsNarrowAtom atom.now) }
    ensures wide { OnWide (IsWideAtom atom.now) result }
{
    for part in atom.form.as_slice() {
        if part.0.unsigned_abs() > MOST_COEFFICIENT {
            return Err(ClauseError::Wide(part.0 as i128));
        }
    }
    match narrow(atom.bound) {
        Ok(_) => Ok(()),
        Err(e) => Err(e),
    }
}
