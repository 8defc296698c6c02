//! Lines of further atoms.

ghost use Rattle.std.specs.Prelude.{◌≡◌, ◌≤◌, ◌^◌, ◌↔◌, All, IfOk, IsTrue, unsigned_abs};
ghost use Rattle.jesc_cert.specs.declared.cert.CertKind.TheVariants.{T};
ghost use Rattle.jesc_clauses.specs.Merges.{IsWithin};
ghost use Rattle.jesc_clauses.specs.Normals.{IsFirstPositive, IsNormal};
ghost use Rattle.jesc_accept.specs.States.{Takes, line_of};

use crate::numbers::row_of;
use crate::tables::Tables;
use jesc_clauses::{Atom, divisor_of};
use jesc_linear::{Row, is_form};
use jesc_text::OutOfMemory;
use std::alloc::Global;

impl<'a> Tables<'a> {
    /// Takes the line of an atom in normal form, if it is one.
    pub(crate) fn take_atom(&mut self, alloc: Global, numbers: &[i128]) -> Result<bool, OutOfMemory>
        requires { self.old.due ≡ 0 }
        ensures { IfOk result (Takes self.old (line_of T numbers.now) self.new) }
    {
        let Some(row) = row_of(alloc, self.clauses.terms.len(), numbers)? else {
            return Ok(false);
        };
        if !is_atom(&row) {
            return Ok(false);
        }
        self.atoms.push(Atom {
            form: row.form,
            bound: row.bound,
        })?;
        self.end_lemma(alloc);
        Ok(true)
    }
}

/// Whether the row is an atom in normal form and in bounds.
fn is_atom(row: &Row) -> bool
    requires { All (IsWithin (2 ^ 31)) row.now.form }
    ensures { IsTrue result ↔ (IsNormal row.now.form × (unsigned_abs row.now.bound ≤ 2 ^ 94)) }
{
    if !is_normal(row.form.as_slice()) {
        return false;
    }
    row.bound.unsigned_abs() <= 1 << 94
}

/// Whether the form is in normal form.
fn is_normal(form: &[(i64, u32)]) -> bool
    requires { All (IsWithin (2 ^ 31)) form.now }
    ensures { IsTrue result ↔ IsNormal form.now }
{
    if !starts_positive(form) {
        return false;
    }
    if !is_form(form) {
        return false;
    }
    divisor_of(form) == 1
}

/// Whether the form has a first coefficient, and it is positive.
fn starts_positive(form: &[(i64, u32)]) -> bool
    ensures { IsTrue result ↔ IsFirstPositive form.now }
{
    match form {
        [] => false,
        [first, ..] => first.0 > 0,
    }
}
