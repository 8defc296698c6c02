//! Lines of lemmas of linear arithmetic, and of their steps.

ghost use Rattle.std.specs.Prelude.{◌≡◌, ◌<◌, ◌≤◌, ◌^◌, [], ◌↔◌, IfOk, IsTrue, MatchOption, suc, pos, negsuc, ◌-ℤ◌, slice_get, unsigned_abs};
ghost use Rattle.std.specs.Option.{option_copied};
ghost use Rattle.std.proofs.Math.IntN.{neg_ℤ};
ghost use Rattle.jesc_cert.specs.declared.cert.CertKind.TheVariants.{R, Q};
ghost use Rattle.jesc_clauses.specs.Normals.{scaled};
ghost use Rattle.jesc_accept.specs.Lemmas.{negations};
ghost use Rattle.jesc_accept.specs.Rows.{AreShort, HasRow, HasNoRow, HaveRows, HaveNoRows, IsRowNumber, IsStepOf, AreNoStep, atom_of_literal, IsShortWhere};
ghost use Rattle.jesc_accept.specs.States.{Takes, atoms_of, line_of};

use crate::numbers::row_of;
use crate::tables::Tables;
use jesc_clauses::Atom;
use jesc_linear::{LinStep, Row, is_absurd, is_step};
use jesc_text::{List, OutOfMemory};
use std::alloc::Global;

impl<'a> Tables<'a> {
    /// Takes the line of a lemma of linear arithmetic, if it is one.
    ///
    /// Answers `OutOfMemory` also where a coefficient of an atom has no negation in its type.
    pub(crate) fn take_linear(
        &mut self,
        alloc: Global,
        numbers: &[i128],
    ) -> Result<bool, OutOfMemory>
        requires { self.old.due ≡ 0 }
        ensures { IfOk result (Takes self.old (line_of R numbers.now) self.new) }
    {
        let [count, literals @ .., due] = numbers else {
            return Ok(false);
        };
        if *due < 1 || *count != literals.len() as i128 {
            return Ok(false);
        }
        let Some(rows) = self.rows_of(alloc, literals)? else {
            return Ok(false);
        };
        self.negated = negations_of(alloc, literals)?;
        self.rows = rows;
        self.due = *due as u128;
        Ok(true)
    }

    /// The rows of the literals, where the atom of each is there.
    fn rows_of(&self, alloc: Global, literals: &[i128]) -> Result<Option<List<Row>>, OutOfMemory>
        ensures { IfOk result (λ answer. MatchOption answer (HaveNoRows (atoms_of self.now) literals.now) (HaveRows (atoms_of self.now) literals.now)) }
    {
        let mut rows = List::new(alloc);
        for literal in literals {
            let Some(row) = self.row_of_literal(alloc, *literal)? else {
                return Ok(None);
            };
            rows.push(row)?;
        }
        Ok(Some(rows))
    }

    /// The row of a literal, where its atom is there.
    fn row_of_literal(&self, alloc: Global, literal: i128) -> Result<Option<Row>, OutOfMemory>
        ensures { IfOk result (λ answer. MatchOption answer (HasNoRow (atoms_of self.now) literal) (HasRow (atoms_of self.now) literal)) }
    {
        let Some(atom) = self.atom_of(literal) else {
            return Ok(None);
        };
        if literal > 0 {
            Ok(Some(copied(alloc, atom)?))
        } else {
            Ok(Some(opposite(alloc, atom)?))
        }
    }

    /// The atom of a literal. Takes no memory.
    fn atom_of(&self, literal: i128) -> Option<&Atom>
        ensures is { option_copied result ≡ atom_of_literal (atoms_of self.now) literal }
        ensures short { IsShortWhere (option_copied result) literal }
    {
        if literal > 0 {
            self.wide_atom((literal - 1) as u128)
        } else if literal < 0 {
            self.wide_atom(-(literal + 1) as u128)
        } else {
            None
        }
    }

    /// The atom of a number, from 0, of any size. Takes no memory.
    fn wide_atom(&self, number: u128) -> Option<&Atom>
        ensures is { option_copied result ≡ slice_get (atoms_of self.now) number }
        ensures short { IsShortWhere (option_copied result) (pos (suc number)) }
    {
        if number < self.atoms.len() as u128 {
            self.atoms.get(number as usize)
        } else {
            None
        }
    }

    /// Takes the line of a step of the open lemma, if it is one.
    pub(crate) fn take_step(&mut self, alloc: Global, numbers: &[i128]) -> Result<bool, OutOfMemory>
        requires { 0 < self.old.due }
        ensures { IfOk result (Takes self.old (line_of Q numbers.now) self.new) }
    {
        let Some(step) = step_of(alloc, self.clauses.terms.len(), numbers)? else {
            return Ok(false);
        };
        if !is_step(self.rows.as_slice(), &[], &step) {
            return Ok(false);
        }
        if self.due > 1 {
            self.rows.push(step.row)?;
            self.due -= 1;
            return Ok(true);
        }
        if !is_absurd(&step) {
            return Ok(false);
        }
        let negated = std::mem::replace(&mut self.negated, List::new(alloc));
        self.lemmas.push(Some(negated))?;
        self.end_lemma(alloc);
        Ok(true)
    }

    /// Leaves no lemma open. Takes no memory.
    pub(crate) fn end_lemma(&mut self, alloc: Global)
        ensures { self.new ≡ record { clauses = self.old.clauses; atoms = self.old.atoms; lemmas = self.old.lemmas; rows = []; negated = []; due = 0 } }
    {
        self.rows = List::new(alloc);
        self.negated = List::new(alloc);
        self.due = 0;
    }
}

/// The negation of each literal.
fn negations_of(alloc: Global, literals: &[i128]) -> Result<List<i128>, OutOfMemory>
    requires { AreShort literals.now }
    ensures { IfOk result (λ negated. negated ≡ negations literals.now) }
{
    let mut negated = List::new(alloc);
    for literal in literals {
        negated.push(-*literal)?;
    }
    Ok(negated)
}

/// The row of an atom.
fn copied(alloc: Global, atom: &Atom) -> Result<Row, OutOfMemory>
    ensures { IfOk result (λ row. row ≡ record { form = atom.now.form; bound = atom.now.bound }) }
{
    let mut form = List::new(alloc);
    for part in atom.form.as_slice() {
        form.push(*part)?;
    }
    Ok(Row {
        form,
        bound: atom.bound,
    })
}

/// The row of an atom's negation.
///
/// Answers `OutOfMemory` also where a coefficient has no negation in its type.
fn opposite(alloc: Global, atom: &Atom) -> Result<Row, OutOfMemory>
    ensures { IfOk result (λ row. row ≡ record { form = scaled (negsuc 0) atom.now.form; bound = neg_ℤ atom.now.bound -ℤ pos 1 }) }
{
    let mut form = List::new(alloc);
    for part in atom.form.as_slice() {
        if part.0 == i64::MIN {
            return Err(OutOfMemory);
        }
        form.push((-part.0, part.1))?;
    }
    Ok(Row {
        form,
        bound: -1 - atom.bound,
    })
}

/// The step of five numbers and a row, over so many terms.
fn step_of(alloc: Global, terms: usize, numbers: &[i128]) -> Result<Option<LinStep>, OutOfMemory>
    ensures { IfOk result (λ answer. MatchOption answer (AreNoStep terms numbers.now) (IsStepOf terms numbers.now)) }
{
    let [a, i, b, j, d, rest @ ..] = numbers else {
        return Ok(None);
    };
    if !is_row_number(*i) || !is_row_number(*j) {
        return Ok(None);
    }
    let Some(row) = row_of(alloc, terms, rest)? else {
        return Ok(None);
    };
    Ok(Some(LinStep {
        a: *a,
        i: *i as u32,
        b: *b,
        j: *j as u32,
        d: *d,
        row,
    }))
}

/// Whether the number is one of a row, below 2^32.
fn is_row_number(number: i128) -> bool
    ensures { IsTrue result ↔ IsRowNumber number }
{
    0 <= number && number < 1 << 32
}
