//! Lines of lemmas of congruence.

ghost use Rattle.std.specs.Prelude.{◌≡◌, ℕ, pos, ◌↔◌, ◌∷◌, [], IsTrue, MatchOption, IfOk, OnOk, All, Some, slice_get, ◌<◌, ◌^◌};
ghost use Rattle.jesc_cert.specs.declared.cert.CertKind.TheVariants.{G};
ghost use Rattle.jesc_clauses.specs.declared.builder.Truth.{Truth};
ghost use Rattle.jesc_clauses.specs.declared.builder.Truth.TheVariants.{Literal};
ghost use Rattle.jesc_clauses.specs.Builders.{turned};
ghost use Rattle.jesc_clauses.specs.Merges.{IsWithin};
ghost use Rattle.jesc_clauses.specs.Sums.{IsLin};
ghost use Rattle.jesc_accept.specs.Congruences.{truth_of, Adds, AddsAtMost, AddsDifference, AddsDifferences, IsLemmaOf};
ghost use Rattle.jesc_accept.specs.Lemmas.{IsFirstOf, ReadsNormal, ReadsAtMost, one};
ghost use Rattle.jesc_accept.specs.States.{Takes, line_of, atoms_of};

use crate::tables::Tables;
use jesc_clauses::{ClauseError, Lin, Normal, Opaque, at_most};
use jesc_linear::is_form;
use jesc_text::{List, OutOfMemory};
use std::alloc::Global;

/// What a comparison comes to: a constant, the atom of a number, from 0, or its negation.
#[derive(Drop, Clone, Copy)]
pub(crate) enum Said {
    Constant(bool),
    Is(usize),
    Isnt(usize),
}

/// The same of the comparison's negation.
fn negated(said: Said) -> Said
    ensures { truth_of result ≡ turned (truth_of said) }
{
    match said {
        Said::Constant(truth) => Said::Constant(!truth),
        Said::Is(number) => Said::Isnt(number),
        Said::Isnt(number) => Said::Is(number),
    }
}

/// Adds what was said to a lemma, which is nothing where it is true by itself.
fn add(lemma: &mut Option<List<i128>>, said: Said) -> Result<(), OutOfMemory>
    ensures { OnOk result (Adds lemma.old (truth_of said ∷ []) lemma.new) }
{
    match said {
        Said::Constant(false) => Ok(()),
        Said::Constant(true) => {
            *lemma = None;
            Ok(())
        }
        Said::Is(number) => add_literal(lemma, number as i128 + 1),
        Said::Isnt(number) => add_literal(lemma, -(number as i128) - 1),
    }
}

/// Adds a literal to a lemma.
fn add_literal(lemma: &mut Option<List<i128>>, literal: i128) -> Result<(), OutOfMemory>
    ensures { OnOk result (Adds lemma.old (Literal literal ∷ []) lemma.new) }
{
    match lemma {
        Some(literals) => literals.push(literal),
        None => Ok(()),
    }
}

/// Whether the coefficient is in bounds.
fn is_within(part: &(i64, u32)) -> bool
    ensures { IsTrue result ↔ IsWithin (2 ^ 31) part.now }
{
    part.0.unsigned_abs() <= 1 << 31
}

/// Whether the coefficients are in bounds.
fn are_within(form: &[(i64, u32)]) -> bool
    ensures { IsTrue result ↔ All (IsWithin (2 ^ 31)) form.now }
{
    for part in form {
        if !is_within(part) {
            return false;
        }
    }
    true
}

/// Whether the sum is in order and in bounds.
fn is_lin(lin: &Lin) -> bool
    ensures { IsTrue result ↔ IsLin lin.now }
{
    if !is_form(lin.form.as_slice()) {
        return false;
    }
    if !are_within(lin.form.as_slice()) {
        return false;
    }
    lin.constant.unsigned_abs() <= 1 << 94
}

/// The sum of one term.
fn single(alloc: Global, term: u32) -> Result<Lin, OutOfMemory>
    ensures { IfOk result (λ lin. lin ≡ one term) }
{
    let mut form = List::new(alloc);
    form.push((1, term))?;
    Ok(Lin { form, constant: 0 })
}

impl<'a> Tables<'a> {
    /// What a normal form says, where the table has its atom.
    fn read_normal(&self, normal: &Normal) -> Option<Said>
        ensures { MatchOption result ((t : Truth) → ReadsNormal (atoms_of self.now) normal.now t → ⊥) (λ said. ReadsNormal (atoms_of self.now) normal.now (truth_of said)) }
    {
        match normal {
            Normal::Constant(truth) => Some(Said::Constant(*truth)),
            Normal::Holds(atom) => match self.atoms.find(atom) {
                Some(number) => Some(Said::Is(number)),
                None => None,
            },
            Normal::Fails(atom) => match self.atoms.find(atom) {
                Some(number) => Some(Said::Isnt(number)),
                None => None,
            },
        }
    }

    /// What 'the first sum is at most the second' says, where the sums are in bounds and the table has its atom.
    fn read_at_most(&self, alloc: Global, x: &Lin, y: &Lin) -> Result<Option<Said>, OutOfMemory>
        ensures { IfOk result (λ answer. MatchOption answer ((t : Truth) → ReadsAtMost (atoms_of self.now) x.now y.now t → ⊥) (λ said. ReadsAtMost (atoms_of self.now) x.now y.now (truth_of said))) }
    {
        if !is_lin(x) || !is_lin(y) {
            return Ok(None);
        }
        match at_most(alloc, x, y) {
            Ok(normal) => Ok(self.read_normal(&normal)),
            Err(ClauseError::Wide(_)) => Ok(None),
            Err(ClauseError::OutOfMemory) => Err(OutOfMemory),
        }
    }

    /// Adds to a lemma that two arguments differ, and tells whether the table has the atoms for it.
    fn add_difference(
        &self,
        alloc: Global,
        lemma: &mut Option<List<i128>>,
        x: &Lin,
        y: &Lin,
    ) -> Result<bool, OutOfMemory>
        ensures { IfOk result (AddsDifference (atoms_of self.now) x.now y.now lemma.old lemma.new) }
    {
        let Some(first) = self.read_at_most(alloc, x, y)? else {
            return Ok(false);
        };
        let Some(second) = self.read_at_most(alloc, y, x)? else {
            return Ok(false);
        };
        add(lemma, negated(first))?;
        add(lemma, negated(second))?;
        Ok(true)
    }

    /// Adds to a lemma that some arguments differ.
    fn add_differences(
        &self,
        alloc: Global,
        lemma: &mut Option<List<i128>>,
        xs: &[Lin],
        ys: &[Lin],
    ) -> Result<bool, OutOfMemory>
        ensures { IfOk result (AddsDifferences (atoms_of self.now) xs.now ys.now lemma.old lemma.new) }
    {
        if xs.len() != ys.len() {
            return Ok(false);
        }
        for at in 0..xs.len() {
            if !self.add_difference(alloc, lemma, &xs[at], &ys[at])? {
                return Ok(false);
            }
        }
        Ok(true)
    }

    /// Adds to a lemma that one term is at most another.
    fn add_at_most(
        &self,
        alloc: Global,
        lemma: &mut Option<List<i128>>,
        i: u32,
        j: u32,
    ) -> Result<bool, OutOfMemory>
        ensures { IfOk result (AddsAtMost (atoms_of self.now) i j lemma.old lemma.new) }
    {
        let x = single(alloc, i)?;
        let y = single(alloc, j)?;
        match self.read_at_most(alloc, &x, &y)? {
            Some(said) => {
                add(lemma, said)?;
                Ok(true)
            }
            None => Ok(false),
        }
    }

    /// The lemma of congruence of two terms, if there is one.
    fn congruence(
        &self,
        alloc: Global,
        i: u32,
        j: u32,
    ) -> Result<Option<Option<List<i128>>>, OutOfMemory>
        ensures { IfOk result (IsLemmaOf (atoms_of self.now) self.now.clauses.now.terms i j) }
    {
        let terms = self.clauses.terms.as_slice();
        let Some(a) = terms.get(i as usize) else {
            return Ok(None);
        };
        let Some(b) = terms.get(j as usize) else {
            return Ok(None);
        };
        self.lemma_of(alloc, i, j, a, b)
    }

    /// The same of the terms of two numbers.
    fn lemma_of(
        &self,
        alloc: Global,
        i: u32,
        j: u32,
        a: &Opaque,
        b: &Opaque,
    ) -> Result<Option<Option<List<i128>>>, OutOfMemory>
        requires first { slice_get self.now.clauses.now.terms i ≡ Some a.now }
        requires second { slice_get self.now.clauses.now.terms j ≡ Some b.now }
        ensures { IfOk result (IsLemmaOf (atoms_of self.now) self.now.clauses.now.terms i j) }
    {
        if a.symbol != b.symbol {
            return Ok(None);
        }
        let mut lemma = Some(List::new(alloc));
        if !self.add_differences(alloc, &mut lemma, a.args.as_slice(), b.args.as_slice())? {
            return Ok(None);
        }
        if self.add_at_most(alloc, &mut lemma, i, j)? {
            Ok(Some(lemma))
        } else {
            Ok(None)
        }
    }

    /// Takes the line of a lemma of congruence, if it is one.
    pub(crate) fn take_congruence(
        &mut self,
        alloc: Global,
        numbers: &[i128],
    ) -> Result<bool, OutOfMemory>
        requires { self.old.due ≡ 0 }
        ensures { IfOk result (Takes self.old (line_of G numbers.now) self.new) }
    {
        let Some((i, j)) = two_terms(numbers) else {
            return Ok(false);
        };
        match self.congruence(alloc, i, j)? {
            Some(lemma) => {
                self.lemmas.push(lemma)?;
                self.rows = List::new(alloc);
                self.negated = List::new(alloc);
                Ok(true)
            }
            None => Ok(false),
        }
    }
}

/// The number of a term, if it is below 2^32. Takes no memory.
fn number_of_term(number: i128) -> Option<u32>
    ensures { MatchOption result ((i : ℕ) → i < 2 ^ 32 → number ≡ pos i → ⊥) (λ i. number ≡ pos i) }
{
    if 0 <= number && number < 1 << 32 {
        Some(number as u32)
    } else {
        None
    }
}

/// The numbers of two terms, if the numbers are those. Takes no memory.
fn two_terms(numbers: &[i128]) -> Option<(u32, u32)>
    ensures { MatchOption result ((i j : ℕ) → i < 2 ^ 32 → j < 2 ^ 32 → numbers.now ≡ pos i ∷ pos j ∷ [] → ⊥) (λ terms. numbers.now ≡ pos terms.0 ∷ pos terms.1 ∷ []) }
{
    if numbers.len() != 2 {
        return None;
    }
    let Some(i) = number_of_term(numbers[0]) else {
        return None;
    };
    let Some(j) = number_of_term(numbers[1]) else {
        return None;
    };
    Some((i, j))
}
