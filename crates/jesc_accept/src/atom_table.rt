//! The table of atoms: the clauses' own, and behind these the further ones of lines.

ghost use Rattle.std.specs.Prelude.{◌≡◌, ◌++◌, ◌∷◌, [], ℕ, List, ◌↔◌, length, IsTrue, IfOk, OnOk, OnErr, MatchOption, Some, slice_get};
ghost use Rattle.std.specs.Option.{option_copied};
ghost use Rattle.jesc_clauses.specs.declared.atom.Atom.{Atom as TheAtom};
ghost use Rattle.jesc_accept.specs.Atoms.{IsIndex, IsUpTo, led_to};
ghost use Rattle.jesc_accept.specs.Lemmas.{IsFirstOf};

use crate::marks::mark_of;
use indexmap::IndexMap;
use jesc_clauses::Atom;
use jesc_text::{List, OutOfMemory};
use std::alloc::Global;
use std::marker::Model;

/// The atoms by number, from 0. Contracts see the table as the list of the atoms.
///
/// An atom is looked up by its mark, which tells where it is if it is there. Only where another atom has the same mark, the
/// whole table is gone over.
#[derive(Drop)]
pub(crate) struct AtomTable<'a> {
    /// The clauses' own atoms.
    own: &'a [Atom],
    /// The atoms behind those.
    further: List<Atom>,
    /// Of each mark the number of the first atom that has it.
    first: IndexMap<u128, usize>,
}

impl<'a> Model for AtomTable<'a> {
    ghost use Rattle.std.specs.Prelude.{List, ◌++◌};
    ghost use Rattle.jesc_clauses.specs.declared.atom.Atom.{Atom};
    ghost use Rattle.jesc_accept.specs.Atoms.{IsIndex};

    ghost Value = { List Atom };

    ghost view = { λ table. table.own.now ++ table.further };

    ghost invariant = { λ table. IsIndex (table.own.now ++ table.further) table.first.entries };
}

impl<'a> AtomTable<'a> {
    /// The table of the clauses' own atoms.
    pub(crate) fn new(alloc: Global, own: &'a [Atom]) -> Result<AtomTable<'a>, OutOfMemory>
        ensures { IfOk result (λ table. table ≡ own.now) }
    {
        let mut first = IndexMap::new(alloc);
        for number in 0..own.len() {
            note(&mut first, &own[number], number)?;
        }
        Ok(AtomTable {
            own,
            further: List::new(alloc),
            first,
        })
    }

    /// The number of atoms. Takes no memory.
    pub(crate) fn len(&self) -> usize
        ensures { result ≡ length self.now }
    {
        self.own.len() + self.further.as_slice().len()
    }

    /// The atom of a number. Takes no memory.
    pub(crate) fn get(&self, number: usize) -> Option<&Atom>
        ensures { option_copied result ≡ slice_get self.now number }
    {
        if number < self.own.len() {
            Some(&self.own[number])
        } else {
            self.further.as_slice().get(number - self.own.len())
        }
    }

    /// Adds an atom behind the others.
    pub(crate) fn push(&mut self, atom: Atom) -> Result<(), OutOfMemory>
        ensures { OnOk result (self.new ≡ self.old ++ atom ∷ []) }
    {
        let number = self.own.len() + self.further.as_slice().len();
        note(&mut self.first, &atom, number)?;
        self.further.push(atom)?;
        Ok(())
    }

    /// The smallest number that the atom has. Takes no memory.
    pub(crate) fn find(&self, atom: &Atom) -> Option<usize>
        ensures { MatchOption result ((k : ℕ) → slice_get self.now k ≡ Some atom.now → ⊥) (IsFirstOf self.now atom.now) }
    {
        let Some(number) = self.first.get(&mark_of(atom)) else {
            return None;
        };
        if self.has_at(*number, atom) {
            return Some(*number);
        }
        self.find_slowly(atom)
    }

    /// Whether the atom has the number. Takes no memory.
    fn has_at(&self, number: usize, atom: &Atom) -> bool
        ensures { IsTrue result ↔ (slice_get self.now number ≡ Some atom.now) }
    {
        match self.get(number) {
            Some(other) => is_same(other, atom),
            None => false,
        }
    }

    /// The same as `find`, without the marks.
    fn find_slowly(&self, atom: &Atom) -> Option<usize>
        ensures { MatchOption result ((k : ℕ) → slice_get self.now k ≡ Some atom.now → ⊥) (IsFirstOf self.now atom.now) }
    {
        match first_of(self.own, atom) {
            Some(number) => Some(number),
            None => match first_of(self.further.as_slice(), atom) {
                Some(number) => Some(self.own.len() + number),
                None => None,
            },
        }
    }
}

/// Notes the mark of an atom that comes behind so many others, if it isn't that of one of these.
fn note(first: &mut IndexMap<u128, usize>, atom: &Atom, number: usize) -> Result<(), OutOfMemory>
    ensures ok { OnOk result ((atoms : List TheAtom) → number ≡ length atoms → IsIndex atoms first.old.entries → IsIndex (atoms ++ atom.now ∷ []) first.new.entries) }
    ensures err { OnErr result (first.new.entries ≡ first.old.entries) }
{
    let mark = mark_of(atom);
    if leads_up_to(first, mark, number) {
        return Ok(());
    }
    match first.insert(mark, number) {
        Ok(_) => Ok(()),
        Err(_) => Err(OutOfMemory),
    }
}

/// Whether the mark leads to a number that is at most this one. Takes no memory.
fn leads_up_to(first: &IndexMap<u128, usize>, mark: u128, number: usize) -> bool
    ensures { IsTrue result ↔ IsUpTo number (led_to first.now.entries mark) }
{
    match first.get(&mark) {
        Some(known) => *known <= number,
        None => false,
    }
}

/// Whether the two are one part.
fn is_same_part(part: &(i64, u32), other: &(i64, u32)) -> bool
    ensures { IsTrue result ↔ (part.now ≡ other.now) }
{
    part.0 == other.0 && part.1 == other.1
}

/// Whether the two are one form.
fn is_same_form(form: &[(i64, u32)], other: &[(i64, u32)]) -> bool
    ensures { IsTrue result ↔ (form.now ≡ other.now) }
{
    if form.len() != other.len() {
        return false;
    }
    for at in 0..form.len() {
        if !is_same_part(&form[at], &other[at]) {
            return false;
        }
    }
    true
}

/// Whether the two are one bound.
fn is_same_bound(bound: &i128, other: &i128) -> bool
    ensures { IsTrue result ↔ (bound.now ≡ other.now) }
{
    *bound == *other
}

/// Whether the two are one atom.
fn is_same(atom: &Atom, other: &Atom) -> bool
    ensures { IsTrue result ↔ (atom.now ≡ other.now) }
{
    if !is_same_bound(&atom.bound, &other.bound) {
        return false;
    }
    is_same_form(atom.form.as_slice(), other.form.as_slice())
}

/// The smallest number of the atom, from 0.
fn first_of(atoms: &[Atom], atom: &Atom) -> Option<usize>
    ensures { MatchOption result ((k : ℕ) → slice_get atoms.now k ≡ Some atom.now → ⊥) (IsFirstOf atoms.now atom.now) }
{
    for number in 0..atoms.len() {
        if is_same(&atoms[number], atom) {
            return Some(number);
        }
    }
    None
}
