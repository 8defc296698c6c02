ghost use Rattle.std.specs.Prelude.{◌≡◌, ◌<◌, ◌^◌, ◌∷◌, [], ◌++◌, length, IfOk, OnOk};
ghost use Rattle.jesc_engine.specs.Ways.{terms_from, ranges_from, with_atom};

use crate::ways::atom::Atom;
use crate::ways::facts::Facts;
use jesc_text::{OutOfMemory, Text};
use std::alloc::Global;

/// Appends an atom.
pub(crate) fn push_atom(atoms: &mut Vec<Atom>, x: Atom) -> Result<(), OutOfMemory>
    ensures { OnOk result (atoms.new.items ≡ atoms.old.items ++ x ∷ []) }
{
    match atoms.push(x) {
        Ok(_) => Ok(()),
        Err(_) => Err(OutOfMemory),
    }
}

/// Puts an atom at a slot.
#[tactic(auto, using(crate::proofs::Parameters::with_atom_is))]
pub(crate) fn put_atom(atoms: &mut Vec<Atom>, slot: u32, x: Atom)
    ensures { atoms.new.items ≡ with_atom atoms.old.items slot x }
{
    let slot = slot as usize;
    if slot < atoms.len() {
        atoms[slot] = x;
    }
}

/// The terms of the parameters: each has the number of its slot.
pub(crate) fn parameter_terms(alloc: Global, parameters: &[Text]) -> Result<Vec<Atom>, OutOfMemory>
    requires { length parameters.now < 2 ^ 31 }
    ensures { IfOk result (λ terms. terms.items ≡ terms_from 0 parameters.now) }
{
    let mut terms = Vec::new(alloc);
    for slot in 0..parameters.len() {
        push_atom(&mut terms, Atom::Term(slot as u32))?;
    }
    Ok(terms)
}

/// The ranges of the parameters.
pub(crate) fn parameter_facts(alloc: Global, parameters: &[Text]) -> Result<Facts, OutOfMemory>
    requires { length parameters.now < 2 ^ 31 }
    ensures { IfOk result (λ facts. facts ≡ record { rows = ranges_from 0 parameters.now; fresh = length parameters.now }) }
{
    let mut facts = Facts::new(alloc, parameters.len() as u32);
    for slot in 0..parameters.len() {
        facts.keep_in_range(alloc, slot as u32)?;
    }
    Ok(facts)
}
