//! The tree of splits.

ghost use Rattle.std.specs.Prelude.{◌≡◌, ◌↔◌, ◌∷◌, [], ℕ, suc, pos, true, Some, None, slice_get, IfOk, MatchOption};
ghost use Rattle.jesc_accept.specs.Branches.{root, AreFalseOn, IsFalseOn};
ghost use Rattle.jesc_accept.specs.States.{AreFalseIn, Closes, Splits, branches_of};

use jesc_text::OutOfMemory;
use std::alloc::Global;

/// The open branches: what the first one takes each atom as, and the atoms that it was split on, in order. Where such an atom is
/// true, the branch on which it is false is open.
#[derive(Drop)]
pub(crate) struct Tree {
    pub values: Vec<Option<bool>>,
    pub trail: Vec<u32>,
    pub is_open: bool,
}

impl Tree {
    /// The tree that is the root alone, or `OutOfMemory`.
    pub(crate) fn new(alloc: Global, atoms: usize) -> Result<Tree, OutOfMemory>
        ensures { IfOk result (λ tree. branches_of tree ≡ root atoms ∷ []) }
    {
        let Ok(values) = vec![in alloc; None; atoms] else {
            return Err(OutOfMemory);
        };
        Ok(Tree {
            values,
            trail: Vec::new(alloc),
            is_open: true,
        })
    }

    /// Whether no branch is open. Takes no memory.
    pub(crate) fn is_closed(&self) -> bool
        ensures { (result ≡ true) ↔ (branches_of self.now ≡ []) }
    {
        !self.is_open
    }

    /// Splits the first branch on the atom of the number, from 1, if it wasn't, and tells whether it did.
    ///
    /// Answers `OutOfMemory` where there is no room for it, or where the atom is no `u32`.
    pub(crate) fn split(&mut self, number: i128) -> Result<bool, OutOfMemory>
        ensures { IfOk result (Splits self.old number self.new) }
    {
        if !self.is_open {
            return Ok(false);
        }
        let Some(atom) = free_atom(&self.values, number) else {
            return Ok(false);
        };
        if atom > u32::MAX as usize || self.trail.push(atom as u32).is_err() {
            return Err(OutOfMemory);
        }
        self.values[atom] = Some(true);
        Ok(true)
    }

    /// Closes the first branch. Takes no memory.
    pub(crate) fn close(&mut self)
        ensures { Closes self.old self.new }
    {
        while !self.trail.is_empty() {
            let last = self.trail.len() - 1;
            let atom = self.trail[last] as usize;
            if is_known(&self.values, atom, true) {
                self.values[atom] = Some(false);
                return;
            }
            if atom < self.values.len() {
                self.values[atom] = None;
            }
            self.trail.truncate(last);
        }
        self.is_open = false;
    }

    /// Whether a branch is open and on the first one the literals are all false. Takes no memory.
    pub(crate) fn are_false(&self, literals: &[i128]) -> bool
        ensures { (result ≡ true) ↔ AreFalseIn self.now literals.now }
    {
        self.is_open && all_false(&self.values, literals)
    }

    /// The same of a clause's literals. Takes no memory.
    pub(crate) fn are_all_false(&self, literals: &[i32]) -> bool
        ensures { (result ≡ true) ↔ AreFalseIn self.now literals.now }
    {
        self.is_open && all_narrow_false(&self.values, literals)
    }
}

/// Whether the atom is taken so on the branch. Takes no memory.
fn is_known(values: &[Option<bool>], atom: usize, truth: bool) -> bool
    ensures { (result ≡ true) ↔ (slice_get values.now atom ≡ Some (Some truth)) }
{
    match values.get(atom) {
        Some(Some(value)) => *value == truth,
        _ => false,
    }
}

/// The atom of the number, from 1, if it is there and the branch wasn't split on it. Takes no memory.
fn free_atom(values: &[Option<bool>], number: i128) -> Option<usize>
    ensures { MatchOption result ((a : ℕ) → number ≡ pos (suc a) → slice_get values.now a ≡ Some None → ⊥) (λ a. (number ≡ pos (suc a)) × (slice_get values.now a ≡ Some None)) }
{
    if number < 1 || number > values.len() as i128 {
        return None;
    }
    let atom = (number - 1) as usize;
    match values[atom] {
        None => Some(atom),
        Some(_) => None,
    }
}

/// Whether the literal is false on the branch. Takes no memory.
#[tactic(auto, unfolding(crate::specs::Branches::IsFalseOn))]
fn is_false(values: &[Option<bool>], literal: &i128) -> bool
    ensures { (result ≡ true) ↔ IsFalseOn values.now literal.now }
{
    let literal = *literal;
    let count = values.len() as i128;
    if 0 < literal && literal <= count {
        is_known(values, (literal - 1) as usize, false)
    } else if literal < 0 && -count <= literal {
        is_known(values, -(literal + 1) as usize, true)
    } else {
        false
    }
}

/// Whether the literals are all false on the branch. Takes no memory.
fn all_false(values: &[Option<bool>], literals: &[i128]) -> bool
    ensures { (result ≡ true) ↔ AreFalseOn values.now literals.now }
{
    for literal in literals {
        if !is_false(values, literal) {
            return false;
        }
    }
    true
}

/// The same of a literal of a clause. Takes no memory.
#[tactic(auto, unfolding(crate::specs::Branches::IsFalseOn))]
fn is_narrow_false(values: &[Option<bool>], literal: &i32) -> bool
    ensures { (result ≡ true) ↔ IsFalseOn values.now literal.now }
{
    let literal = *literal;
    if 0 < literal {
        is_known(values, literal as usize - 1, false)
    } else if literal < 0 {
        is_known(values, -(literal + 1) as usize, true)
    } else {
        false
    }
}

/// The same of a clause's literals. Takes no memory.
fn all_narrow_false(values: &[Option<bool>], literals: &[i32]) -> bool
    ensures { (result ≡ true) ↔ AreFalseOn values.now literals.now }
{
    for literal in literals {
        if !is_narrow_false(values, literal) {
            return false;
        }
    }
    true
}
