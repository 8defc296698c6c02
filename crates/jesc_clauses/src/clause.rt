//! Clauses.

ghost use Rattle.std.specs.Prelude.{◌≡◌, [], ◌∷◌, ◌++◌, OnOk, OnErr};

use crate::atom::Atom;
use crate::lin::Lin;
use jesc_logic::TermId;
use jesc_text::{List, OutOfMemory};
use smallvec::SmallVec;
use std::alloc::Global;
use std::marker::Model;

/// An opaque term: an application other than a sum or a product with a number, with its arguments read as sums.
///
/// The sums name terms of smaller numbers.
#[derive(Debug, Drop)]
pub struct Opaque {
    pub id: TermId,
    pub symbol: u32,
    pub args: List<Lin>,
}

/// Literals, of which one holds. Contracts see a clause as the list of its literals.
///
/// The literal k is the atom k - 1, and -k its negation. Up to three literals take no memory of their own.
#[derive(Debug, Drop)]
pub struct Clause {
    literals: SmallVec<i32, 3>,
}

impl Model for Clause {
    ghost use Rattle.std.specs.Prelude.{List, ℤ};

    ghost Value = { List ℤ };

    ghost view = { λ clause. clause.literals.items };
}

impl Clause {
    /// The clause without literals, which never holds. Takes no memory.
    pub fn new(alloc: Global) -> Clause
        ensures { result ≡ [] }
    {
        Clause {
            literals: SmallVec::new(alloc),
        }
    }

    /// The literals. Takes no memory.
    pub fn as_slice(&self) -> &[i32]
        ensures { result.now ≡ self.now }
    {
        self.literals.as_slice()
    }

    /// Adds a literal. Answers `OutOfMemory`, and leaves the clause as it was, where there is no room for it.
    pub fn push(&mut self, literal: i32) -> Result<(), OutOfMemory>
        ensures ok { OnOk result (self.new ≡ self.old ++ literal ∷ []) }
        ensures err { OnErr result (self.new ≡ self.old) }
    {
        match self.literals.push(literal) {
            Ok(_) => Ok(()),
            Err(_) => Err(OutOfMemory),
        }
    }
}

/// Clauses over atoms over opaque terms. A term, an atom and a clause go by their places in the lists.
#[derive(Drop)]
pub struct Clauses {
    pub terms: List<Opaque>,
    pub atoms: List<Atom>,
    pub clauses: List<Clause>,
}
