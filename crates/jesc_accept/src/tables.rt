//! What the lines of atoms and lemmas have made.

ghost use Rattle.std.specs.Prelude.{◌≡◌, MatchOption, IfOk};
ghost use Rattle.jesc_accept.specs.Moves.{start};
ghost use Rattle.jesc_accept.specs.States.{Takes, state_of};

use crate::atom_table::AtomTable;
use jesc_cert::{CertKind, CertLine};
use jesc_clauses::Clauses;
use jesc_linear::Row;
use jesc_text::{List, OutOfMemory};
use std::alloc::Global;

/// The atoms and lemmas of a certificate so far.
#[derive(Drop)]
pub(crate) struct Tables<'a> {
    pub clauses: &'a Clauses,
    /// The clauses' own atoms, and those of lines.
    pub atoms: AtomTable<'a>,
    /// The literals of each lemma, of which one is true, or nothing where it is true by itself.
    pub lemmas: List<Option<List<i128>>>,
    /// Of the open lemma of arithmetic, the rows of its literals and of the steps so far.
    pub rows: List<Row>,
    /// Of that lemma, the literals of which one is true.
    pub negated: List<i128>,
    /// How many of its steps are due.
    pub due: u128,
}

impl<'a> Tables<'a> {
    /// No lines so far.
    pub(crate) fn new(alloc: Global, clauses: &'a Clauses) -> Result<Tables<'a>, OutOfMemory>
        ensures made { IfOk result (λ tables. state_of tables ≡ start clauses.now) }
        ensures same { IfOk result (λ tables. tables.clauses.now ≡ clauses.now) }
    {
        Ok(Tables {
            clauses,
            atoms: AtomTable::new(alloc, clauses.atoms.as_slice())?,
            lemmas: List::new(alloc),
            rows: List::new(alloc),
            negated: List::new(alloc),
            due: 0,
        })
    }

    /// Takes the line of an atom or lemma, if it fits, and tells whether it does.
    ///
    /// Answers `OutOfMemory` where there is no room for it.
    pub(crate) fn take(&mut self, alloc: Global, line: &CertLine) -> Result<bool, OutOfMemory>
        ensures { IfOk result (Takes self.old line.now self.new) }
    {
        if self.due > 0 {
            return match line.kind {
                CertKind::Q => self.take_step(alloc, line.numbers.as_slice()),
                _ => Ok(false),
            };
        }
        match line.kind {
            CertKind::T => self.take_atom(alloc, line.numbers.as_slice()),
            CertKind::G => self.take_congruence(alloc, line.numbers.as_slice()),
            CertKind::R => self.take_linear(alloc, line.numbers.as_slice()),
            CertKind::Q | CertKind::S | CertKind::C | CertKind::M => Ok(false),
        }
    }
}
