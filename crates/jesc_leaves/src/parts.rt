//! What clauses and certificates are made of.

use jesc_cert::{Cert, CertKind, CertLine};
use jesc_clauses::{Atom, Clause, Clauses, Lin, Opaque};
use jesc_logic::TermId;
use jesc_text::{List, OutOfMemory};
use std::alloc::Global;

/// Clauses, and a certificate that they have no countermodel.
#[derive(Drop)]
pub struct Made {
    pub clauses: Clauses,
    pub cert: Cert,
}

impl Made {
    /// No clauses, and a certificate without lines.
    pub fn new(alloc: Global) -> Made {
        Made {
            clauses: Clauses {
                terms: List::new(alloc),
                atoms: List::new(alloc),
                clauses: List::new(alloc),
            },
            cert: Cert {
                lines: List::new(alloc),
            },
        }
    }

    /// Adds a line of these numbers.
    pub fn add_line(
        &mut self,
        alloc: Global,
        kind: CertKind,
        numbers: &[i128],
    ) -> Result<(), OutOfMemory> {
        let mut copied = List::new(alloc);
        for number in numbers {
            copied.push(*number)?;
        }
        self.cert.lines.push(CertLine {
            kind,
            numbers: copied,
        })
    }

    /// Adds a clause of these literals.
    pub fn add_clause(&mut self, alloc: Global, literals: &[i32]) -> Result<(), OutOfMemory> {
        let mut clause = Clause::new(alloc);
        for literal in literals {
            clause.push(*literal)?;
        }
        self.clauses.clauses.push(clause)
    }

    /// Adds a term without arguments.
    pub fn add_constant(&mut self, alloc: Global, symbol: u32) -> Result<(), OutOfMemory> {
        self.clauses.terms.push(Opaque {
            id: TermId(symbol),
            symbol,
            args: List::new(alloc),
        })
    }

    /// Adds a term that is the symbol over another term.
    pub fn add_application(
        &mut self,
        alloc: Global,
        symbol: u32,
        term: u32,
    ) -> Result<(), OutOfMemory> {
        let mut form = List::new(alloc);
        form.push((1, term))?;
        let mut args = List::new(alloc);
        args.push(Lin { form, constant: 0 })?;
        self.clauses.terms.push(Opaque {
            id: TermId(symbol),
            symbol,
            args,
        })
    }

    /// Adds an atom.
    pub fn add_atom(
        &mut self,
        alloc: Global,
        form: &[(i64, u32)],
        bound: i128,
    ) -> Result<(), OutOfMemory> {
        let mut copied = List::new(alloc);
        for part in form {
            copied.push(*part)?;
        }
        self.clauses.atoms.push(Atom {
            form: copied,
            bound,
        })
    }

    /// Adds terms and of each the atom that it is at most 0.
    pub fn add_signs(&mut self, alloc: Global, count: u32) -> Result<(), OutOfMemory> {
        for term in 0..count {
            self.add_constant(alloc, term)?;
            self.add_atom(alloc, &[(1, term)], 0)?;
        }
        Ok(())
    }
}
