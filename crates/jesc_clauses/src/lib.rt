//! Formulas without variables as clauses of linear atoms.
//!
//! `clausify_formulas` has the call. On its way lie `reader` and `formula_reader`, which read terms as sums and give opaque
//! terms their numbers, over the table in `sum_table`, and `builder`, which makes atoms and clauses of formulas; `comparison`
//! brings 'one sum is at most another' into normal form. `atom` has the atoms and `normal` the one normal form of a
//! comparison; `lin` has the sums that terms are read as, and `clause` the clauses; `merge` puts multiples of two forms
//! together.
//!
//! A newcomer starts at `specs/Countermodels.antt`, which says what a countermodel of clauses is, and goes on with
//! `specs/Readings.antt`, which says the same of formulas, `specs/Normals.antt`, `specs/Sums.antt`, which says how a term is
//! read and which numbers are too large, and `specs/Clausified.antt`, what the call answers. The others are what contracts
//! inside the crate say.
#![tactic(auto)]

mod atom;
mod builder;
mod clause;
mod clausify_formulas;
mod comparison;
mod error;
mod formula_reader;
mod lin;
mod merge;
mod normal;
mod reader;
mod sum_table;

pub use atom::Atom;
pub use builder::Truth;
pub use clause::{Clause, Clauses, Opaque};
pub use clausify_formulas::clausify;
pub use comparison::at_most;
pub use error::ClauseError;
pub use lin::Lin;
pub use normal::{Normal, divisor_of, normal_form};
