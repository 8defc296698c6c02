//! The checker of certificates that clauses have no countermodel.
//!
//! Begin with `judge`, the call, and `verdict`, its answer. It goes over a certificate's lines: `tables` keeps what the lines of
//! atoms and lemmas have made, with `further` for atoms, `congruence` and `arithmetic` for lemmas, and `numbers` for the
//! numbers of a line; `atom_table` finds atoms, by their `marks`. `tree` keeps the open branches of the tree of splits. `law`
//! has laws over the definitions.
//!
//! In `specs/`, a reader believes `Branches`, `Lemmas` and `Moves`, how each line goes on, and `Verdicts`, what the call
//! answers. The others are what contracts inside the crate say.
#![tactic(auto)]

mod arithmetic;
mod atom_table;
mod congruence;
mod further;
mod judge;
mod law;
mod marks;
mod numbers;
mod tables;
mod tree;
mod verdict;

pub use judge::accept;
pub use law::{answers_exclude, formulas_are_refuted, one_state};
pub use verdict::Accept;
