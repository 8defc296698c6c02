//! Tests of the parsers of expressions, and of specifications and members in annotations: how far a text is read, or
//! where and why it is refused, and the trees of a few texts.
//!
//! Begin with `reading`, which says how a table of rows is read. The tables stand in `expressions` and `notes`, each
//! before its test. They stand apart from `jesc_jml_parser`, so that its proofs are not run a second time with them.
#![tactic(auto)]

#[cfg(test)]
mod expressions;
#[cfg(test)]
mod notes;
#[cfg(test)]
mod reading;
#[cfg(test)]
mod shapes;
