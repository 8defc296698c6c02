//! Tests of the parser of files: texts that are files, where and why others are refused, and the trees of a few.
//!
//! Begin with `reading`, which says how a table of rows is read. The tables stand in the other files, each before its
//! test. They stand apart from `jesc_java_parser`, so that its proofs are not run a second time with them.
#![tactic(auto)]

#[cfg(test)]
mod accepted;
#[cfg(test)]
mod deep;
#[cfg(test)]
mod reading;
#[cfg(test)]
mod refused;
#[cfg(test)]
mod shapes;
