//! Tests of cores.
//!
//! They stand apart from `jesc_core`, so that its proofs are not run a second time with them. `short` makes cores of short
//! texts, of which the rows of `tests` are made.
#![tactic(auto)]

#[cfg(test)]
mod short;
#[cfg(test)]
mod tests;
