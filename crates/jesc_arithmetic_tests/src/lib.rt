//! Tests of the facts of products, quotients and remainders.
//!
//! They stand apart from `jesc_arithmetic`, so that its proofs are not run a second time with them. `values` tells which
//! formulas are true where terms have given values; `tests` asks that of the facts of some operations.
#![tactic(auto)]

#[cfg(test)]
mod tests;
#[cfg(test)]
mod values;
