//! Tests of terms, formulas and facts.
//!
//! They stand apart from `jesc_logic`, so that its proofs are not run a second time with them.
#![tactic(auto)]

#[cfg(test)]
mod tests;
