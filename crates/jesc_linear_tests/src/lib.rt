//! Tests of the decisions over linear rows.
//!
//! They stand apart from `jesc_linear`, so that its proofs are not run a second time with them.
#![tactic(auto)]

#[cfg(test)]
mod tests;
