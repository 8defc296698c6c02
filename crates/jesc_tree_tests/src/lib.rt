//! Tests of the resolved program.
//!
//! They stand apart from `jesc_tree`, so that its proofs are not run a second time with them.
#![tactic(auto)]

#[cfg(test)]
mod tests;
