//! Tests of the top call.
//!
//! They stand apart from `jesc_engine`, so that its proofs are not run a second time with them.
#![tactic(auto)]

#[cfg(test)]
mod runs;
