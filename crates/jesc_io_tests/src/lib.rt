//! Tests of reading and writing.
//!
//! They stand apart from `jesc_io`, so that its proofs are not run a second time with them.
#![tactic(auto)]

#[cfg(test)]
mod tests;
