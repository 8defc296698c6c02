//! Tests of the reader of the first profile.
//!
//! They stand apart from `jesc_first`, so that its proofs are not run a second time with them.
#![tactic(auto)]

#[cfg(test)]
mod texts;
