//! Tests of the reader and the printer of certificates.
//!
//! They stand apart from `jesc_cert`, so that its proofs are not run a second time with them.
#![tactic(auto)]

#[cfg(test)]
mod tests;
