//! Tests of the tokens of annotated Java.
//!
//! They stand apart from `jesc_lexer`, so that its proofs are not run a second time with them.
#![tactic(auto)]

#[cfg(test)]
mod tests;
