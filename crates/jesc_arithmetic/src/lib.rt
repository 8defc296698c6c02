//! What is known of products, quotients and remainders.
//!
//! They are no sums of their parts, so the clauses of a condition know nothing of them: a product of two terms neither of
//! which is a number, a quotient and a remainder could have any value. Here are the facts that bound them, for the terms
//! that stand in formulas without variables. `arithmetic` has the call. `walk` goes over the terms and gathers their
//! operations, which `operation` finds; `facts` puts in what is known of one. The facts themselves are data: `tables` has
//! them, as the rules of `rule`, which makes formulas of them. `law` has laws over the definitions.
//!
//! A newcomer starts at `specs/Arithmetic.antt`, which has the facts, and goes on with `specs/Operations.antt`, which
//! operation a term is, and `specs/Occurrences.antt`, which operations stand in formulas. The others are what contracts
//! inside the crate say.
#![tactic(auto)]

mod arithmetic;
mod facts;
mod law;
mod operation;
mod rule;
mod tables;
mod walk;

pub use arithmetic::arithmetic_facts;
pub use law::{facts_are_true, operations_stand};
