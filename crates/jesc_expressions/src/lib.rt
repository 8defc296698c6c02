//! Expressions: what an expression stands for, or the first rule broken in it.
//!
//! In `specs/`, `Typing` says by a relation without any order of looking what an expression stands for, one rule for each
//! form: a newcomer starts there. `Resolving` says the same by functions, which also tell the first rule broken. `law` has
//! the laws that both are one, and `specs/laws` their proofs.
#![tactic(auto)]

mod law;

pub use law::{arguments_are_decided, one_is_typed, types_are_in_range, typing_is_decided};
