//! From a core to its conditions, as definitions: what is true of a structure that has a run of the core which fails a
//! check. There is no code here yet.
//!
//! A newcomer starts with `specs/Moves`, what each step makes of what is known on a path, and with `asked_of` in it, the
//! conditions of a core; `Facts` says when a structure meets facts, `Environments` and `Encodings` how terms and formulas of
//! a core become those of facts. `law` has the laws of `specs/Conditions`: conditions are those of runs.
#![tactic(auto)]

mod law;

pub use law::{conditions_are_complete, conditions_are_listed, conditions_are_sound};
