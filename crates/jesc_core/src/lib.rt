//! The core language: what a method becomes before conditions are made of it.
//!
//! A core is a tree without loops. Its steps assume and check formulas, set variables, keep, write and replace heaps, and
//! branch. `term` has the terms and formulas, `steps` the core itself, and `copy` makes equal copies of both. `count` tells
//! the number of paths through a core, `fields` of how many fields it speaks, and `law` states laws.
//!
//! A newcomer reads `steps` first and then, in `specs/`, `Trees` for cores as plain data, `Heaps` and `Values` for what
//! terms and formulas mean, `Runs` for what a core does in a structure, and `Walks` for its paths. `Proper` says what is
//! asked of a core before conditions are made of it.
#![tactic(auto)]

mod copy;
mod count;
mod fields;
mod law;
mod steps;
mod term;

pub use count::paths;
pub use fields::field_count;
pub use law::{
    failing_check_is_reached, one_check_fails, paths_are_apart, paths_are_listed,
    range_speaks_of_all, range_speaks_of_some,
};
pub use steps::{Core, CoreCheck, CoreStep, CoreStepNode, Frame};
pub use term::{CoreFormula, CoreFormulaNode, CoreRange, CoreTerm, CoreTermNode, HeapName};
