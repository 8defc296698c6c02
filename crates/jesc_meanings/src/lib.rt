//! Meanings: what a name means in a program.
//!
//! Begin with `names`, which has the call for each kind of name. A class and the field, method or constructor that a name
//! means in it are found by `label`s: a name and a number of parameters. `label_table` tells the first item of each label,
//! `members` what a label means in each class, by the layers of `jesc_lookup`, and `constructors` has those of each class.
//! `rows` makes the lists that these are built from, `row` is a list by number of parameters, and `law` has the law over
//! the definitions. Nothing here is quadratic over a chain of classes.
//!
//! In `specs/`, a reader believes `Meanings`. `Order` has the law that what is found there is found in the order of lookup.
//! The others are what contracts inside the crate say. The laws for the crates above are in `specs/laws`.
#![tactic(auto)]

mod constructors;
mod label;
mod label_table;
pub mod law;
mod members;
mod names;
mod row;
mod rows;

pub use names::Names;
