//! Members: the fields and methods that the given classes declare and inherit, and data groups.
//!
//! Begin with `fields` and `methods`, the lists of what the given classes declare, and with `inherit`, which field or method
//! a name means in a class and how methods of one name stand to each other there. Behind `inherit` lie `keys` and
//! `method_keys`, the numbers of names; `field_layers` and `method_layers`, what each class finds under a key; and
//! `summary` and `summary_layers`, what is known of all methods of one key above a class, with `signatures` beside them.
//! `groups` has the data groups, with `grouping`, `reversed` and `reached`.
//!
//! In `specs/`, a reader believes `Fields` and `Methods`, what the members of the trees are; `Meanings`, what a name means;
//! `Overriding`, the relations between methods of one name; and `Groups`. The others are what contracts inside the crate
//! say, and the laws are in `specs/laws`.
#![tactic(auto)]

mod field_layers;
mod fields;
mod grouping;
mod groups;
mod inherit;
mod keys;
mod method_keys;
mod method_layers;
mod methods;
mod reached;
mod reversed;
mod signatures;
mod summary;
mod summary_layers;

pub use fields::{GivenField, given_fields, is_model};
pub use groups::Groups;
pub use inherit::{Inheritance, Overridden};
pub use methods::{GivenMethod, given_methods, is_final, is_private, is_static};
