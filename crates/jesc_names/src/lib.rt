//! Names: the program of class and member headings, or the first rule that they break.
//!
//! Begin with `member_headings`, the call. It reads class headings, asks `jesc_members` what the classes declare and inherit,
//! judges the members by `jesc_member_rules`, and makes the tables in `tables`: `class_rows`, `field_table` and
//! `method_table`, with `class_ids` for the ids of types, `field_order` and `places` for the order of fields, `members` for
//! those of a model field, `method_rows` for what is written, and `harmless` for the case of predefined and generated
//! constructors.
//!
//! In `specs/`, a reader believes `Judged`, what the call answers, and `Program`, what the tables hold. `TablesKnown` and
//! `TablesRows` are what contracts inside the crate say, and the laws are in `specs/laws`.
#![tactic(auto)]

mod class_ids;
mod class_rows;
mod field_order;
mod field_table;
mod harmless;
mod member_headings;
mod members;
mod method_rows;
mod method_table;
mod places;
mod tables;

pub use member_headings::headings;
