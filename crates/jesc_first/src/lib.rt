//! The first profile: classes of static methods over `int`, straight-line code with contracts.
//!
//! The crate holds the tree of such a class, and in `specs/` what its text, its rules on names and its runs are.
//! `read_classes` makes the trees of a file's tokens; everything else here is definitions.
//!
//! Start with `tree` and `check`, then `reader`: below it `lexeme`, `cursor` and `step` go over the tokens, `sums`,
//! `clauses`, `header`, `body` and `methods` read the rules of the grammar in this order, with `names` and `reserved`
//! for the names, and `phase`, `transition`, `recognizer`, `place` and `foreign` find the place of a refusal.
//!
//! The definitions, in reading order: `Spelling` (the grammar), `Names` (its rules), `Machine` (the runs of a method),
//! `Accepted` (programs, their duties, and when they are safe) and `Outside` (what a refusal says) are what a reader has to
//! believe. `Seen`, `Parsing`, `Reads`, `Recognizing`, `Recognized` and `Fronts` lie between these and the code.
#![tactic(auto)]

mod check;
mod reader;
mod tree;

pub use check::{Check, Kind};
pub use reader::{Names, ReadError, read_classes};
pub use tree::{
    Class, Clause, Comparison, Condition, Method, Operation, Operator, Part, Stmt, Sum,
};
