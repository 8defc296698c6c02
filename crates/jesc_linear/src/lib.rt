//! Rows of linear arithmetic over whole numbers: whether whole numbers meet them, with evidence for either answer.
//!
//! Start with the types in `rows`, then `decide` in `outcome` and `check_steps` in `steps`, which checks a refutation
//! without trusting the search. The search: `table` holds the rows, with `stop` for why it ends; `given` and `entry` take
//! rows in, by their `marks`; `merge`, `divisor` and `reduce` make sums, `choice`, `pairs` and `stage` eliminate one
//! variable after another, and `back` and `point` find a point.
//!
//! The definitions, in reading order: `Forms`, `Rows` (what it is to meet a row), `Steps` (what a refutation is), `Divisors`,
//! `Sums` and `Courses`, on which `Elimination` stands (what `decide` answers), and `Evidence` (what each outcome proves).
//! `Inner`, `Merges`, `Counts`, `Marks`, `Tables` and `Limits` have words that only contracts inside the crate use. `law`
//! has laws over the definitions, which stand in `specs/laws`.
#![tactic(auto)]

mod back;
mod choice;
mod divisor;
mod entry;
mod given;
mod law;
mod marks;
mod merge;
mod outcome;
mod pairs;
mod point;
mod reduce;
mod rows;
mod stage;
mod steps;
mod stop;
mod table;

pub use law::{one_ending, one_outcome};
pub use outcome::{Outcome, decide};
pub use rows::{LinStep, Row};
pub use steps::{check_steps, is_absurd, is_form, is_step};
