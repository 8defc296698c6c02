//! Terms by number, formulas over them, and the conditions that are to be proved.
//!
//! A check of a program is proved where no structure makes its condition true: the condition holds what is known on the
//! path to the check, and the negation of the check. `terms` has the table of terms, each of which has one number;
//! `formula` the formulas over them; `fact` formulas that hold for all values of their variables; `instance` puts terms
//! in the place of these variables; `facts` the facts of a path, which share their beginning with other paths;
//! `condition` puts all together. A newcomer starts at `specs/Terms.antt`, which says what a term is, and goes on with
//! `specs/Structures.antt`, which says what it is worth in a structure, and `specs/Truth.antt`.
#![tactic(auto)]

mod condition;
mod fact;
mod facts;
mod formula;
mod instance;
mod terms;

pub use condition::{Condition, Ground};
pub use fact::{Fact, Sort};
pub use facts::Facts;
pub use formula::{Formula, FormulaNode};
pub use terms::{Node, TermError, TermId, Terms};
