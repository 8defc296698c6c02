//! Class headings: which class a name of the trees means, the order of ids, and the rules that headings keep.
//!
//! Begin with `headings`, the calls that read class headings, and with `rule`, the numbers of all rules on names and types
//! and the error that names the first one broken. On the way of a call lie `source`, the given classes by name with
//! `index` beside it; `graph`, the supertypes that headings name; `order`, the ids, in rounds of `ids`; `cycle`, which
//! classes lie above themselves, with `components` to spare it walks; `judge`, the rules, with `modifiers`, `hierarchy`
//! and `refusal`; and `entry`, what the table holds of a class. `table` is the map from names that this layer and the one
//! of types use, `place` the place of an offset, `texts` which texts are equal, and `law` has laws over the definitions.
//!
//! In `specs/`, `Answers` is the small theory of the first rule broken and `Named` what a table of names holds. `Given`
//! says which trees a call gets, `Headings` what the rules on class headings are, `Order` in which order classes get
//! their ids, and `Resolved` what the table of classes then holds. `Tables`, `Clauses`, `Entries`, `Progress`,
//! `Ranks` and `Sources` are what contracts inside the crate say. The laws are in `specs/laws`.
#![tactic(auto)]

mod components;
mod cycle;
mod entry;
mod graph;
mod headings;
mod hierarchy;
mod ids;
mod index;
mod judge;
pub mod law;
mod modifiers;
mod order;
mod place;
mod refusal;
mod rule;
mod source;
mod table;
mod texts;

pub use cycle::{is_on_cycle, ranks};
pub use headings::{ClassTables, class_headings, class_tables};
pub use place::place_at;
pub use refusal::{refuse, refuse_at};
pub use rule::{Rule, RuleError};
pub use source::{Classes, GivenClass};
pub use table::Table;
pub use texts::{is_same, stands_in};
