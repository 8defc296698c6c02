//! Sites: where an expression stands, and the rules of each form of expression that names nothing.
//!
//! Begin with `site`: the member that an expression stands in, and what stands around it there. `part` has what every rule
//! uses: the error for an expression, and the maker of a typed one. The rules follow by form: `plain` has literals, `this`
//! and `\result`; `operations` the operators, casts and tests, with `signs` for their texts; `arrays` elements, lengths and
//! new arrays; `specified` what specifications alone may say. Each rule looks at its own form, whose parts are already
//! typed; what walks over a tree stands in the crates above.
//!
//! In `specs/`, `Sites` is what is known of a place, `Parts` how expressions are refused and made, and `Plain`,
//! `Operations`, `Arrays` and `Specified` have one definition for each form, without recursion. `laws/Types` has what a
//! caller cites to know that the type of what a rule makes is in range.
#![tactic(auto)]

mod arrays;
mod operations;
mod part;
mod plain;
mod signs;
mod site;
mod specified;

pub use arrays::{element_type, index, is_int, length, may_call, new_array};
pub use operations::{binary, cast, choose, instance_test, unary};
pub use part::{Part, enclosed, first_word, refuse_in, span_of, typed};
pub use plain::{null, number, outcome, this, truth};
pub use signs::{operator_of, prefix_of};
pub use site::{Binding, Position, Role, Site, This};
pub use specified::{Bound, fresh, old, quantifier};
