//! References: what the names of an expression refer to, and the rules of each form that names something.
//!
//! Begin with `meaning`: what a plain name is at its place, and which class is named before a dot. The rules follow by form:
//! `written` has types as they are written, `names` plain names, `members` what stands behind a dot, `calls` calls with
//! `arguments`, and `creations` new objects, over `fields` and `methods`, which are found in classes. Each rule looks at its own form, whose parts are already typed; what walks over
//! a tree stands in the crate above.
//!
//! In `specs/`, `Known` is what names mean at a place, and `Written`, `Fields`, `Calls` and `Creations` have one definition
//! for each form, without recursion.
#![tactic(auto)]

mod arguments;
mod calls;
mod creations;
mod fields;
mod meaning;
mod members;
mod methods;
mod names;
mod written;

pub use calls::{CallTree, Target, call};
pub use creations::{made_class, new_object};
pub use meaning::{Meaning, meaning_of, qualifier_class};
pub use members::{member, static_field};
pub use names::name;
pub use written::{written_element, written_type};
