//! Lookup: the order in which a class and its supertypes are searched, and of each class the first item of each key there.
//!
//! Items are numbers, and so are keys: an item may be a field with a name for its key, or a method with its name and number of
//! parameters. Begin with `lines`, the order in which a class and its supertypes are searched, and `layers`, which has for each
//! class the first item of each key. Both stand on `versions`, the map of which every version stays, over `tries`;
//! `tallies` counts marked items in each version, and `rows` has the lists before they are filled. Nothing here is quadratic
//! over a chain of classes.
//!
//! In `specs/`, a reader believes `Lookup`, the first declaration in the order of search, and `Lines`, that order as a list;
//! `Numbering` says in which order classes are given. The others are what contracts inside the crates say. The laws are in
//! `specs/laws`; `Lines` has that the list and the order of search find the same.
#![tactic(auto)]

mod layers;
mod lines;
mod rows;
mod tallies;
mod tries;
mod versions;

pub use layers::Layers;
pub use lines::extras;
pub use rows::empty_rows;
pub use versions::Versions;
