//! Conditions.

use crate::facts::Facts;
use crate::formula::Formula;
use jesc_text::{List, Place};
use jesc_tree::Kind;

/// What is to be proved for one check on one path: no structure makes all facts true.
///
/// The facts hold what is known on the path, and the negation of the check.
#[derive(Drop)]
pub struct Condition {
    pub kind: Kind,
    /// Where the check stands.
    pub place: Place,
    /// The clause or the field that the check tests, if it tests one.
    pub by: Option<Place>,
    /// The branches on the path, each with the way that the path takes, counted from 0.
    pub path: List<(Place, u32)>,
    pub facts: Facts,
}

/// Formulas without variables that are true in each structure that makes a condition true.
#[derive(Drop)]
pub struct Ground {
    pub formulas: List<Formula>,
}
