//! Facts, which may speak of all whole numbers.

use crate::formula::Formula;
use jesc_text::List;

/// What a variable stands for: a number or a reference.
#[derive(Debug, Drop, Clone, Copy, PartialEq, Eq)]
pub enum Sort {
    Number,
    Reference,
}

/// A formula that holds for all whole numbers of its variables. Variable k is the symbol 32 + k without arguments.
#[derive(Debug, Drop)]
pub struct Fact {
    pub vars: List<Sort>,
    pub body: Formula,
}
