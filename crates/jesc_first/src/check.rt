/// The kinds of check.
#[derive(Debug, Drop, Clone, Copy, PartialEq, Eq)]
pub enum Kind {
    /// The value of an operation is outside `int`.
    Overflow,
    /// An `assert` is false.
    Assert,
    /// The arithmetic of an `assert` or of an `ensures` leaves `int`.
    Undefined,
    /// An `ensures` is false at the end of its method.
    Postcondition,
}

/// A check at a place of a method. The places are offsets of bytes in the file.
#[derive(Debug, Drop, Clone, Copy, PartialEq, Eq)]
pub struct Check {
    pub kind: Kind,
    /// The operator, the word `assert` or `return`, or the closing brace.
    pub at: u32,
    /// The first token of the tested `ensures` after its word.
    pub by: Option<u32>,
}
