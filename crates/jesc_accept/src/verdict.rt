//! The answer of the checker.

/// Whether a certificate is accepted.
#[derive(Debug, Drop, Clone, Copy, PartialEq, Eq)]
pub enum Accept {
    Yes,
    /// The first line that is wrong, from 0, or the number of lines where the tree isn't finished.
    No { step: u32 },
}
