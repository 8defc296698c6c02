//! What `clausify` answers where it makes no clauses.

ghost use Rattle.std.specs.Prelude.{◌≡◌};
ghost use Rattle.jesc_clauses.specs.declared.error.ClauseError.TheVariants.{OutOfMemory as no_memory};

use jesc_text::OutOfMemory;

/// What `clausify` answers where it makes no clauses.
#[derive(Debug, Drop, Clone, Copy, PartialEq, Eq)]
pub enum ClauseError {
    /// This number is too large, or it is 2^126 with the sign of a number that is larger.
    Wide(i128),
    OutOfMemory,
}

impl From<OutOfMemory> for ClauseError {
    ghost from_gives = { λ _ e. e ≡ no_memory };

    fn from(_error: OutOfMemory) -> ClauseError {
        ClauseError::OutOfMemory
    }
}
