//! Atoms.

use jesc_text::List;

/// A sum of coefficients times numbered opaque terms that is at most the bound.
///
/// In normal form the terms rise strictly, the coefficients' greatest common divisor is 1 and the first is positive.
#[derive(Debug, Drop)]
pub struct Atom {
    pub form: List<(i64, u32)>,
    pub bound: i128,
}
