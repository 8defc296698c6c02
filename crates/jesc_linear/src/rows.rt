ghost use Rattle.std.specs.Prelude.{◌≡◌};
ghost use Rattle.jesc_linear.specs.Forms.{coefficient_of};

use jesc_text::List;

/// A sum of coefficients times numbered terms that is at most the bound.
///
/// The terms rise strictly, and no coefficient is 0.
#[derive(Debug, Drop)]
pub struct Row {
    pub form: List<(i64, u32)>,
    pub bound: i128,
}

/// One step of a refutation: its row is `(a * row i + b * row j) / d`, the bound rounded down.
///
/// `i` and `j` number the given rows first, from 0, and then the rows of the steps, in order.
#[derive(Debug, Drop)]
pub struct LinStep {
    pub a: i128,
    pub i: u32,
    pub b: i128,
    pub j: u32,
    pub d: i128,
    pub row: Row,
}

/// The coefficient of a term, 0 where the form lacks it.
pub fn coefficient(form: &[(i64, u32)], term: u32) -> i64
    ensures { result ≡ coefficient_of form.now term }
{
    for part in form {
        if part.1 == term {
            return part.0;
        }
    }
    0
}
