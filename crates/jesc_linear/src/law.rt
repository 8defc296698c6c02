//! What holds of the definitions. Each law is a function without a body, whose contract states it.
ghost use Rattle.std.specs.Prelude.{◌≡◌, List};
ghost use Rattle.jesc_linear.specs.declared.rows.Row.{Row};
ghost use Rattle.jesc_linear.specs.declared.outcome.Outcome.{Outcome};
ghost use Rattle.jesc_linear.specs.Courses.{Course};
ghost use Rattle.jesc_linear.specs.Elimination.{Values, Decides, HasOutcome};
ghost use Rattle.jesc_linear.specs.laws.OneEnding.{AreOne};

/// The elimination of rows takes one course, and so has one ending.
pub fn one_ending()
    ensures { (rows : List Row) (c d : Course Values) → Decides rows c → Decides rows d → c ≡ d }
{}

/// Two outcomes of the same rows are equal, but for the steps of a refutation.
pub fn one_outcome()
    ensures { (rows : List Row) (o p : Outcome) → HasOutcome rows o → HasOutcome rows p → AreOne o p }
{}
