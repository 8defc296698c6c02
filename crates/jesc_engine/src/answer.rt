ghost use Rattle.std.specs.Prelude.{◌≡◌};
ghost use Rattle.jesc_engine.specs.Report.{is_proved as proved};

use jesc_first::Check;
use jesc_text::{List, Text};

/// The answer to a check.
#[derive(Debug, Drop, Clone, Copy, PartialEq, Eq)]
pub enum Answer {
    /// No call fails the check.
    Proved,
    /// Some call fails the check.
    Open,
    /// The table of rows passed its limit, with its length.
    WideForms(u32),
    /// The pairs of rows passed their limit, with their number.
    WidePairs(u32),
    /// A number left its range.
    WideNumber(i128),
    /// Two rows leave a variable no whole number, although they allow a fraction.
    Gap,
}

/// A check with its answer.
#[derive(Debug, Drop, Clone, Copy, PartialEq, Eq)]
pub struct Finding {
    pub check: Check,
    pub answer: Answer,
}

/// A duty by its name, `CLASS.METHOD/PARAMETERS`, with the findings on its checks in order.
#[derive(Debug, Drop)]
pub struct Judgement {
    pub duty: Text,
    pub findings: List<Finding>,
}

impl Answer {
    /// Whether the check is proved.
    pub fn is_proved(self) -> bool
        ensures { result ≡ proved self }
    {
        match self {
            Answer::Proved => true,
            _ => false,
        }
    }
}
