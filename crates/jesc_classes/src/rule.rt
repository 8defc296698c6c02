ghost use Rattle.jesc_classes.specs.declared.rule.RuleError.TheVariants.{OutOfMemory as no_memory};
ghost use Rattle.std.specs.Prelude.{◌≡◌};

use jesc_text::{OutOfMemory, Place, Text};

/// The numbers of the rules on names and types, and of the limits on a program, as `docs/LANGUAGE.md` lists them.
#[derive(Debug, Drop, Clone, Copy, PartialEq, Eq)]
pub enum Rule {
    N1,
    N2,
    N3,
    N4,
    N5,
    N6,
    N7,
    N8,
    N9,
    Y1,
    Y2,
    Y3,
    Y4,
    Y5,
    Y6,
    Y7,
    Y8,
    X1,
    X2,
}

/// Why the trees of files are no program.
#[derive(Debug, Drop)]
pub enum RuleError {
    /// The first rule broken, at the first token of the part that breaks it, with that token's text.
    Refused {
        number: Rule,
        place: Place,
        word: Text,
    },
    /// The limit that is passed, and the count that passes it.
    Limit {
        number: Rule,
        count: u32,
    },
    /// Memory ran out.
    OutOfMemory,
}

impl From<OutOfMemory> for RuleError {
    ghost from_gives = { λ _ e. e ≡ no_memory };

    fn from(_error: OutOfMemory) -> RuleError {
        RuleError::OutOfMemory
    }
}
