//! Why tokens could not be parsed.

ghost use Rattle.std.specs.Prelude.{◌≡◌};
ghost use Rattle.jesc_jml_grammar.specs.declared.fault.ParseError.TheVariants.{Memory};

use jesc_text::OutOfMemory;

/// Where the tokens stop: each tells how many of them are left, the one that stops them among them.
#[derive(Debug, Drop, Clone, Copy, PartialEq, Eq)]
pub enum Fault {
    /// No expression goes on with the token.
    Unexpected(usize),
    /// Every expression that goes on with the token is too deep, or has too many nested quantifiers.
    Deep(usize),
    /// A list has more parts than memory has room for. It tells no place.
    Long,
}

/// Why a parser gave no tree.
#[derive(Debug, Drop, Clone, Copy, PartialEq, Eq)]
pub enum ParseError {
    Memory,
    Fault(Fault),
}

impl From<OutOfMemory> for ParseError {
    ghost from_gives = { λ _ e. e ≡ Memory };

    fn from(_e: OutOfMemory) -> ParseError {
        ParseError::Memory
    }
}
