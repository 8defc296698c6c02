//! Why tokens have no tree of the rule that was asked for.

ghost use Rattle.std.specs.Prelude.{◌≡◌};

use jesc_text::{OutOfMemory, Place, Text};

/// Why no tree was read. Each place is that of the first token that can't be taken, or of the end of the text.
#[derive(Debug, Drop)]
pub enum SyntaxError {
    /// S1: no tree goes on with this token. Its text is `end of file` behind the last token.
    Token { place: Place, text: Text },
    /// S2: the same of a word that the language leaves out on its side.
    LeftOut { place: Place, word: Text },
    /// S3: every tree that goes on with the token is deeper than 200 nodes, or has more than three nested quantifiers.
    Deep { place: Place },
    /// Memory ran out.
    OutOfMemory,
}

impl From<OutOfMemory> for SyntaxError {
    ghost use Rattle.jesc_jml_parser.specs.declared.error.SyntaxError.TheVariants.{OutOfMemory};

    ghost from_gives = { λ _ error. error ≡ OutOfMemory };

    fn from(_: OutOfMemory) -> SyntaxError {
        SyntaxError::OutOfMemory
    }
}
