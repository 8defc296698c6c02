//! What stops the reading of the files.

ghost use Rattle.std.specs.Prelude.{◌≡◌};
ghost use Rattle.jesc_engine.specs.Causes.{cause_of_read, cause_of_lexing, cause_of_parsing};

use jesc_io::ReadError;
use jesc_jml_parser::SyntaxError;
use jesc_lexer::LexError;
use jesc_text::{OutOfMemory, Place, Text};

/// Why a file stops the reading.
#[derive(Drop)]
pub(crate) enum Cause {
    /// The file can't be read.
    CannotRead,
    /// F1: the file has more than 1,048,576 bytes.
    TooLarge,
    /// F2: the files up to this one have so many bytes, which are more than 8,388,608.
    TooLargeTogether(usize),
    /// L1 to L6, by the number: the file has no tokens.
    Lexical {
        number: u8,
        place: Place,
        word: Text,
    },
    /// S1, S2 or S3: the tokens spell no file of the grammar.
    Syntax(SyntaxError),
    /// P1: the file is outside the first profile, which this token shows, or the end of the file.
    Outside {
        place: Place,
        text: Text,
    },
    /// Memory ran out.
    OutOfMemory,
}

/// The file that stops the reading, and why.
#[derive(Drop)]
pub(crate) struct Stop<'a> {
    pub name: &'a str,
    pub cause: Cause,
}

impl From<ReadError> for Cause {
    ghost from_gives = { λ error cause. cause ≡ cause_of_read error };

    fn from(error: ReadError) -> Cause {
        match error {
            ReadError::Failed => Cause::CannotRead,
            ReadError::TooLarge => Cause::TooLarge,
            ReadError::OutOfMemory => Cause::OutOfMemory,
        }
    }
}

impl From<LexError> for Cause {
    ghost from_gives = { λ error cause. cause ≡ cause_of_lexing error };

    fn from(error: LexError) -> Cause {
        match error {
            LexError::Refused {
                number,
                place,
                word,
            } => Cause::Lexical {
                number,
                place,
                word,
            },
            LexError::OutOfMemory => Cause::OutOfMemory,
        }
    }
}

impl From<SyntaxError> for Cause {
    ghost from_gives = { λ error cause. cause ≡ cause_of_parsing error };

    fn from(error: SyntaxError) -> Cause {
        match error {
            SyntaxError::OutOfMemory => Cause::OutOfMemory,
            _ => Cause::Syntax(error),
        }
    }
}

impl From<OutOfMemory> for Cause {
    ghost use Rattle.jesc_engine.specs.declared.stop.Cause.TheVariants.{OutOfMemory};

    ghost from_gives = { λ _ cause. cause ≡ OutOfMemory };

    fn from(_: OutOfMemory) -> Cause {
        Cause::OutOfMemory
    }
}
