//! A place among the tokens of a file.

ghost use Rattle.std.specs.Prelude.{◌≡◌, IsTrue, length};
ghost use Rattle.std.specs.List.{list_all};
ghost use Rattle.jesc_ast.specs.Lexemes.{is_within};
ghost use Rattle.jesc_first.specs.declared.reader.cursor.Stop.TheVariants.{Memory};

use jesc_lexer::Token;
use jesc_text::OutOfMemory;

/// Why a file was not read.
#[derive(Debug, Drop, Clone, Copy)]
pub enum Stop {
    Refused,
    Memory,
}

impl From<OutOfMemory> for Stop {
    ghost from_gives = { λ _ stop. stop ≡ Memory };

    fn from(_out: OutOfMemory) -> Stop {
        Stop::Memory
    }
}

/// The tokens that are left of a text.
#[derive(Drop)]
pub struct Cursor<'a> {
    pub text: &'a [u8],
    pub rest: &'a [Token],
    ghost within: { IsTrue (list_all (is_within (length text.now)) rest.now) },
}
