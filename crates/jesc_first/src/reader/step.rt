//! The steps of a cursor, a token at a time.

ghost use Rattle.std.specs.Prelude.{◌≡◌, ◌≤◌, ◌<◌, OnErr, IfOk, None, IsTrue, length};
ghost use Rattle.std.specs.List.{list_all};
ghost use Rattle.jesc_ast.specs.Lexemes.{is_within, lexemes};
ghost use Rattle.jesc_first.specs.Parsing.{offset_of_next, begins_with, expected, name_in, from_static, behind_notes};
ghost use Rattle.jesc_first.specs.Reads.{Reads, ReadsText};
ghost use Rattle.jesc_first.specs.Seen.{seen, Splits};

use crate::reader::cursor::{Cursor, Stop};
use crate::reader::lexeme::{Lexeme, fits, is_plain_word, lexeme_at};
use crate::reader::reserved::is_name;
use jesc_lexer::{TokenKind, Tokens};

/// All tokens of a text.
pub fn cursor_of(tokens: &Tokens) -> Cursor<'_>
    requires { IsTrue (list_all (is_within (length tokens.now.text)) tokens.now.list) }
    ensures { seen result ≡ lexemes tokens.now }
{
    Cursor {
        text: tokens.text.as_slice(),
        rest: tokens.list.as_slice(),
    }
}

impl<'a> Cursor<'a> {
    /// The same place again.
    pub fn again(&self) -> Cursor<'a>
        ensures { seen result ≡ seen self.now }
    {
        Cursor {
            text: self.text,
            rest: self.rest,
        }
    }

    /// How many tokens are left.
    pub fn left(&self) -> usize
        ensures { result ≡ length (seen self.now) }
    {
        self.rest.len()
    }

    /// The next token and the place behind it.
    pub fn split_first(&self) -> Option<(Lexeme<'a>, Cursor<'a>)>
        ensures { Splits result (seen self.now) }
    {
        match self.rest {
            [] => None,
            [token, rest @ ..] => {
                let behind = Cursor {
                    text: self.text,
                    rest,
                };
                Some((lexeme_at(self.text, token), behind))
            }
        }
    }

    /// The offset of the next token, where there is one.
    pub fn offset(&self) -> u32
        ensures { result ≡ offset_of_next (seen self.now) }
    {
        match self.rest {
            [] => 0,
            [token, ..] => token.span.from,
        }
    }

    /// Whether the next token is this one.
    pub fn begins(&self, kind: TokenKind, note: bool, text: &[u8]) -> bool
        ensures { result ≡ begins_with kind note text.now (seen self.now) }
    {
        match self.rest {
            [] => false,
            [token, ..] => fits(&lexeme_at(self.text, token), kind, note, text),
        }
    }

    /// Takes this token, and gives its offset.
    pub fn expect(&mut self, kind: TokenKind, note: bool, text: &[u8]) -> Result<u32, Stop>
        ensures refused { OnErr result (seen self.new ≡ seen self.old) }
        ensures shorter { IfOk result (λ at. length (seen self.new) < length (seen self.old)) }
        ensures missing { OnErr result (expected kind note text.now (seen self.old) ≡ None) }
        ensures reads { Reads (expected kind note text.now (seen self.old)) result (seen self.new) }
    {
        match self.rest {
            [token, rest @ ..] if fits(&lexeme_at(self.text, token), kind, note, text) => {
                let at = token.span.from;
                self.rest = rest;
                Ok(at)
            }
            _ => Err(Stop::Refused),
        }
    }

    /// Goes to the next word `static` outside annotations, or to the end.
    pub fn skip_to_static(&mut self)
        ensures reads { seen self.new ≡ from_static (seen self.old) }
        ensures shorter { length (seen self.new) ≤ length (seen self.old) }
    {
        while let [token, rest @ ..] = self.rest {
            if fits(
                &lexeme_at(self.text, token),
                TokenKind::Word,
                false,
                b"static",
            ) {
                return;
            }
            self.rest = rest;
        }
    }

    /// Goes to the next token outside annotations, or to the end.
    pub fn skip_notes(&mut self)
        ensures { seen self.new ≡ behind_notes (seen self.old) }
    {
        while let [token, rest @ ..] = self.rest {
            if !token.note {
                return;
            }
            self.rest = rest;
        }
    }

    /// Takes a word outside annotations that is a name.
    pub fn name(&mut self) -> Result<&'a [u8], Stop>
        ensures shorter { IfOk result (λ text. length (seen self.new) < length (seen self.old)) }
        ensures reads { ReadsText (name_in (seen self.old)) result (seen self.new) }
    {
        match self.rest {
            [token, rest @ ..] => {
                let found = lexeme_at(self.text, token);
                if !is_plain_word(&found) || !is_name(found.text) {
                    return Err(Stop::Refused);
                }
                self.rest = rest;
                Ok(found.text)
            }
            [] => Err(Stop::Refused),
        }
    }
}
