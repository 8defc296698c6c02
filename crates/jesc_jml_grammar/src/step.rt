//! The steps of a cursor, a token at a time.

ghost use Rattle.std.specs.Prelude.{◌≡◌, length, IsTrue, slice_range};
ghost use Rattle.jesc_ast.specs.Lexemes.{is_within, lexeme_of};
ghost use Rattle.jesc_jml_grammar.specs.Steps as spec;
ghost use Rattle.jesc_jml_grammar.specs.Marks as marks;
ghost use Rattle.jesc_jml_grammar.specs.Steps.{Reads};
ghost use Rattle.jesc_jml_grammar.specs.Seen.{seen, lexeme, IsKept};

use crate::cursor::{Cursor, Lexeme};
use crate::fault::{Fault, ParseError};
use crate::mark::{Mark, mark_of, same};
use jesc_lexer::Token;

#[tactic(auto, unfolding(crate::specs::Steps::same_mark))]
pub fn same_mark(a: Mark, b: Mark) -> bool
    ensures { result ≡ spec.same_mark a b }
{
    a == b
}

pub fn text_at<'a>(text: &'a [u8], token: Token) -> &'a [u8]
    requires { IsTrue (is_within (length text.now) token) }
    ensures { result.now ≡ slice_range text.now token.span.from token.span.to }
{
    &text[token.span.from as usize..token.span.to as usize]
}

pub fn is_same_side(a: bool, b: bool) -> bool
    ensures { result ≡ marks.is_same_side a b }
{
    if a { b } else { !b }
}

fn token_mark(note: bool, text: &[u8], token: Token) -> Mark
    requires { IsTrue (is_within (length text.now) token) }
    ensures { result ≡ marks.lexeme_mark note (lexeme_of text.now token) }
{
    if is_same_side(note, token.note) {
        mark_of(note, token.kind, text_at(text, token))
    } else {
        Mark::Away
    }
}

impl<'a> Cursor<'a> {
    /// What the next token is.
    #[tactic(auto, unfolding(crate::specs::Steps::mark_at))]
    pub fn peek(&self) -> Mark
        ensures { result ≡ spec.mark_at self.now.note (seen self.now) }
    {
        match self.rest {
            [] => Mark::End,
            [token, ..] => token_mark(self.note, self.text, *token),
        }
    }

    /// The fault that the next token is.
    pub fn refuse(&self) -> ParseError
        ensures { result ≡ ParseError.Fault (Fault.Unexpected (length (seen self.now))) }
    {
        ParseError::Fault(Fault::Unexpected(self.rest.len()))
    }

    /// The fault that what goes on with the next token is too deep.
    pub fn too_deep(&self) -> ParseError
        ensures { result ≡ ParseError.Fault (Fault.Deep (length (seen self.now))) }
    {
        ParseError::Fault(Fault::Deep(self.rest.len()))
    }

    /// Whether the next token is this name.
    pub fn is_name_again(&self, text: &[u8]) -> bool
        ensures { result ≡ spec.is_name_again self.now.note text.now (seen self.now) }
    {
        match self.rest {
            [] => false,
            [token, ..] => {
                same_mark(token_mark(self.note, self.text, *token), Mark::Name)
                    && same(text_at(self.text, *token), text)
            }
        }
    }

    /// Takes the next token.
    #[tactic(auto, unfolding(crate::specs::Steps::take_one))]
    pub fn take_one(&mut self) -> Result<Lexeme<'a>, ParseError>
        ensures reads { Reads lexeme (spec.take_one (seen self.old)) result (seen self.new) }
        ensures kept { IsKept self.old self.new }
    {
        match self.rest {
            [] => Err(ParseError::Fault(Fault::Unexpected(0))),
            [token, rest @ ..] => {
                self.rest = rest;
                Ok(Lexeme {
                    kind: token.kind,
                    text: text_at(self.text, *token),
                    span: token.span,
                    note: token.note,
                })
            }
        }
    }

    /// Takes the next token, if it is of this mark.
    #[tactic(auto, unfolding(crate::specs::Steps::expect))]
    pub fn expect(&mut self, mark: Mark) -> Result<Lexeme<'a>, ParseError>
        ensures reads { Reads lexeme (spec.expect self.old.note mark (seen self.old)) result (seen self.new) }
        ensures kept { IsKept self.old self.new }
    {
        if same_mark(self.peek(), mark) {
            self.take_one()
        } else {
            Err(self.refuse())
        }
    }
}
