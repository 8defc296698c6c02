ghost use Rattle.std.specs.Prelude.{◌≡◌, ℕ, ◌≤◌, ◌<◌, length, IfOk, Ok, Err, Result};
ghost use Rattle.jesc_lexer.specs.Characters.{spelled};
ghost use Rattle.jesc_lexer.specs.Inner.{IsError, Gives};
ghost use Rattle.jesc_lexer.specs.Lexed.{Outcome, Lexed, IsLexed, IsRefused, Answers};
ghost use Rattle.jesc_lexer.specs.Texts.{AreTexts};
ghost use Rattle.jesc_lexer.specs.Spans.{AreSpans, Bytes};

use crate::escape::first_escape;
use crate::piece::{Refusal, Stop};
use crate::reading::read_code;
use crate::token::Tokens;
use jesc_text::{List, OutOfMemory, Place, Text, place_of};
use std::alloc::Global;

/// Why a file has no tokens.
#[derive(Debug, Drop)]
pub enum LexError {
    /// The file is refused: the refusal's number, from 1 for L1 to 6 for L6, its place, and the character of L3,
    /// where all others carry no word.
    Refused {
        number: u8,
        place: Place,
        word: Text,
    },
    /// Memory ran out.
    OutOfMemory,
}

impl From<OutOfMemory> for LexError {
    ghost use Rattle.jesc_lexer.specs.declared.file.LexError.TheVariants.{OutOfMemory};

    ghost from_gives = { λ _ error. error ≡ OutOfMemory };

    fn from(_: OutOfMemory) -> LexError {
        LexError::OutOfMemory
    }
}

/// The bytes of a character, none without one.
fn spelled(alloc: Global, character: Option<char>) -> Result<Text, OutOfMemory>
    ensures { IfOk result (λ word. word ≡ spelled character) }
{
    let mut word = Text::new(alloc);
    if let Some(c) = character {
        let mut buffer = [0; 4];
        word.append(c.encode_utf8(&mut buffer).as_bytes())?;
    }
    Ok(word)
}

/// The refusal with its place and word; `OutOfMemory` where there is no room for the word.
fn refused(alloc: Global, file: u32, bytes: &[u8], refusal: Refusal) -> LexError
    requires short { length bytes.now ≤ 1048576 }
    requires within { refusal.at ≤ length bytes.now }
    ensures { IsError file bytes.now refusal result }
{
    match spelled(alloc, refusal.character) {
        Ok(word) => LexError::Refused {
            number: refusal.number,
            place: place_of(bytes, file, refusal.at as u32),
            word,
        },
        Err(_) => LexError::OutOfMemory,
    }
}

/// The tokens of a file, or its refusal.
#[tactic(auto, using(crate::proofs::Refused::no_text_gives))]
fn read_file(alloc: Global, file: u32, bytes: &[u8]) -> Result<Tokens, LexError>
    requires { length bytes.now ≤ 1048576 }
    ensures { Gives file bytes.now result }
{
    let text = match std::str::from_utf8(bytes) {
        Ok(text) => text,
        Err(error) => {
            let refusal = Refusal {
                number: 1,
                at: error.valid_up_to(),
                character: None,
            };
            return Err(refused(alloc, file, bytes, refusal));
        }
    };
    if let Some(at) = first_escape(bytes) {
        let refusal = Refusal {
            number: 5,
            at,
            character: None,
        };
        return Err(refused(alloc, file, bytes, refusal));
    }
    let mut list = List::new(alloc);
    match read_code(&mut list, text, file) {
        Ok(()) => {}
        Err(Stop::Refused(refusal)) => return Err(refused(alloc, file, bytes, refusal)),
        Err(Stop::OutOfMemory) => return Err(LexError::OutOfMemory),
    }
    let mut copy = List::new(alloc);
    copy.append(bytes)?;
    Ok(Tokens { text: copy, list })
}

/// The tokens of a file of at most 1,048,576 bytes, in their order.
///
/// `file` is the number that spans and places carry. Answers `Refused` with the first refusal: bytes that are not
/// UTF-8 first, then a Unicode escape anywhere in the file, then the first of the others by place. Answers
/// `OutOfMemory` where there is no room for the tokens, for the copy of the text or for the refusal's word.
pub fn lex(alloc: Global, file: u32, bytes: &[u8]) -> Result<Tokens, LexError>
    requires { length bytes.now ≤ 1048576 }
    ensures text { IfOk result (λ tokens. tokens.text ≡ bytes.now) }
    ensures tokens { IfOk result (λ tokens. IsLexed file bytes.now tokens.list) }
    ensures refused { (number : ℕ) (place : Place) (word : Bytes) → result ≡ Err (LexError.Refused number place word) → IsRefused file bytes.now number place word }

    // What the file gives is answered, unless memory runs out.
    ensures exact { (outcome : Outcome) → Lexed file bytes.now outcome → Answers file bytes.now outcome result }
    ensures spans { IfOk result (λ tokens. AreSpans (length tokens.text) 0 tokens.list) }
    ensures texts { IfOk result (λ tokens. AreTexts tokens.text tokens.list) }
{
    read_file(alloc, file, bytes)
}

/// A file gives one thing: its tokens or its refusal.
pub fn one_outcome()
    ensures { (file : ℕ) (bytes : Bytes) (one other : Outcome) → Lexed file bytes one → Lexed file bytes other → one ≡ other }
{}
