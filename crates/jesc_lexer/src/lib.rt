//! The tokens of annotated Java: `lex` makes those of a file, or tells why it is refused.
//!
//! A newcomer starts with `token`, with the contract of `lex` in `file`, and with `laws`, which says of the tokens what
//! the Java Language Specification asks of them. The code goes from the small to the whole: `scan`, `word`, `number`
//! and `sign` find how far a token reaches, `lexeme` takes the token that begins a text, `piece` and `comment` what
//! else may begin it, `reading` reads all of it, and `escape` looks for Unicode escapes before that.
//!
//! The definitions, in reading order: `Characters`, `Lexemes`, `Pieces` and `Reading` define the reading of a text,
//! `Texts` and `Spans` which texts tokens have and where they stand, and `Lexed` what a whole file gives. `Longest` and
//! `Elements` state longest match and the input elements without that reading, for the two laws. `Inner` has words that
//! only contracts inside the crate use.
#![tactic(auto)]

mod comment;
mod escape;
mod file;
mod laws;
mod lexeme;
mod number;
mod piece;
mod reading;
mod scan;
mod sign;
mod token;
mod word;

pub use file::{LexError, lex, one_outcome};
pub use laws::{input_elements, longest_match};
pub use token::{Token, TokenKind, Tokens};
