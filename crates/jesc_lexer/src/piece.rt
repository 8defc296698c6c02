use crate::token::TokenKind;

/// What begins a text, in code or inside an annotation.
#[derive(Debug, Drop, Clone, Copy, PartialEq, Eq)]
pub enum Piece {
    /// So many bytes of white space or of a plain comment.
    Blank(usize),
    /// A token of this kind and of so many bytes.
    Lexeme(TokenKind, usize),
    /// The refusal of this number, with the character that it tells.
    Bad(u8, Option<char>),
}

/// Where an annotation has its inside, in bytes from its beginning, and its whole length.
#[derive(Debug, Drop, Clone, Copy, PartialEq, Eq)]
pub struct Note {
    pub block: bool,
    pub from: usize,
    pub to: usize,
    pub length: usize,
}

/// What begins a text in code.
#[derive(Debug, Drop, Clone, Copy, PartialEq, Eq)]
pub enum CodePiece {
    Plain(Piece),
    Annotation(Note),
}

/// A refusal's number, the offset at which it stands, and the character that it tells.
#[derive(Debug, Drop, Clone, Copy, PartialEq, Eq)]
pub struct Refusal {
    pub number: u8,
    pub at: usize,
    pub character: Option<char>,
}

/// Why a reading ended early.
#[derive(Debug, Drop, Clone, Copy, PartialEq, Eq)]
pub enum Stop {
    Refused(Refusal),
    OutOfMemory,
}
