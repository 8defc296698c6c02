use jesc_text::{List, Span};

/// The kinds of token.
#[derive(Debug, Drop, Clone, Copy, PartialEq, Eq)]
pub enum TokenKind {
    /// A name or a keyword.
    Word,
    /// A backslash and ASCII letters or underscores, as `\result`.
    Backslash,
    /// A whole number in decimal, perhaps with the suffix `L`.
    Number,
    /// An operator or a separator.
    Sign,
}

/// A token: its text is the slice of the file's text at its span.
#[derive(Debug, Drop, Clone, Copy, PartialEq, Eq)]
pub struct Token {
    pub span: Span,
    pub kind: TokenKind,
    /// Whether the token stands in an annotation.
    pub note: bool,
}

/// The text of a file with its tokens in order.
#[derive(Debug, Drop)]
pub struct Tokens {
    pub text: List<u8>,
    pub list: List<Token>,
}
