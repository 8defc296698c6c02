use jesc_text::{Span, Text};

/// A name, or a token that the grammar lets the writer choose, as an operator or a modifier.
///
/// `@Override` is the word `Override`.
#[derive(Debug, Drop)]
pub struct Word {
    pub text: Text,
    pub span: Span,
    /// Whether the token stands in an annotation.
    pub note: bool,
}

/// A type as it is written: a base name, with brackets where `array` is set.
#[derive(Debug, Drop)]
pub struct TypeTree {
    pub base: Text,
    pub span: Span,
    pub array: bool,
}
