//! What the parsers of expressions find.

use crate::cursor::Lexeme;
use jesc_ast::Expr;
use jesc_text::List;

/// An expression that was read.
#[derive(Drop)]
pub struct Found {
    pub expr: Expr,
    /// The nodes on the way from its root to its deepest leaf.
    pub depth: usize,
    /// How tightly its parts hold together.
    pub strength: usize,
}

/// Expressions that were read, with the greatest of their depths.
#[derive(Drop)]
pub struct FoundList {
    pub items: List<Expr>,
    pub depth: usize,
}

/// How far an expression was read before: not at all, its first name, or a name and a bracket behind it.
#[derive(Drop, Clone, Copy)]
pub enum Start<'a> {
    AtFirst,
    BehindName(Lexeme<'a>),
    BehindBracket(Lexeme<'a>, Lexeme<'a>),
}

/// The bounds of a quantifier's variable, and whether they are left out.
#[derive(Drop)]
pub struct Bounds {
    pub low: Found,
    pub low_strict: bool,
    pub high: Found,
    pub high_strict: bool,
}
