//! What a token is to the grammar of statements.

/// What a token is to the grammar of statements, where it is more than a part of an expression.
#[derive(Debug, Drop, Clone, Copy, PartialEq, Eq)]
pub enum StatementMark {
    LeftBrace,
    RightBrace,
    If,
    Else,
    While,
    For,
    Return,
    Throw,
    Break,
    Continue,
    Try,
    Catch,
    Final,
    /// `=`, and the signs that end in it and assign.
    Assign,
    /// `++` and `--`.
    Step,
    /// `maintaining` and `loop_invariant`, in an annotation.
    Invariant,
    /// `assert` in an annotation.
    Assert,
    /// `set` in an annotation.
    Set,
    /// `ghost` in an annotation.
    Ghost,
    /// Any other token, and the end.
    Other,
}

/// Where a statement stands: in a list, behind a condition or the head of a loop, or behind `else`.
#[derive(Debug, Drop, Clone, Copy, PartialEq, Eq)]
pub enum Slot {
    Any,
    Then,
    Else,
}
