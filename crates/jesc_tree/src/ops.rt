/// A prefix operator.
#[derive(Debug, Drop, Clone, Copy, PartialEq, Eq)]
pub enum UnOp {
    Minus,
    Plus,
    Not,
}

/// An operator between two operands.
#[derive(Debug, Drop, Clone, Copy, PartialEq, Eq)]
pub enum BinOp {
    Add,
    Sub,
    Mul,
    Div,
    Rem,
    Lt,
    Le,
    Gt,
    Ge,
    Eq,
    Ne,
    And,
    Or,
    /// `==>`.
    Implies,
    /// `<==>`.
    Iff,
    /// `<=!=>`.
    NotIff,
}

/// What an assignment does to its target.
#[derive(Debug, Drop, Clone, Copy, PartialEq, Eq)]
pub enum TAssign {
    /// `=`.
    Set,
    /// `+=`.
    Add,
    /// `-=`.
    Sub,
    /// `*=`.
    Mul,
    /// `/=`.
    Div,
    /// `%=`.
    Rem,
    /// `++`.
    Up,
    /// `--`.
    Down,
}
