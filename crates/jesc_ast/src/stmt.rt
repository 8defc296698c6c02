use crate::expr::Expr;
use crate::word::{TypeTree, Word};
use jesc_text::{Boxed, List, Span};

/// A clause that is a word and an expression, as `requires e;`.
#[derive(Debug, Drop)]
pub struct ClauseTree {
    pub word: Word,
    pub e: Expr,
}

/// The statements between braces; `close` is the closing brace.
#[cycle(stmt)]
#[derive(Debug, Drop)]
pub struct BodyTree {
    pub list: List<Stmt>,
    pub close: Span,
}

/// `catch (class name) { .. }`.
#[cycle(stmt)]
#[derive(Debug, Drop)]
pub struct CatchTree {
    pub is_final: bool,
    pub class: Word,
    pub name: Word,
    pub body: BodyTree,
}

/// A statement with its span, which begins at `while` or `for` for a loop, after its invariants.
#[cycle(stmt)]
#[derive(Debug, Drop)]
pub struct Stmt {
    pub span: Span,
    pub node: Boxed<StmtNode>,
}

/// The forms of a statement.
///
/// Those of several parts are boxed, so that a lone semicolon takes little room.
#[cycle(stmt)]
#[derive(Debug, Drop)]
pub enum StmtNode {
    Block(Boxed<BodyTree>),
    Local(Boxed<LocalTree>),
    Ghost(Boxed<GhostTree>),
    Assign(Boxed<AssignTree>),
    Call(Expr),
    If(Boxed<IfTree>),
    While(Boxed<WhileTree>),
    For(Boxed<ForTree>),
    Return(Option<Expr>),
    Throw(Expr),
    Try(Boxed<TryTree>),
    Break,
    Continue,
    Empty,
    Assert(Expr),
    Set(Boxed<SetTree>),
    /// `super(..);`, which is the first statement of its body.
    Super(List<Expr>),
}

/// A local variable with its initial value.
#[derive(Debug, Drop)]
pub struct LocalTree {
    pub is_final: bool,
    pub ty: TypeTree,
    pub name: Word,
    pub equals: Span,
    pub value: Expr,
}

/// A ghost local.
#[derive(Debug, Drop)]
pub struct GhostTree {
    pub ty: TypeTree,
    pub name: Word,
    pub equals: Span,
    pub value: Expr,
}

/// An assignment; with `++` or `--` there is no value, and `before` tells that the sign stands in front.
#[derive(Debug, Drop)]
pub struct AssignTree {
    pub target: Expr,
    pub op: Word,
    pub before: bool,
    pub value: Option<Expr>,
}

/// `if (test) then else other`.
#[cycle(stmt)]
#[derive(Debug, Drop)]
pub struct IfTree {
    pub test: Expr,
    pub then: Stmt,
    pub other: Option<Stmt>,
}

/// `while (test) body`, behind its invariants.
#[cycle(stmt)]
#[derive(Debug, Drop)]
pub struct WhileTree {
    pub invariants: List<ClauseTree>,
    pub test: Expr,
    pub body: Stmt,
}

/// `for (first; test; last) body`, behind its invariants.
#[cycle(stmt)]
#[derive(Debug, Drop)]
pub struct ForTree {
    pub invariants: List<ClauseTree>,
    pub first: Option<Stmt>,
    pub test: Option<Expr>,
    pub last: Option<Stmt>,
    pub body: Stmt,
}

/// `try { .. }` with its `catch` clauses.
#[cycle(stmt)]
#[derive(Debug, Drop)]
pub struct TryTree {
    pub body: BodyTree,
    pub catches: List<CatchTree>,
}

/// `set target = value;`.
#[derive(Debug, Drop)]
pub struct SetTree {
    pub target: Expr,
    pub equals: Span,
    pub value: Expr,
}
