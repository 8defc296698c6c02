use crate::expr::TExpr;
use crate::ids::{ClassId, LocalId, MethodId};
use crate::ops::TAssign;
use crate::spec::TSpec;
use crate::ty::Ty;
use jesc_text::{Boxed, List, Place};

/// A statement; `at` is the place of its own checks.
#[cycle(tstmt)]
#[derive(Drop)]
pub struct TStmt {
    pub at: Place,
    pub node: Boxed<TStmtNode>,
}

/// The forms of a statement.
#[cycle(tstmt)]
#[derive(Drop)]
pub enum TStmtNode {
    Block(Boxed<TBlock>),
    Local(Boxed<TLocal>),
    Ghost(Boxed<TGhost>),
    Assign(Boxed<TAssignment>),
    Call(TExpr),
    If(Boxed<TIf>),
    While(Boxed<TWhile>),
    For(Boxed<TFor>),
    Return(Option<TExpr>),
    Throw(TExpr),
    Try(Boxed<TTry>),
    Break,
    Continue,
    Empty,
    Assert(TExpr),
    Set(Boxed<TSet>),
    Super(Boxed<TSuper>),
}

/// The statements between braces. `close` is the place of the closing brace, and for the body of a generated
/// constructor that of the class's name.
#[cycle(tstmt)]
#[derive(Drop)]
pub struct TBlock {
    pub list: List<TStmt>,
    pub close: Place,
}

/// A local variable with its initial value.
#[derive(Drop)]
pub struct TLocal {
    pub local: LocalId,
    pub ty: Ty,
    pub value: TExpr,
}

/// A ghost local; `word` is the place of the word `ghost`.
#[derive(Drop)]
pub struct TGhost {
    pub local: LocalId,
    pub ty: Ty,
    pub word: Place,
    pub value: TExpr,
}

/// An assignment; `++` and `--` have no value.
#[derive(Drop)]
pub struct TAssignment {
    pub target: TExpr,
    pub op: TAssign,
    pub value: Option<TExpr>,
}

/// `if (test) then else other`.
#[cycle(tstmt)]
#[derive(Drop)]
pub struct TIf {
    pub test: TExpr,
    pub then: TStmt,
    pub other: Option<TStmt>,
}

/// `while (test) body`, behind its invariants. The prelude runs before each test.
#[cycle(tstmt)]
#[derive(Drop)]
pub struct TWhile {
    pub invariants: List<TSpec>,
    pub prelude: List<TStmt>,
    pub test: TExpr,
    pub body: TStmt,
}

/// `for (first; test; last) body`, behind its invariants. The prelude runs before each test.
#[cycle(tstmt)]
#[derive(Drop)]
pub struct TFor {
    pub invariants: List<TSpec>,
    pub first: List<TStmt>,
    pub prelude: List<TStmt>,
    pub test: Option<TExpr>,
    pub last: List<TStmt>,
    pub body: TStmt,
}

/// `try { .. }` with its `catch` clauses.
#[cycle(tstmt)]
#[derive(Drop)]
pub struct TTry {
    pub body: TStmt,
    pub catches: List<TCatch>,
}

/// `catch (class local) body`.
#[cycle(tstmt)]
#[derive(Drop)]
pub struct TCatch {
    pub class: ClassId,
    pub local: LocalId,
    pub body: TStmt,
}

/// `set target = value;`; `word` is the place of the word `set`.
#[derive(Drop)]
pub struct TSet {
    pub word: Place,
    pub target: TExpr,
    pub value: TExpr,
}

/// `super(..);`, the call of that constructor.
#[derive(Drop)]
pub struct TSuper {
    pub method: MethodId,
    pub args: List<TExpr>,
}
