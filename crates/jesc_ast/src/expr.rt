use crate::word::{TypeTree, Word};
use jesc_text::{Boxed, List, Span, Text};

/// An expression, with the span of all its tokens.
#[cycle(expr)]
#[derive(Debug, Drop)]
pub struct Expr {
    pub span: Span,
    pub node: Boxed<ExprNode>,
}

/// The forms of an expression.
///
/// Forms of one part lie in the node. Those of several parts are boxed, so that a name or a number, which most nodes
/// are, takes little room.
#[cycle(expr)]
#[derive(Debug, Drop)]
pub enum ExprNode {
    Number(Text),
    Truth(bool),
    Null,
    This,
    /// `\result`.
    Result,
    Name(Text),
    Paren(Expr),
    Member(Boxed<MemberAccess>),
    Index(Boxed<ArrayAccess>),
    Unary(Boxed<UnaryExpr>),
    Binary(Boxed<BinaryExpr>),
    Choose(Boxed<Conditional>),
    Cast(Boxed<CastExpr>),
    InstanceOf(Boxed<InstanceTest>),
    Call(Boxed<MethodCall>),
    New(Boxed<ObjectCreation>),
    NewArray(Boxed<ArrayCreation>),
    /// `\old(..)`.
    Old(Expr),
    /// `\fresh(..)`.
    Fresh(Expr),
    Quant(Boxed<Quantifier>),
}

/// `base.name`.
#[cycle(expr)]
#[derive(Debug, Drop)]
pub struct MemberAccess {
    pub base: Expr,
    pub dot: Span,
    pub name: Word,
}

/// `base[index]`.
#[cycle(expr)]
#[derive(Debug, Drop)]
pub struct ArrayAccess {
    pub base: Expr,
    pub bracket: Span,
    pub index: Expr,
}

/// `-`, `+` or `!` before an operand.
#[cycle(expr)]
#[derive(Debug, Drop)]
pub struct UnaryExpr {
    pub op: Word,
    pub e: Expr,
}

/// `left op right`.
#[cycle(expr)]
#[derive(Debug, Drop)]
pub struct BinaryExpr {
    pub op: Word,
    pub left: Expr,
    pub right: Expr,
}

/// `test ? yes : no`.
#[cycle(expr)]
#[derive(Debug, Drop)]
pub struct Conditional {
    pub test: Expr,
    pub question: Span,
    pub yes: Expr,
    pub no: Expr,
}

/// `(ty) e`.
#[cycle(expr)]
#[derive(Debug, Drop)]
pub struct CastExpr {
    pub ty: TypeTree,
    pub e: Expr,
}

/// `e instanceof ty`.
#[cycle(expr)]
#[derive(Debug, Drop)]
pub struct InstanceTest {
    pub e: Expr,
    pub ty: TypeTree,
}

/// What a called method's name stands after.
#[cycle(expr)]
#[derive(Debug, Drop)]
pub enum Receiver {
    /// Nothing: a method of the class itself.
    Implied,
    /// `super` and a dot.
    Super,
    On { base: Expr, dot: Span },
}

/// `name(..)`, behind its receiver.
#[cycle(expr)]
#[derive(Debug, Drop)]
pub struct MethodCall {
    pub receiver: Receiver,
    pub name: Word,
    pub args: List<Expr>,
}

/// `new name(..)`.
#[cycle(expr)]
#[derive(Debug, Drop)]
pub struct ObjectCreation {
    pub name: Word,
    pub args: List<Expr>,
}

/// `new base[size]`.
#[cycle(expr)]
#[derive(Debug, Drop)]
pub struct ArrayCreation {
    pub base: Word,
    pub size: Expr,
}

/// `(\forall int x; low < x && x < high; body)`, or `\exists` where `universal` is not set.
///
/// `low_strict` and `high_strict` tell that a bound is written with `<`, and else with `<=`.
#[cycle(expr)]
#[derive(Debug, Drop)]
pub struct Quantifier {
    pub universal: bool,
    pub variable: Word,
    pub low: Expr,
    pub low_strict: bool,
    pub high: Expr,
    pub high_strict: bool,
    pub body: Expr,
}
