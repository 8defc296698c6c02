use crate::ids::{ClassId, FieldId, LocalId, MethodId};
use crate::ops::{BinOp, UnOp};
use crate::ty::Ty;
use jesc_text::{Boxed, List, Place};

/// An expression with its type. Parentheses are gone, and an implied `this` is `This`.
#[cycle(texpr)]
#[derive(Drop)]
pub struct TExpr {
    /// The place of the first token, parentheses around the expression included.
    pub start: Place,
    /// The place of the expression's checks.
    pub at: Place,
    /// The place of the dot before a called name, and elsewhere equal to `at`.
    pub dot: Place,
    pub ty: Ty,
    pub node: Boxed<TNode>,
}

/// The forms of an expression.
///
/// Forms of several parts are boxed, so that a local or a number, which most nodes are, takes little room.
#[cycle(texpr)]
#[derive(Drop)]
pub enum TNode {
    Number(i128),
    Truth(bool),
    Null,
    This,
    /// `\result`.
    Result,
    Local(LocalId),
    /// A static final field, which stands for its value.
    Constant(FieldId),
    Field(Boxed<TField>),
    /// The length of an array.
    Length(TExpr),
    Index(Boxed<TIndex>),
    Unary(Boxed<TUnary>),
    Binary(Boxed<TBinary>),
    Choose(Boxed<TChoose>),
    Cast(TExpr),
    InstanceOf(Boxed<TInstance>),
    Call(Boxed<TCall>),
    New(Boxed<TNew>),
    /// A new array of that size.
    NewArray(TExpr),
    /// `\old(..)`.
    Old(TExpr),
    /// `\fresh(..)`.
    Fresh(TExpr),
    Quant(Boxed<TQuant>),
}

/// `base.field`.
#[cycle(texpr)]
#[derive(Drop)]
pub struct TField {
    pub base: TExpr,
    pub field: FieldId,
}

/// `base[index]`.
#[cycle(texpr)]
#[derive(Drop)]
pub struct TIndex {
    pub base: TExpr,
    pub index: TExpr,
}

/// A prefix operator and its operand.
#[cycle(texpr)]
#[derive(Drop)]
pub struct TUnary {
    pub op: UnOp,
    pub e: TExpr,
}

/// `left op right`.
#[cycle(texpr)]
#[derive(Drop)]
pub struct TBinary {
    pub op: BinOp,
    pub left: TExpr,
    pub right: TExpr,
}

/// `test ? yes : no`.
#[cycle(texpr)]
#[derive(Drop)]
pub struct TChoose {
    pub test: TExpr,
    pub yes: TExpr,
    pub no: TExpr,
}

/// `e instanceof ty`.
#[cycle(texpr)]
#[derive(Drop)]
pub struct TInstance {
    pub e: TExpr,
    pub ty: Ty,
}

/// How a call finds its receiver.
#[cycle(texpr)]
#[derive(Drop)]
pub enum CallHow {
    On(TExpr),
    Super,
    Static,
}

/// A call of a method. `class` is the class named, or the receiver's static type.
#[cycle(texpr)]
#[derive(Drop)]
pub struct TCall {
    pub how: CallHow,
    pub class: ClassId,
    pub method: MethodId,
    pub args: List<TExpr>,
}

/// A new object, made by that constructor.
#[cycle(texpr)]
#[derive(Drop)]
pub struct TNew {
    pub method: MethodId,
    pub args: List<TExpr>,
}

/// `(\forall int x; low < x && x < high; body)`, or `\exists` where `universal` is not set.
///
/// `low_strict` and `high_strict` tell that a bound is written with `<`, and else with `<=`.
#[cycle(texpr)]
#[derive(Drop)]
pub struct TQuant {
    pub universal: bool,
    pub variable: LocalId,
    pub low: TExpr,
    pub low_strict: bool,
    pub high: TExpr,
    pub high_strict: bool,
    pub body: TExpr,
}
