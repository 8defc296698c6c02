ghost use Rattle.jesc_ast.specs.Lines.{IsLines};

use crate::expr::Expr;
use crate::spec::SpecTree;
use crate::stmt::BodyTree;
use crate::word::{TypeTree, Word};
use jesc_text::{Boxed, List, Span};

/// A parameter of a method or constructor.
#[derive(Debug, Drop)]
pub struct ParamTree {
    pub modifiers: List<Word>,
    pub ty: TypeTree,
    pub name: Word,
}

/// A member of a class or interface.
#[derive(Debug, Drop)]
pub struct MemberTree {
    pub span: Span,
    pub node: Boxed<MemberNode>,
}

/// The forms of a member.
#[derive(Debug, Drop)]
pub enum MemberNode {
    /// A lone semicolon.
    Empty,
    Field(Boxed<FieldTree>),
    /// A ghost or model field, with the word `ghost` or `model` in its place among the modifiers.
    SpecField(Boxed<FieldTree>),
    Invariant(Boxed<InvariantTree>),
    Represents(Boxed<RepresentsTree>),
    Method(Boxed<MethodTree>),
    Constructor(Boxed<ConstructorTree>),
}

/// A field. A list that is not written is empty.
#[derive(Debug, Drop)]
pub struct FieldTree {
    pub modifiers: List<Word>,
    pub ty: TypeTree,
    pub name: Word,
    pub equals: Option<Span>,
    pub value: Option<Expr>,
    pub groups: List<Word>,
}

/// `invariant e;`.
#[derive(Debug, Drop)]
pub struct InvariantTree {
    pub modifiers: List<Word>,
    pub e: Expr,
}

/// `represents name sign e;`.
#[derive(Debug, Drop)]
pub struct RepresentsTree {
    pub visibility: Option<Word>,
    pub name: Word,
    pub sign: Word,
    pub e: Expr,
}

/// A method; `void` is no result, and a semicolon in place of the body no body. A list that is not written is empty.
#[derive(Debug, Drop)]
pub struct MethodTree {
    pub spec: Option<SpecTree>,
    pub modifiers: List<Word>,
    pub result: Option<TypeTree>,
    pub name: Word,
    pub params: List<ParamTree>,
    pub throws: List<Word>,
    pub body: Option<BodyTree>,
}

/// A constructor. A list that is not written is empty.
#[derive(Debug, Drop)]
pub struct ConstructorTree {
    pub spec: Option<SpecTree>,
    pub modifiers: List<Word>,
    pub name: Word,
    pub params: List<ParamTree>,
    pub throws: List<Word>,
    pub body: BodyTree,
}

/// A class, or an interface where `is_interface` is set.
#[derive(Debug, Drop)]
pub struct ClassTree {
    pub span: Span,
    pub modifiers: List<Word>,
    pub is_interface: bool,
    pub name: Word,
    pub extends: List<Word>,
    pub implements: List<Word>,
    pub members: List<MemberTree>,
}

/// A file: its package, its classes in order, and where its lines begin.
///
/// `lines` holds 0 and, for each line feed of the text, the offset after it.
#[derive(Debug, Drop)]
pub struct File {
    pub package: List<Word>,
    pub classes: List<ClassTree>,
    pub lines: List<u32>,
    ghost line_starts: { ∥ IsLines lines ∥₁ },
}
