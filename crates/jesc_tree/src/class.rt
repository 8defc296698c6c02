use crate::expr::TExpr;
use crate::ids::{ClassId, FieldId, MethodId};
use crate::spec::{Case, TSpec};
use crate::stmt::TStmt;
use crate::ty::Ty;
use jesc_text::{List, Place, Text};

/// A class or interface.
#[derive(Drop)]
pub struct Class {
    pub name: Text,
    /// The place of the name in its heading. A predefined class has file, line and column 0.
    pub place: Place,
    /// The superclass; `Object` and interfaces have none.
    pub parent: Option<ClassId>,
    /// The interfaces that the heading names, in order.
    pub interfaces: List<ClassId>,
    pub is_interface: bool,
    pub is_abstract: bool,
    /// The declared fields, in order.
    pub fields: List<FieldId>,
    /// The declared constructors and methods, in order; a generated constructor comes first.
    pub methods: List<MethodId>,
    pub invariants: List<TSpec>,
    pub represents: List<(FieldId, TExpr)>,
}

/// A field, Java's or one of the specification.
#[derive(Drop)]
pub struct Field {
    pub name: Text,
    pub place: Place,
    pub owner: ClassId,
    pub ty: Ty,
    pub nullable: bool,
    pub is_final: bool,
    pub is_ghost: bool,
    pub is_model: bool,
    /// The value of a static final field.
    pub constant: Option<i128>,
    pub init: Option<Init>,
    /// Of a model field all members, direct or not, over all classes, ids rising; of another field none.
    pub members: List<FieldId>,
}

/// The initial value of a field.
///
/// `word` is the place of the word `ghost` of a ghost field, and of a Java field equal to `equals`. The prelude runs
/// before the value.
#[derive(Drop)]
pub struct Init {
    pub prelude: List<TStmt>,
    pub word: Place,
    pub equals: Place,
    pub value: TExpr,
}

/// A parameter of a method or constructor.
#[derive(Drop)]
pub struct Param {
    pub name: Text,
    pub ty: Ty,
    pub nullable: bool,
}

/// A method or constructor.
#[derive(Drop)]
pub struct Method {
    pub name: Text,
    pub place: Place,
    pub owner: ClassId,
    pub params: List<Param>,
    pub result: Ty,
    pub result_nullable: bool,
    pub is_static: bool,
    pub is_private: bool,
    pub is_abstract: bool,
    pub is_constructor: bool,
    pub is_pure: bool,
    pub is_helper: bool,
    pub throws: List<ClassId>,
    /// The specification cases, all omitted clauses filled in.
    pub cases: List<Case>,
    pub body: Option<TStmt>,
}
