//! The resolved program: trees with ids and types in place of names.
//!
//! Begin with `class`, which has the tables of a program's classes, fields and methods, and go on to `program`, which
//! holds them together with what is true of them. `ids` and `ty` have what stands in place of names, `expr`, `stmt` and
//! `spec` the trees of expressions, statements and specifications, with the operators in `ops`. `kind` has the kinds of
//! check. `base_classes` makes the classes that every program has, `copy` makes equal copies, and `subtype` tells which
//! type lies below which.
//!
//! In `specs/`, `Programs` says when tables make a program and `Subtypes` what a subtype is.
#![tactic(auto)]

mod base_classes;
mod class;
mod copy;
mod expr;
mod ids;
mod kind;
mod ops;
mod program;
mod spec;
mod stmt;
mod subtype;
mod ty;

pub use base_classes::predefined;
pub use class::{Class, Field, Init, Method, Param};
pub use expr::{
    CallHow, TBinary, TCall, TChoose, TExpr, TField, TIndex, TInstance, TNew, TNode, TQuant, TUnary,
};
pub use ids::{ClassId, FieldId, LocalId, MethodId};
pub use kind::Kind;
pub use ops::{BinOp, TAssign, UnOp};
pub use program::{Duty, Program};
pub use spec::{Case, TFrame, TOnly, TSignals, TSpec, TStore, TStoreNode};
pub use stmt::{
    TAssignment, TBlock, TCatch, TFor, TGhost, TIf, TLocal, TSet, TStmt, TStmtNode, TSuper, TTry,
    TWhile,
};
pub use ty::{Elem, Ty};
