use crate::expr::TExpr;
use crate::ids::{ClassId, FieldId, LocalId};
use jesc_text::{Boxed, List, Place};

/// The expression of a clause. `by` is the place that a failed check of the clause names.
#[derive(Drop)]
pub struct TSpec {
    pub by: Place,
    pub e: TExpr,
}

/// A `signals` clause: where an exception of the class leaves, `e` is to hold, in which the local is the exception.
#[derive(Drop)]
pub struct TSignals {
    pub by: Place,
    pub class: ClassId,
    pub local: Option<LocalId>,
    pub e: TExpr,
}

/// A `signals_only` clause: the classes of which an exception that leaves has to match one.
#[derive(Drop)]
pub struct TOnly {
    pub by: Place,
    pub classes: List<ClassId>,
}

/// A store reference of an `assignable` clause.
#[derive(Drop)]
pub struct TStore {
    pub node: Boxed<TStoreNode>,
}

/// The forms of a store reference.
#[derive(Drop)]
pub enum TStoreNode {
    /// `object.field`.
    Path(TExpr, FieldId),
    /// `object.*`.
    Star(TExpr),
    /// `array[index]`.
    Elem(TExpr, TExpr),
    /// `array[first..last]`.
    Range(TExpr, TExpr, TExpr),
    /// `array[*]`.
    AllElems(TExpr),
}

/// The joined `assignable` clauses of a case: everything where `all` is set, and else the stores.
#[derive(Drop)]
pub struct TFrame {
    pub by: Place,
    pub all: bool,
    pub stores: List<TStore>,
}

/// A specification case with all omitted clauses filled in (JML Reference Manual 9.6).
///
/// `demands` is the joined `requires`, and `promises` are the `ensures` clauses.
#[derive(Drop)]
pub struct Case {
    pub place: Place,
    pub demands: TExpr,
    pub promises: List<TSpec>,
    pub signals: List<TSignals>,
    pub signals_only: List<TOnly>,
    pub frame: TFrame,
}
