use crate::expr::Expr;
use crate::stmt::ClauseTree;
use crate::word::Word;
use jesc_text::{Boxed, List, Span};

/// A store reference of an `assignable` clause.
#[derive(Debug, Drop)]
pub struct StoreTree {
    pub span: Span,
    pub node: Boxed<StoreNode>,
}

/// The forms of a store reference.
#[derive(Debug, Drop)]
pub enum StoreNode {
    /// `\nothing`.
    Nothing,
    /// `\everything`.
    Everything,
    /// A path that doesn't end in brackets.
    Path(Expr),
    /// `path.*`.
    Star(Expr),
    Elem(Boxed<ElementStore>),
    Range(Boxed<RangeStore>),
    /// `path[*]`.
    AllElems(Expr),
}

/// `array[index]`.
#[derive(Debug, Drop)]
pub struct ElementStore {
    pub array: Expr,
    pub index: Expr,
}

/// `array[first..last]`.
#[derive(Debug, Drop)]
pub struct RangeStore {
    pub array: Expr,
    pub first: Expr,
    pub last: Expr,
}

/// A clause of a case, its `requires` clauses aside.
#[derive(Debug, Drop)]
pub enum SpecClause {
    Ensures(ClauseTree),
    Assignable { word: Word, stores: List<StoreTree> },
    Signals(Boxed<SignalsTree>),
    /// `first` is the first token after `signals_only`.
    SignalsOnly { first: Span, classes: List<Word> },
}

/// `signals (class name) e;`, where the name and the expression may be missing.
#[derive(Debug, Drop)]
pub struct SignalsTree {
    pub word: Word,
    pub bracket: Span,
    pub class: Word,
    pub name: Option<Word>,
    pub e: Option<Expr>,
}

/// A case of a method's specification; `demands` are its `requires` clauses.
#[derive(Debug, Drop)]
pub struct CaseTree {
    pub span: Span,
    pub visibility: Option<Word>,
    pub heading: Option<Word>,
    pub demands: List<ClauseTree>,
    pub clauses: List<SpecClause>,
}

/// A method's specification; `also` tells that it begins with that word.
#[derive(Debug, Drop)]
pub struct SpecTree {
    pub also: bool,
    pub cases: List<CaseTree>,
}
