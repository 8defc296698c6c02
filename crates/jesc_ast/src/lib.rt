//! The trees that the grammar of annotated Java gives to a text, each node with its span, and that grammar.
//!
//! There is no code here but the trees themselves. Read `word`, `expr`, `stmt`, `spec` and `class` for them, and `laws`
//! for what holds of the definitions.
//!
//! The definitions, in reading order: `Lexemes` and `Words` are what the grammar is about; `Trees`, `SpecTrees` and
//! `FileTrees` are the trees as plain data; `Expressions`, `Statements`, `Specifications` and `Members` say which lexemes
//! spell a tree, and are the grammar; `Depth` and `LeftOut` serve its limits and refusals. `Lines` gives places by the
//! lines of a text, and `Spelled` the texts of a tree's tokens. A newcomer starts with `Expressions`, and ends with
//! `SpellsFile` in `Members`. `specs/laws` has what is proved of these definitions, for upper crates too.
#![tactic(auto)]

mod class;
mod expr;
mod laws;
mod spec;
mod stmt;
mod word;

pub use class::{
    ClassTree, ConstructorTree, FieldTree, File, InvariantTree, MemberNode, MemberTree, MethodTree,
    ParamTree, RepresentsTree,
};
pub use expr::{
    ArrayAccess, ArrayCreation, BinaryExpr, CastExpr, Conditional, Expr, ExprNode, InstanceTest,
    MemberAccess, MethodCall, ObjectCreation, Quantifier, Receiver, UnaryExpr,
};
pub use laws::{
    expressions_are_spelled, files_are_spelled, lines_rise, members_are_spelled, places_are_one,
    specifications_are_spelled, statements_are_spelled, units_are_spelled,
};
pub use spec::{
    CaseTree, ElementStore, RangeStore, SignalsTree, SpecClause, SpecTree, StoreNode, StoreTree,
};
pub use stmt::{
    AssignTree, BodyTree, CatchTree, ClauseTree, ForTree, GhostTree, IfTree, LocalTree, SetTree,
    Stmt, StmtNode, TryTree, WhileTree,
};
pub use word::{TypeTree, Word};
