//! Where an expression stands.

use jesc_classes::Table;
use jesc_meanings::Names;
use jesc_tree::{ClassId, LocalId, Ty};

/// What may be said of `this` in a member.
#[derive(Debug, Drop, Clone, Copy, PartialEq, Eq)]
pub enum This {
    /// Nothing: in a static method, and in the arguments of `super(..)`.
    Absent,
    /// It stands only before a dot or is implied: in a constructor, an instance helper, the initial value of a field and
    /// a represents clause, and in the specifications of these.
    Guarded,
    /// It may stand anywhere.
    Free,
}

/// A local in scope: a parameter, a local variable, or the name of a `catch` or `signals` clause.
#[derive(Debug, Drop, Clone, Copy, PartialEq, Eq)]
pub struct Binding {
    pub local: LocalId,
    pub ty: Ty,
    pub is_parameter: bool,
    pub is_final: bool,
    pub is_ghost: bool,
}

/// What an expression is to the part around it.
#[derive(Debug, Drop, Clone, Copy, PartialEq, Eq)]
pub enum Role {
    /// An operand, an argument, an index, a condition or anything else that is not one of the others.
    Operand,
    /// The whole initial, assigned, returned or thrown value, or a call statement.
    Whole,
    /// What stands before a dot.
    Qualifier,
    /// What stands directly behind a minus sign.
    Negated,
    /// The target of an assignment, whose own rules the statement looks at.
    Target,
}

/// The member that an expression stands in.
#[derive(Drop, Clone, Copy)]
pub struct Site<'a> {
    /// The program and what its names mean.
    pub names: &'a Names<'a>,
    /// Where the lines of the member's file begin.
    pub lines: &'a [u32],
    /// The member's class.
    pub class: ClassId,
    /// Whether it is code, and else a specification.
    pub is_code: bool,
    pub this: This,
    /// The type of `\result`, where that may stand.
    pub result: Option<Ty>,
    /// Whether `\old` and `\fresh` may stand.
    pub has_past: bool,
    /// The locals in scope, in the order of their declarations, which is that of their numbers.
    pub locals: &'a Table<'a, Binding>,
}

/// What stands around an expression in its member.
#[derive(Drop, Clone, Copy)]
pub struct Position<'a> {
    /// The variables of the quantifiers around it, the innermost last.
    pub variables: &'a [&'a [u8]],
    /// Whether it stands inside `\old`.
    pub in_old: bool,
    pub role: Role,
}
