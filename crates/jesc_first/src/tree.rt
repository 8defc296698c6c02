use jesc_text::{List, Text};

/// `+` or `-`.
#[derive(Debug, Drop, Clone, Copy, PartialEq, Eq)]
pub enum Operator {
    Plus,
    Minus,
}

/// `<`, `<=`, `>`, `>=` or `==`.
#[derive(Debug, Drop, Clone, Copy, PartialEq, Eq)]
pub enum Comparison {
    Less,
    AtMost,
    Greater,
    AtLeast,
    Equal,
}

/// A number, a parameter or local by its slot, or `\result`.
///
/// Slots count the names in scope from 0: the parameters in order, and then the locals in order.
#[derive(Debug, Drop, Clone, Copy, PartialEq, Eq)]
pub enum Part {
    Number(u32),
    Slot(u32),
    Outcome,
}

/// An operator, its offset in the file, and its right side.
#[derive(Debug, Drop, Clone, Copy, PartialEq, Eq)]
pub struct Operation {
    pub operator: Operator,
    pub at: u32,
    pub part: Part,
}

/// A part, to which operations are applied from left to right.
#[derive(Debug, Drop)]
pub struct Sum {
    pub first: Part,
    pub rest: List<Operation>,
}

/// A comparison of two sums.
#[derive(Debug, Drop)]
pub struct Condition {
    pub left: Sum,
    pub comparison: Comparison,
    pub right: Sum,
}

/// An `ensures` with the offset of its first token after the word.
#[derive(Debug, Drop)]
pub struct Clause {
    pub at: u32,
    pub condition: Condition,
}

/// A statement.
#[derive(Debug, Drop)]
pub enum Stmt {
    /// `int NAME = SUM;`, which makes the next slot.
    Local { name: Text, value: Sum },
    /// `NAME = SUM;`.
    Assign { slot: u32, value: Sum },
    /// `assert CONDITION;` with the offset of the word.
    Assert { at: u32, condition: Condition },
}

/// A static method. It has the result `int` exactly where it returns a value.
#[derive(Debug, Drop)]
pub struct Method {
    pub name: Text,
    pub demands: List<Condition>,
    pub promises: List<Clause>,
    pub parameters: List<Text>,
    pub body: List<Stmt>,
    pub value: Option<Sum>,
    /// The offset of the word `return`, or of the closing brace of a `void` method.
    pub exit: u32,
}

/// A class with its methods in order.
#[derive(Debug, Drop)]
pub struct Class {
    pub name: Text,
    pub methods: List<Method>,
}
