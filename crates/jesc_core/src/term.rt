//! Terms and formulas of a core, over whole numbers and heaps.

ghost use Rattle.std.specs.Prelude.{◌≡◌, IfOk};
ghost use Rattle.jesc_core.specs.Trees.{term_view, term_node_view, formula_view, formula_node_view};

use jesc_logic::Sort;
use jesc_text::{Boxed, List, OutOfMemory};
use std::alloc::Global;

/// The present heap, or the one that was kept under a number.
#[derive(Debug, Drop, Clone, Copy, PartialEq, Eq)]
pub enum HeapName {
    Present,
    Kept(u32),
}

/// A term, whose value is a whole number.
#[cycle(core_formula)]
#[derive(Drop)]
pub struct CoreTerm {
    pub node: Boxed<CoreTermNode>,
}

/// The forms of a term.
#[cycle(core_formula)]
#[derive(Drop)]
pub enum CoreTermNode {
    Num(i128),
    /// A core variable.
    Var(u32),
    /// A symbol of a structure over arguments: 0 to 3 are sum, product, quotient and remainder, 5 and 6 the dynamic type
    /// and the length of an object, 9 a local at a choice, 10 `this`, 11 the result and 12 the exception of a choice.
    App(u32, List<CoreTerm>),
    /// A field of an object.
    Field(HeapName, u32, CoreTerm),
    /// The element of an array at an index.
    Elem(HeapName, CoreTerm, CoreTerm),
    /// The number of the next new object.
    Top(HeapName),
    /// The mark that tells whether an object is built: 1 where it is.
    Built(HeapName, CoreTerm),
    /// The first term where the formula is true, and else the second.
    Choose(CoreFormula, CoreTerm, CoreTerm),
}

/// A formula over terms.
#[cycle(core_formula)]
#[derive(Drop)]
pub struct CoreFormula {
    pub node: Boxed<CoreFormulaNode>,
}

/// The forms of a formula.
#[cycle(core_formula)]
#[derive(Drop)]
pub enum CoreFormulaNode {
    True,
    False,
    /// The first term is at most the second.
    Le(CoreTerm, CoreTerm),
    Eq(CoreTerm, CoreTerm),
    Not(CoreFormula),
    And(CoreFormula, CoreFormula),
    Or(CoreFormula, CoreFormula),
    /// The body is true at each number of the range.
    All(CoreRange),
    /// The body is true at some number of the range.
    Any(CoreRange),
}

/// The whole numbers from `low` to `high`, each as the value of a variable of a formula.
///
/// `low` and `high` are read before the variable gets its value.
#[cycle(core_formula)]
#[derive(Drop)]
pub struct CoreRange {
    pub variable: u32,
    /// What the variable stands for, a number or a reference.
    pub sort: Sort,
    pub low: CoreTerm,
    pub high: CoreTerm,
    pub body: CoreFormula,
}

impl CoreTerm {
    /// The term of a node. Answers `OutOfMemory` where there is no room for it.
    pub fn new(alloc: Global, node: CoreTermNode) -> Result<CoreTerm, OutOfMemory>
        ensures { IfOk result (λ t. term_view t ≡ term_node_view node) }
    {
        let node = Boxed::new(alloc, node)?;
        Ok(CoreTerm { node })
    }
}

impl CoreFormula {
    /// The formula of a node. Answers `OutOfMemory` where there is no room for it.
    pub fn new(alloc: Global, node: CoreFormulaNode) -> Result<CoreFormula, OutOfMemory>
        ensures { IfOk result (λ f. formula_view f ≡ formula_node_view node) }
    {
        let node = Boxed::new(alloc, node)?;
        Ok(CoreFormula { node })
    }
}
