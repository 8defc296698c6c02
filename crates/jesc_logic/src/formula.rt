//! Formulas.

ghost use Rattle.std.specs.Prelude.{◌≡◌, IfOk};
ghost use Rattle.jesc_logic.specs.Claims.{shape, node_shape};

use crate::terms::TermId;
use jesc_text::{Boxed, OutOfMemory};
use std::alloc::Global;

/// A formula over terms by number.
#[cycle(formula)]
#[derive(Debug, Drop)]
pub struct Formula {
    pub node: Boxed<FormulaNode>,
}

/// The forms of a formula.
#[cycle(formula)]
#[derive(Debug, Drop)]
pub enum FormulaNode {
    True,
    False,
    /// The first term is at most the second.
    Le(TermId, TermId),
    Eq(TermId, TermId),
    Not(Formula),
    And(Formula, Formula),
    Or(Formula, Formula),
}

impl Formula {
    /// The formula of a node. Answers `OutOfMemory` where there is no room for it.
    pub fn new(alloc: Global, node: FormulaNode) -> Result<Formula, OutOfMemory>
        ensures { IfOk result (λ f. shape f ≡ node_shape node) }
    {
        let node = Boxed::new(alloc, node)?;
        Ok(Formula { node })
    }
}
