//! The terms of formulas.

ghost use Rattle.std.specs.Prelude.{◌⊎◌, OnOk};
ghost use Rattle.jesc_logic.specs.Terms.{term_at, IsIn};
ghost use Rattle.jesc_logic.specs.Claims.{at_most, shape, claim_of, IsOver};
ghost use Rattle.jesc_clauses.specs.Merges.{OnWide};
ghost use Rattle.jesc_clauses.specs.Sums.{IsWideIn};
ghost use Rattle.jesc_clauses.specs.Readers.{IsReader};
ghost use Rattle.jesc_clauses.specs.Formulas.{HasReadIn, IsWideInClaim};

use crate::error::ClauseError;
use crate::reader::Reader;
use jesc_logic::{Formula, FormulaNode, TermId, Terms};
use std::alloc::Global;

impl Reader {
    /// Reads the terms of a formula.
    pub(crate) fn read_formula(
        &mut self,
        alloc: Global,
        terms: &Terms,
        f: &Formula,
    ) -> Result<(), ClauseError>
        requires reader { IsReader terms.now self.old.sums self.old.opaques }
        requires there { IsOver terms.now f.now }
        ensures read { OnOk result (HasReadIn terms.now self.old.sums self.new.sums self.old.opaques self.new.opaques (shape f.now)) }
        ensures wide { OnWide (IsWideInClaim (claim_of terms.now f.now)) result }
    {
        match f.node.get() {
            FormulaNode::True => Ok(()),
            FormulaNode::False => Ok(()),
            FormulaNode::Le(a, b) => self.read_two(alloc, terms, *a, *b),
            FormulaNode::Eq(a, b) => self.read_two(alloc, terms, *a, *b),
            FormulaNode::Not(g) => self.read_formula(alloc, terms, g),
            FormulaNode::And(g, h) => {
                self.read_formula(alloc, terms, g)?;
                self.read_formula(alloc, terms, h)
            }
            FormulaNode::Or(g, h) => {
                self.read_formula(alloc, terms, g)?;
                self.read_formula(alloc, terms, h)
            }
        }
    }

    /// Reads the two terms of a comparison.
    fn read_two(
        &mut self,
        alloc: Global,
        terms: &Terms,
        a: TermId,
        b: TermId,
    ) -> Result<(), ClauseError>
        requires reader { IsReader terms.now self.old.sums self.old.opaques }
        requires a { IsIn terms.now a }
        requires b { IsIn terms.now b }
        ensures read { OnOk result (HasReadIn terms.now self.old.sums self.new.sums self.old.opaques self.new.opaques (at_most a b)) }
        ensures wide { OnWide (λ n. IsWideIn (term_at terms.now a) n ⊎ IsWideIn (term_at terms.now b) n) result }
    {
        self.read(alloc, terms, a)?;
        self.read(alloc, terms, b)
    }
}
