//! Instances of facts.

ghost use Rattle.std.specs.Prelude.{◌≡◌, ◌≤◌, IfOk, All, length, Some, nat_le};
ghost use Rattle.jesc_logic.specs.Terms.{term_at, constant, IsIn, StandsFor, Keeps, AreApart};
ghost use Rattle.jesc_logic.specs.Claims.{IsOver, claim_of, shape, node_shape};
ghost use Rattle.jesc_logic.specs.Structures.{Structure, is_true, assigned};
ghost use Rattle.jesc_logic.specs.Making.{chosen};
ghost use Rattle.jesc_logic.specs.Substitution.{put, terms_at, IsInstance, Puts};

use crate::fact::Fact;
use crate::formula::{Formula, FormulaNode};
use crate::terms::{Node, TermError, TermId, Terms};

impl Terms {
    /// The fact's body with a term in the place of each variable.
    pub fn instantiate(&mut self, fact: &Fact, args: &[TermId]) -> Result<Formula, TermError>
        requires few { length fact.now.vars ≤ 32 }
        requires count { length args.now ≡ length fact.now.vars }
        requires body { IsOver self.old fact.now.body }
        requires args { All (IsIn self.old) args.now }
        ensures keeps { Keeps self.old self.new }
        ensures apart { AreApart self.new }
        ensures instance { IfOk result (λ f. IsInstance self.old self.new args.now fact.now.body f) }
        ensures truth { (s : Structure) → IfOk result (λ f. is_true s (claim_of self.new f) ≡ is_true (assigned s (terms_at self.old args.now)) (claim_of self.old fact.now.body)) }
    {
        self.formula_with(&fact.body, args)
    }

    /// The formula with a term in the place of each variable.
    fn formula_with(&mut self, f: &Formula, args: &[TermId]) -> Result<Formula, TermError>
        requires few { length args.now ≤ 32 }
        requires f { IsOver self.old f.now }
        requires args { All (IsIn self.old) args.now }
        ensures keeps { Keeps self.old self.new }
        ensures apart { AreApart self.new }
        ensures instance { IfOk result (λ g. IsInstance self.old self.new args.now f.now g) }
    {
        match f.node.get() {
            FormulaNode::True => self.made(FormulaNode::True),
            FormulaNode::False => self.made(FormulaNode::False),
            FormulaNode::Le(a, b) => {
                let a = self.term_with(*a, args)?;
                let b = self.term_with(*b, args)?;
                self.made(FormulaNode::Le(a, b))
            }
            FormulaNode::Eq(a, b) => {
                let a = self.term_with(*a, args)?;
                let b = self.term_with(*b, args)?;
                self.made(FormulaNode::Eq(a, b))
            }
            FormulaNode::Not(g) => {
                let g = self.formula_with(g, args)?;
                self.made(FormulaNode::Not(g))
            }
            FormulaNode::And(g, h) => {
                let g = self.formula_with(g, args)?;
                let h = self.formula_with(h, args)?;
                self.made(FormulaNode::And(g, h))
            }
            FormulaNode::Or(g, h) => {
                let g = self.formula_with(g, args)?;
                let h = self.formula_with(h, args)?;
                self.made(FormulaNode::Or(g, h))
            }
        }
    }

    /// The formula of a node.
    fn made(&self, node: FormulaNode) -> Result<Formula, TermError>
        ensures shape { IfOk result (λ f. shape f ≡ node_shape node) }
        ensures apart { AreApart self.now }
    {
        let _count = self.len();
        match Formula::new(self.allocator(), node) {
            Ok(f) => Ok(f),
            Err(_) => Err(TermError::OutOfMemory),
        }
    }

    /// The term with a term in the place of each variable.
    fn term_with(&mut self, id: TermId, args: &[TermId]) -> Result<TermId, TermError>
        requires few { length args.now ≤ 32 }
        requires id { IsIn self.old id }
        requires args { All (IsIn self.old) args.now }
        ensures keeps { Keeps self.old self.new }
        ensures apart { AreApart self.new }
        ensures term { IfOk result (λ r. StandsFor self.new r (put (terms_at self.old args.now) (term_at self.old id))) }
    {
        if !self.is_open(id) {
            return Ok(id);
        }
        match self.node(id) {
            Node::Num(_) => Ok(id),
            Node::App {
                symbol,
                arity,
                a,
                b,
                c,
            } => {
                if arity == 0 {
                    return Ok(variable(symbol, args, id));
                }
                let a = self.term_with(a, args)?;
                if arity == 1 {
                    return self.app(symbol, &[a]);
                }
                let b = self.term_with(b, args)?;
                if arity == 2 {
                    return self.app(symbol, &[a, b]);
                }
                let c = self.term_with(c, args)?;
                self.app(symbol, &[a, b, c])
            }
        }
    }
}

/// The argument of a symbol that is a variable, and else the number itself.
fn variable(symbol: u32, args: &[TermId], id: TermId) -> TermId
    ensures { result ≡ chosen symbol args.now id }
{
    if symbol < 32 {
        return id;
    }
    match args.get(symbol as usize - 32) {
        Some(arg) => *arg,
        None => id,
    }
}
