//! The operations in formulas, each once.

ghost use Rattle.std.specs.Prelude.{◌≡◌, [], ◌∷◌, ◌++◌, OnOk, All};
ghost use Rattle.std.specs.List.{flat_map};
ghost use Rattle.jesc_logic.specs.Terms.{term_at, IsIn};
ghost use Rattle.jesc_logic.specs.Claims.{claim_of, IsOver};
ghost use Rattle.jesc_arithmetic.specs.Occurrences.{terms_within, terms_in};
ghost use Rattle.jesc_arithmetic.specs.Walks.{parts_of, IsWalk, HasFound, HasWalked, HasSeen};

use crate::operation::{Operation, find_operation};
use indexmap::IndexSet;
use jesc_logic::{Formula, FormulaNode, Node, TermId, Terms};
use jesc_text::OutOfMemory;
use std::alloc::Global;

/// A walk over formulas: the terms that it has seen, and the operations among them in order. A term is walked once.
#[derive(Drop)]
pub(crate) struct Walk {
    pub seen: IndexSet<TermId>,
    pub operations: IndexSet<Operation>,
}

impl Walk {
    /// Nothing has been walked.
    pub(crate) fn new(alloc: Global, terms: &Terms) -> Walk
        ensures walk { IsWalk terms.now result }
        ensures none { result.operations.keys ≡ [] }
    {
        // the call brings the table's invariant into the proof
        let _count = terms.len();
        Walk {
            seen: IndexSet::new(alloc),
            operations: IndexSet::new(alloc),
        }
    }

    /// Walks the terms of a formula.
    pub(crate) fn walk_formula(&mut self, terms: &Terms, f: &Formula) -> Result<(), OutOfMemory>
        requires walk { IsWalk terms.now self.old }
        requires there { IsOver terms.now f.now }
        ensures { OnOk result (HasWalked terms.now self.old self.new (terms_in (claim_of terms.now f.now))) }
    {
        match f.node.get() {
            FormulaNode::True => Ok(()),
            FormulaNode::False => Ok(()),
            FormulaNode::Le(a, b) => self.walk_two(terms, *a, *b),
            FormulaNode::Eq(a, b) => self.walk_two(terms, *a, *b),
            FormulaNode::Not(g) => self.walk_formula(terms, g),
            FormulaNode::And(g, h) => {
                self.walk_formula(terms, g)?;
                self.walk_formula(terms, h)
            }
            FormulaNode::Or(g, h) => {
                self.walk_formula(terms, g)?;
                self.walk_formula(terms, h)
            }
        }
    }

    /// Walks the two terms of a comparison.
    fn walk_two(&mut self, terms: &Terms, a: TermId, b: TermId) -> Result<(), OutOfMemory>
        requires walk { IsWalk terms.now self.old }
        requires a { IsIn terms.now a }
        requires b { IsIn terms.now b }
        ensures { OnOk result (HasWalked terms.now self.old self.new (terms_within (term_at terms.now a) ++ terms_within (term_at terms.now b))) }
    {
        self.walk_term(terms, a)?;
        self.walk_term(terms, b)
    }

    /// Walks a term and its parts, if it hasn't been seen.
    fn walk_term(&mut self, terms: &Terms, id: TermId) -> Result<(), OutOfMemory>
        requires walk { IsWalk terms.now self.old }
        requires there { IsIn terms.now id }
        ensures { OnOk result (HasWalked terms.now self.old self.new (terms_within (term_at terms.now id))) }
    {
        if self.seen.contains(&id) {
            return Ok(());
        }
        match terms.node(id) {
            Node::Num(_) => self.leave(terms, id),
            Node::App { arity, a, b, c, .. } => {
                let places = [a, b, c];
                let parts = &places[..arity as usize];
                for part in parts {
                    self.walk_term(terms, *part)?;
                }
                self.leave(terms, id)
            }
        }
    }

    /// Ends the walk of a term whose parts have been walked.
    fn leave(&mut self, terms: &Terms, id: TermId) -> Result<(), OutOfMemory>
        requires walk { IsWalk terms.now self.old }
        requires there { IsIn terms.now id }
        requires parts { HasFound terms.now self.old (flat_map terms_within (parts_of (term_at terms.now id))) }
        ensures { OnOk result (HasWalked terms.now self.old self.new (term_at terms.now id ∷ [])) }
    {
        self.put_operation(terms, id)?;
        self.put_seen(id)
    }

    /// Puts in the operation of a term, if there is one that isn't there yet.
    fn put_operation(&mut self, terms: &Terms, id: TermId) -> Result<(), OutOfMemory>
        requires walk { IsWalk terms.now self.old }
        requires there { IsIn terms.now id }
        ensures walked { OnOk result (HasWalked terms.now self.old self.new (term_at terms.now id ∷ [])) }
        ensures seen { self.new.seen ≡ self.old.seen }
    {
        match find_operation(terms, id) {
            None => Ok(()),
            Some(operation) => match self.operations.insert(operation) {
                Ok(_) => Ok(()),
                Err(_) => Err(OutOfMemory),
            },
        }
    }

    /// Notes that a term has been seen.
    fn put_seen(&mut self, id: TermId) -> Result<(), OutOfMemory>
        ensures { OnOk result (HasSeen self.old self.new id) }
    {
        match self.seen.insert(id) {
            Ok(_) => Ok(()),
            Err(_) => Err(OutOfMemory),
        }
    }
}
