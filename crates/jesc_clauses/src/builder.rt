//! Formulas as clauses, by literals that are defined.

ghost use Rattle.std.specs.Prelude.{◌≡◌, ℕ, ◌<◌, [], ◌∷◌, length, map, All, IfOk, OnOk, ◌^◌, ◌*◌};
ghost use Rattle.jesc_logic.specs.Terms.{Keeps};
ghost use Rattle.jesc_logic.specs.Claims.{at_most as at_most_claim, node_count, shape};
ghost use Rattle.jesc_clauses.specs.Builders.{AreNarrowAt, AreSums, IsAsserted, IsAtomPut, IsBoth, IsBuilt, IsClausePut, IsTermPut, IsTold, IsTruth, IsWideAt, IsWideOneAt, Tells, turned};
ghost use Rattle.jesc_clauses.specs.declared.builder.Truth.TheVariants.{Literal};
ghost use Rattle.jesc_clauses.specs.Clausified.{IsLiteral};
ghost use Rattle.jesc_clauses.specs.Formulas.{HasSums};
ghost use Rattle.jesc_clauses.specs.Merges.{OnWide};
ghost use Rattle.jesc_clauses.specs.Readers.{HasSum};

use crate::atom::Atom;
use crate::clause::{Clause, Opaque};
use crate::comparison::at_most;
use crate::error::ClauseError;
use crate::lin::Lin;
use crate::normal::Normal;
use crate::sum_table::SumTable;
use jesc_logic::{Formula, FormulaNode, TermId, Terms};
use jesc_text::{List, OutOfMemory};
use std::alloc::Global;

/// What a formula comes to: a constant, or the literal k of atom k - 1, or -k of its negation.
#[derive(Debug, Drop, Clone, Copy, PartialEq, Eq)]
pub enum Truth {
    Constant(bool),
    Literal(i32),
}

/// Atoms and clauses over opaque terms. A literal that stands for a conjunction is an atom over a term of its own: a symbol
/// that no formula has, over the term's number.
#[derive(Drop)]
pub(crate) struct Builder {
    /// The symbol of defined terms.
    pub symbol: u32,
    /// How many terms were read. The first defined term has this number.
    pub first: u32,
    /// The terms by number, first those that were read and then those that are defined.
    pub opaques: List<Opaque>,
    pub atoms: List<Atom>,
    pub clauses: List<Clause>,
}

impl Builder {
    /// Puts in that each of the formulas is true. The terms that are there keep their numbers.
    pub(crate) fn assert_all(
        &mut self,
        alloc: Global,
        terms: &mut Terms,
        sums: &SumTable,
        formulas: &[Formula],
    ) -> Result<(), ClauseError>
        requires built { IsBuilt terms.old self.old }
        requires sums { AreSums self.old.first sums.now }
        requires have { All (λ f. HasSums sums.now (shape f)) formulas.now }
        ensures keeps { Keeps terms.old terms.new }
        ensures asserted { OnOk result (IsAsserted sums.now terms.new self.old self.new (map shape formulas.now)) }
        ensures narrow { OnOk result (All (AreNarrowAt sums.now) (map shape formulas.now)) }
        ensures wide { OnWide (IsWideOneAt sums.now (map shape formulas.now)) result }
    {
        for f in formulas {
            self.assert(alloc, terms, sums, f)?;
        }
        Ok(())
    }

    /// Puts in that the formula is true.
    fn assert(
        &mut self,
        alloc: Global,
        terms: &mut Terms,
        sums: &SumTable,
        f: &Formula,
    ) -> Result<(), ClauseError>
        requires built { IsBuilt terms.old self.old }
        requires sums { AreSums self.old.first sums.now }
        requires have { HasSums sums.now (shape f.now) }
        ensures keeps { Keeps terms.old terms.new }
        ensures asserted { OnOk result (IsAsserted sums.now terms.new self.old self.new (shape f.now ∷ [])) }
        ensures narrow { OnOk result (AreNarrowAt sums.now (shape f.now)) }
        ensures wide { OnWide (IsWideAt sums.now (shape f.now)) result }
    {
        match self.truth_of(alloc, terms, sums, f)? {
            Truth::Constant(true) => Ok(()),
            Truth::Constant(false) => Ok(self.put_clause(alloc, &[])?),
            Truth::Literal(literal) => Ok(self.put_clause(alloc, &[literal])?),
        }
    }

    /// The constant or the literal that the formula comes to.
    fn truth_of(
        &mut self,
        alloc: Global,
        terms: &mut Terms,
        sums: &SumTable,
        f: &Formula,
    ) -> Result<Truth, ClauseError>
        requires built { IsBuilt terms.old self.old }
        requires sums { AreSums self.old.first sums.now }
        requires have { HasSums sums.now (shape f.now) }
        ensures keeps { Keeps terms.old terms.new }
        ensures told { IfOk result (IsTold terms.new self.old self.new (13 * node_count (shape f.now))) }
        ensures tells { IfOk result (λ truth. Tells sums.now self.new truth (shape f.now)) }
        ensures narrow { IfOk result (λ truth. AreNarrowAt sums.now (shape f.now)) }
        ensures wide { OnWide (IsWideAt sums.now (shape f.now)) result }
    {
        match f.node.get() {
            FormulaNode::True => Ok(Truth::Constant(true)),
            FormulaNode::False => Ok(Truth::Constant(false)),
            FormulaNode::Le(a, b) => self.comparison(alloc, terms, sums, *a, *b),
            FormulaNode::Eq(a, b) => {
                let first = self.comparison(alloc, terms, sums, *a, *b)?;
                let second = self.comparison(alloc, terms, sums, *b, *a)?;
                Ok(self.both(alloc, terms, first, second)?)
            }
            FormulaNode::Not(g) => Ok(negated(self.truth_of(alloc, terms, sums, g)?)),
            FormulaNode::And(g, h) => {
                let first = self.truth_of(alloc, terms, sums, g)?;
                let second = self.truth_of(alloc, terms, sums, h)?;
                Ok(self.both(alloc, terms, first, second)?)
            }
            FormulaNode::Or(g, h) => {
                let first = negated(self.truth_of(alloc, terms, sums, g)?);
                let second = negated(self.truth_of(alloc, terms, sums, h)?);
                Ok(negated(self.both(alloc, terms, first, second)?))
            }
        }
    }

    /// The constant or the literal that 'the first term is at most the second' comes to.
    fn comparison(
        &mut self,
        alloc: Global,
        terms: &Terms,
        sums: &SumTable,
        a: TermId,
        b: TermId,
    ) -> Result<Truth, ClauseError>
        requires built { IsBuilt terms.now self.old }
        requires sums { AreSums self.old.first sums.now }
        requires a { HasSum sums.now a.0 }
        requires b { HasSum sums.now b.0 }
        ensures told { IfOk result (IsTold terms.now self.old self.new 1) }
        ensures tells { IfOk result (λ truth. Tells sums.now self.new truth (at_most_claim a b)) }
        ensures narrow { IfOk result (λ truth. AreNarrowAt sums.now (at_most_claim a b)) }
        ensures wide { OnWide (IsWideAt sums.now (at_most_claim a b)) result }
    {
        let normal = match (sums.get(a.0), sums.get(b.0)) {
            (Some(a), Some(b)) => at_most(alloc, a, b)?,
            _ => unreachable!(),
        };
        match normal {
            Normal::Constant(truth) => Ok(Truth::Constant(truth)),
            Normal::Holds(atom) => Ok(Truth::Literal(self.put_atom(atom)?)),
            Normal::Fails(atom) => Ok(Truth::Literal(-self.put_atom(atom)?)),
        }
    }

    /// Puts in an atom, and answers its literal.
    fn put_atom(&mut self, atom: Atom) -> Result<i32, OutOfMemory>
        ensures { IfOk result (IsAtomPut self.old self.new atom) }
    {
        let count = self.atoms.len();
        if count >= 0x7fff_fffe {
            return Err(OutOfMemory);
        }
        self.atoms.push(atom)?;
        Ok(count as i32 + 1)
    }

    /// The conjunction of two.
    fn both(
        &mut self,
        alloc: Global,
        terms: &mut Terms,
        first: Truth,
        second: Truth,
    ) -> Result<Truth, OutOfMemory>
        requires built { IsBuilt terms.old self.old }
        requires first { IsTruth (length self.old.atoms) first }
        requires second { IsTruth (length self.old.atoms) second }
        ensures keeps { Keeps terms.old terms.new }
        ensures told { IfOk result (IsTold terms.new self.old self.new 11) }
        ensures tells { IfOk result (IsBoth self.new first second) }
    {
        match (first, second) {
            (Truth::Constant(true), _) => Ok(second),
            (Truth::Constant(false), _) => Ok(first),
            (_, Truth::Constant(true)) => Ok(first),
            (_, Truth::Constant(false)) => Ok(second),
            (Truth::Literal(a), Truth::Literal(b)) => self.defined(alloc, terms, a, b),
        }
    }

    /// A literal that is true where two literals are.
    fn defined(
        &mut self,
        alloc: Global,
        terms: &mut Terms,
        a: i32,
        b: i32,
    ) -> Result<Truth, OutOfMemory>
        requires built { IsBuilt terms.old self.old }
        requires a { IsLiteral (length self.old.atoms) a }
        requires b { IsLiteral (length self.old.atoms) b }
        ensures keeps { Keeps terms.old terms.new }
        ensures told { IfOk result (IsTold terms.new self.old self.new 11) }
        ensures tells { IfOk result (IsBoth self.new (Literal a) (Literal b)) }
    {
        let form = self.put_term(alloc, terms)?;
        let d = self.put_atom(Atom { form, bound: 0 })?;
        self.put_clause(alloc, &[-d, a])?;
        self.put_clause(alloc, &[-d, b])?;
        self.put_clause(alloc, &[d, -a, -b])?;
        Ok(Truth::Literal(d))
    }

    /// Puts in a term that no formula has, and answers its form.
    fn put_term(
        &mut self,
        alloc: Global,
        terms: &mut Terms,
    ) -> Result<List<(i64, u32)>, OutOfMemory>
        requires { length self.old.opaques < 2 ^ 32 }
        ensures keeps { Keeps terms.old terms.new }
        ensures put { IfOk result (IsTermPut terms.new self.old self.new) }
    {
        let number = self.opaques.len();
        if number >= 0xffff_ffff {
            return Err(OutOfMemory);
        }
        let Ok(id) = terms.num(number as i128) else {
            return Err(OutOfMemory);
        };
        let Ok(id) = terms.app(self.symbol, &[id]) else {
            return Err(OutOfMemory);
        };
        let mut args = List::new(alloc);
        args.push(Lin {
            form: List::new(alloc),
            constant: number as i128,
        })?;
        let symbol = self.symbol;
        self.opaques.push(Opaque { id, symbol, args })?;
        let mut form = List::new(alloc);
        form.push((1, number as u32))?;
        Ok(form)
    }

    /// Puts in a clause of these literals.
    fn put_clause(&mut self, alloc: Global, literals: &[i32]) -> Result<(), OutOfMemory>
        ensures { OnOk result (IsClausePut self.old self.new literals.now) }
    {
        let mut clause = Clause::new(alloc);
        for literal in literals {
            clause.push(*literal)?;
        }
        self.clauses.push(clause)
    }
}

/// The negation.
fn negated(truth: Truth) -> Truth
    requires { (count : ℕ) × (IsTruth count truth × (count < 2 ^ 31)) }
    ensures { result ≡ turned truth }
{
    match truth {
        Truth::Constant(truth) => Truth::Constant(!truth),
        Truth::Literal(literal) => Truth::Literal(-literal),
    }
}
