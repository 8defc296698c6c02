//! The facts of an operation.

ghost use Rattle.std.specs.Prelude.{◌≡◌, [], ◌∷◌, ◌++◌, IfOk, OnOk, All, map};
ghost use Rattle.jesc_logic.specs.Terms.{term_at, IsIn, Keeps, StandsFor};
ghost use Rattle.jesc_logic.specs.Claims.{claim_of, IsOver};
ghost use Rattle.jesc_arithmetic.specs.Arithmetic.{whole_of, division_fact, facts_of};
ghost use Rattle.jesc_arithmetic.specs.Operations.{division};
ghost use Rattle.jesc_arithmetic.specs.Rules.{place_term, rule_claim, table_claims, ArePartsIn, Says, Say};
ghost use Rattle.jesc_arithmetic.specs.Walks.{named, IsOverTerms};

use crate::operation::Operation;
use crate::rule::{Parts, Rule, made, rule_formula};
use crate::tables::{PRODUCT, QUOTIENT, REMAINDER};
use jesc_logic::{Formula, FormulaNode, TermError, TermId, Terms};
use jesc_text::List;
use std::alloc::Global;

/// Puts in what is known of an operation.
pub(crate) fn put_facts(
    alloc: Global,
    terms: &mut Terms,
    operation: Operation,
    facts: &mut List<Formula>,
) -> Result<(), TermError>
    requires operation { IsOverTerms terms.old operation }
    requires facts { All (IsOver terms.old) facts.old }
    ensures keeps { Keeps terms.old terms.new }
    ensures put { OnOk result (Say terms.new facts.new (map (claim_of terms.old) facts.old ++ facts_of (named terms.old operation))) }
{
    match operation {
        Operation::Product(x, y) => put_table(alloc, terms, 1, x, y, &PRODUCT, facts),
        Operation::Quotient(x, y) => put_table(alloc, terms, 2, x, y, &QUOTIENT, facts),
        Operation::Remainder(x, y) => put_table(alloc, terms, 3, x, y, &REMAINDER, facts),
        Operation::Division(x, y) => put_division(alloc, terms, x, y, facts),
    }
}

/// Puts in what is known of the quotient and the remainder by a number other than 0.
fn put_division(
    alloc: Global,
    terms: &mut Terms,
    x: TermId,
    y: TermId,
    facts: &mut List<Formula>,
) -> Result<(), TermError>
    requires x { IsIn terms.old x }
    requires y { IsIn terms.old y }
    requires facts { All (IsOver terms.old) facts.old }
    ensures keeps { Keeps terms.old terms.new }
    ensures put { OnOk result (Say terms.new facts.new (map (claim_of terms.old) facts.old ++ facts_of (division (term_at terms.old x) (term_at terms.old y)))) }
{
    let f = division_formula(alloc, terms, x, y)?;
    put(facts, f)?;
    put_table(alloc, terms, 2, x, y, &QUOTIENT, facts)?;
    put_table(alloc, terms, 3, x, y, &REMAINDER, facts)
}

/// Puts in what a table's rules say of a symbol applied to two terms.
fn put_table(
    alloc: Global,
    terms: &mut Terms,
    symbol: u32,
    left: TermId,
    right: TermId,
    rules: &[Rule],
    facts: &mut List<Formula>,
) -> Result<(), TermError>
    requires left { IsIn terms.old left }
    requires right { IsIn terms.old right }
    requires facts { All (IsOver terms.old) facts.old }
    ensures keeps { Keeps terms.old terms.new }
    ensures put { OnOk result (Say terms.new facts.new (map (claim_of terms.old) facts.old ++ table_claims symbol (term_at terms.old left) (term_at terms.old right) rules.now)) }
{
    let outcome = terms.app(symbol, &[left, right])?;
    let parts = Parts {
        left,
        right,
        outcome,
    };
    put_rules(alloc, terms, &parts, rules, facts)
}

/// Puts in what rules say.
fn put_rules(
    alloc: Global,
    terms: &mut Terms,
    parts: &Parts,
    rules: &[Rule],
    facts: &mut List<Formula>,
) -> Result<(), TermError>
    requires parts { ArePartsIn terms.old parts.now }
    requires facts { All (IsOver terms.old) facts.old }
    ensures keeps { Keeps terms.old terms.new }
    ensures put { OnOk result (Say terms.new facts.new (map (claim_of terms.old) facts.old ++ map (rule_claim (place_term terms.old parts.now)) rules.now)) }
{
    for rule in rules {
        let f = rule_formula(alloc, terms, parts, rule)?;
        put(facts, f)?;
    }
    Ok(())
}

/// That a term is the product of a number with the quotient by it, and the remainder.
fn division_formula(
    alloc: Global,
    terms: &mut Terms,
    x: TermId,
    y: TermId,
) -> Result<Formula, TermError>
    requires x { IsIn terms.old x }
    requires y { IsIn terms.old y }
    ensures keeps { Keeps terms.old terms.new }
    ensures says { IfOk result (λ f. Says terms.new f (division_fact (term_at terms.old x) (term_at terms.old y))) }
{
    let whole = make_whole(terms, x, y)?;
    made(alloc, FormulaNode::Eq(x, whole))
}

/// The sum of a number's product with the quotient by it, and the remainder.
fn make_whole(terms: &mut Terms, x: TermId, y: TermId) -> Result<TermId, TermError>
    requires x { IsIn terms.old x }
    requires y { IsIn terms.old y }
    ensures keeps { Keeps terms.old terms.new }
    ensures term { IfOk result (λ id. StandsFor terms.new id (whole_of (term_at terms.old x) (term_at terms.old y))) }
{
    let quotient = terms.app(2, &[x, y])?;
    let remainder = terms.app(3, &[x, y])?;
    let product = terms.app(1, &[y, quotient])?;
    terms.app(0, &[product, remainder])
}

/// Puts in one formula.
fn put(facts: &mut List<Formula>, f: Formula) -> Result<(), TermError>
    ensures { OnOk result (facts.new ≡ facts.old ++ f ∷ []) }
{
    match facts.push(f) {
        Ok(_) => Ok(()),
        Err(_) => Err(TermError::OutOfMemory),
    }
}
