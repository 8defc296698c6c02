//! Facts as data: a rule says of any operation what one of its facts says.

ghost use Rattle.std.specs.Prelude.{◌≡◌, IfOk};
ghost use Rattle.jesc_logic.specs.Terms.{term_at, IsIn, Keeps, StandsFor};
ghost use Rattle.jesc_logic.specs.Claims.{shape, node_shape};
ghost use Rattle.jesc_arithmetic.specs.Arithmetic.{minus};
ghost use Rattle.jesc_arithmetic.specs.Rules.{place_term, comparison_claim, joint_claim, rule_claim, ArePartsIn, Says};

use jesc_logic::{Formula, FormulaNode, TermError, TermId, Terms};
use std::alloc::Global;

/// A term that an operation's facts speak of: its left or right term, one of these with its sign turned, its result, or
/// a number.
#[derive(Drop, Clone, Copy)]
pub(crate) enum Place {
    Left,
    Right,
    MinusLeft,
    MinusRight,
    Outcome,
    Zero,
    One,
    MinusOne,
}

/// How two terms compare.
#[derive(Drop, Clone, Copy)]
pub(crate) enum Comparison {
    AtMost(Place, Place),
    Below(Place, Place),
    Is(Place, Place),
    IsNot(Place, Place),
}

/// One comparison or two.
#[derive(Drop, Clone, Copy)]
pub(crate) enum Joint {
    One(Comparison),
    Both(Comparison, Comparison),
    Either(Comparison, Comparison),
}

/// Where the premise holds, so does the conclusion.
#[derive(Drop, Clone, Copy)]
pub(crate) struct Rule {
    pub premise: Joint,
    pub conclusion: Joint,
}

/// The two terms of an operation and its result.
#[derive(Drop, Clone, Copy)]
pub(crate) struct Parts {
    pub left: TermId,
    pub right: TermId,
    pub outcome: TermId,
}

/// What a rule says of an operation.
pub(crate) fn rule_formula(
    alloc: Global,
    terms: &mut Terms,
    parts: &Parts,
    rule: &Rule,
) -> Result<Formula, TermError>
    requires { ArePartsIn terms.old parts.now }
    ensures keeps { Keeps terms.old terms.new }
    ensures says { IfOk result (λ f. Says terms.new f (rule_claim (place_term terms.old parts.now) rule.now)) }
{
    let premise = joint_formula(alloc, terms, parts, &rule.premise)?;
    let fails = made(alloc, FormulaNode::Not(premise))?;
    let conclusion = joint_formula(alloc, terms, parts, &rule.conclusion)?;
    made(alloc, FormulaNode::Or(fails, conclusion))
}

/// What one comparison or two say.
fn joint_formula(
    alloc: Global,
    terms: &mut Terms,
    parts: &Parts,
    joint: &Joint,
) -> Result<Formula, TermError>
    requires { ArePartsIn terms.old parts.now }
    ensures keeps { Keeps terms.old terms.new }
    ensures says { IfOk result (λ f. Says terms.new f (joint_claim (place_term terms.old parts.now) joint.now)) }
{
    match joint {
        Joint::One(a) => comparison_formula(alloc, terms, parts, a),
        Joint::Both(a, b) => {
            let f = comparison_formula(alloc, terms, parts, a)?;
            let g = comparison_formula(alloc, terms, parts, b)?;
            made(alloc, FormulaNode::And(f, g))
        }
        Joint::Either(a, b) => {
            let f = comparison_formula(alloc, terms, parts, a)?;
            let g = comparison_formula(alloc, terms, parts, b)?;
            made(alloc, FormulaNode::Or(f, g))
        }
    }
}

/// What a comparison says.
fn comparison_formula(
    alloc: Global,
    terms: &mut Terms,
    parts: &Parts,
    comparison: &Comparison,
) -> Result<Formula, TermError>
    requires { ArePartsIn terms.old parts.now }
    ensures keeps { Keeps terms.old terms.new }
    ensures says { IfOk result (λ f. Says terms.new f (comparison_claim (place_term terms.old parts.now) comparison.now)) }
{
    match comparison {
        Comparison::AtMost(a, b) => at_most(alloc, terms, parts, *a, *b),
        Comparison::Below(a, b) => {
            let f = at_most(alloc, terms, parts, *b, *a)?;
            made(alloc, FormulaNode::Not(f))
        }
        Comparison::Is(a, b) => equal(alloc, terms, parts, *a, *b),
        Comparison::IsNot(a, b) => {
            let f = equal(alloc, terms, parts, *a, *b)?;
            made(alloc, FormulaNode::Not(f))
        }
    }
}

/// That one term is at most another.
fn at_most(
    alloc: Global,
    terms: &mut Terms,
    parts: &Parts,
    a: Place,
    b: Place,
) -> Result<Formula, TermError>
    requires { ArePartsIn terms.old parts.now }
    ensures keeps { Keeps terms.old terms.new }
    ensures says { IfOk result (λ f. Says terms.new f (comparison_claim (place_term terms.old parts.now) (Comparison.AtMost a b))) }
{
    let x = term_of(terms, parts, a)?;
    let y = term_of(terms, parts, b)?;
    made(alloc, FormulaNode::Le(x, y))
}

/// That one term is equal to another.
fn equal(
    alloc: Global,
    terms: &mut Terms,
    parts: &Parts,
    a: Place,
    b: Place,
) -> Result<Formula, TermError>
    requires { ArePartsIn terms.old parts.now }
    ensures keeps { Keeps terms.old terms.new }
    ensures says { IfOk result (λ f. Says terms.new f (comparison_claim (place_term terms.old parts.now) (Comparison.Is a b))) }
{
    let x = term_of(terms, parts, a)?;
    let y = term_of(terms, parts, b)?;
    made(alloc, FormulaNode::Eq(x, y))
}

/// The term at a place.
fn term_of(terms: &mut Terms, parts: &Parts, place: Place) -> Result<TermId, TermError>
    requires { ArePartsIn terms.old parts.now }
    ensures keeps { Keeps terms.old terms.new }
    ensures term { IfOk result (λ id. StandsFor terms.new id (place_term terms.old parts.now place)) }
{
    match place {
        Place::Left => Ok(parts.left),
        Place::Right => Ok(parts.right),
        Place::Outcome => Ok(parts.outcome),
        Place::MinusLeft => turned(terms, parts.left),
        Place::MinusRight => turned(terms, parts.right),
        Place::Zero => terms.num(0),
        Place::One => terms.num(1),
        Place::MinusOne => terms.num(-1),
    }
}

/// The term with its sign turned.
fn turned(terms: &mut Terms, id: TermId) -> Result<TermId, TermError>
    requires { IsIn terms.old id }
    ensures keeps { Keeps terms.old terms.new }
    ensures term { IfOk result (λ r. StandsFor terms.new r (minus (term_at terms.old id))) }
{
    let factor = terms.num(-1)?;
    terms.app(1, &[factor, id])
}

/// The formula of a node.
pub(crate) fn made(alloc: Global, node: FormulaNode) -> Result<Formula, TermError>
    ensures { IfOk result (λ f. shape f ≡ node_shape node) }
{
    match Formula::new(alloc, node) {
        Ok(f) => Ok(f),
        Err(_) => Err(TermError::OutOfMemory),
    }
}
