//! Formulas of words, and their clauses.
ghost use Rattle.std.specs.Prelude.{IsTrue, All};
ghost use Rattle.jesc_logic.specs.Claims.{IsOver};

use crate::words::Word;
use jesc_clauses::{ClauseError, Clauses, clausify};
use jesc_logic::{Formula, FormulaNode, Ground, TermId, Terms};
use jesc_text::List;
use std::alloc::Global;

/// The symbols of x, y, z and f.
pub const X: u32 = 10;

pub const Y: u32 = 11;

pub const Z: u32 = 12;

pub const F: u32 = 20;

/// A symbol over a term that is there.
pub fn of_one(terms: &mut Terms, symbol: u32, a: TermId) -> Option<TermId> {
    if a.0 >= terms.len() {
        return None;
    }
    terms.app(symbol, &[a]).ok()
}

/// A symbol over two terms that are there.
pub fn of_two(terms: &mut Terms, symbol: u32, a: TermId, b: TermId) -> Option<TermId> {
    let count = terms.len();
    if a.0 >= count || b.0 >= count {
        return None;
    }
    terms.app(symbol, &[a, b]).ok()
}

/// What the words behind come to, the first of them last.
#[derive(Drop)]
struct Made {
    ids: Vec<TermId>,
    formulas: Vec<Formula>,
}

impl Made {
    /// The last term, or one that isn't there.
    fn id(&mut self) -> TermId {
        self.ids.pop().unwrap_or(TermId(0xffff_ffff))
    }

    /// The term that a word makes of the last ones.
    fn term(&mut self, terms: &mut Terms, word: Word) -> Option<TermId> {
        match word {
            Word::Number(n) => terms.num(n).ok(),
            Word::X => terms.app(X, &[]).ok(),
            Word::Y => terms.app(Y, &[]).ok(),
            Word::Z => terms.app(Z, &[]).ok(),
            Word::Function => of_one(terms, F, self.id()),
            Word::Sum => of_two(terms, 0, self.id(), self.id()),
            Word::Product => of_two(terms, 1, self.id(), self.id()),
            _ => None,
        }
    }

    /// The formula that a word makes of the last ones.
    fn formula(&mut self, alloc: Global, word: Word) -> Option<Formula> {
        let node = match word {
            Word::Truth(true) => FormulaNode::True,
            Word::Truth(false) => FormulaNode::False,
            Word::AtMost => FormulaNode::Le(self.id(), self.id()),
            Word::Equal => FormulaNode::Eq(self.id(), self.id()),
            Word::Not => FormulaNode::Not(self.formulas.pop()?),
            _ => match (self.formulas.pop(), self.formulas.pop()) {
                (Some(g), Some(h)) => match word {
                    Word::And => FormulaNode::And(g, h),
                    _ => FormulaNode::Or(g, h),
                },
                _ => return None,
            },
        };
        Formula::new(alloc, node).ok()
    }

    /// Goes over one word. Answers whether it made something.
    fn step(&mut self, alloc: Global, terms: &mut Terms, word: Word) -> bool {
        if word == Word::Other {
            return false;
        }
        if let Some(id) = self.term(terms, word) {
            return self.ids.push(id).is_ok();
        }
        match self.formula(alloc, word) {
            Some(f) => self.formulas.push(f).is_ok(),
            None => false,
        }
    }

    /// All formulas, the last first, where no term is left over.
    fn all(mut self, alloc: Global) -> Option<Ground> {
        if self.ids.len() != 0 {
            return None;
        }
        let mut formulas = List::new(alloc);
        for _turn in 0..self.formulas.len() {
            if let Some(f) = self.formulas.pop() {
                formulas.push(f).ok()?;
            }
        }
        Some(Ground { formulas })
    }
}

/// The formulas of the words, in their order. Answers `None` where the words are none, or where memory runs out.
pub fn formulas_of(alloc: Global, terms: &mut Terms, words: &[Word]) -> Option<Ground> {
    let mut made = Made {
        ids: Vec::new(alloc),
        formulas: Vec::new(alloc),
    };
    for word in words.iter().rev() {
        if !made.step(alloc, terms, *word) {
            return None;
        }
    }
    made.all(alloc)
}

/// Whether the terms of a formula are there.
fn is_over(terms: &Terms, f: &Formula) -> bool
    ensures { IsTrue result → IsOver terms.now f.now }
{
    match f.node.get() {
        FormulaNode::True => true,
        FormulaNode::False => true,
        FormulaNode::Le(a, b) => a.0 < terms.len() && b.0 < terms.len(),
        FormulaNode::Eq(a, b) => a.0 < terms.len() && b.0 < terms.len(),
        FormulaNode::Not(g) => is_over(terms, g),
        FormulaNode::And(g, h) => is_over(terms, g) && is_over(terms, h),
        FormulaNode::Or(g, h) => is_over(terms, g) && is_over(terms, h),
    }
}

/// Whether the terms of all formulas are there.
fn are_over(terms: &Terms, formulas: &[Formula]) -> bool
    ensures { IsTrue result → All (IsOver terms.now) formulas.now }
{
    for f in formulas {
        if !is_over(terms, f) {
            return false;
        }
    }
    true
}

/// The clauses of formulas, the terms of which are there.
pub fn clauses_of(
    alloc: Global,
    terms: &mut Terms,
    ground: &Ground,
) -> Result<Clauses, ClauseError> {
    if !are_over(terms, ground.formulas.as_slice()) {
        return Err(ClauseError::OutOfMemory);
    }
    clausify(alloc, ground, terms)
}

/// The clauses of the formulas of these words. Answers `OutOfMemory` also where the words are no formulas.
pub fn clauses_of_words(
    alloc: Global,
    terms: &mut Terms,
    words: &[Word],
) -> Result<Clauses, ClauseError> {
    match formulas_of(alloc, terms, words) {
        Some(ground) => clauses_of(alloc, terms, &ground),
        None => Err(ClauseError::OutOfMemory),
    }
}
