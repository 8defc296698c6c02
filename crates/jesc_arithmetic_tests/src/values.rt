//! Which formulas are true where terms have given values.

use jesc_logic::{Formula, FormulaNode, Node, TermId, Terms};
use std::alloc::Global;

/// The symbols of x and y.
pub const X: u32 = 10;

pub const Y: u32 = 11;

/// What some terms are worth, whatever they are made of.
#[derive(Drop, Clone, Copy)]
pub struct Point {
    pub terms: [TermId; 3],
    pub values: [i128; 3],
}

impl Point {
    /// What the term is worth, where that is given.
    fn given(&self, id: TermId) -> Option<i128> {
        for (k, term) in self.terms.iter().enumerate() {
            if *term == id {
                return self.values.get(k).copied();
            }
        }
        None
    }
}

/// What a symbol gives. Division truncates, and by 0 it gives 0.
pub fn applied(symbol: u32, a: i128, b: i128) -> i128 {
    match symbol {
        0 => a.wrapping_add(b),
        1 => a.wrapping_mul(b),
        2 => a.checked_div(b).unwrap_or(0),
        _ => a.checked_rem(b).unwrap_or(0),
    }
}

/// What a term is worth, where those of smaller numbers are worth this.
fn worth(terms: &Terms, at: &Point, id: TermId, before: &[i128]) -> i128 {
    if let Some(n) = at.given(id) {
        return n;
    }
    if id.0 >= terms.len() {
        return 0;
    }
    match terms.node(id) {
        Node::Num(n) => n,
        Node::App { symbol, a, b, .. } => applied(symbol, value(before, a), value(before, b)),
    }
}

/// What the terms are worth, by number.
fn worths(alloc: Global, terms: &Terms, at: &Point) -> Vec<i128> {
    let mut worths = Vec::new(alloc);
    for id in 0..terms.len() {
        let worth = worth(terms, at, TermId(id), worths.as_slice());
        let _done = worths.push(worth).is_ok();
    }
    worths
}

/// Whether all formulas are true.
pub fn are_true(alloc: Global, terms: &Terms, at: &Point, formulas: &[Formula]) -> bool {
    let worths = worths(alloc, terms, at);
    let worths = worths.as_slice();
    for f in formulas {
        if !is_true(f, worths) {
            return false;
        }
    }
    true
}

/// The value of a number's term, or 0 where there is none.
fn value(worths: &[i128], id: TermId) -> i128 {
    worths.get(id.0 as usize).copied().unwrap_or(0)
}

/// Whether the formula is true.
fn is_true(f: &Formula, worths: &[i128]) -> bool {
    match f.node.get() {
        FormulaNode::True => true,
        FormulaNode::False => false,
        FormulaNode::Le(a, b) => value(worths, *a) <= value(worths, *b),
        FormulaNode::Eq(a, b) => value(worths, *a) == value(worths, *b),
        FormulaNode::Not(g) => !is_true(g, worths),
        FormulaNode::And(g, h) => is_true(g, worths) && is_true(h, worths),
        FormulaNode::Or(g, h) => is_true(g, worths) || is_true(h, worths),
    }
}
