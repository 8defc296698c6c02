//! Whether some numbers meet clauses.

use crate::making::{F, X, Y, Z};
use crate::values::{Point, function_at};
use jesc_clauses::{Atom, Clause, Clauses};
use jesc_logic::{Node, TermId, Terms};
use jesc_text::List;
use std::alloc::Global;

/// Whether the terms of formulas have the symbol. Any other is that of defined terms.
fn is_known(symbol: u32) -> bool {
    symbol <= 1 || symbol == X || symbol == Y || symbol == Z || symbol == F
}

/// The number of defined terms.
pub fn count_defined(clauses: &Clauses) -> u32 {
    let mut count = 0u32;
    for opaque in clauses.terms.as_slice() {
        if !is_known(opaque.symbol) {
            count = count.saturating_add(1);
        }
    }
    count
}

/// The number in a place, or 0 where there is none.
fn number_at(numbers: &[i128], place: u32) -> i128 {
    match numbers.get(place as usize) {
        Some(n) => *n,
        None => 0,
    }
}

/// What an application to terms with these numbers is worth, where its symbol is known.
fn worth(symbol: u32, a: i128, b: i128, at: Point) -> i128 {
    match symbol {
        0 => a.wrapping_add(b),
        1 => a.wrapping_mul(b),
        X => at.x,
        Y => at.y,
        Z => at.z,
        _ => function_at(at.f, a),
    }
}

/// What the terms are worth at a point, by their ids. Defined terms get the binary digits of the guess, the lowest first.
fn worths(alloc: Global, terms: &Terms, at: Point, guess: u32) -> List<i128> {
    let mut worths = List::new(alloc);
    let mut digits = guess;
    for id in 0..terms.len() {
        let n = match terms.node(TermId(id)) {
            Node::Num(n) => n,
            Node::App { symbol, a, b, .. } => {
                if is_known(symbol) {
                    let numbers = worths.as_slice();
                    worth(symbol, number_at(numbers, a.0), number_at(numbers, b.0), at)
                } else {
                    let digit = digits % 2;
                    digits /= 2;
                    digit as i128
                }
            }
        };
        let _done = worths.push(n).is_ok();
    }
    worths
}

/// The numbers of the opaque terms, where the terms are worth so much by their ids.
fn numbers_of(alloc: Global, clauses: &Clauses, worths: &[i128]) -> List<i128> {
    let mut numbers = List::new(alloc);
    for opaque in clauses.terms.as_slice() {
        let _done = numbers.push(number_at(worths, opaque.id.0)).is_ok();
    }
    numbers
}

fn is_met(atom: &Atom, numbers: &[i128]) -> bool {
    let mut sum = 0i128;
    for part in atom.form.as_slice() {
        sum = sum.wrapping_add((part.0 as i128).wrapping_mul(number_at(numbers, part.1)));
    }
    sum <= atom.bound
}

fn is_true(literal: i32, atoms: &[Atom], numbers: &[i128]) -> bool {
    let place = literal.unsigned_abs() as usize;
    if place == 0 {
        return false;
    }
    match atoms.get(place - 1) {
        Some(atom) => is_met(atom, numbers) == (literal > 0),
        None => false,
    }
}

/// Whether a literal of the clause is true.
fn is_one_true(clause: &Clause, atoms: &[Atom], numbers: &[i128]) -> bool {
    for literal in clause.as_slice() {
        if is_true(*literal, atoms, numbers) {
            return true;
        }
    }
    false
}

fn are_all_true(clauses: &Clauses, numbers: &[i128]) -> bool {
    for clause in clauses.clauses.as_slice() {
        if !is_one_true(clause, clauses.atoms.as_slice(), numbers) {
            return false;
        }
    }
    true
}

/// Whether the clauses are true where the terms are worth what they are at the point, and the defined terms are 0 or 1 in
/// one of so many ways.
pub fn is_met_somehow(
    alloc: Global,
    terms: &Terms,
    clauses: &Clauses,
    at: Point,
    ways: u32,
) -> bool {
    for guess in 0..ways {
        let worths = worths(alloc, terms, at, guess);
        let numbers = numbers_of(alloc, clauses, worths.as_slice());
        if are_all_true(clauses, numbers.as_slice()) {
            return true;
        }
    }
    false
}

/// How many atoms, clauses and literals there are.
pub fn size(clauses: &Clauses) -> usize {
    let mut size = clauses.atoms.len().saturating_add(clauses.clauses.len());
    for clause in clauses.clauses.as_slice() {
        size = size.saturating_add(clause.as_slice().len());
    }
    size
}
