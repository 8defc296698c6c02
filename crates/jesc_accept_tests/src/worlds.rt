//! Whether clauses have a countermodel, by trying small numbers for their terms.

use jesc_clauses::{Atom, Clause, Clauses, Lin, Opaque};

/// How many numbers a term is given: -2 to 2.
const NUMBERS: u32 = 5;

/// What a term is in a world, whose number has a digit for each.
fn number_in(world: u32, term: u32) -> i128 {
    let mut digits = world;
    for _turn in 0..term {
        digits /= NUMBERS;
    }
    (digits % NUMBERS) as i128 - 2
}

/// What a sum without its constant is worth.
fn worth(form: &[(i64, u32)], world: u32) -> i128 {
    let mut sum = 0i128;
    for part in form {
        sum = sum.wrapping_add((part.0 as i128).wrapping_mul(number_in(world, part.1)));
    }
    sum
}

/// Whether the literal is true: the atom k - 1 at k, and its negation at -k.
fn is_true(atoms: &[Atom], literal: i32, world: u32) -> bool {
    let number = literal.unsigned_abs() as usize;
    if number == 0 {
        return false;
    }
    match atoms.get(number - 1) {
        Some(atom) => (worth(atom.form.as_slice(), world) <= atom.bound) == (literal > 0),
        None => false,
    }
}

/// Whether one of the literals is true.
fn is_one_true(atoms: &[Atom], clause: &Clause, world: u32) -> bool {
    for literal in clause.as_slice() {
        if is_true(atoms, *literal, world) {
            return true;
        }
    }
    false
}

/// Whether each clause is true.
fn are_true(clauses: &Clauses, world: u32) -> bool {
    for clause in clauses.clauses.as_slice() {
        if !is_one_true(clauses.atoms.as_slice(), clause, world) {
            return false;
        }
    }
    true
}

/// What an argument is worth.
fn argument(lin: &Lin, world: u32) -> i128 {
    worth(lin.form.as_slice(), world).wrapping_add(lin.constant)
}

/// Whether the arguments are worth the same.
fn are_same(xs: &[Lin], ys: &[Lin], world: u32) -> bool {
    for place in 0..xs.len().min(ys.len()) {
        if argument(&xs[place], world) != argument(&ys[place], world) {
            return false;
        }
    }
    xs.len() == ys.len()
}

/// Whether the term of this number is what each earlier one is that applies its symbol to the same arguments.
fn is_congruent(terms: &[Opaque], term: &Opaque, number: u32, world: u32) -> bool {
    let mut earlier = 0u32;
    for other in terms {
        let is_alike = other.symbol == term.symbol
            && are_same(other.args.as_slice(), term.args.as_slice(), world);
        if is_alike && number_in(world, earlier) != number_in(world, number) {
            return false;
        }
        earlier = earlier.saturating_add(1);
    }
    true
}

/// Whether alike applications are the same.
fn are_congruent(terms: &[Opaque], world: u32) -> bool {
    let mut number = 0u32;
    for term in terms {
        if !is_congruent(terms, term, number, world) {
            return false;
        }
        number = number.saturating_add(1);
    }
    true
}

/// Whether some numbers from -2 to 2 for the terms are a countermodel.
pub fn has_countermodel(clauses: &Clauses) -> bool {
    let mut worlds = 1u32;
    for _term in clauses.terms.as_slice() {
        worlds = worlds.saturating_mul(NUMBERS);
    }
    for world in 0..worlds {
        if are_true(clauses, world) && are_congruent(clauses.terms.as_slice(), world) {
            return true;
        }
    }
    false
}
