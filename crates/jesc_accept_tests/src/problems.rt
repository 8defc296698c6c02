//! Sets of clauses without a countermodel, each a row of a table.

use jesc_clauses::{Atom, Clause, Clauses, Lin, Opaque};
use jesc_logic::TermId;
use jesc_text::List;
use std::alloc::Global;

/// Of each problem the terms, the atoms and the clauses, behind a line that says what it is.
///
/// A sum is its bound or its constant, and then each coefficient with the number of its term. A term is its symbol, and each
/// argument behind a colon. A certificate names its problem by the place of the row.
pub const ROWS: &str = r"
# x <= 0, and not
40 | 0 1 0 | 1, -1
# the clause that never holds
||
# all four clauses of two truths
40, 41 | 0 1 0, 0 1 1 | 1 2, 1 -2, -1 2, -1 -2
# three pigeons in two holes
40, 41, 42, 43, 44, 45 | 0 1 0, 0 1 1, 0 1 2, 0 1 3, 0 1 4, 0 1 5 | 1 2, 3 4, 5 6, -1 -3, -1 -5, -3 -5, -2 -4, -2 -6, -4 -6
# x <= 0, and not x <= 1
40 | 0 1 0, 1 1 0 | 1, -2
# x <= 2y, y <= 1, and not x <= 2
40, 41 | 0 1 0 -2 1, 1 1 1, 2 1 0 | 1, 2, -3
# x + y = 3 and x = y
40, 41 | 3 1 0 1 1, 2 1 0 1 1, 0 1 0 -1 1, -1 1 0 -1 1 | 1, -2, 3, -4
# x = y, and not f(x) = f(y)
40, 41, 50: 0 1 0, 50: 0 1 1 | 0 1 0 -1 1, -1 1 0 -1 1, 0 1 2 -1 3, -1 1 2 -1 3 | 1, -2, -3 4
# x = y, f(x) <= 0, and not f(y) <= 0
40, 41, 50: 0 1 0, 50: 0 1 1 | 0 1 0 -1 1, -1 1 0 -1 1, 0 1 2, 0 1 3 | 1, -2, 3, -4
# x + 1 = y, and not f(x + 1) <= f(y)
40, 41, 50: 1 1 0, 50: 0 1 1 | -1 1 0 -1 1, -2 1 0 -1 1, 0 1 2 -1 3 | 1, -2, -3
# x = y, and not g(2x, 1) <= g(2y, 1), beside g(2x, 2)
40, 41, 51: 0 2 0: 1, 51: 0 2 1: 1, 51: 0 2 0: 2 | 0 1 0 -1 1, -1 1 0 -1 1, 0 1 2 -1 3 | 1, -2, -3
# x = f(x), and not f(x) <= f(f(x))
40, 50: 0 1 0, 50: 0 1 1 | 0 1 0 -1 1, -1 1 0 -1 1, 0 1 1 -1 2 | 1, -2, -3
# x <= -1, and not x <= 0, beside two bounds of y
40, 41 | 0 1 0, -1 1 0, 19807040628566084398385987583 1 1, 19807040628566084398385987584 1 1 | 2, -1
# x <= y, y <= z, and z < x or z + 1 < x
40, 41, 42 | 0 1 0 -1 1, 0 1 1 -1 2, 0 1 0 -1 2, 1 1 0 -1 2 | 1, 2, -3 -4
";

/// Puts an item behind the others, as far as memory goes.
pub fn put<T: Drop>(list: &mut List<T>, item: T) {
    let _done = list.push(item).is_ok();
}

/// The numbers of a text.
fn numbers_of(alloc: Global, text: &str) -> List<i128> {
    let mut numbers = List::new(alloc);
    for word in text.split_whitespace() {
        put(&mut numbers, word.parse::<i128>().unwrap_or(0));
    }
    numbers
}

/// The parts behind the first number, each a coefficient and a term.
fn form_of(alloc: Global, numbers: &[i128]) -> List<(i64, u32)> {
    let mut form = List::new(alloc);
    for pair in numbers.get(1..).unwrap_or(&[]).chunks_exact(2) {
        if let [coefficient, term] = pair {
            let part = (
                i64::try_from(*coefficient).unwrap_or(0),
                u32::try_from(*term).unwrap_or(0),
            );
            put(&mut form, part);
        }
    }
    form
}

/// The form and the first number of a text.
fn sum_of(alloc: Global, text: &str) -> (List<(i64, u32)>, i128) {
    let numbers = numbers_of(alloc, text);
    let numbers = numbers.as_slice();
    (
        form_of(alloc, numbers),
        numbers.first().copied().unwrap_or(0),
    )
}

/// The terms of a text.
fn terms_of(alloc: Global, text: &str) -> List<Opaque> {
    let mut terms = List::new(alloc);
    for term in text.split(',') {
        if !term.trim().is_empty() {
            let id = TermId(u32::try_from(terms.len()).unwrap_or(0));
            put(&mut terms, term_of(alloc, id, term));
        }
    }
    terms
}

/// The term of a text.
fn term_of(alloc: Global, id: TermId, text: &str) -> Opaque {
    let mut args = List::new(alloc);
    for sum in text.split(':').skip(1) {
        let (form, constant) = sum_of(alloc, sum);
        put(&mut args, Lin { form, constant });
    }
    let symbol = sum_of(alloc, text.split(':').next().unwrap_or("")).1;
    Opaque {
        id,
        symbol: u32::try_from(symbol).unwrap_or(0),
        args,
    }
}

/// The atoms of a text.
fn atoms_of(alloc: Global, text: &str) -> List<Atom> {
    let mut atoms = List::new(alloc);
    for sum in text.split(',') {
        if !sum.trim().is_empty() {
            let (form, bound) = sum_of(alloc, sum);
            put(&mut atoms, Atom { form, bound });
        }
    }
    atoms
}

/// The clause of a text.
fn clause_of(alloc: Global, text: &str) -> Clause {
    let mut clause = Clause::new(alloc);
    for literal in numbers_of(alloc, text).as_slice() {
        let _done = clause.push(i32::try_from(*literal).unwrap_or(0)).is_ok();
    }
    clause
}

/// Whether a line of the table is a row.
pub fn is_row(line: &str) -> bool {
    !line.is_empty() && !line.starts_with('#')
}

/// The part of a row of this place.
fn part(row: &str, place: usize) -> &str {
    row.split('|').nth(place).unwrap_or("")
}

/// The number of clauses of a row.
pub fn count_clauses(row: &str) -> usize {
    part(row, 2).split(',').count()
}

/// The clauses of a row, but for the one of this place, if there is one.
pub fn clauses_of(alloc: Global, row: &str, left_out: usize) -> Clauses {
    let mut clauses = List::new(alloc);
    for (place, text) in part(row, 2).split(',').enumerate() {
        if place != left_out {
            put(&mut clauses, clause_of(alloc, text));
        }
    }
    Clauses {
        terms: terms_of(alloc, part(row, 0)),
        atoms: atoms_of(alloc, part(row, 1)),
        clauses,
    }
}
