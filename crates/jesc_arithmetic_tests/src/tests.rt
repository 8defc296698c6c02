use crate::values::{Point, X, Y, applied, are_true};
use jesc_arithmetic::arithmetic_facts;
use jesc_logic::{Formula, FormulaNode, TermError, TermId, Terms};
use jesc_text::List;
use std::alloc::Global;
use std::test::Fail;

/// The facts of the formula that says of a term that it is 0.
fn facts_of(alloc: Global, terms: &mut Terms, id: TermId) -> Result<List<Formula>, TermError> {
    let zero = terms.num(0)?;
    if id.0 >= terms.len() {
        return Ok(List::new(alloc));
    }
    let Ok(f) = Formula::new(alloc, FormulaNode::Eq(id, zero)) else {
        return Err(TermError::OutOfMemory);
    };
    arithmetic_facts(alloc, &[f], terms)
}

/// Values of x and y from -5 to 5.
fn pair_at(number: u32) -> [i128; 3] {
    [(number % 11) as i128 - 5, (number / 11) as i128 - 5, 0]
}

#[test]
fn facts_are_true_of_what_is_meant(rt: HostRuntime) -> Result<(), Fail> {
    for (symbol, count) in [(1u32, 5usize), (2, 4), (3, 4)] {
        let mut terms = Terms::new(rt.alloc());
        let x = terms.app(X, &[])?;
        let y = terms.app(Y, &[])?;
        let id = terms.app(symbol, &[x, y])?;
        let facts = facts_of(rt.alloc(), &mut terms, id)?;
        assert_eq!(rt; facts.len(), count);
        for number in 0..121 {
            let at = Point {
                terms: [x, y, y],
                values: pair_at(number),
            };
            assert!(rt; are_true(rt.alloc(), &terms, &at, facts.as_slice()));
        }
    }
    Ok(())
}

/// Values of x from -8 to 7, of a quotient from -10 to 9, and of a remainder from -4 to 3.
fn values_at(number: u32) -> [i128; 3] {
    [
        (number % 16) as i128 - 8,
        (number / 16 % 20) as i128 - 10,
        (number / 320) as i128 - 4,
    ]
}

#[test]
fn a_division_by_a_number_has_one_answer(rt: HostRuntime) -> Result<(), Fail> {
    for divisor in [1i128, 2, 3, -1, -2, -3] {
        let mut terms = Terms::new(rt.alloc());
        let x = terms.app(X, &[])?;
        let by = terms.num(divisor)?;
        let quotient = terms.app(2, &[x, by])?;
        let remainder = terms.app(3, &[x, by])?;
        let facts = facts_of(rt.alloc(), &mut terms, remainder)?;
        assert_eq!(rt; facts.len(), 9);
        for number in 0..2560 {
            let values = values_at(number);
            let [a, q, r] = values;
            let is_meant = q == applied(2, a, divisor) && r == applied(3, a, divisor);
            let at = Point {
                terms: [x, quotient, remainder],
                values,
            };
            assert_eq!(rt;
                are_true(rt.alloc(), &terms, &at, facts.as_slice()),
                is_meant
            );
        }
    }
    Ok(())
}

/// How many facts there are of a term over x, y, (x * y) % y, 5, -5 and 0.
fn count(alloc: Global, symbol: u32, left: usize, right: usize) -> Result<usize, TermError> {
    let mut terms = Terms::new(alloc);
    let x = terms.app(X, &[])?;
    let y = terms.app(Y, &[])?;
    let product = terms.app(1, &[x, y])?;
    let remainder = terms.app(3, &[product, y])?;
    let five = terms.num(5)?;
    let low = terms.num(-5)?;
    let zero = terms.num(0)?;
    let of = [x, y, remainder, five, low, zero];
    let a = of.get(left).copied().unwrap_or(x);
    let b = of.get(right).copied().unwrap_or(x);
    if a.0 >= terms.len() || b.0 >= terms.len() {
        return Ok(0);
    }
    let id = terms.app(symbol, &[a, b])?;
    Ok(facts_of(alloc, &mut terms, id)?.len())
}

/// A symbol, the places of two terms, and how many facts there are: 5 of a product, 4 of a quotient or a remainder, and 9
/// of both by a number.
const COUNTS: [(u32, usize, usize, usize); 17] = [
    (0, 0, 1, 0),
    (1, 0, 1, 5),
    (1, 0, 0, 5),
    (1, 3, 0, 0),
    (1, 0, 4, 0),
    (1, 3, 4, 0),
    (2, 0, 1, 4),
    (2, 3, 1, 4),
    (2, 0, 5, 4),
    (2, 0, 3, 9),
    (3, 0, 4, 9),
    (3, 0, 5, 4),
    (7, 0, 1, 0),
    (7, 2, 0, 9),
    (1, 2, 2, 14),
    (2, 2, 3, 18),
    (0, 2, 2, 9),
];

#[test]
fn each_operation_has_its_facts_once(rt: HostRuntime) -> Result<(), Fail> {
    for (symbol, left, right, facts) in COUNTS {
        assert_eq!(rt; count(rt.alloc(), symbol, left, right)?, facts);
    }
    Ok(())
}
