//! The operations of which facts are known.

ghost use Rattle.std.specs.Prelude.{◌≡◌, IfSome, option_map};
ghost use Rattle.jesc_logic.specs.Terms.{term_at, IsIn};
ghost use Rattle.jesc_arithmetic.specs.Operations.{is_number as is_number_term, is_divisor as is_divisor_term, operation_of, operation_of_two};
ghost use Rattle.jesc_arithmetic.specs.Walks.{named, IsOverTerms};

use jesc_logic::{Node, TermId, Terms};

/// An operation on two terms by number.
///
/// A product is one of terms neither of which is a number. A division, by a number other than 0, stands for its quotient
/// and its remainder.
#[derive(Drop, Clone, Copy, PartialEq, Eq, Hash)]
pub(crate) enum Operation {
    Product(TermId, TermId),
    Quotient(TermId, TermId),
    Remainder(TermId, TermId),
    Division(TermId, TermId),
}

/// The operation of which a term is the result, if there is one.
pub(crate) fn find_operation(terms: &Terms, id: TermId) -> Option<Operation>
    requires { IsIn terms.now id }
    ensures named { option_map (named terms.now) result ≡ operation_of (term_at terms.now id) }
    ensures there { IfSome result (IsOverTerms terms.now) }
{
    match terms.node(id) {
        Node::App {
            symbol,
            arity: 2,
            a,
            b,
            ..
        } => operation_on(terms, symbol, a, b),
        _ => None,
    }
}

/// The operation with this symbol on two terms, if there is one.
fn operation_on(terms: &Terms, symbol: u32, a: TermId, b: TermId) -> Option<Operation>
    requires a { IsIn terms.now a }
    requires b { IsIn terms.now b }
    ensures named { option_map (named terms.now) result ≡ operation_of_two symbol (term_at terms.now a) (term_at terms.now b) }
    ensures there { IfSome result (IsOverTerms terms.now) }
{
    match symbol {
        1 => {
            if is_number(terms, a) || is_number(terms, b) {
                None
            } else {
                Some(Operation::Product(a, b))
            }
        }
        2 => {
            if is_divisor(terms, b) {
                Some(Operation::Division(a, b))
            } else {
                Some(Operation::Quotient(a, b))
            }
        }
        3 => {
            if is_divisor(terms, b) {
                Some(Operation::Division(a, b))
            } else {
                Some(Operation::Remainder(a, b))
            }
        }
        _ => None,
    }
}

/// Whether the term is a number.
fn is_number(terms: &Terms, id: TermId) -> bool
    requires { IsIn terms.now id }
    ensures { result ≡ is_number_term (term_at terms.now id) }
{
    match terms.node(id) {
        Node::Num(_) => true,
        Node::App { .. } => false,
    }
}

/// Whether the term is a number other than 0.
fn is_divisor(terms: &Terms, id: TermId) -> bool
    requires { IsIn terms.now id }
    ensures { result ≡ is_divisor_term (term_at terms.now id) }
{
    match terms.node(id) {
        Node::Num(n) => n != 0,
        Node::App { .. } => false,
    }
}
