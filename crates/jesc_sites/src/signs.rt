//! Operators by their signs.

ghost use Rattle.std.specs.Prelude.{◌≡◌};
ghost use Rattle.jesc_sites.specs.Operations as spec;

use jesc_tree::{BinOp, UnOp};

/// The prefix operator with that sign; `!` is all else. Takes no memory.
pub fn prefix_of(sign: &[u8]) -> UnOp
    ensures { result ≡ spec.prefix_of sign.now }
{
    if sign == b"-".as_slice() {
        UnOp::Minus
    } else if sign == b"+".as_slice() {
        UnOp::Plus
    } else {
        UnOp::Not
    }
}

/// The operator between two operands with that sign; `<=!=>` is all else. Takes no memory.
pub fn operator_of(sign: &[u8]) -> BinOp
    ensures { result ≡ spec.operator_of sign.now }
{
    if sign == b"+".as_slice() {
        BinOp::Add
    } else if sign == b"-".as_slice() {
        BinOp::Sub
    } else if sign == b"*".as_slice() {
        BinOp::Mul
    } else if sign == b"/".as_slice() {
        BinOp::Div
    } else if sign == b"%".as_slice() {
        BinOp::Rem
    } else if sign == b"<".as_slice() {
        BinOp::Lt
    } else if sign == b"<=".as_slice() {
        BinOp::Le
    } else if sign == b">".as_slice() {
        BinOp::Gt
    } else if sign == b">=".as_slice() {
        BinOp::Ge
    } else if sign == b"==".as_slice() {
        BinOp::Eq
    } else if sign == b"!=".as_slice() {
        BinOp::Ne
    } else if sign == b"&&".as_slice() {
        BinOp::And
    } else if sign == b"||".as_slice() {
        BinOp::Or
    } else if sign == b"==>".as_slice() {
        BinOp::Implies
    } else if sign == b"<==>".as_slice() {
        BinOp::Iff
    } else {
        BinOp::NotIff
    }
}
