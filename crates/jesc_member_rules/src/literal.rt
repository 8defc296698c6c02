//! The values of literals.

ghost use Rattle.std.specs.Prelude.{◌≡◌, ◌≤◌, ◌<◌};
ghost use Rattle.jesc_ast.specs.Trees.{view};
ghost use Rattle.jesc_lexer.specs.Lexemes.{digits_value_of};
ghost use Rattle.jesc_member_rules.specs.Types.{number_value, literal_value, value_behind_minus};

use jesc_ast::{Expr, ExprNode};
use jesc_classes::is_same;

/// The greatest number, which only a minus sign makes fit.
const LIMIT: u64 = 9223372036854775808;

/// The value of a literal: a number with or without a minus sign, or a truth value, of which true is 1.
pub fn literal_value(e: &Expr) -> Option<i128>
    ensures { result ≡ literal_value (view e.now) }
{
    match e.node.get() {
        ExprNode::Number(digits) => number_value(digits.as_slice()),
        ExprNode::Truth(truth) => Some(*truth as i128),
        ExprNode::Unary(unary) => {
            if is_same(unary.get().op.text.as_slice(), b"-") {
                value_behind_minus(&unary.get().e)
            } else {
                None
            }
        }
        _ => None,
    }
}

/// The value of a number behind a minus sign.
fn value_behind_minus(e: &Expr) -> Option<i128>
    ensures { result ≡ value_behind_minus (view e.now) }
{
    match e.node.get() {
        ExprNode::Number(digits) => match number_value(digits.as_slice()) {
            Some(value) => Some(0 - value),
            None => None,
        },
        _ => None,
    }
}

/// The value of the digits, where there is such a number. Other bytes among them are passed over.
fn number_value(bytes: &[u8]) -> Option<i128>
    ensures { result ≡ number_value bytes.now }
{
    let value = sum(bytes);
    if value <= LIMIT as u128 {
        Some(value as i128)
    } else {
        None
    }
}

/// The value of the digits where it is within the limit, and else some number beyond the limit.
fn sum(bytes: &[u8]) -> u128
    ensures within { digits_value_of bytes.now ≤ 9223372036854775808 → result ≡ digits_value_of bytes.now }
    ensures beyond { 9223372036854775808 < digits_value_of bytes.now → 9223372036854775808 < result }
{
    let mut value = 0u128;
    for byte in bytes {
        if byte.is_ascii_digit() && value <= LIMIT as u128 {
            value = value * 10 + (*byte - b'0') as u128;
        }
    }
    value
}
