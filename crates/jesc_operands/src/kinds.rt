//! Kinds of types and of operators.

ghost use Rattle.std.specs.Prelude.{◌≡◌};
ghost use Rattle.jesc_operands.specs.Deciding as deciding;
ghost use Rattle.jesc_operands.specs.Operands as spec;

use jesc_tree::{BinOp, Ty};

/// What kind of operator stands between two operands.
#[derive(Debug, Drop, Clone, Copy, PartialEq, Eq)]
pub enum Kind {
    Arithmetic,
    Order,
    Equality,
    Logic,
}

/// The kind of the operator.
pub fn kind_of(op: BinOp) -> Kind
    ensures { result ≡ spec.kind_of op }
{
    match op {
        BinOp::Add | BinOp::Sub | BinOp::Mul | BinOp::Div | BinOp::Rem => Kind::Arithmetic,
        BinOp::Lt | BinOp::Le | BinOp::Gt | BinOp::Ge => Kind::Order,
        BinOp::Eq | BinOp::Ne => Kind::Equality,
        BinOp::And | BinOp::Or | BinOp::Implies | BinOp::Iff | BinOp::NotIff => Kind::Logic,
    }
}

/// Whether it is a type of numbers (JLS 4.2).
pub fn is_number(ty: Ty) -> bool
    ensures { result ≡ spec.is_number ty }
{
    matches!(ty, Ty::Int | Ty::Long)
}

/// Whether both are types of numbers.
pub(crate) fn are_numbers(s: Ty, t: Ty) -> bool
    ensures { result ≡ deciding.are_numbers s t }
{
    is_number(s) && is_number(t)
}

/// Whether it is the type of truth values.
pub fn is_truth(ty: Ty) -> bool
    ensures { result ≡ deciding.is_truth ty }
{
    matches!(ty, Ty::Bool)
}

/// Whether both are the type of truth values.
pub(crate) fn are_truths(s: Ty, t: Ty) -> bool
    ensures { result ≡ deciding.are_truths s t }
{
    is_truth(s) && is_truth(t)
}

/// Whether it is a type of references, as that of `null` is (JLS 4.1).
pub fn is_reference(ty: Ty) -> bool
    ensures { result ≡ spec.is_reference ty }
{
    matches!(ty, Ty::Null | Ty::Ref(_) | Ty::Array(_))
}

/// Whether both are types of references.
pub(crate) fn are_references(s: Ty, t: Ty) -> bool
    ensures { result ≡ deciding.are_references s t }
{
    is_reference(s) && is_reference(t)
}

/// Whether there are values of the type.
pub fn has_values(ty: Ty) -> bool
    ensures { result ≡ deciding.has_values ty }
{
    !matches!(ty, Ty::Void)
}

/// Of two types of numbers that of what is computed with them (JLS 5.6).
pub(crate) fn wider(s: Ty, t: Ty) -> Ty
    ensures { result ≡ spec.wider s t }
{
    match (s, t) {
        (Ty::Int, Ty::Int) => Ty::Int,
        _ => Ty::Long,
    }
}
