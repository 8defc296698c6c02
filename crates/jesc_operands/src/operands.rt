//! Which types operands may have, and the type of what is made of them.

ghost use Rattle.std.specs.Prelude.{◌≡◌, IfOk, IfSome};
ghost use Rattle.std.specs.List.{All};
ghost use Rattle.jesc_tree.specs.Ids.{ty_ids};
ghost use Rattle.jesc_tree.specs.Programs.{IsInRange, IsLawful};
ghost use Rattle.jesc_operands.specs.Deciding as deciding;
ghost use Rattle.jesc_operands.specs.Operands as spec;

use crate::kinds::{
    Kind, are_numbers, are_references, are_truths, is_number, is_truth, kind_of, wider,
};
use crate::subtypes::{fits, fits_as_value, is_interface};
use jesc_text::OutOfMemory;
use jesc_tree::{BinOp, Program, Ty, UnOp};
use std::alloc::Global;

/// The type of what the operator makes of operands of these types, if they may be its operands (JLS 15.17 to 15.24).
///
/// Answers `OutOfMemory` where there is no room for a walk over supertypes.
pub fn binary_type(
    alloc: Global,
    program: &Program,
    op: BinOp,
    left: Ty,
    right: Ty,
) -> Result<Option<Ty>, OutOfMemory>
    requires lawful { IsLawful program.now.classes program.now.fields program.now.methods }
    requires left { All (IsInRange program.now.classes program.now.fields program.now.methods) (ty_ids left) }
    requires right { All (IsInRange program.now.classes program.now.fields program.now.methods) (ty_ids right) }
    ensures made { IfOk result (λ answer. answer ≡ deciding.makes program.now.classes (spec.kind_of op) left right) }
    ensures within { IfOk result (λ answer. IfSome answer (λ t. All (IsInRange program.now.classes program.now.fields program.now.methods) (ty_ids t))) }
{
    match kind_of(op) {
        Kind::Arithmetic => Ok(are_numbers(left, right).then_some(wider(left, right))),
        Kind::Order => Ok(are_numbers(left, right).then_some(Ty::Bool)),
        Kind::Equality => Ok(are_equable(alloc, program, left, right)?.then_some(Ty::Bool)),
        Kind::Logic => Ok(are_truths(left, right).then_some(Ty::Bool)),
    }
}

/// Whether values of these types may be compared by `==` (JLS 15.21).
///
/// Answers `OutOfMemory` where there is no room for a walk over supertypes.
pub fn are_equable(
    alloc: Global,
    program: &Program,
    left: Ty,
    right: Ty,
) -> Result<bool, OutOfMemory>
    requires lawful { IsLawful program.now.classes program.now.fields program.now.methods }
    requires left { All (IsInRange program.now.classes program.now.fields program.now.methods) (ty_ids left) }
    requires right { All (IsInRange program.now.classes program.now.fields program.now.methods) (ty_ids right) }
    ensures { IfOk result (λ yes. yes ≡ deciding.are_equable program.now.classes left right) }
{
    if are_numbers(left, right) {
        return Ok(true);
    }
    if are_truths(left, right) {
        return Ok(true);
    }
    are_related(alloc, program, left, right)
}

/// Whether a value of the first type may be cast to the second (JLS 5.5).
///
/// Answers `OutOfMemory` where there is no room for a walk over supertypes.
pub fn may_cast(alloc: Global, program: &Program, from: Ty, to: Ty) -> Result<bool, OutOfMemory>
    requires lawful { IsLawful program.now.classes program.now.fields program.now.methods }
    requires from { All (IsInRange program.now.classes program.now.fields program.now.methods) (ty_ids from) }
    requires to { All (IsInRange program.now.classes program.now.fields program.now.methods) (ty_ids to) }
    ensures { IfOk result (λ yes. yes ≡ deciding.may_cast program.now.classes from to) }
{
    if are_numbers(from, to) {
        return Ok(true);
    }
    are_related(alloc, program, from, to)
}

/// Whether both are types of references, of which one fits the other or one is an interface.
///
/// Answers `OutOfMemory` where there is no room for a walk over supertypes.
pub fn are_related(
    alloc: Global,
    program: &Program,
    left: Ty,
    right: Ty,
) -> Result<bool, OutOfMemory>
    requires lawful { IsLawful program.now.classes program.now.fields program.now.methods }
    requires left { All (IsInRange program.now.classes program.now.fields program.now.methods) (ty_ids left) }
    requires right { All (IsInRange program.now.classes program.now.fields program.now.methods) (ty_ids right) }
    ensures { IfOk result (λ yes. yes ≡ deciding.are_related program.now.classes left right) }
{
    if !are_references(left, right) {
        return Ok(false);
    }
    if is_interface(program, left) || is_interface(program, right) {
        return Ok(true);
    }
    if fits(alloc, program, left, right)? {
        return Ok(true);
    }
    fits(alloc, program, right, left)
}

/// The type of what the operator makes of an operand of this type, if it may be its operand (JLS 15.15). Takes no memory.
pub fn unary_type(op: UnOp, ty: Ty) -> Option<Ty>
    ensures made { result ≡ deciding.turns op ty }
    ensures same { IfSome result (λ t. t ≡ ty) }
{
    match op {
        UnOp::Minus | UnOp::Plus => is_number(ty).then_some(ty),
        UnOp::Not => is_truth(ty).then_some(ty),
    }
}

/// The type of one of two values by a condition, if the two may be chosen from (JLS 15.25).
///
/// Answers `OutOfMemory` where there is no room for a walk over supertypes.
pub fn choice_type(
    alloc: Global,
    program: &Program,
    first: Ty,
    second: Ty,
) -> Result<Option<Ty>, OutOfMemory>
    requires lawful { IsLawful program.now.classes program.now.fields program.now.methods }
    requires first { All (IsInRange program.now.classes program.now.fields program.now.methods) (ty_ids first) }
    requires second { All (IsInRange program.now.classes program.now.fields program.now.methods) (ty_ids second) }
    ensures chosen { IfOk result (λ answer. answer ≡ deciding.chooses program.now.classes first second) }
    ensures within { IfOk result (λ answer. IfSome answer (λ t. All (IsInRange program.now.classes program.now.fields program.now.methods) (ty_ids t))) }
{
    if are_numbers(first, second) {
        return Ok(Some(wider(first, second)));
    }
    if fits_as_value(alloc, program, first, second)? {
        return Ok(Some(second));
    }
    Ok(fits_as_value(alloc, program, second, first)?.then_some(first))
}
