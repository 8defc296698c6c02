//! What fits where, and what may be thrown.

ghost use Rattle.std.specs.Prelude.{◌≡◌, ◌<◌, length, IfOk};
ghost use Rattle.std.specs.List.{All};
ghost use Rattle.jesc_tree.specs.Ids.{ty_ids};
ghost use Rattle.jesc_tree.specs.Programs.{IsInRange, IsLawful};
ghost use Rattle.jesc_operands.specs.Deciding as deciding;

use crate::kinds::has_values;
use jesc_text::OutOfMemory;
use jesc_tree::{ClassId, Program, Ty};
use std::alloc::Global;

/// Whether a value of the first type may stand where the second is wanted (JLS 5.2, 5.3).
///
/// Answers `OutOfMemory` where there is no room for a walk over supertypes.
pub fn fits(alloc: Global, program: &Program, from: Ty, to: Ty) -> Result<bool, OutOfMemory>
    requires lawful { IsLawful program.now.classes program.now.fields program.now.methods }
    requires from { All (IsInRange program.now.classes program.now.fields program.now.methods) (ty_ids from) }
    ensures { IfOk result (λ yes. yes ≡ deciding.fits program.now.classes from to) }
{
    program.fits(alloc, from, to)
}

/// Whether the class is `Throwable` or a subclass of it (JLS 11.1.1).
///
/// Answers `OutOfMemory` where there is no room for a walk over supertypes.
pub fn is_throwable(alloc: Global, program: &Program, class: ClassId) -> Result<bool, OutOfMemory>
    requires lawful { IsLawful program.now.classes program.now.fields program.now.methods }
    requires class { class.0 < length program.now.classes }
    ensures { IfOk result (λ yes. yes ≡ deciding.is_throwable program.now.classes (Ty.Ref class)) }
{
    fits(alloc, program, Ty::Ref(class), Ty::Ref(ClassId(1)))
}

/// Whether there are values of the second type, and those of the first may stand where it is wanted.
///
/// Answers `OutOfMemory` where there is no room for a walk over supertypes.
pub(crate) fn fits_as_value(
    alloc: Global,
    program: &Program,
    from: Ty,
    to: Ty,
) -> Result<bool, OutOfMemory>
    requires lawful { IsLawful program.now.classes program.now.fields program.now.methods }
    requires from { All (IsInRange program.now.classes program.now.fields program.now.methods) (ty_ids from) }
    ensures { IfOk result (λ yes. yes ≡ deciding.fits_as_value program.now.classes from to) }
{
    if !has_values(to) {
        return Ok(false);
    }
    fits(alloc, program, from, to)
}

/// Whether the type is an interface. Takes no memory.
pub(crate) fn is_interface(program: &Program, ty: Ty) -> bool
    requires { All (IsInRange program.now.classes program.now.fields program.now.methods) (ty_ids ty) }
    ensures { result ≡ deciding.is_interface program.now.classes ty }
{
    match ty {
        Ty::Ref(class) => program.classes()[class.0 as usize].is_interface,
        Ty::Void | Ty::Null | Ty::Int | Ty::Long | Ty::Bool | Ty::Array(_) => false,
    }
}
