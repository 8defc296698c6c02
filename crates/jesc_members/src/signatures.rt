//! Whether two methods have the same signature.

ghost use Rattle.std.specs.Prelude.{◌≡◌, ◌↔◌, true, map};
ghost use Rattle.jesc_members.specs.Signatures.{typed};
ghost use Rattle.jesc_members.specs.Methods.{may_be_null, optional_written, signature, written};

use jesc_ast::{MethodTree, ParamTree, TypeTree, Word};
use jesc_classes::stands_in;

/// Whether the parameters have the same types, the results too, and null may stand in the same places.
pub fn is_same_signature(a: &MethodTree, b: &MethodTree) -> bool
    ensures { (result ≡ true) ↔ (signature a.now ≡ signature b.now) }
{
    are_same_params(a.params.as_slice(), b.params.as_slice())
        && is_same_result(&a.result, &b.result)
        && is_nullable(a.modifiers.as_slice()) == is_nullable(b.modifiers.as_slice())
}

fn are_same_params(a: &[ParamTree], b: &[ParamTree]) -> bool
    ensures { (result ≡ true) ↔ (map typed a.now ≡ map typed b.now) }
{
    if a.len() != b.len() {
        return false;
    }
    for (i, param) in a.iter().enumerate() {
        if !is_same_param(param, &b[i]) {
            return false;
        }
    }
    true
}

fn is_same_param(a: &ParamTree, b: &ParamTree) -> bool
    ensures { (result ≡ true) ↔ (typed a.now ≡ typed b.now) }
{
    is_same_type(&a.ty, &b.ty)
        && is_nullable(a.modifiers.as_slice()) == is_nullable(b.modifiers.as_slice())
}

fn is_same_type(a: &TypeTree, b: &TypeTree) -> bool
    ensures { (result ≡ true) ↔ (written a.now ≡ written b.now) }
{
    a.base.as_slice() == b.base.as_slice() && a.array == b.array
}

fn is_same_result(a: &Option<TypeTree>, b: &Option<TypeTree>) -> bool
    ensures { (result ≡ true) ↔ (optional_written a.now ≡ optional_written b.now) }
{
    match a {
        None => b.is_none(),
        Some(a) => match b {
            None => false,
            Some(b) => is_same_type(a, b),
        },
    }
}

/// Whether `nullable` is among the modifiers.
fn is_nullable(modifiers: &[Word]) -> bool
    ensures { result ≡ may_be_null modifiers.now }
{
    stands_in(modifiers, b"nullable")
}
