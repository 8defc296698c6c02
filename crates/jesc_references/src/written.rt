//! Types as they are written.

ghost use Rattle.std.specs.Prelude.{◌≡◌, ◌≤◌, IfOk, IfSome};
ghost use Rattle.jesc_classes.specs.Answers.{Answers};
ghost use Rattle.jesc_classes.specs.Given.{IsPlaced};
ghost use Rattle.jesc_references.specs.Written as spec;
ghost use Rattle.jesc_sites.specs.Sites.{IsSetting, IsType, setting};
ghost use Rattle.jesc_tree.specs.declared.ty.Ty.TheVariants.{Array};

use jesc_ast::{TypeTree, Word};
use jesc_classes::{Rule, RuleError, is_same, refuse, refuse_at};
use jesc_sites::{Site, element_type};
use jesc_tree::{Elem, Ty};
use std::alloc::Global;

/// A type as it is written (JLS 4.2, 4.3): a primitive type or a class, or an array of it.
///
/// Refused by N1 where no class has the name.
pub fn written_type(alloc: Global, site: &Site<'_>, ty: &TypeTree) -> Result<Ty, RuleError>
    requires setting { IsSetting (setting site.now) }
    requires within { ty.now.span.from ≤ 1048576 }
    ensures answers { Answers result (spec.written_type (setting site.now) ty.now) }
    ensures within { IfOk result (λ t. IsType (setting site.now) t) }
{
    match base_named(site, ty.base.as_slice()) {
        Some(element) => Ok(if ty.array {
            Ty::Array(element)
        } else {
            element_type(element)
        }),
        None => Err(refuse_at(alloc, Rule::N1, site.lines, ty.span, ty.base.as_slice())?),
    }
}

/// What a new array holds, as it is written (JLS 15.10.1).
///
/// Refused by N1 where no class has the name.
pub fn written_element(alloc: Global, site: &Site<'_>, word: &Word) -> Result<Elem, RuleError>
    requires setting { IsSetting (setting site.now) }
    requires within { IsPlaced word.now }
    ensures answers { Answers result (spec.written_element (setting site.now) word.now) }
    ensures within { IfOk result (λ element. IsType (setting site.now) (Array element)) }
{
    match base_named(site, word.text.as_slice()) {
        Some(element) => Ok(element),
        None => Err(refuse(alloc, Rule::N1, site.lines, word)?),
    }
}

/// The primitive type or class of that name, as what an array may hold.
fn base_named(site: &Site<'_>, text: &[u8]) -> Option<Elem>
    ensures found { result ≡ spec.base_named (setting site.now).classes text.now }
    ensures within { IfSome result (λ element. IsType (setting site.now) (Array element)) }
{
    if is_same(text, b"int") {
        return Some(Elem::Int);
    }
    if is_same(text, b"long") {
        return Some(Elem::Long);
    }
    if is_same(text, b"boolean") {
        return Some(Elem::Bool);
    }
    match site.names.class(text) {
        Some(class) => Some(Elem::Ref(class)),
        None => None,
    }
}
