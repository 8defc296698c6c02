//! What stands behind a dot.

ghost use Rattle.std.specs.Prelude.{◌≡◌, ◌<◌, ◌≤◌, [], length, IfOk};
ghost use Rattle.jesc_ast.specs.Expressions.{span_of};
ghost use Rattle.jesc_ast.specs.Trees as ast;
ghost use Rattle.jesc_ast.specs.Lines.{IsLines};
ghost use Rattle.jesc_classes.specs.Answers.{AnswersAs};
ghost use Rattle.jesc_classes.specs.Given.{IsPlaced};
ghost use Rattle.jesc_references.specs.Fields as spec;
ghost use Rattle.jesc_references.specs.Known.{field_in as found_in};
ghost use Rattle.jesc_sites.specs.Sites.{IsSetting, IsType, setting};
ghost use Rattle.jesc_tree.specs.Ids.{ty_ids};
ghost use Rattle.jesc_tree.specs.Trees.{view};

use crate::fields::field_in;
use crate::names::{is_of_specification, is_static, made_field, reads_specification};
use jesc_ast::{Expr, Word};
use jesc_classes::{Rule, RuleError, is_same, refuse};
use jesc_sites::{Part, Role, Site, length, refuse_in, span_of, typed};
use jesc_text::Span;
use jesc_tree::{ClassId, TExpr, TNode, Ty};
use std::alloc::Global;

/// A static field behind the name of its class (JLS 6.5.6.2); `whole` is the class, the dot and the name.
///
/// Refused by N1 at the name where the class has no such field, and by Y1 at the whole where it is not static.
pub fn static_field(
    alloc: Global,
    site: &Site<'_>,
    whole: &Expr,
    name: &Word,
    class: ClassId,
) -> Result<TExpr, RuleError>
    requires setting { IsSetting (setting site.now) }
    requires within { (span_of (ast.view whole.now)).from ≤ 1048576 }
    requires name { IsPlaced name.now }
    requires class { class.0 < length (setting site.now).classes }
    ensures answers { AnswersAs result view (spec.static_field_of (setting site.now) (span_of (ast.view whole.now)) (ast.view whole.now) name.now class.0) }
    ensures within { IfOk result (λ e. IsType (setting site.now) e.ty) }
{
    let Some((id, field)) = field_in(site, class, name.text.as_slice()) else {
        return Err(refuse(alloc, Rule::N1, site.lines, name)?);
    };
    if !is_static(field) {
        return Err(refuse_in(alloc, Rule::Y1, site.lines, whole)?);
    }
    let span = span_of(whole);
    let node = TNode::Constant(id);
    Ok(typed(alloc, site.lines, span, span, field.ty, node)?)
}

/// A field of an object (JLS 15.11.1), or the length of an array (JLS 10.7); `whole` is all of it.
///
/// Refused by N1 at the name where there is no such field; by Y1 at the whole where it is static, and at what stands
/// before the dot where `length` is read of something that has no fields; by Y4 at the name where code names what is the
/// specification's alone.
pub fn member(
    alloc: Global,
    site: &Site<'_>,
    role: Role,
    whole: &Expr,
    dot: Span,
    name: &Word,
    base: Part<'_>,
) -> Result<TExpr, RuleError>
    requires setting { IsSetting (setting site.now) }
    requires within { (span_of (ast.view whole.now)).from ≤ 1048576 }
    requires dot { dot.from ≤ 1048576 }
    requires name { IsPlaced name.now }
    requires base { (span_of (ast.view base.tree.now)).from ≤ 1048576 }
    requires ty { IsType (setting site.now) base.typed.ty }
    ensures answers { AnswersAs result view (spec.member_of (setting site.now) role (span_of (ast.view whole.now)) (ast.view whole.now) (ast.view base.entry.tree.now) dot name.now (view base.entry.typed)) }
    ensures within { IfOk result (λ e. IsType (setting site.now) e.ty) }
{
    match base.typed.ty {
        Ty::Ref(class) => field(alloc, site, role, whole, dot, name, class, base.typed),
        Ty::Array(_) => array_length(alloc, site.lines, span_of(whole), dot, name, base.typed),
        Ty::Void | Ty::Null | Ty::Int | Ty::Long | Ty::Bool => {
            if is_length(name) {
                Err(refuse_in(alloc, Rule::Y1, site.lines, base.tree)?)
            } else {
                Err(refuse(alloc, Rule::N1, site.lines, name)?)
            }
        }
    }
}

/// Whether the name is that of an array's length.
fn is_length(name: &Word) -> bool
    ensures { result ≡ spec.is_length name.now }
{
    is_same(name.text.as_slice(), b"length")
}

/// The length of an array, which has nothing else behind a dot.
fn array_length(
    alloc: Global,
    lines: &[u32],
    span: Span,
    dot: Span,
    name: &Word,
    base: TExpr,
) -> Result<TExpr, RuleError>
    requires lines { IsLines lines.now }
    requires within { span.from ≤ 1048576 }
    requires dot { dot.from ≤ 1048576 }
    requires name { IsPlaced name.now }
    ensures answers { AnswersAs result view (spec.length_by lines.now span dot name.now (view base)) }
    ensures ids { IfOk result (λ e. ty_ids e.ty ≡ []) }
{
    if !is_length(name) {
        return Err(refuse(alloc, Rule::N1, lines, name)?);
    }
    Ok(length(alloc, lines, span, dot, base)?)
}

/// A field of an object of that class.
fn field(
    alloc: Global,
    site: &Site<'_>,
    role: Role,
    whole: &Expr,
    dot: Span,
    name: &Word,
    class: ClassId,
    base: TExpr,
) -> Result<TExpr, RuleError>
    requires setting { IsSetting (setting site.now) }
    requires within { (span_of (ast.view whole.now)).from ≤ 1048576 }
    requires dot { dot.from ≤ 1048576 }
    requires name { IsPlaced name.now }
    requires class { class.0 < length (setting site.now).classes }
    ensures answers { AnswersAs result view (spec.field_by (setting site.now) role (span_of (ast.view whole.now)) (ast.view whole.now) dot name.now (view base) (found_in (setting site.now) class.0 name.now.text)) }
    ensures within { IfOk result (λ e. IsType (setting site.now) e.ty) }
{
    let Some((id, field)) = field_in(site, class, name.text.as_slice()) else {
        return Err(refuse(alloc, Rule::N1, site.lines, name)?);
    };
    if is_static(field) {
        return Err(refuse_in(alloc, Rule::Y1, site.lines, whole)?);
    }
    if reads_specification(site, role, is_of_specification(field)) {
        return Err(refuse(alloc, Rule::Y4, site.lines, name)?);
    }
    let span = span_of(whole);
    Ok(made_field(alloc, site.lines, span, dot, field.ty, base, id)?)
}
