//! Plain names.

ghost use Rattle.std.specs.Prelude.{◌≡◌, ◌<◌, ◌≤◌, ◌+◌, ◌^◌, length, Some, Ok, IfOk};
ghost use Rattle.std.specs.List.{slice_get};
ghost use Rattle.jesc_ast.specs.Lines.{IsLines};
ghost use Rattle.jesc_classes.specs.Answers.{AnswersAs};
ghost use Rattle.jesc_references.specs.Fields as spec;
ghost use Rattle.jesc_sites.specs.Sites.{IsSetting, IsType, around, setting};
ghost use Rattle.jesc_sites.specs.Parts.{checked_at};
ghost use Rattle.jesc_tree.specs.declared.class.Field.{Field as FieldEntry};
ghost use Rattle.jesc_tree.specs.declared.ty.Ty.TheVariants.{Int};
ghost use Rattle.jesc_tree.specs.Trees as tree;
ghost use Rattle.jesc_tree.specs.Trees.{view};

use crate::fields::entry;
use crate::meaning::{Meaning, meaning_of};
use jesc_classes::{Rule, RuleError, refuse_at};
use jesc_sites::{Binding, Position, Role, Site, This, typed};
use jesc_text::{Boxed, OutOfMemory, Span};
use jesc_tree::{Field, FieldId, LocalId, TExpr, TField, TNode, Ty};
use std::alloc::Global;

/// A plain name (JLS 6.5.6.1): a variable, a local, or a field of the own object or its class.
///
/// Refused by N1 where it is none of these; by Y3 where it names a field of the own object and `this` may not be implied;
/// by Y4 where code names what is the specification's alone; by Y6 at a local inside `\old` that is no parameter.
pub fn name(
    alloc: Global,
    site: &Site<'_>,
    position: Position<'_>,
    span: Span,
    text: &[u8],
) -> Result<TExpr, RuleError>
    requires setting { IsSetting (setting site.now) }
    requires within { span.from ≤ 1048576 }
    requires few { length site.now.locals.now + length position.variables.now < 2 ^ 32 }
    ensures answers { AnswersAs result view (spec.name_of (setting site.now) (around position.entry) span text.now) }
    ensures within { IfOk result (λ e. IsType (setting site.now) e.ty) }
{
    match meaning_of(site, position, text) {
        Meaning::Variable(index) => Ok(variable(alloc, site, span, index)?),
        Meaning::Local(local) => named_local(alloc, site, position, span, text, local),
        Meaning::Field(field) => own_field(alloc, site, position.role, span, text, field),
        Meaning::Unknown => Err(refuse_at(alloc, Rule::N1, site.lines, span, text)?),
    }
}

/// A quantifier's variable.
fn variable(alloc: Global, site: &Site<'_>, span: Span, index: u32) -> Result<TExpr, OutOfMemory>
    requires setting { IsSetting (setting site.now) }
    requires within { span.from ≤ 1048576 }
    requires few { length site.now.locals.now + index < 2 ^ 32 }
    ensures answers { IfOk result (λ e. spec.variable_of (setting site.now) span index ≡ Ok (view e)) }
    ensures within { IfOk result (λ e. e.ty ≡ Int) }
{
    let local = LocalId(site.locals.len() as u32 + index);
    typed(alloc, site.lines, span, span, Ty::Int, TNode::Local(local))
}

/// A local in scope.
fn named_local(
    alloc: Global,
    site: &Site<'_>,
    position: Position<'_>,
    span: Span,
    text: &[u8],
    local: Binding,
) -> Result<TExpr, RuleError>
    requires setting { IsSetting (setting site.now) }
    requires within { span.from ≤ 1048576 }
    requires ty { IsType (setting site.now) local.ty }
    ensures answers { AnswersAs result view (spec.local_of (setting site.now) (around position.entry) span text.now local) }
    ensures within { IfOk result (λ e. IsType (setting site.now) e.ty) }
{
    if reads_specification(site, position.role, local.is_ghost) {
        return Err(refuse_at(alloc, Rule::Y4, site.lines, span, text)?);
    }
    if position.in_old && !local.is_parameter {
        return Err(refuse_at(alloc, Rule::Y6, site.lines, span, text)?);
    }
    let node = TNode::Local(local.local);
    Ok(typed(alloc, site.lines, span, span, local.ty, node)?)
}

/// Whether code reads what is the specification's alone. Takes no memory.
pub(crate) fn reads_specification(site: &Site<'_>, role: Role, is_specified: bool) -> bool
    ensures { result ≡ spec.reads_specification (setting site.now) role is_specified }
{
    site.is_code && is_specified && role != Role::Target
}

/// Whether the field is static, which stands for its value. Takes no memory.
pub(crate) fn is_static(field: &Field) -> bool
    ensures { result ≡ spec.is_static field.now }
{
    field.constant.is_some()
}

/// Whether the field is of specifications alone. Takes no memory.
pub(crate) fn is_of_specification(field: &Field) -> bool
    ensures { result ≡ spec.is_of_specification field.now }
{
    field.is_ghost || field.is_model
}

/// A field of the own object, which is implied, or a static one.
fn own_field(
    alloc: Global,
    site: &Site<'_>,
    role: Role,
    span: Span,
    text: &[u8],
    id: FieldId,
) -> Result<TExpr, RuleError>
    requires setting { IsSetting (setting site.now) }
    requires within { span.from ≤ 1048576 }
    requires id { id.0 < length (setting site.now).fields }
    ensures answers { (f : FieldEntry) → slice_get (setting site.now).fields id.0 ≡ Some f → AnswersAs result view (spec.own_field_of (setting site.now) role span text.now id.0 f) }
    ensures within { IfOk result (λ e. IsType (setting site.now) e.ty) }
{
    let field = entry(site, id);
    if is_static(field) {
        let node = TNode::Constant(id);
        return Ok(typed(alloc, site.lines, span, span, field.ty, node)?);
    }
    if matches!(site.this, This::Absent) && role != Role::Target {
        return Err(refuse_at(alloc, Rule::Y3, site.lines, span, text)?);
    }
    if reads_specification(site, role, is_of_specification(field)) {
        return Err(refuse_at(alloc, Rule::Y4, site.lines, span, text)?);
    }
    let base = implied_this(alloc, site, span)?;
    Ok(made_field(alloc, site.lines, span, span, field.ty, base, id)?)
}

/// `this`, where it is implied at that span. Answers `OutOfMemory` where there is no room for it.
pub(crate) fn implied_this(alloc: Global, site: &Site<'_>, span: Span) -> Result<TExpr, OutOfMemory>
    requires setting { IsSetting (setting site.now) }
    requires within { span.from ≤ 1048576 }
    ensures made { IfOk result (λ e. view e ≡ spec.implied_this (setting site.now) span) }
    ensures within { IfOk result (λ e. IsType (setting site.now) e.ty) }
{
    let ty = Ty::Ref(site.class);
    typed(alloc, site.lines, span, span, ty, TNode::This)
}

/// A field of that object, whose checks stand at the other span.
pub(crate) fn made_field(
    alloc: Global,
    lines: &[u32],
    span: Span,
    at: Span,
    ty: Ty,
    base: TExpr,
    field: FieldId,
) -> Result<TExpr, OutOfMemory>
    requires lines { IsLines lines.now }
    requires within { span.from ≤ 1048576 }
    requires at { at.from ≤ 1048576 }
    ensures made { IfOk result (λ e. view e ≡ checked_at lines.now span at ty (tree.member (view base) field)) }
    ensures same { IfOk result (λ e. e.ty ≡ ty) }
{
    let node = TNode::Field(Boxed::new(alloc, TField { base, field })?);
    typed(alloc, lines, span, at, ty, node)
}
