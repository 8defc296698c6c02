//! Arrays: their elements, their lengths, and new ones.

ghost use Rattle.std.specs.Prelude.{◌≡◌, ◌≤◌, [], IfOk};
ghost use Rattle.jesc_ast.specs.Expressions.{span_of};
ghost use Rattle.jesc_ast.specs.Lines.{IsLines};
ghost use Rattle.jesc_ast.specs.Trees as ast;
ghost use Rattle.jesc_classes.specs.Answers.{AnswersAs};
ghost use Rattle.jesc_sites.specs.Arrays as spec;
ghost use Rattle.jesc_sites.specs.Sites.{IsSetting, IsType, setting};
ghost use Rattle.jesc_tree.specs.declared.ty.Ty.TheVariants.{Array};
ghost use Rattle.jesc_tree.specs.Ids.{ty_ids};
ghost use Rattle.jesc_tree.specs.Trees.{view};

use crate::part::{Part, refuse_in, typed};
use crate::site::{Role, Site};
use jesc_classes::{Rule, RuleError, refuse_at};
use jesc_text::{Boxed, OutOfMemory, Span};
use jesc_tree::{Elem, TExpr, TIndex, TNode, Ty};
use std::alloc::Global;

/// Whether the type is `int`. Takes no memory.
pub fn is_int(ty: Ty) -> bool
    ensures { result ≡ spec.is_int ty }
{
    matches!(ty, Ty::Int)
}

/// The type of an array's elements, as a type. Takes no memory.
pub fn element_type(element: Elem) -> Ty
    ensures { result ≡ spec.element_type element }
{
    match element {
        Elem::Int => Ty::Int,
        Elem::Long => Ty::Long,
        Elem::Bool => Ty::Bool,
        Elem::Ref(class) => Ty::Ref(class),
    }
}

/// The element `a[i]` (JLS 15.10.3), whose checks stand at the bracket.
///
/// Refused by Y1 at `a` where it is no array, and at `i` where it is no `int`.
pub fn index(
    alloc: Global,
    lines: &[u32],
    span: Span,
    bracket: Span,
    a: Part<'_>,
    i: Part<'_>,
) -> Result<TExpr, RuleError>
    requires lines { IsLines lines.now }
    requires within { span.from ≤ 1048576 }
    requires bracket { bracket.from ≤ 1048576 }
    requires a { (span_of (ast.view a.tree.now)).from ≤ 1048576 }
    requires i { (span_of (ast.view i.tree.now)).from ≤ 1048576 }
    ensures answers { AnswersAs result view (spec.index_of lines.now span bracket (ast.view a.entry.tree.now) (ast.view i.entry.tree.now) (view a.entry.typed) (view i.entry.typed)) }
    ensures ids { IfOk result (λ made. ty_ids made.ty ≡ ty_ids a.entry.typed.ty) }
{
    let Ty::Array(element) = a.typed.ty else {
        return Err(refuse_in(alloc, Rule::Y1, lines, a.tree)?);
    };
    if !is_int(i.typed.ty) {
        return Err(refuse_in(alloc, Rule::Y1, lines, i.tree)?);
    }
    let index = TIndex {
        base: a.typed,
        index: i.typed,
    };
    let index = Boxed::new(alloc, index)?;
    let ty = element_type(element);
    Ok(typed(alloc, lines, span, bracket, ty, TNode::Index(index))?)
}

/// The length of the array `x` (JLS 10.7), whose check stands at the dot.
///
/// Answers `OutOfMemory` where there is no room for it.
pub fn length(
    alloc: Global,
    lines: &[u32],
    span: Span,
    dot: Span,
    x: TExpr,
) -> Result<TExpr, OutOfMemory>
    requires lines { IsLines lines.now }
    requires within { span.from ≤ 1048576 }
    requires dot { dot.from ≤ 1048576 }
    ensures made { IfOk result (λ e. view e ≡ spec.length_of lines.now span dot (view x)) }
    ensures ids { IfOk result (λ e. ty_ids e.ty ≡ []) }
{
    typed(alloc, lines, span, dot, Ty::Int, TNode::Length(x))
}

/// Whether a call or something new may stand there: as the whole of what it stands in, and in code alone. Takes no memory.
pub fn may_call(is_code: bool, role: Role) -> bool
    ensures { result ≡ spec.may_call is_code role }
{
    is_code && role == Role::Whole
}

/// A new array of such elements (JLS 15.10.1).
///
/// Refused by Y1 at the size where it is no `int`, and by Y7 where it is not the whole of what it stands in.
pub fn new_array(
    alloc: Global,
    site: &Site<'_>,
    role: Role,
    span: Span,
    element: Elem,
    size: Part<'_>,
) -> Result<TExpr, RuleError>
    requires lines { IsLines (setting site.now).lines }
    requires element { IsType (setting site.now) (Array element) }
    requires within { span.from ≤ 1048576 }
    requires size { (span_of (ast.view size.tree.now)).from ≤ 1048576 }
    ensures answers { AnswersAs result view (spec.new_array_of (setting site.now) role span (ast.view size.entry.tree.now) element (view size.entry.typed)) }
    ensures within { IfOk result (λ e. IsType (setting site.now) e.ty) }
{
    if !is_int(size.typed.ty) {
        return Err(refuse_in(alloc, Rule::Y1, site.lines, size.tree)?);
    }
    if !may_call(site.is_code, role) {
        return Err(refuse_at(alloc, Rule::Y7, site.lines, span, b"new")?);
    }
    let ty = Ty::Array(element);
    Ok(typed(
        alloc,
        site.lines,
        span,
        span,
        ty,
        TNode::NewArray(size.typed),
    )?)
}
