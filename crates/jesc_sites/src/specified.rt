//! What stands in specifications alone: `\old`, `\fresh` and quantifiers.

ghost use Rattle.std.specs.Prelude.{◌≡◌, ◌≤◌, ◌<◌, ◌+◌, ◌^◌, length, map, IfOk};
ghost use Rattle.jesc_ast.specs.Expressions.{span_of};
ghost use Rattle.jesc_ast.specs.Lines.{IsLines};
ghost use Rattle.jesc_ast.specs.Trees as ast;
ghost use Rattle.jesc_classes.specs.Answers.{AnswersAs};
ghost use Rattle.jesc_sites.specs.Sites.{IsType, setting};
ghost use Rattle.jesc_sites.specs.Specified as spec;
ghost use Rattle.jesc_sites.specs.Parts.{plain};
ghost use Rattle.jesc_tree.specs.declared.ty.Ty.TheVariants.{Bool as Truth};
ghost use Rattle.jesc_tree.specs.Trees as tree;
ghost use Rattle.jesc_tree.specs.Trees.{view};

use crate::arrays::is_int;
use crate::part::{Part, refuse_in, typed};
use crate::site::Site;
use jesc_classes::{Rule, RuleError, refuse_at};
use jesc_operands::{has_values, is_reference, is_truth};
use jesc_text::{Boxed, OutOfMemory, Span};
use jesc_tree::{LocalId, TExpr, TNode, TQuant, Ty};
use std::alloc::Global;

/// `\old(e)` (JML Reference Manual 12.4.2).
///
/// Refused by Y1 at `e` where it has no value, and by Y6 where it may not stand.
pub fn old(alloc: Global, site: &Site<'_>, span: Span, e: Part<'_>) -> Result<TExpr, RuleError>
    requires lines { IsLines (setting site.now).lines }
    requires within { span.from ≤ 1048576 }
    requires e { (span_of (ast.view e.tree.now)).from ≤ 1048576 }
    requires value { IsType (setting site.now) e.typed.ty }
    ensures answers { AnswersAs result view (spec.old_of (setting site.now) span (ast.view e.entry.tree.now) (view e.entry.typed)) }
    ensures within { IfOk result (λ made. IsType (setting site.now) made.ty) }
{
    if !has_values(e.typed.ty) {
        return Err(refuse_in(alloc, Rule::Y1, site.lines, e.tree)?);
    }
    if !site.has_past {
        return Err(refuse_at(alloc, Rule::Y6, site.lines, span, b"\\old")?);
    }
    let ty = e.typed.ty;
    Ok(typed(alloc, site.lines, span, span, ty, TNode::Old(e.typed))?)
}

/// `\fresh(e)` (JML Reference Manual 12.4.9).
///
/// Refused by Y1 at `e` where it is no reference, and by Y6 where it may not stand.
pub fn fresh(alloc: Global, site: &Site<'_>, span: Span, e: Part<'_>) -> Result<TExpr, RuleError>
    requires lines { IsLines (setting site.now).lines }
    requires within { span.from ≤ 1048576 }
    requires e { (span_of (ast.view e.tree.now)).from ≤ 1048576 }
    ensures answers { AnswersAs result view (spec.fresh_of (setting site.now) span (ast.view e.entry.tree.now) (view e.entry.typed)) }
    ensures within { IfOk result (λ made. IsType (setting site.now) made.ty) }
{
    if !is_reference(e.typed.ty) {
        return Err(refuse_in(alloc, Rule::Y1, site.lines, e.tree)?);
    }
    if !site.has_past {
        return Err(refuse_at(alloc, Rule::Y6, site.lines, span, b"\\fresh")?);
    }
    Ok(typed(
        alloc,
        site.lines,
        span,
        span,
        Ty::Bool,
        TNode::Fresh(e.typed),
    )?)
}

/// A bound of a quantifier's variable, and whether the variable doesn't reach it.
#[derive(Drop)]
pub struct Bound<'a> {
    pub part: Part<'a>,
    pub is_strict: bool,
}

/// `(\forall int x; low < x && x < high; body)`, or `\exists` (JML Reference Manual 12.4.24): `variables` are those of the
/// quantifiers around it, as many as give the variable its number.
///
/// Refused by Y1 at a bound that is no `int`, and at a body that is no truth value.
pub fn quantifier(
    alloc: Global,
    site: &Site<'_>,
    variables: &[&[u8]],
    span: Span,
    universal: bool,
    low: Bound<'_>,
    high: Bound<'_>,
    body: Part<'_>,
) -> Result<TExpr, RuleError>
    requires lines { IsLines (setting site.now).lines }
    requires within { span.from ≤ 1048576 }
    requires low { (span_of (ast.view low.part.tree.now)).from ≤ 1048576 }
    requires high { (span_of (ast.view high.part.tree.now)).from ≤ 1048576 }
    requires body { (span_of (ast.view body.tree.now)).from ≤ 1048576 }
    requires few { length site.now.locals.now + length variables.now < 2 ^ 32 }
    ensures answers { AnswersAs result view (spec.quantifier_of (setting site.now) (map (λ name. name.now) variables.now) span universal (ast.view low.entry.part.tree.now) low.entry.is_strict (ast.view high.entry.part.tree.now) high.entry.is_strict (ast.view body.entry.tree.now) (view low.entry.part.typed) (view high.entry.part.typed) (view body.entry.typed)) }
    ensures within { IfOk result (λ made. IsType (setting site.now) made.ty) }
{
    if !is_int(low.part.typed.ty) {
        return Err(refuse_in(alloc, Rule::Y1, site.lines, low.part.tree)?);
    }
    if !is_int(high.part.typed.ty) {
        return Err(refuse_in(alloc, Rule::Y1, site.lines, high.part.tree)?);
    }
    if !is_truth(body.typed.ty) {
        return Err(refuse_in(alloc, Rule::Y1, site.lines, body.tree)?);
    }
    let variable = variable_id(site, variables);
    let node = TQuant {
        universal,
        variable,
        low: low.part.typed,
        low_strict: low.is_strict,
        high: high.part.typed,
        high_strict: high.is_strict,
        body: body.typed,
    };
    Ok(made_quantifier(alloc, site.lines, span, node)?)
}

/// The number of a variable, which is one more local behind those that are in scope.
fn variable_id(site: &Site<'_>, variables: &[&[u8]]) -> LocalId
    requires { length site.now.locals.now + length variables.now < 2 ^ 32 }
    ensures { result ≡ spec.variable_id (setting site.now) (map (λ name. name.now) variables.now) }
{
    LocalId((site.locals.len() + variables.len()) as u32)
}

/// A quantifier of that span.
fn made_quantifier(
    alloc: Global,
    lines: &[u32],
    span: Span,
    node: TQuant,
) -> Result<TExpr, OutOfMemory>
    requires lines { IsLines lines.now }
    requires within { span.from ≤ 1048576 }
    ensures made { IfOk result (λ e. view e ≡ plain lines.now span Truth (tree.quantifier node.universal node.variable (view node.low) node.low_strict (view node.high) node.high_strict (view node.body))) }
    ensures truth { IfOk result (λ e. e.ty ≡ Truth) }
{
    let node = TNode::Quant(Boxed::new(alloc, node)?);
    typed(alloc, lines, span, span, Ty::Bool, node)
}
