//! Operations: operators, the choice by a condition, casts and tests of types.

ghost use Rattle.std.specs.Prelude.{◌≡◌, ◌≤◌, IfOk};
ghost use Rattle.jesc_ast.specs.Expressions.{span_of};
ghost use Rattle.jesc_ast.specs.Lines.{IsLines};
ghost use Rattle.jesc_ast.specs.Trees as ast;
ghost use Rattle.jesc_classes.specs.Answers.{AnswersAs};
ghost use Rattle.jesc_sites.specs.Operations as spec;
ghost use Rattle.jesc_sites.specs.Sites.{IsSetting, IsType, setting};
ghost use Rattle.jesc_sites.specs.Parts.{checked_at};
ghost use Rattle.jesc_tree.specs.Trees as tree;
ghost use Rattle.jesc_tree.specs.Trees.{view};

use crate::part::{Part, refuse_in, span_of, typed};
use crate::signs::{operator_of, prefix_of};
use crate::site::Site;
use jesc_ast::{Expr, Word};
use jesc_classes::{Rule, RuleError};
use jesc_operands::{
    Kind, are_related, binary_type, choice_type, has_values, is_number, is_reference, is_truth,
    kind_of, may_cast, unary_type,
};
use jesc_text::{Boxed, OutOfMemory, Span};
use jesc_tree::{BinOp, TBinary, TChoose, TExpr, TInstance, TNode, TUnary, Ty};
use std::alloc::Global;

/// `-`, `+` or `!` before an operand (JLS 15.15), whose checks stand at the sign.
///
/// Refused by Y1 at the operand where the operator doesn't take its type.
pub fn unary(
    alloc: Global,
    lines: &[u32],
    span: Span,
    op: &Word,
    e: Part<'_>,
) -> Result<TExpr, RuleError>
    requires lines { IsLines lines.now }
    requires within { span.from ≤ 1048576 }
    requires op { op.now.span.from ≤ 1048576 }
    requires e { (span_of (ast.view e.tree.now)).from ≤ 1048576 }
    ensures answers { AnswersAs result view (spec.unary_of lines.now span op.now (ast.view e.entry.tree.now) (view e.entry.typed)) }
    ensures same { IfOk result (λ made. made.ty ≡ e.entry.typed.ty) }
{
    let sign = prefix_of(op.text.as_slice());
    let Some(ty) = unary_type(sign, e.typed.ty) else {
        return Err(refuse_in(alloc, Rule::Y1, lines, e.tree)?);
    };
    let unary = TUnary {
        op: sign,
        e: e.typed,
    };
    let node = TNode::Unary(Boxed::new(alloc, unary)?);
    Ok(typed(alloc, lines, span, op.span, ty, node)?)
}

/// Whether a value of this type may stand beside an operator of that kind.
fn takes(kind: Kind, ty: Ty) -> bool
    ensures { result ≡ spec.takes kind ty }
{
    match kind {
        Kind::Arithmetic | Kind::Order => is_number(ty),
        Kind::Equality => has_values(ty),
        Kind::Logic => is_truth(ty),
    }
}

/// The error for two operands that don't fit: at the first one whose type doesn't fit its place, else at the whole.
fn mismatch(
    alloc: Global,
    lines: &[u32],
    first_fits: bool,
    second_fits: bool,
    first: &Expr,
    second: &Expr,
    whole: &Expr,
) -> Result<TExpr, RuleError>
    requires lines { IsLines lines.now }
    requires first { (span_of (ast.view first.now)).from ≤ 1048576 }
    requires second { (span_of (ast.view second.now)).from ≤ 1048576 }
    requires whole { (span_of (ast.view whole.now)).from ≤ 1048576 }
    ensures { AnswersAs result view (spec.mismatch lines.now first_fits second_fits (ast.view first.now) (ast.view second.now) (ast.view whole.now)) }
{
    if !first_fits {
        return Err(refuse_in(alloc, Rule::Y1, lines, first)?);
    }
    if !second_fits {
        return Err(refuse_in(alloc, Rule::Y1, lines, second)?);
    }
    Err(refuse_in(alloc, Rule::Y1, lines, whole)?)
}

/// An operator between two operands (JLS 15.17 to 15.24), whose checks stand at the sign; `whole` is all of it.
///
/// Refused by Y1 at the first operand whose type the operator doesn't take, and at the whole where the two don't fit.
pub fn binary(
    alloc: Global,
    site: &Site<'_>,
    whole: &Expr,
    op: &Word,
    a: Part<'_>,
    b: Part<'_>,
) -> Result<TExpr, RuleError>
    requires setting { IsSetting (setting site.now) }
    requires whole { ast.view whole.now ≡ ast.binary (span_of (ast.view whole.now)) op.now (ast.view a.tree.now) (ast.view b.tree.now) }
    requires within { (span_of (ast.view whole.now)).from ≤ 1048576 }
    requires op { op.now.span.from ≤ 1048576 }
    requires a { (span_of (ast.view a.tree.now)).from ≤ 1048576 }
    requires b { (span_of (ast.view b.tree.now)).from ≤ 1048576 }
    requires left { IsType (setting site.now) a.typed.ty }
    requires right { IsType (setting site.now) b.typed.ty }
    ensures answers { AnswersAs result view (spec.binary_of (setting site.now) (span_of (ast.view whole.now)) op.now (ast.view a.entry.tree.now) (ast.view b.entry.tree.now) (view a.entry.typed) (view b.entry.typed)) }
    ensures within { IfOk result (λ made. IsType (setting site.now) made.ty) }
{
    let sign = operator_of(op.text.as_slice());
    let program = site.names.program;
    let Some(ty) = binary_type(alloc, program, sign, a.typed.ty, b.typed.ty)? else {
        let kind = kind_of(sign);
        let (first, second) = (takes(kind, a.typed.ty), takes(kind, b.typed.ty));
        return mismatch(alloc, site.lines, first, second, a.tree, b.tree, whole);
    };
    let (left, right) = (a.typed, b.typed);
    let span = span_of(whole);
    Ok(made_binary(alloc, site.lines, span, op.span, ty, sign, left, right)?)
}

/// An operation of that span and type, whose checks stand at the other span.
fn made_binary(
    alloc: Global,
    lines: &[u32],
    span: Span,
    at: Span,
    ty: Ty,
    op: BinOp,
    left: TExpr,
    right: TExpr,
) -> Result<TExpr, OutOfMemory>
    requires lines { IsLines lines.now }
    requires within { span.from ≤ 1048576 }
    requires at { at.from ≤ 1048576 }
    ensures made { IfOk result (λ e. view e ≡ checked_at lines.now span at ty (tree.binary op (view left) (view right))) }
    ensures same { IfOk result (λ e. e.ty ≡ ty) }
{
    let node = TNode::Binary(Boxed::new(alloc, TBinary { op, left, right })?);
    typed(alloc, lines, span, at, ty, node)
}

/// `test ? yes : no` (JLS 15.25); `whole` is all of it.
///
/// Refused by Y1 at the test where it is no truth value, at a value that is none, and at the whole where the two values
/// don't fit.
pub fn choose(
    alloc: Global,
    site: &Site<'_>,
    whole: &Expr,
    question: Span,
    test: Part<'_>,
    yes: Part<'_>,
    no: Part<'_>,
) -> Result<TExpr, RuleError>
    requires setting { IsSetting (setting site.now) }
    requires whole { ast.view whole.now ≡ ast.choose (span_of (ast.view whole.now)) (ast.view test.tree.now) question (ast.view yes.tree.now) (ast.view no.tree.now) }
    requires within { (span_of (ast.view whole.now)).from ≤ 1048576 }
    requires question { question.from ≤ 1048576 }
    requires test { (span_of (ast.view test.tree.now)).from ≤ 1048576 }
    requires yes { (span_of (ast.view yes.tree.now)).from ≤ 1048576 }
    requires no { (span_of (ast.view no.tree.now)).from ≤ 1048576 }
    requires first { IsType (setting site.now) yes.typed.ty }
    requires second { IsType (setting site.now) no.typed.ty }
    ensures answers { AnswersAs result view (spec.choose_of (setting site.now) (span_of (ast.view whole.now)) question (ast.view test.entry.tree.now) (ast.view yes.entry.tree.now) (ast.view no.entry.tree.now) (view test.entry.typed) (view yes.entry.typed) (view no.entry.typed)) }
    ensures within { IfOk result (λ made. IsType (setting site.now) made.ty) }
{
    if !is_truth(test.typed.ty) {
        return Err(refuse_in(alloc, Rule::Y1, site.lines, test.tree)?);
    }
    let program = site.names.program;
    let Some(ty) = choice_type(alloc, program, yes.typed.ty, no.typed.ty)? else {
        let first = has_values(yes.typed.ty);
        let second = has_values(no.typed.ty);
        return mismatch(alloc, site.lines, first, second, yes.tree, no.tree, whole);
    };
    let (test, yes, no) = (test.typed, yes.typed, no.typed);
    let span = span_of(whole);
    Ok(made_choice(alloc, site.lines, span, question, ty, test, yes, no)?)
}

/// A choice of that span and type, whose place is the other span's.
fn made_choice(
    alloc: Global,
    lines: &[u32],
    span: Span,
    at: Span,
    ty: Ty,
    test: TExpr,
    yes: TExpr,
    no: TExpr,
) -> Result<TExpr, OutOfMemory>
    requires lines { IsLines lines.now }
    requires within { span.from ≤ 1048576 }
    requires at { at.from ≤ 1048576 }
    ensures made { IfOk result (λ e. view e ≡ checked_at lines.now span at ty (tree.choose (view test) (view yes) (view no))) }
    ensures same { IfOk result (λ e. e.ty ≡ ty) }
{
    let node = TNode::Choose(Boxed::new(alloc, TChoose { test, yes, no })?);
    typed(alloc, lines, span, at, ty, node)
}

/// A cast to a type (JLS 15.16), whose checks stand at its parenthesis.
///
/// Refused by Y1 at the operand where a value of its type can't be cast.
pub fn cast(
    alloc: Global,
    site: &Site<'_>,
    span: Span,
    ty: Ty,
    e: Part<'_>,
) -> Result<TExpr, RuleError>
    requires setting { IsSetting (setting site.now) }
    requires within { span.from ≤ 1048576 }
    requires e { (span_of (ast.view e.tree.now)).from ≤ 1048576 }
    requires from { IsType (setting site.now) e.typed.ty }
    requires to { IsType (setting site.now) ty }
    ensures answers { AnswersAs result view (spec.cast_of (setting site.now) span (ast.view e.entry.tree.now) ty (view e.entry.typed)) }
    ensures within { IfOk result (λ made. IsType (setting site.now) made.ty) }
{
    if !may_cast(alloc, site.names.program, e.typed.ty, ty)? {
        return Err(refuse_in(alloc, Rule::Y1, site.lines, e.tree)?);
    }
    let node = TNode::Cast(e.typed);
    Ok(typed(alloc, site.lines, span, span, ty, node)?)
}

/// `e instanceof ty` (JLS 15.20.2); `whole` is all of it.
///
/// Refused by Y1 at the operand where it is no reference, and at the whole where it can be no instance of the type.
pub fn instance_test(
    alloc: Global,
    site: &Site<'_>,
    whole: &Expr,
    e: Part<'_>,
    ty: Ty,
) -> Result<TExpr, RuleError>
    requires setting { IsSetting (setting site.now) }
    requires within { (span_of (ast.view whole.now)).from ≤ 1048576 }
    requires e { (span_of (ast.view e.tree.now)).from ≤ 1048576 }
    requires from { IsType (setting site.now) e.typed.ty }
    requires to { IsType (setting site.now) ty }
    ensures answers { AnswersAs result view (spec.instance_test_of (setting site.now) (span_of (ast.view whole.now)) (ast.view whole.now) (ast.view e.entry.tree.now) ty (view e.entry.typed)) }
    ensures within { IfOk result (λ made. IsType (setting site.now) made.ty) }
{
    if !is_reference(e.typed.ty) {
        return Err(refuse_in(alloc, Rule::Y1, site.lines, e.tree)?);
    }
    if !are_related(alloc, site.names.program, e.typed.ty, ty)? {
        return Err(refuse_in(alloc, Rule::Y1, site.lines, whole)?);
    }
    let test = TInstance { e: e.typed, ty };
    let span = span_of(whole);
    let node = TNode::InstanceOf(Boxed::new(alloc, test)?);
    Ok(typed(alloc, site.lines, span, span, Ty::Bool, node)?)
}
