//! Literals, `this` and `\result`.

ghost use Rattle.std.specs.Prelude.{◌≡◌, ◌≤◌, [], IfOk};
ghost use Rattle.jesc_ast.specs.Expressions.{span_of};
ghost use Rattle.jesc_ast.specs.Lines.{IsLines};
ghost use Rattle.jesc_ast.specs.Trees as ast;
ghost use Rattle.jesc_classes.specs.Answers.{AnswersAs};
ghost use Rattle.jesc_member_rules.specs.Types.{number_value};
ghost use Rattle.jesc_sites.specs.Plain as spec;
ghost use Rattle.jesc_sites.specs.Parts.{plain};
ghost use Rattle.jesc_sites.specs.Sites.{IsSetting, IsType, setting};
ghost use Rattle.jesc_tree.specs.Ids.{ty_ids};
ghost use Rattle.jesc_tree.specs.Trees as tree;
ghost use Rattle.jesc_tree.specs.Trees.{view};

use crate::part::{span_of, typed};
use crate::site::{Role, Site, This};
use jesc_ast::Expr;
use jesc_classes::{Rule, RuleError, refuse_at};
use jesc_member_rules::literal_value;
use jesc_text::{OutOfMemory, Span};
use jesc_tree::{TExpr, TNode, Ty};
use std::alloc::Global;

/// The greatest literals, which only a minus sign makes fit.
const LONG_LIMIT: i128 = 9223372036854775808;

const INT_LIMIT: i128 = 2147483648;

/// The number `e` of that text: of type `long` where it ends in `L` or `l`, and else `int` (JLS 3.10.1).
///
/// Refused by Y1 where it is the greatest literal and doesn't stand directly behind a minus sign.
pub fn number(
    alloc: Global,
    lines: &[u32],
    role: Role,
    e: &Expr,
    text: &[u8],
) -> Result<TExpr, RuleError>
    requires lines { IsLines lines.now }
    requires within { (span_of (ast.view e.now)).from ≤ 1048576 }
    requires number { ast.view e.now ≡ ast.number (span_of (ast.view e.now)) text.now }
    ensures answers { AnswersAs result view (spec.number_of lines.now role (span_of (ast.view e.now)) text.now) }
    ensures ids { IfOk result (λ made. ty_ids made.ty ≡ []) }
{
    let span = span_of(e);
    let Some(value) = value_of(e, text) else {
        return Err(refuse_at(alloc, Rule::Y1, lines, span, text)?);
    };
    if !may_be_read(role, text, &value) {
        return Err(refuse_at(alloc, Rule::Y1, lines, span, text)?);
    }
    Ok(made_number(alloc, lines, span, text, &value)?)
}

/// The number of that text and value.
fn made_number(
    alloc: Global,
    lines: &[u32],
    span: Span,
    text: &[u8],
    value: &i128,
) -> Result<TExpr, OutOfMemory>
    requires lines { IsLines lines.now }
    requires within { span.from ≤ 1048576 }
    ensures made { IfOk result (λ e. view e ≡ plain lines.now span (spec.number_type text.now) (tree.number value.now)) }
    ensures ids { IfOk result (λ e. ty_ids e.ty ≡ []) }
{
    let ty = if is_long(text) { Ty::Long } else { Ty::Int };
    typed(alloc, lines, span, span, ty, TNode::Number(*value))
}

/// The value of the number `e` of that text.
fn value_of(e: &Expr, text: &[u8]) -> Option<i128>
    requires { ast.view e.now ≡ ast.number (span_of (ast.view e.now)) text.now }
    ensures { result ≡ number_value text.now }
{
    literal_value(e)
}

/// Whether a number of that text and value may stand there.
fn may_be_read(role: Role, text: &[u8], value: &i128) -> bool
    ensures { result ≡ spec.may_be_read role text.now value.now }
{
    let limit = if is_long(text) { LONG_LIMIT } else { INT_LIMIT };
    match role {
        Role::Negated => *value <= limit,
        Role::Operand | Role::Whole | Role::Qualifier | Role::Target => *value < limit,
    }
}

/// Whether the number is a `long`.
fn is_long(text: &[u8]) -> bool
    ensures { result ≡ spec.is_long text.now }
{
    match text.last() {
        Some(last) => *last == b'L' || *last == b'l',
        None => false,
    }
}

/// A truth value (JLS 3.10.3).
pub fn truth(alloc: Global, lines: &[u32], span: Span, value: bool) -> Result<TExpr, RuleError>
    requires lines { IsLines lines.now }
    requires within { span.from ≤ 1048576 }
    ensures answers { AnswersAs result view (spec.truth_of lines.now span value) }
    ensures ids { IfOk result (λ e. ty_ids e.ty ≡ []) }
{
    Ok(typed(alloc, lines, span, span, Ty::Bool, TNode::Truth(value))?)
}

/// `null` (JLS 3.10.8).
pub fn null(alloc: Global, lines: &[u32], span: Span) -> Result<TExpr, RuleError>
    requires lines { IsLines lines.now }
    requires within { span.from ≤ 1048576 }
    ensures answers { AnswersAs result view (spec.null_of lines.now span) }
    ensures ids { IfOk result (λ e. ty_ids e.ty ≡ []) }
{
    Ok(typed(alloc, lines, span, span, Ty::Null, TNode::Null)?)
}

/// `this` (JLS 15.8.3). Refused by Y3 where it may not be written.
pub fn this(alloc: Global, site: &Site<'_>, role: Role, span: Span) -> Result<TExpr, RuleError>
    requires setting { IsSetting (setting site.now) }
    requires within { span.from ≤ 1048576 }
    ensures answers { AnswersAs result view (spec.this_of (setting site.now) role span) }
    ensures within { IfOk result (λ e. IsType (setting site.now) e.ty) }
{
    if may_say_this(site.this, role) {
        let ty = Ty::Ref(site.class);
        Ok(typed(alloc, site.lines, span, span, ty, TNode::This)?)
    } else {
        Err(refuse_at(alloc, Rule::Y3, site.lines, span, b"this")?)
    }
}

/// Whether `this` may be written there.
fn may_say_this(this: This, role: Role) -> bool
    ensures { result ≡ spec.may_say_this this role }
{
    match this {
        This::Absent => false,
        This::Guarded => role == Role::Qualifier,
        This::Free => true,
    }
}

/// `\result` (JML Reference Manual 12.4.1). Refused by Y6 where it may not stand.
pub fn outcome(alloc: Global, site: &Site<'_>, span: Span) -> Result<TExpr, RuleError>
    requires setting { IsSetting (setting site.now) }
    requires within { span.from ≤ 1048576 }
    ensures answers { AnswersAs result view (spec.outcome_of (setting site.now) span) }
    ensures within { IfOk result (λ e. IsType (setting site.now) e.ty) }
{
    match site.result {
        Some(ty) => Ok(typed(alloc, site.lines, span, span, ty, TNode::Result)?),
        None => Err(refuse_at(alloc, Rule::Y6, site.lines, span, b"\\result")?),
    }
}
