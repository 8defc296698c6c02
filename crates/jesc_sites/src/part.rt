//! What every rule uses: the error for an expression, and the maker of a typed one.

ghost use Rattle.std.specs.Prelude.{◌≡◌, ◌≤◌, IfOk};
ghost use Rattle.jesc_ast.specs.Expressions as expressions;
ghost use Rattle.jesc_ast.specs.Lines.{IsLines, place_at as place_by};
ghost use Rattle.jesc_ast.specs.Trees as ast;
ghost use Rattle.jesc_classes.specs.declared.rule.RuleError.TheVariants.{Refused};
ghost use Rattle.jesc_sites.specs.Parts as spec;
ghost use Rattle.jesc_tree.specs.Trees.{view};

use jesc_ast::{Expr, ExprNode, Receiver};
use jesc_classes::{Rule, RuleError, place_at, refuse_at};
use jesc_text::{Boxed, OutOfMemory, Span};
use jesc_tree::{TExpr, TNode, Ty};
use std::alloc::Global;

/// A part of an expression: its tree, and what that stands for.
#[derive(Drop)]
pub struct Part<'a> {
    pub tree: &'a Expr,
    pub typed: TExpr,
}

/// The span of an expression's tokens. Takes no memory.
pub fn span_of(e: &Expr) -> Span
    ensures { result ≡ expressions.span_of (ast.view e.now) }
{
    e.span
}

/// The text of an expression's first token. Takes no memory.
pub fn first_word<'a>(e: &'a Expr) -> &'a [u8]
    ensures { result.now ≡ spec.first_word (ast.view e.now) }
{
    match e.node.get() {
        ExprNode::Number(text) => text.as_slice(),
        ExprNode::Truth(true) => b"true",
        ExprNode::Truth(false) => b"false",
        ExprNode::Null => b"null",
        ExprNode::This => b"this",
        ExprNode::Result => b"\\result",
        ExprNode::Name(text) => text.as_slice(),
        ExprNode::Paren(_) => b"(",
        ExprNode::Member(access) => first_word(&access.get().base),
        ExprNode::Index(access) => first_word(&access.get().base),
        ExprNode::Unary(unary) => unary.get().op.text.as_slice(),
        ExprNode::Binary(binary) => first_word(&binary.get().left),
        ExprNode::Choose(choice) => first_word(&choice.get().test),
        ExprNode::Cast(_) => b"(",
        ExprNode::InstanceOf(test) => first_word(&test.get().e),
        ExprNode::Call(call) => match &call.get().receiver {
            Receiver::Implied => call.get().name.text.as_slice(),
            Receiver::Super => b"super",
            Receiver::On { base, dot: _ } => first_word(base),
        },
        ExprNode::New(_) => b"new",
        ExprNode::NewArray(_) => b"new",
        ExprNode::Old(_) => b"\\old",
        ExprNode::Fresh(_) => b"\\fresh",
        ExprNode::Quant(_) => b"(",
    }
}

/// The error that the rule is broken by this expression of a file whose lines begin at these offsets.
///
/// Answers `OutOfMemory` where there is no room for a copy of the first token's text.
pub fn refuse_in(
    alloc: Global,
    number: Rule,
    lines: &[u32],
    e: &Expr,
) -> Result<RuleError, OutOfMemory>
    requires lines { IsLines lines.now }
    requires within { (expressions.span_of (ast.view e.now)).from ≤ 1048576 }
    ensures { IfOk result (λ error. error ≡ Refused number (place_by lines.now (expressions.span_of (ast.view e.now))) (spec.first_word (ast.view e.now))) }
{
    refuse_at(alloc, number, lines, span_of(e), first_word(e))
}

/// An expression of that span, type and form, whose checks stand at another span.
///
/// Answers `OutOfMemory` where there is no room for it.
pub fn typed(
    alloc: Global,
    lines: &[u32],
    span: Span,
    at: Span,
    ty: Ty,
    node: TNode,
) -> Result<TExpr, OutOfMemory>
    requires lines { IsLines lines.now }
    requires within { span.from ≤ 1048576 }
    requires at { at.from ≤ 1048576 }
    ensures { IfOk result (λ e. e ≡ spec.made lines.now span at ty node) }
{
    let start = place_at(lines, span);
    let at = place_at(lines, at);
    let node = Boxed::new(alloc, node)?;
    Ok(TExpr {
        start,
        at,
        dot: at,
        ty,
        node,
    })
}

/// The same expression with parentheses around it, of which the first is this span's. Takes no memory.
pub fn enclosed(lines: &[u32], span: Span, e: TExpr) -> TExpr
    requires lines { IsLines lines.now }
    requires within { span.from ≤ 1048576 }
    ensures made { view result ≡ spec.enclosed lines.now span (view e) }
    ensures same { result.ty ≡ e.ty }
{
    TExpr {
        start: place_at(lines, span),
        at: e.at,
        dot: e.dot,
        ty: e.ty,
        node: e.node,
    }
}
