//! Trees of their parts. Each takes memory, and drops its parts where there is none.

ghost use Rattle.std.specs.Prelude.{◌≡◌, ◌≤◌, IfOk};
ghost use Rattle.jesc_ast.specs.Lexemes.{join as joined};
ghost use Rattle.jesc_ast.specs.Expressions.{span_of as spans};
ghost use Rattle.jesc_ast.specs.Trees as trees;
ghost use Rattle.jesc_ast.specs.Trees.{view};
ghost use Rattle.jesc_jml_grammar.specs.Reading as spec;
ghost use Rattle.jesc_jml_grammar.specs.Seen.{lexeme};
ghost use Rattle.jesc_jml_grammar.specs.Nests.{parsed, listed, receiver_of, bounds_of};

use crate::cursor::Lexeme;
use crate::found::{Bounds, Found, FoundList};
use crate::make::{make_name, tree, word_of};
use crate::span::{join, span_of};
use jesc_ast::{
    ArrayAccess, ArrayCreation, BinaryExpr, CastExpr, Conditional, ExprNode, InstanceTest,
    MemberAccess, MethodCall, ObjectCreation, Quantifier, Receiver, TypeTree, UnaryExpr,
};
use jesc_text::{Boxed, OutOfMemory, Span};
use std::alloc::Global;

pub fn make_paren(
    alloc: Global,
    first: Lexeme<'_>,
    inside: Found,
    last: Lexeme<'_>,
) -> Result<Found, OutOfMemory>
    requires { inside.depth ≤ 1000 }
    ensures { IfOk result (λ f. parsed f ≡ spec.over 12 (parsed inside) (trees.paren (joined first.entry.span last.entry.span) (view inside.expr))) }
{
    let span = join(first.span, last.span);
    tree(
        alloc,
        span,
        ExprNode::Paren(inside.expr),
        inside.depth + 1,
        12,
    )
}

pub fn make_lone_name(
    alloc: Global,
    first: Lexeme<'_>,
    x: Lexeme<'_>,
    last: Lexeme<'_>,
) -> Result<Found, OutOfMemory>
    ensures { IfOk result (λ f. parsed f ≡ spec.lone_name (lexeme first.entry) (lexeme x.entry) (lexeme last.entry)) }
{
    let inside = make_name(alloc, x)?;
    let span = join(first.span, last.span);
    tree(alloc, span, ExprNode::Paren(inside.expr), 2, 12)
}

pub fn make_cast(
    alloc: Global,
    first: Lexeme<'_>,
    ty: TypeTree,
    operand: Found,
) -> Result<Found, OutOfMemory>
    requires { operand.depth ≤ 1000 }
    ensures { IfOk result (λ f. parsed f ≡ spec.over 10 (parsed operand) (trees.cast (joined first.entry.span (spans (view operand.expr))) ty (view operand.expr))) }
{
    let span = join(first.span, span_of(&operand.expr));
    let form = CastExpr {
        ty,
        e: operand.expr,
    };
    let node = ExprNode::Cast(Boxed::new(alloc, form)?);
    tree(alloc, span, node, operand.depth + 1, 10)
}

pub fn make_unary(alloc: Global, op: Lexeme<'_>, operand: Found) -> Result<Found, OutOfMemory>
    requires { operand.depth ≤ 1000 }
    ensures { IfOk result (λ f. parsed f ≡ spec.over 10 (parsed operand) (trees.unary (joined op.entry.span (spans (view operand.expr))) (spec.word_of (lexeme op.entry)) (view operand.expr))) }
{
    let span = join(op.span, span_of(&operand.expr));
    let form = UnaryExpr {
        op: word_of(alloc, op)?,
        e: operand.expr,
    };
    let node = ExprNode::Unary(Boxed::new(alloc, form)?);
    tree(alloc, span, node, operand.depth + 1, 10)
}

pub fn make_instance_of(alloc: Global, left: Found, ty: TypeTree) -> Result<Found, OutOfMemory>
    requires { left.depth ≤ 1000 }
    ensures { IfOk result (λ f. parsed f ≡ spec.over 7 (parsed left) (trees.instance_of (joined (spans (view left.expr)) ty.span) (view left.expr) ty)) }
{
    let span = join(span_of(&left.expr), ty.span);
    let form = InstanceTest { e: left.expr, ty };
    let node = ExprNode::InstanceOf(Boxed::new(alloc, form)?);
    tree(alloc, span, node, left.depth + 1, 7)
}

pub fn make_receiver(alloc: Global, left: Found, dot: Lexeme<'_>) -> Result<Receiver, OutOfMemory>
    ensures { IfOk result (λ r. receiver_of r ≡ trees.on (view left.expr) dot.entry.span) }
{
    Ok(Receiver::On {
        base: left.expr,
        dot: dot.span,
    })
}

pub fn make_member(
    alloc: Global,
    left: Found,
    dot: Lexeme<'_>,
    x: Lexeme<'_>,
) -> Result<Found, OutOfMemory>
    requires { left.depth ≤ 1000 }
    ensures { IfOk result (λ f. parsed f ≡ spec.over 12 (parsed left) (trees.member (joined (spans (view left.expr)) x.entry.span) (view left.expr) dot.entry.span (spec.word_of (lexeme x.entry)))) }
{
    let span = join(span_of(&left.expr), x.span);
    let form = MemberAccess {
        name: word_of(alloc, x)?,
        base: left.expr,
        dot: dot.span,
    };
    let node = ExprNode::Member(Boxed::new(alloc, form)?);
    tree(alloc, span, node, left.depth + 1, 12)
}

pub fn make_index(
    alloc: Global,
    left: Found,
    bracket: Lexeme<'_>,
    index: Found,
    last: Lexeme<'_>,
) -> Result<Found, OutOfMemory>
    requires left { left.depth ≤ 1001 }
    requires index { index.depth ≤ 1000 }
    ensures { IfOk result (λ f. parsed f ≡ spec.over_two 12 (parsed left) (parsed index) (trees.index (joined (spans (view left.expr)) last.entry.span) (view left.expr) bracket.entry.span (view index.expr))) }
{
    let span = join(span_of(&left.expr), last.span);
    let depth = left.depth.max(index.depth) + 1;
    let form = ArrayAccess {
        base: left.expr,
        bracket: bracket.span,
        index: index.expr,
    };
    let node = ExprNode::Index(Boxed::new(alloc, form)?);
    tree(alloc, span, node, depth, 12)
}

pub fn make_call(
    alloc: Global,
    first: Span,
    receiver: Receiver,
    depth: usize,
    x: Lexeme<'_>,
    args: FoundList,
    last: Lexeme<'_>,
) -> Result<Found, OutOfMemory>
    requires receiver { depth ≤ 1000 }
    requires args { args.depth ≤ 1000 }
    ensures { IfOk result (λ f. parsed f ≡ spec.call_of first (receiver_of receiver) depth (lexeme x.entry) (listed args) (lexeme last.entry)) }
{
    let depth = depth.max(args.depth) + 1;
    let form = MethodCall {
        name: word_of(alloc, x)?,
        receiver,
        args: args.items,
    };
    let node = ExprNode::Call(Boxed::new(alloc, form)?);
    tree(alloc, join(first, last.span), node, depth, 12)
}

pub fn make_object(
    alloc: Global,
    first: Lexeme<'_>,
    x: Lexeme<'_>,
    args: FoundList,
    last: Lexeme<'_>,
) -> Result<Found, OutOfMemory>
    requires { args.depth ≤ 1000 }
    ensures { IfOk result (λ f. parsed f ≡ spec.object_of (lexeme first.entry) (lexeme x.entry) (listed args) (lexeme last.entry)) }
{
    let form = ObjectCreation {
        name: word_of(alloc, x)?,
        args: args.items,
    };
    let node = ExprNode::New(Boxed::new(alloc, form)?);
    tree(alloc, join(first.span, last.span), node, args.depth + 1, 12)
}

pub fn make_array(
    alloc: Global,
    first: Lexeme<'_>,
    x: Lexeme<'_>,
    size: Found,
    last: Lexeme<'_>,
) -> Result<Found, OutOfMemory>
    requires { size.depth ≤ 1000 }
    ensures { IfOk result (λ f. parsed f ≡ spec.over 11 (parsed size) (trees.new_array (joined first.entry.span last.entry.span) (spec.word_of (lexeme x.entry)) (view size.expr))) }
{
    let form = ArrayCreation {
        base: word_of(alloc, x)?,
        size: size.expr,
    };
    let node = ExprNode::NewArray(Boxed::new(alloc, form)?);
    tree(alloc, join(first.span, last.span), node, size.depth + 1, 11)
}

pub fn make_old(
    alloc: Global,
    first: Lexeme<'_>,
    inside: Found,
    last: Lexeme<'_>,
) -> Result<Found, OutOfMemory>
    requires { inside.depth ≤ 1000 }
    ensures { IfOk result (λ f. parsed f ≡ spec.over 12 (parsed inside) (trees.old (joined first.entry.span last.entry.span) (view inside.expr))) }
{
    let span = join(first.span, last.span);
    tree(
        alloc,
        span,
        ExprNode::Old(inside.expr),
        inside.depth + 1,
        12,
    )
}

pub fn make_fresh(
    alloc: Global,
    first: Lexeme<'_>,
    inside: Found,
    last: Lexeme<'_>,
) -> Result<Found, OutOfMemory>
    requires { inside.depth ≤ 1000 }
    ensures { IfOk result (λ f. parsed f ≡ spec.over 12 (parsed inside) (trees.fresh (joined first.entry.span last.entry.span) (view inside.expr))) }
{
    let span = join(first.span, last.span);
    tree(
        alloc,
        span,
        ExprNode::Fresh(inside.expr),
        inside.depth + 1,
        12,
    )
}

pub fn make_binary(
    alloc: Global,
    left: Found,
    op: Lexeme<'_>,
    right: Found,
    strength: usize,
) -> Result<Found, OutOfMemory>
    requires left { left.depth ≤ 1000 }
    requires right { right.depth ≤ 1000 }
    ensures { IfOk result (λ f. parsed f ≡ spec.over_two strength (parsed left) (parsed right) (trees.binary (joined (spans (view left.expr)) (spans (view right.expr))) (spec.word_of (lexeme op.entry)) (view left.expr) (view right.expr))) }
{
    let span = join(span_of(&left.expr), span_of(&right.expr));
    let depth = left.depth.max(right.depth) + 1;
    let form = BinaryExpr {
        op: word_of(alloc, op)?,
        left: left.expr,
        right: right.expr,
    };
    let node = ExprNode::Binary(Boxed::new(alloc, form)?);
    tree(alloc, span, node, depth, strength)
}

pub fn make_choose(
    alloc: Global,
    test: Found,
    question: Lexeme<'_>,
    yes: Found,
    no: Found,
) -> Result<Found, OutOfMemory>
    requires test { test.depth ≤ 1000 }
    requires yes { yes.depth ≤ 1000 }
    requires no { no.depth ≤ 1000 }
    ensures { IfOk result (λ f. parsed f ≡ spec.over_three 1 (parsed test) (parsed yes) (parsed no) (trees.choose (joined (spans (view test.expr)) (spans (view no.expr))) (view test.expr) question.entry.span (view yes.expr) (view no.expr))) }
{
    let span = join(span_of(&test.expr), span_of(&no.expr));
    let depth = test.depth.max(yes.depth).max(no.depth) + 1;
    let form = Conditional {
        test: test.expr,
        question: question.span,
        yes: yes.expr,
        no: no.expr,
    };
    let node = ExprNode::Choose(Boxed::new(alloc, form)?);
    tree(alloc, span, node, depth, 1)
}

pub fn make_quantifier(
    alloc: Global,
    span: Span,
    universal: bool,
    x: Lexeme<'_>,
    bounds: Bounds,
    body: Found,
) -> Result<Found, OutOfMemory>
    requires low { bounds.low.depth ≤ 1000 }
    requires high { bounds.high.depth ≤ 1000 }
    requires body { body.depth ≤ 1000 }
    ensures { IfOk result (λ f. parsed f ≡ spec.quantifier_of span universal (lexeme x.entry) (bounds_of bounds) (parsed body)) }
{
    let variable = word_of(alloc, x)?;
    let Bounds {
        low,
        low_strict,
        high,
        high_strict,
    } = bounds;
    let depth = low.depth.max(high.depth).max(body.depth) + 1;
    let form = Quantifier {
        universal,
        variable,
        low: low.expr,
        low_strict,
        high: high.expr,
        high_strict,
        body: body.expr,
    };
    let node = ExprNode::Quant(Boxed::new(alloc, form)?);
    tree(alloc, span, node, depth, 12)
}
