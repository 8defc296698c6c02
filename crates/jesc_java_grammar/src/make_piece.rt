//! Simple statements of their parts.

ghost use Rattle.std.specs.Prelude.{◌≡◌, ◌≤◌, IfOk};
ghost use Rattle.jesc_jml_grammar.specs.ClauseSeen.{measured};
ghost use Rattle.jesc_jml_grammar.specs.Nests.{parsed};
ghost use Rattle.jesc_jml_grammar.specs.Seen.{lexeme};
ghost use Rattle.jesc_ast.specs.Trees.{statement_view};
ghost use Rattle.jesc_java_grammar.specs.StatementFound as spec;
ghost use Rattle.jesc_java_grammar.specs.Views.{piece};

use crate::make::statement;
use jesc_ast::{AssignTree, LocalTree, Stmt, StmtNode, TypeTree};
use jesc_jml_grammar::cursor::Lexeme;
use jesc_jml_grammar::found::Found;
use jesc_jml_grammar::make::word_of;
use jesc_jml_grammar::part::Measured;
use jesc_jml_grammar::span::{join, span_of};
use jesc_text::{Boxed, OutOfMemory, Span};
use std::alloc::Global;

pub fn make_local(
    alloc: Global,
    first: Span,
    is_final: bool,
    ty: TypeTree,
    x: Lexeme<'_>,
    equals: Lexeme<'_>,
    value: Found,
) -> Result<Measured<Stmt>, OutOfMemory>
    requires { value.depth ≤ 1000 }
    ensures { IfOk result (λ f. piece f ≡ spec.local_of first is_final ty (lexeme x.entry) (lexeme equals.entry) (parsed value)) }
{
    let span = join(first, span_of(&value.expr));
    let form = LocalTree {
        is_final,
        ty,
        name: word_of(alloc, x)?,
        equals: equals.span,
        value: value.expr,
    };
    let node = StmtNode::Local(Boxed::new(alloc, form)?);
    Ok(statement(alloc, span, node, value.depth + 1)?)
}

pub fn make_assign(
    alloc: Global,
    target: Found,
    op: Lexeme<'_>,
    value: Found,
) -> Result<Measured<Stmt>, OutOfMemory>
    requires target { target.depth ≤ 1000 }
    requires value { value.depth ≤ 1000 }
    ensures { IfOk result (λ f. piece f ≡ spec.assign_of (parsed target) (lexeme op.entry) (parsed value)) }
{
    let span = join(span_of(&target.expr), span_of(&value.expr));
    let form = AssignTree {
        target: target.expr,
        op: word_of(alloc, op)?,
        before: false,
        value: Some(value.expr),
    };
    let node = StmtNode::Assign(Boxed::new(alloc, form)?);
    Ok(statement(alloc, span, node, target.depth.max(value.depth) + 1)?)
}

pub fn make_step_after(
    alloc: Global,
    target: Found,
    op: Lexeme<'_>,
) -> Result<Measured<Stmt>, OutOfMemory>
    requires { target.depth ≤ 1000 }
    ensures { IfOk result (λ f. piece f ≡ spec.step_after_of (parsed target) (lexeme op.entry)) }
{
    let span = join(span_of(&target.expr), op.span);
    let form = AssignTree {
        target: target.expr,
        op: word_of(alloc, op)?,
        before: false,
        value: None,
    };
    let node = StmtNode::Assign(Boxed::new(alloc, form)?);
    Ok(statement(alloc, span, node, target.depth + 1)?)
}

pub fn make_step_before(
    alloc: Global,
    op: Lexeme<'_>,
    target: Found,
) -> Result<Measured<Stmt>, OutOfMemory>
    requires { target.depth ≤ 1000 }
    ensures { IfOk result (λ f. piece f ≡ spec.step_before_of (lexeme op.entry) (parsed target)) }
{
    let span = join(op.span, span_of(&target.expr));
    let form = AssignTree {
        target: target.expr,
        op: word_of(alloc, op)?,
        before: true,
        value: None,
    };
    let node = StmtNode::Assign(Boxed::new(alloc, form)?);
    Ok(statement(alloc, span, node, target.depth + 1)?)
}

pub fn make_call(alloc: Global, e: Found) -> Result<Measured<Stmt>, OutOfMemory>
    requires { e.depth ≤ 1000 }
    ensures { IfOk result (λ f. piece f ≡ spec.call_of (parsed e)) }
{
    let span = span_of(&e.expr);
    Ok(statement(alloc, span, StmtNode::Call(e.expr), e.depth + 1)?)
}

/// The statement that ends with this semicolon.
pub fn finish(found: Measured<Stmt>, last: Lexeme<'_>) -> Measured<Stmt>
    ensures value { measured statement_view result ≡ spec.finished (piece found) (lexeme last.entry) }
    ensures depth { result.depth ≡ found.depth }
{
    Measured {
        tree: Stmt {
            span: join(found.tree.span, last.span),
            node: found.tree.node,
        },
        depth: found.depth,
    }
}
