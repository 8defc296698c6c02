//! Branches of their parts.

ghost use Rattle.std.specs.Prelude.{◌≡◌, ◌≤◌, IfOk};
ghost use Rattle.jesc_ast.specs.Statements as ast;
ghost use Rattle.jesc_ast.specs.Trees as trees;
ghost use Rattle.jesc_ast.specs.Trees.{statement_view, view};
ghost use Rattle.jesc_jml_grammar.specs.ClauseSeen.{measured};
ghost use Rattle.jesc_jml_grammar.specs.Nests.{parsed};
ghost use Rattle.jesc_jml_grammar.specs.Seen.{lexeme};
ghost use Rattle.jesc_java_grammar.specs.StatementFound as spec;
ghost use Rattle.jesc_java_grammar.specs.Views.{optional_statement};

use crate::make::statement;
use jesc_ast::{Expr, IfTree, Stmt, StmtNode};
use jesc_jml_grammar::cursor::Lexeme;
use jesc_jml_grammar::found::Found;
use jesc_jml_grammar::part::Measured;
use jesc_jml_grammar::span::join;
use jesc_text::{Boxed, OutOfMemory, Span};
use std::alloc::Global;

pub fn span_of_statement(s: &Stmt) -> Span
    ensures { result ≡ ast.statement_span (statement_view s.now) }
{
    s.span
}

/// Without an `else` there is no other branch.
fn branch(
    alloc: Global,
    span: Span,
    test: Expr,
    then: Stmt,
    other: Option<Stmt>,
    depth: usize,
) -> Result<Measured<Stmt>, OutOfMemory>
    ensures value { IfOk result (λ f. statement_view f.tree ≡ trees.branch span (view test) (statement_view then) (optional_statement other)) }
    ensures depth { IfOk result (λ f. f.depth ≡ depth) }
{
    let form = IfTree { test, then, other };
    statement(alloc, span, StmtNode::If(Boxed::new(alloc, form)?), depth)
}

pub fn make_branch(
    alloc: Global,
    first: Lexeme<'_>,
    test: Found,
    then: Measured<Stmt>,
) -> Result<Measured<Stmt>, OutOfMemory>
    requires test { test.depth ≤ 1000 }
    requires then { then.depth ≤ 1000 }
    ensures { IfOk result (λ f. measured statement_view f ≡ spec.branch_of (lexeme first.entry) (parsed test) (measured statement_view then)) }
{
    let span = join(first.span, span_of_statement(&then.tree));
    let depth = test.depth.max(then.depth) + 1;
    branch(alloc, span, test.expr, then.tree, None, depth)
}

pub fn make_branch_else(
    alloc: Global,
    first: Lexeme<'_>,
    test: Found,
    then: Measured<Stmt>,
    other: Measured<Stmt>,
) -> Result<Measured<Stmt>, OutOfMemory>
    requires test { test.depth ≤ 1000 }
    requires then { then.depth ≤ 1000 }
    requires other { other.depth ≤ 1000 }
    ensures { IfOk result (λ f. measured statement_view f ≡ spec.branch_else_of (lexeme first.entry) (parsed test) (measured statement_view then) (measured statement_view other)) }
{
    let span = join(first.span, span_of_statement(&other.tree));
    let depth = test.depth.max(then.depth).max(other.depth) + 1;
    branch(alloc, span, test.expr, then.tree, Some(other.tree), depth)
}
