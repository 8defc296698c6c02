//! Loops of their parts.

ghost use Rattle.std.specs.Prelude.{◌≡◌, ◌≤◌, map, IfOk};
ghost use Rattle.jesc_ast.specs.Trees as trees;
ghost use Rattle.jesc_ast.specs.Trees.{statement_view, clause_view, optional_view};
ghost use Rattle.jesc_jml_grammar.specs.ClauseSeen.{measured};
ghost use Rattle.jesc_jml_grammar.specs.Nests.{parsed};
ghost use Rattle.jesc_jml_grammar.specs.Seen.{lexeme};
ghost use Rattle.jesc_java_grammar.specs.StatementFound as spec;
ghost use Rattle.jesc_java_grammar.specs.Views.{for_head, optional_statement};

use crate::make::statement;
use crate::make_branch::span_of_statement;
use jesc_ast::{ClauseTree, Expr, ForTree, Stmt, StmtNode, WhileTree};
use jesc_jml_grammar::cursor::Lexeme;
use jesc_jml_grammar::found::Found;
use jesc_jml_grammar::part::Measured;
use jesc_jml_grammar::span::join;
use jesc_text::{Boxed, List, OutOfMemory, Span};
use std::alloc::Global;

pub fn make_while(
    alloc: Global,
    invariants: Measured<List<ClauseTree>>,
    first: Lexeme<'_>,
    test: Found,
    turn: Measured<Stmt>,
) -> Result<Measured<Stmt>, OutOfMemory>
    requires invariants { invariants.depth ≤ 1000 }
    requires test { test.depth ≤ 1000 }
    requires turn { turn.depth ≤ 1000 }
    ensures { IfOk result (λ f. measured statement_view f ≡ spec.while_of (measured (map clause_view) invariants) (lexeme first.entry) (parsed test) (measured statement_view turn)) }
{
    let span = join(first.span, span_of_statement(&turn.tree));
    let depth = invariants.depth.max(test.depth).max(turn.depth) + 1;
    let form = WhileTree {
        invariants: invariants.tree,
        test: test.expr,
        body: turn.tree,
    };
    let node = StmtNode::While(Boxed::new(alloc, form)?);
    statement(alloc, span, node, depth)
}

/// What stands between the parentheses of a `for`.
#[derive(Drop)]
pub struct ForHead {
    pub first: Option<Stmt>,
    pub test: Option<Expr>,
    pub last: Option<Stmt>,
    pub depth: usize,
}

pub fn make_head(
    first: Measured<Option<Stmt>>,
    test: Measured<Option<Expr>>,
    last: Measured<Option<Stmt>>,
) -> ForHead
    ensures value { for_head result ≡ spec.head_of (measured optional_statement first) (measured optional_view test) (measured optional_statement last) }
{
    ForHead {
        first: first.tree,
        test: test.tree,
        last: last.tree,
        depth: first.depth.max(test.depth.max(last.depth)),
    }
}

pub fn make_for(
    alloc: Global,
    invariants: Measured<List<ClauseTree>>,
    first: Lexeme<'_>,
    head: ForHead,
    turn: Measured<Stmt>,
) -> Result<Measured<Stmt>, OutOfMemory>
    requires invariants { invariants.depth ≤ 1000 }
    requires head { head.depth ≤ 1000 }
    requires turn { turn.depth ≤ 1000 }
    ensures { IfOk result (λ f. measured statement_view f ≡ spec.for_of (measured (map clause_view) invariants) (lexeme first.entry) (for_head head) (measured statement_view turn)) }
{
    let span = join(first.span, span_of_statement(&turn.tree));
    let depth = invariants.depth.max(head.depth).max(turn.depth) + 1;
    let form = ForTree {
        invariants: invariants.tree,
        first: head.first,
        test: head.test,
        last: head.last,
        body: turn.tree,
    };
    let node = StmtNode::For(Boxed::new(alloc, form)?);
    statement(alloc, span, node, depth)
}
