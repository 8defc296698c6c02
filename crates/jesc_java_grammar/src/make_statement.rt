//! Statements of one word of their parts.

ghost use Rattle.std.specs.Prelude.{◌≡◌, ◌≤◌, IfOk};
ghost use Rattle.jesc_ast.specs.Trees.{statement_view, optional_view};
ghost use Rattle.jesc_jml_grammar.specs.ClauseSeen.{measured};
ghost use Rattle.jesc_jml_grammar.specs.Nests.{parsed, listed};
ghost use Rattle.jesc_jml_grammar.specs.Seen.{lexeme};
ghost use Rattle.jesc_java_grammar.specs.StatementFound as spec;
ghost use Rattle.jesc_java_grammar.specs.Views.{ghost_head};

use crate::make::statement;
use jesc_ast::{Expr, GhostTree, SetTree, Stmt, StmtNode, TypeTree};
use jesc_jml_grammar::cursor::Lexeme;
use jesc_jml_grammar::found::{Found, FoundList};
use jesc_jml_grammar::make::word_of;
use jesc_jml_grammar::part::Measured;
use jesc_jml_grammar::span::join;
use jesc_text::{Boxed, OutOfMemory};
use std::alloc::Global;

pub fn make_return(
    alloc: Global,
    first: Lexeme<'_>,
    value: Measured<Option<Expr>>,
    last: Lexeme<'_>,
) -> Result<Measured<Stmt>, OutOfMemory>
    requires { value.depth ≤ 1000 }
    ensures { IfOk result (λ f. measured statement_view f ≡ spec.return_of (lexeme first.entry) (measured optional_view value) (lexeme last.entry)) }
{
    let span = join(first.span, last.span);
    statement(alloc, span, StmtNode::Return(value.tree), value.depth + 1)
}

pub fn make_throw(
    alloc: Global,
    first: Lexeme<'_>,
    value: Found,
    last: Lexeme<'_>,
) -> Result<Measured<Stmt>, OutOfMemory>
    requires { value.depth ≤ 1000 }
    ensures { IfOk result (λ f. measured statement_view f ≡ spec.throw_of (lexeme first.entry) (parsed value) (lexeme last.entry)) }
{
    let span = join(first.span, last.span);
    statement(alloc, span, StmtNode::Throw(value.expr), value.depth + 1)
}

pub fn make_break(
    alloc: Global,
    first: Lexeme<'_>,
    last: Lexeme<'_>,
) -> Result<Measured<Stmt>, OutOfMemory>
    ensures { IfOk result (λ f. measured statement_view f ≡ spec.break_of (lexeme first.entry) (lexeme last.entry)) }
{
    let span = join(first.span, last.span);
    statement(alloc, span, StmtNode::Break, 1)
}

pub fn make_continue(
    alloc: Global,
    first: Lexeme<'_>,
    last: Lexeme<'_>,
) -> Result<Measured<Stmt>, OutOfMemory>
    ensures { IfOk result (λ f. measured statement_view f ≡ spec.continue_of (lexeme first.entry) (lexeme last.entry)) }
{
    let span = join(first.span, last.span);
    statement(alloc, span, StmtNode::Continue, 1)
}

pub fn make_empty(alloc: Global, only: Lexeme<'_>) -> Result<Measured<Stmt>, OutOfMemory>
    ensures { IfOk result (λ f. measured statement_view f ≡ spec.empty_of (lexeme only.entry)) }
{
    let span = only.span;
    statement(alloc, span, StmtNode::Empty, 1)
}

pub fn make_assertion(
    alloc: Global,
    first: Lexeme<'_>,
    e: Found,
    last: Lexeme<'_>,
) -> Result<Measured<Stmt>, OutOfMemory>
    requires { e.depth ≤ 1000 }
    ensures { IfOk result (λ f. measured statement_view f ≡ spec.assertion_of (lexeme first.entry) (parsed e) (lexeme last.entry)) }
{
    let span = join(first.span, last.span);
    statement(alloc, span, StmtNode::Assert(e.expr), e.depth + 1)
}

pub fn make_set(
    alloc: Global,
    first: Lexeme<'_>,
    target: Found,
    equals: Lexeme<'_>,
    value: Found,
    last: Lexeme<'_>,
) -> Result<Measured<Stmt>, OutOfMemory>
    requires target { target.depth ≤ 1000 }
    requires value { value.depth ≤ 1000 }
    ensures { IfOk result (λ f. measured statement_view f ≡ spec.set_of (lexeme first.entry) (parsed target) (lexeme equals.entry) (parsed value) (lexeme last.entry)) }
{
    let span = join(first.span, last.span);
    let form = SetTree {
        target: target.expr,
        equals: equals.span,
        value: value.expr,
    };
    let node = StmtNode::Set(Boxed::new(alloc, form)?);
    statement(alloc, span, node, target.depth.max(value.depth) + 1)
}

/// The type, the name and the equals sign of a ghost local.
#[derive(Drop)]
pub struct GhostHead<'a> {
    pub first: Lexeme<'a>,
    pub ty: TypeTree,
    pub name: Lexeme<'a>,
    pub equals: Lexeme<'a>,
}

pub fn make_ghost(
    alloc: Global,
    head: GhostHead<'_>,
    value: Found,
    last: Lexeme<'_>,
) -> Result<Measured<Stmt>, OutOfMemory>
    requires { value.depth ≤ 1000 }
    ensures { IfOk result (λ f. measured statement_view f ≡ spec.ghost_of (ghost_head head.entry) (parsed value) (lexeme last.entry)) }
{
    let span = join(head.first.span, last.span);
    let form = GhostTree {
        ty: head.ty,
        name: word_of(alloc, head.name)?,
        equals: head.equals.span,
        value: value.expr,
    };
    let node = StmtNode::Ghost(Boxed::new(alloc, form)?);
    statement(alloc, span, node, value.depth + 1)
}

pub fn make_super(
    alloc: Global,
    first: Lexeme<'_>,
    args: FoundList,
    last: Lexeme<'_>,
) -> Result<Measured<Stmt>, OutOfMemory>
    requires { args.depth ≤ 1000 }
    ensures { IfOk result (λ f. measured statement_view f ≡ spec.super_call_of (lexeme first.entry) (listed args) (lexeme last.entry)) }
{
    let span = join(first.span, last.span);
    statement(alloc, span, StmtNode::Super(args.items), args.depth + 1)
}
