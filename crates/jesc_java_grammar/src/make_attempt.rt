//! `try` statements of their parts.

ghost use Rattle.std.specs.Prelude.{◌≡◌, ◌≤◌, max, map, IfOk};
ghost use Rattle.jesc_ast.specs.Statements as ast;
ghost use Rattle.jesc_ast.specs.Trees.{statement_view, body_view, catches_of, catch_view};
ghost use Rattle.jesc_jml_grammar.specs.ClauseFound.{with_more};
ghost use Rattle.jesc_jml_grammar.specs.ClauseSeen.{measured};
ghost use Rattle.jesc_jml_grammar.specs.Seen.{lexeme};
ghost use Rattle.jesc_java_grammar.specs.StatementFound as spec;
ghost use Rattle.jesc_java_grammar.specs.Views.{catch_head};

use crate::make::statement;
use jesc_ast::{BodyTree, CatchTree, Stmt, StmtNode, TryTree};
use jesc_jml_grammar::cursor::Lexeme;
use jesc_jml_grammar::make::word_of;
use jesc_jml_grammar::part::Measured;
use jesc_jml_grammar::span::join;
use jesc_text::{Boxed, List, OutOfMemory, Span};
use std::alloc::Global;

/// What a `catch` begins with.
#[derive(Drop, Clone, Copy)]
pub struct CatchHead<'a> {
    pub is_final: bool,
    pub class: Lexeme<'a>,
    pub name: Lexeme<'a>,
}

pub fn make_catch(
    alloc: Global,
    head: CatchHead<'_>,
    body: Measured<BodyTree>,
) -> Result<Measured<CatchTree>, OutOfMemory>
    ensures { IfOk result (λ c. measured catch_view c ≡ spec.catch_of (catch_head head.entry) (measured body_view body)) }
{
    let class = word_of(alloc, head.class)?;
    let name = word_of(alloc, head.name)?;
    Ok(Measured {
        tree: CatchTree {
            is_final: head.is_final,
            class,
            name,
            body: body.tree,
        },
        depth: body.depth,
    })
}

/// The `catch`es with one more.
pub fn with_catch(
    mut found: Measured<List<CatchTree>>,
    next: Measured<CatchTree>,
) -> Result<Measured<List<CatchTree>>, OutOfMemory>
    ensures value { IfOk result (λ f. measured (map catch_view) f ≡ with_more (measured (map catch_view) found) (measured catch_view next)) }
    ensures depth { IfOk result (λ f. f.depth ≡ max found.depth next.depth) }
{
    found.tree.push(next.tree)?;
    found.depth = found.depth.max(next.depth);
    Ok(found)
}

/// The span of the last token of `catch`es behind a body, which ends with a token of this span.
fn end_of_catches(close: Span, catches: &List<CatchTree>) -> Span
    ensures { result ≡ ast.catches_end close (catches_of (map catch_view catches.now)) }
{
    match catches.as_slice() {
        [] => close,
        [.., last] => last.body.close,
    }
}

pub fn make_attempt(
    alloc: Global,
    first: Lexeme<'_>,
    body: Measured<BodyTree>,
    catches: Measured<List<CatchTree>>,
) -> Result<Measured<Stmt>, OutOfMemory>
    requires body { body.depth ≤ 1000 }
    requires catches { catches.depth ≤ 1000 }
    ensures { IfOk result (λ f. measured statement_view f ≡ spec.attempt_of (lexeme first.entry) (measured body_view body) (measured (map catch_view) catches)) }
{
    let close = end_of_catches(body.tree.close, &catches.tree);
    let depth = body.depth.max(catches.depth) + 1;
    let form = TryTree {
        body: body.tree,
        catches: catches.tree,
    };
    let span = join(first.span, close);
    let node = StmtNode::Try(Boxed::new(alloc, form)?);
    statement(alloc, span, node, depth)
}
