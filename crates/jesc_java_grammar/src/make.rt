//! Statements of their parts.

ghost use Rattle.std.specs.Prelude.{◌≡◌, IfOk};

use jesc_ast::{Stmt, StmtNode};
use jesc_jml_grammar::part::Measured;
use jesc_text::{Boxed, OutOfMemory, Span};
use std::alloc::Global;

/// A statement of these parts.
pub fn statement(
    alloc: Global,
    span: Span,
    node: StmtNode,
    depth: usize,
) -> Result<Measured<Stmt>, OutOfMemory>
    ensures { IfOk result (λ f. f ≡ record { tree = record { span = span; node = node }; depth = depth }) }
{
    Ok(Measured {
        tree: Stmt {
            span,
            node: Boxed::new(alloc, node)?,
        },
        depth,
    })
}
