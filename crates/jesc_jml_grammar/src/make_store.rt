//! Store references of their parts.

ghost use Rattle.std.specs.Prelude.{◌≡◌, ◌+◌, ◌≤◌, ◌<◌, IfOk};
ghost use Rattle.jesc_ast.specs.SpecTrees.{store_view};
ghost use Rattle.jesc_jml_grammar.specs.Seen.{lexeme};
ghost use Rattle.jesc_jml_grammar.specs.Nests.{parsed};
ghost use Rattle.jesc_jml_grammar.specs.ClauseFound as spec;
ghost use Rattle.jesc_jml_grammar.specs.ClauseSeen.{measured, path_of, IsWithin};

use crate::cursor::Lexeme;
use crate::found::Found;
use crate::make_tree::{make_index, make_member};
use crate::part::{Measured, Path};
use crate::span::{join, span_of};
use jesc_ast::{ElementStore, RangeStore, StoreNode, StoreTree};
use jesc_text::{Boxed, OutOfMemory, Span};
use std::alloc::Global;

/// The path with its last index.
pub fn close_path(alloc: Global, path: Path<'_>) -> Result<Found, OutOfMemory>
    requires { IsWithin 1000 path }
    ensures { IfOk result (λ f. parsed f ≡ spec.closed (path_of path.entry)) }
{
    match path {
        Path::Plain(e) => Ok(e),
        Path::WithIndex(e, open, i, close) => make_index(alloc, e, open, i, close),
    }
}

/// A store reference of these parts.
pub fn store(
    alloc: Global,
    span: Span,
    node: StoreNode,
    depth: usize,
) -> Result<Measured<StoreTree>, OutOfMemory>
    ensures { IfOk result (λ m. m ≡ record { tree = record { span = span; node = node }; depth = depth }) }
{
    Ok(Measured {
        tree: StoreTree {
            span,
            node: Boxed::new(alloc, node)?,
        },
        depth,
    })
}

/// The store that a path alone is.
pub fn store_of(alloc: Global, path: Path<'_>) -> Result<Measured<StoreTree>, OutOfMemory>
    ensures { IfOk result (λ m. measured store_view m ≡ spec.store_of (path_of path.entry)) }
{
    match path {
        Path::Plain(e) => {
            let span = span_of(&e.expr);
            store(alloc, span, StoreNode::Path(e.expr), e.depth)
        }
        Path::WithIndex(e, _open, i, close) => {
            let span = join(span_of(&e.expr), close.span);
            let form = ElementStore {
                array: e.expr,
                index: i.expr,
            };
            let node = StoreNode::Elem(Boxed::new(alloc, form)?);
            store(alloc, span, node, e.depth.max(i.depth))
        }
    }
}

pub fn make_star(
    alloc: Global,
    e: Found,
    last: Lexeme<'_>,
) -> Result<Measured<StoreTree>, OutOfMemory>
    ensures { IfOk result (λ m. measured store_view m ≡ spec.star_of (parsed e) (lexeme last.entry)) }
{
    let span = join(span_of(&e.expr), last.span);
    store(alloc, span, StoreNode::Star(e.expr), e.depth)
}

pub fn make_all(
    alloc: Global,
    e: Found,
    last: Lexeme<'_>,
) -> Result<Measured<StoreTree>, OutOfMemory>
    ensures { IfOk result (λ m. measured store_view m ≡ spec.all_of (parsed e) (lexeme last.entry)) }
{
    let span = join(span_of(&e.expr), last.span);
    store(alloc, span, StoreNode::AllElems(e.expr), e.depth)
}

pub fn make_range(
    alloc: Global,
    e: Found,
    low: Found,
    high: Found,
    last: Lexeme<'_>,
) -> Result<Measured<StoreTree>, OutOfMemory>
    ensures { IfOk result (λ m. measured store_view m ≡ spec.range_of (parsed e) (parsed low) (parsed high) (lexeme last.entry)) }
{
    let span = join(span_of(&e.expr), last.span);
    let depth = e.depth.max(low.depth.max(high.depth));
    let form = RangeStore {
        array: e.expr,
        first: low.expr,
        last: high.expr,
    };
    store(
        alloc,
        span,
        StoreNode::Range(Boxed::new(alloc, form)?),
        depth,
    )
}

pub fn make_member_path<'a>(
    alloc: Global,
    e: Found,
    dot: Lexeme<'_>,
    x: Lexeme<'_>,
) -> Result<Path<'a>, OutOfMemory>
    requires { e.depth ≤ 1000 }
    ensures value { IfOk result (λ path. path_of path ≡ spec.member_path (parsed e) (lexeme dot.entry) (lexeme x.entry)) }
    ensures within { IfOk result (λ path. IsWithin (e.depth + 1) path) }
{
    Ok(Path::Plain(make_member(alloc, e, dot, x)?))
}
