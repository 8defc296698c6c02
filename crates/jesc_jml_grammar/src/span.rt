//! Spans of trees.

ghost use Rattle.std.specs.Prelude.{◌≡◌};
ghost use Rattle.jesc_ast.specs.Lexemes as lexemes;
ghost use Rattle.jesc_ast.specs.Expressions as expressions;
ghost use Rattle.jesc_ast.specs.Trees.{view};

use jesc_ast::Expr;
use jesc_text::Span;

/// From the start of the first to the end of the last.
pub fn join(first: Span, last: Span) -> Span
    ensures { result ≡ lexemes.join first last }
{
    Span {
        file: first.file,
        from: first.from,
        to: last.to,
    }
}

pub fn span_of(e: &Expr) -> Span
    ensures { result ≡ expressions.span_of (view e.now) }
{
    e.span
}
