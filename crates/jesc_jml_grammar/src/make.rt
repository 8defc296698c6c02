//! Words and leaves of trees.

ghost use Rattle.std.specs.Prelude.{◌≡◌, IfOk};
ghost use Rattle.jesc_ast.specs.Expressions.{type_tree};
ghost use Rattle.jesc_ast.specs.Trees as trees;
ghost use Rattle.jesc_jml_grammar.specs.Reading as spec;
ghost use Rattle.jesc_jml_grammar.specs.Seen.{lexeme};
ghost use Rattle.jesc_jml_grammar.specs.Nests.{parsed};

use crate::cursor::Lexeme;
use crate::found::Found;
use jesc_ast::{Expr, ExprNode, TypeTree, Word};
use jesc_text::{Boxed, OutOfMemory, Span, Text};
use std::alloc::Global;

/// A copy of a text.
pub fn text_of(alloc: Global, bytes: &[u8]) -> Result<Text, OutOfMemory>
    ensures { IfOk result (λ text. text ≡ bytes.now) }
{
    let mut text = Text::new(alloc);
    text.append(bytes)?;
    Ok(text)
}

/// What a tree keeps of a token of the writer's choice.
pub fn word_of(alloc: Global, x: Lexeme<'_>) -> Result<Word, OutOfMemory>
    ensures { IfOk result (λ word. word ≡ spec.word_of (lexeme x.entry)) }
{
    Ok(Word {
        text: text_of(alloc, x.text)?,
        span: x.span,
        note: x.note,
    })
}

/// A type as it is written.
pub fn type_of(alloc: Global, span: Span, base: &[u8], array: bool) -> Result<TypeTree, OutOfMemory>
    ensures { IfOk result (λ t. t ≡ type_tree span base.now array) }
{
    Ok(TypeTree {
        base: text_of(alloc, base)?,
        span,
        array,
    })
}

/// An expression of these parts.
pub fn tree(
    alloc: Global,
    span: Span,
    node: ExprNode,
    depth: usize,
    strength: usize,
) -> Result<Found, OutOfMemory>
    ensures expr { IfOk result (λ f. f.expr ≡ record { span = span; node = node }) }
    ensures depth { IfOk result (λ f. f.depth ≡ depth) }
    ensures strength { IfOk result (λ f. f.strength ≡ strength) }
{
    Ok(Found {
        expr: Expr {
            span,
            node: Boxed::new(alloc, node)?,
        },
        depth,
        strength,
    })
}

/// An expression without parts.
pub fn leaf(alloc: Global, span: Span, node: ExprNode) -> Result<Found, OutOfMemory>
    ensures expr { IfOk result (λ f. f.expr ≡ record { span = span; node = node }) }
    ensures depth { IfOk result (λ f. f.depth ≡ 1) }
    ensures strength { IfOk result (λ f. f.strength ≡ 12) }
{
    tree(alloc, span, node, 1, 12)
}

/// A name that is an expression by itself.
pub fn make_name(alloc: Global, x: Lexeme<'_>) -> Result<Found, OutOfMemory>
    ensures { IfOk result (λ f. parsed f ≡ spec.leaf (trees.name x.entry.span x.entry.text.now)) }
{
    leaf(alloc, x.span, ExprNode::Name(text_of(alloc, x.text)?))
}
