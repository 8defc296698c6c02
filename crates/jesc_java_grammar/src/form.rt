//! What a statement of an expression may be.

ghost use Rattle.std.specs.Prelude.{◌≡◌};
ghost use Rattle.jesc_ast.specs.Statements as spec;
ghost use Rattle.jesc_ast.specs.Trees.{view};

use jesc_ast::{Expr, ExprNode};

/// Whether an assignment may change it.
pub fn is_target(e: &Expr) -> bool
    ensures { result ≡ spec.is_target (view e.now) }
{
    match e.node.get() {
        ExprNode::Name(_) | ExprNode::Member(_) | ExprNode::Index(_) => true,
        _ => false,
    }
}

/// Whether it is a call.
pub fn is_call(e: &Expr) -> bool
    ensures { result ≡ spec.is_call (view e.now) }
{
    match e.node.get() {
        ExprNode::Call(_) => true,
        _ => false,
    }
}
