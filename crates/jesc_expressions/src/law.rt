//! What the functions of `Resolving` answer is what the relation of `Typing` says. Each law is a call that does nothing,
//! whose contract states it.

ghost use Rattle.std.specs.Prelude.{◌≡◌, ◌↔◌, List, Ok};
ghost use Rattle.jesc_ast.specs.Trees as ast;
ghost use Rattle.jesc_expressions.specs.Resolving.{resolved, resolved_all};
ghost use Rattle.jesc_expressions.specs.Typing.{Typed, TypedAll};
ghost use Rattle.jesc_sites.specs.Parts.{type_of};
ghost use Rattle.jesc_sites.specs.Sites.{Around, IsSetting, IsType, Setting};
ghost use Rattle.jesc_tree.specs.Trees as tree;

/// Where no rule is broken in an expression, what the functions answer is what the relation says, and the other way round.
pub fn typing_is_decided()
    ensures { (s : Setting) (a : Around) (e : ast.Expression) (x : tree.Expression) → IsSetting s → (resolved s a e ≡ Ok x) ↔ Typed s a e x }
{}

/// The same of arguments, one after the other.
pub fn arguments_are_decided()
    ensures { (s : Setting) (a : Around) (es : ast.Expressions) (xs : List tree.Expression) → IsSetting s → (resolved_all s a es ≡ Ok xs) ↔ TypedAll s a es xs }
{}

/// An expression stands for one typed form at most.
pub fn one_is_typed()
    ensures { (s : Setting) (a : Around) (e : ast.Expression) (x y : tree.Expression) → IsSetting s → Typed s a e x → Typed s a e y → x ≡ y }
{}

/// The type of a typed expression is one of the program.
pub fn types_are_in_range()
    ensures { (s : Setting) (a : Around) (e : ast.Expression) (x : tree.Expression) → IsSetting s → Typed s a e x → IsType s (type_of x) }
{}
