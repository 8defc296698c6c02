//! New objects.

ghost use Rattle.std.specs.Prelude.{◌≡◌, ◌<◌, ◌≤◌, length, map, IfOk};
ghost use Rattle.std.specs.List.{All};
ghost use Rattle.jesc_ast.specs.Expressions.{span_of};
ghost use Rattle.jesc_ast.specs.Lines.{IsLines};
ghost use Rattle.jesc_ast.specs.Trees as ast;
ghost use Rattle.jesc_classes.specs.Answers.{AnswersAs};
ghost use Rattle.jesc_classes.specs.Given.{IsPlaced};
ghost use Rattle.jesc_references.specs.Creations as spec;
ghost use Rattle.jesc_sites.specs.Parts.{plain};
ghost use Rattle.jesc_sites.specs.Sites.{IsSetting, IsType, setting};
ghost use Rattle.jesc_tree.specs.declared.ty.Ty.TheVariants.{Ref as Object};
ghost use Rattle.jesc_tree.specs.Trees as tree;
ghost use Rattle.jesc_tree.specs.Trees.{view};

use crate::arguments::arguments_fit;
use crate::methods::constructor_in;
use jesc_ast::{Expr, Word};
use jesc_classes::{Rule, RuleError, refuse, refuse_at};
use jesc_sites::{Role, Site, may_call, typed};
use jesc_text::{Boxed, List, OutOfMemory, Span};
use jesc_tree::{ClassId, MethodId, TExpr, TNew, TNode, Ty};
use std::alloc::Global;

/// The class of that name, of which there are objects (JLS 15.9.1).
///
/// Refused at the name: by N1 where there is no such class, and by Y1 where it is abstract or an interface.
pub fn made_class(alloc: Global, site: &Site<'_>, name: &Word) -> Result<ClassId, RuleError>
    requires setting { IsSetting (setting site.now) }
    requires name { IsPlaced name.now }
    ensures answers { AnswersAs result (λ c. c.0) (spec.made_class (setting site.now) name.now) }
    ensures inside { IfOk result (λ c. c.0 < length (setting site.now).classes) }
{
    let Some(id) = site.names.class(name.text.as_slice()) else {
        return Err(refuse(alloc, Rule::N1, site.lines, name)?);
    };
    let class = &site.names.program.classes()[id.0 as usize];
    if class.is_abstract || class.is_interface {
        return Err(refuse(alloc, Rule::Y1, site.lines, name)?);
    }
    Ok(id)
}

/// A new object of the class (JLS 15.9); `args` are its arguments, typed, and `trees` as they are written.
///
/// Refused by N1 at `new` where no constructor takes so many arguments; by Y1 at an argument that doesn't fit its
/// parameter; by Y7 at `new` where it is not the whole of what it stands in.
pub fn new_object(
    alloc: Global,
    site: &Site<'_>,
    role: Role,
    span: Span,
    class: ClassId,
    trees: &[Expr],
    args: List<TExpr>,
) -> Result<TExpr, RuleError>
    requires setting { IsSetting (setting site.now) }
    requires within { span.from ≤ 1048576 }
    requires class { class.0 < length (setting site.now).classes }
    requires trees { All (λ e. (span_of (ast.view e)).from ≤ 1048576) trees.now }
    requires types { All (λ x. IsType (setting site.now) x.ty) args }
    ensures answers { AnswersAs result view (spec.new_object_of (setting site.now) role span class.0 (map ast.view trees.now) (map view args)) }
    ensures within { IfOk result (λ e. IsType (setting site.now) e.ty) }
{
    let Some((id, constructor)) = constructor_in(site, class, args.len()) else {
        return Err(refuse_at(alloc, Rule::N1, site.lines, span, b"new")?);
    };
    let params = constructor.params.as_slice();
    arguments_fit(alloc, site, args.as_slice(), params, trees)?;
    if !may_call(site.is_code, role) {
        return Err(refuse_at(alloc, Rule::Y7, site.lines, span, b"new")?);
    }
    Ok(made_object(alloc, site.lines, span, class, id, args)?)
}

/// A new object of that span.
fn made_object(
    alloc: Global,
    lines: &[u32],
    span: Span,
    class: ClassId,
    method: MethodId,
    args: List<TExpr>,
) -> Result<TExpr, OutOfMemory>
    requires lines { IsLines lines.now }
    requires within { span.from ≤ 1048576 }
    ensures made { IfOk result (λ e. view e ≡ plain lines.now span (Object class) (tree.new_object method (tree.expressions_of (map view args)))) }
    ensures same { IfOk result (λ e. e.ty ≡ Object class) }
{
    let node = TNode::New(Boxed::new(alloc, TNew { method, args })?);
    typed(alloc, lines, span, span, Ty::Ref(class), node)
}
