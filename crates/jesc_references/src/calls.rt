//! Calls.

ghost use Rattle.std.specs.Prelude.{◌≡◌, ◌<◌, ◌≤◌, length, map, option_map, IfOk, IfSome};
ghost use Rattle.std.specs.List.{All, slice_get};
ghost use Rattle.jesc_ast.specs.Expressions.{span_of};
ghost use Rattle.jesc_ast.specs.Trees as ast;
ghost use Rattle.jesc_classes.specs.Answers.{Answers, AnswersAs};
ghost use Rattle.jesc_classes.specs.Given.{IsPlaced};
ghost use Rattle.jesc_references.specs.Calls as spec;
ghost use Rattle.jesc_sites.specs.Sites.{IsSetting, IsType, setting};
ghost use Rattle.jesc_tree.specs.Trees as tree;
ghost use Rattle.jesc_tree.specs.Trees.{view};

use crate::arguments::arguments_fit;
use crate::methods::method_in;
use crate::names::implied_this;
use jesc_ast::{Expr, Word};
use jesc_classes::{Rule, RuleError, place_at};
use jesc_sites::{Role, Site, This, may_call, refuse_in, span_of};
use jesc_text::{Boxed, List, OutOfMemory, Place, Span};
use jesc_tree::{CallHow, ClassId, Method, MethodId, TCall, TExpr, TNode, Ty};
use std::alloc::Global;

/// What stands before a called name.
#[derive(Drop)]
pub enum Target {
    /// Nothing: a method of the class itself.
    Implied,
    /// `super` and a dot.
    Super,
    Class(ClassId),
    On(TExpr),
}

/// A call as it is written.
#[derive(Drop, Clone, Copy)]
pub struct CallTree<'a> {
    pub whole: &'a Expr,
    /// The dot before the name, or the name where there is none.
    pub dot: Span,
    pub name: &'a Word,
    pub args: &'a [Expr],
}

/// The method that is called, and the class in which it is found.
#[derive(Drop, Clone, Copy)]
struct Callee<'a> {
    class: ClassId,
    id: MethodId,
    method: &'a Method,
}

/// A call (JLS 15.12); `args` are its arguments, typed.
///
/// Refused at its first token: by N1 where the class has no such method for so many arguments; by Y1 where the method is
/// static behind an expression, is not behind a class, or is static or has no body behind `super`; by Y3 where the own
/// object may not be called so; by Y7 where it is not the whole of what it stands in. Refused by Y1 at an argument that
/// doesn't fit its parameter.
pub fn call(
    alloc: Global,
    site: &Site<'_>,
    role: Role,
    tree: CallTree<'_>,
    target: Target,
    args: List<TExpr>,
) -> Result<TExpr, RuleError>
    requires setting { IsSetting (setting site.now) }
    requires whole { (span_of (ast.view tree.whole.now)).from ≤ 1048576 }
    requires dot { tree.dot.from ≤ 1048576 }
    requires name { IsPlaced tree.name.now }
    requires trees { All (λ e. (span_of (ast.view e)).from ≤ 1048576) tree.args.now }
    requires target { spec.IsThere (setting site.now) target }
    requires types { All (λ x. IsType (setting site.now) x.ty) args }
    ensures answers { AnswersAs result view (spec.call_of (setting site.now) role (span_of (ast.view tree.entry.whole.now)) (ast.view tree.entry.whole.now) tree.entry.dot tree.entry.name.now (spec.seen_target target) (map ast.view tree.entry.args.now) (map view args)) }
    ensures within { IfOk result (λ e. IsType (setting site.now) e.ty) }
{
    let callee = used(alloc, site, role, tree, &target, args.as_slice())?;
    Ok(called(alloc, site, tree, target, callee, args)?)
}

/// The method that is called, where no rule on it is broken.
fn used<'a>(
    alloc: Global,
    site: &Site<'a>,
    role: Role,
    tree: CallTree<'_>,
    target: &Target,
    args: &[TExpr],
) -> Result<Callee<'a>, RuleError>
    requires setting { IsSetting (setting site.now) }
    requires whole { (span_of (ast.view tree.whole.now)).from ≤ 1048576 }
    requires trees { All (λ e. (span_of (ast.view e)).from ≤ 1048576) tree.args.now }
    requires target { spec.IsThere (setting site.now) target.now }
    requires types { All (λ x. IsType (setting site.now) x.ty) args.now }
    ensures answers { AnswersAs result spec.seen_callee (spec.callee_of (setting site.now) role (ast.view tree.entry.whole.now) tree.entry.name.now (spec.seen_target target.now) (map ast.view tree.entry.args.now) (map view args.now)) }
    ensures within { IfOk result (λ c. IsType (setting site.now) c.method.now.result) }
{
    let Some(callee) = find_callee(site, target, tree.name, args.len()) else {
        return Err(refuse_in(alloc, Rule::N1, site.lines, tree.whole)?);
    };
    may_be_used(alloc, site, role, tree, target, args, callee.method)?;
    Ok(callee)
}

/// Whether the method may be called so.
fn may_be_used(
    alloc: Global,
    site: &Site<'_>,
    role: Role,
    tree: CallTree<'_>,
    target: &Target,
    args: &[TExpr],
    method: &Method,
) -> Result<(), RuleError>
    requires setting { IsSetting (setting site.now) }
    requires whole { (span_of (ast.view tree.whole.now)).from ≤ 1048576 }
    requires trees { All (λ e. (span_of (ast.view e)).from ≤ 1048576) tree.args.now }
    requires types { All (λ x. IsType (setting site.now) x.ty) args.now }
    ensures { Answers result (spec.may_be_used (setting site.now) role (ast.view tree.entry.whole.now) (spec.seen_target target.now) (map ast.view tree.entry.args.now) (map view args.now) method.now) }
{
    if !suits(target, method) {
        return Err(refuse_in(alloc, Rule::Y1, site.lines, tree.whole)?);
    }
    let params = method.params.as_slice();
    arguments_fit(alloc, site, args, params, tree.args)?;
    call_stands(alloc, site, role, tree.whole, target, method)
}

/// Whether the own object may be called so, and a call may stand there.
fn call_stands(
    alloc: Global,
    site: &Site<'_>,
    role: Role,
    whole: &Expr,
    target: &Target,
    method: &Method,
) -> Result<(), RuleError>
    requires setting { IsSetting (setting site.now) }
    requires whole { (span_of (ast.view whole.now)).from ≤ 1048576 }
    ensures { Answers result (spec.call_stands (setting site.now) role (ast.view whole.now) (spec.seen_target target.now) method.now) }
{
    if is_on_this(target, method) && !may_be_called(site.this, method) {
        return Err(refuse_in(alloc, Rule::Y3, site.lines, whole)?);
    }
    if !may_call(site.is_code, role) {
        return Err(refuse_in(alloc, Rule::Y7, site.lines, whole)?);
    }
    Ok(())
}

/// The method that the name means behind the target for so many arguments.
fn find_callee<'a>(
    site: &Site<'a>,
    target: &Target,
    name: &Word,
    count: usize,
) -> Option<Callee<'a>>
    requires setting { IsSetting (setting site.now) }
    requires target { spec.IsThere (setting site.now) target.now }
    ensures found { option_map spec.seen_callee result ≡ spec.callee (setting site.now) (spec.seen_target target.now) name.now.text count }
    ensures class { IfSome result (λ c. c.class.0 < length (setting site.now).classes) }
    ensures within { IfSome result (λ c. IsType (setting site.now) c.method.now.result) }
{
    let class = searched(site, target)?;
    let (id, method) = method_in(site, class, name.text.as_slice(), count)?;
    Some(Callee { class, id, method })
}

/// The class in which the name is looked up, where there is one.
fn searched(site: &Site<'_>, target: &Target) -> Option<ClassId>
    requires setting { IsSetting (setting site.now) }
    requires target { spec.IsThere (setting site.now) target.now }
    ensures found { option_map (λ c. c.0) result ≡ spec.searched (setting site.now) (spec.seen_target target.now) }
    ensures inside { IfSome result (λ c. c.0 < length (setting site.now).classes) }
{
    match target {
        Target::Implied => Some(site.class),
        Target::Super => site.names.program.classes()[site.class.0 as usize].parent,
        Target::Class(class) => Some(*class),
        Target::On(x) => match x.ty {
            Ty::Ref(class) => Some(class),
            Ty::Void | Ty::Null | Ty::Int | Ty::Long | Ty::Bool | Ty::Array(_) => None,
        },
    }
}

/// Whether the method may be called behind the target.
fn suits(target: &Target, method: &Method) -> bool
    ensures { result ≡ spec.suits (spec.seen_target target.now) method.now }
{
    match target {
        Target::Implied => true,
        Target::Super => !method.is_static && !method.is_abstract,
        Target::Class(_) => method.is_static,
        Target::On(_) => !method.is_static,
    }
}

/// Whether the call goes to the own object.
fn is_on_this(target: &Target, method: &Method) -> bool
    ensures { result ≡ spec.is_on_this (spec.seen_target target.now) method.now }
{
    match target {
        Target::Implied => !method.is_static,
        Target::Super => true,
        Target::Class(_) => false,
        Target::On(x) => matches!(x.node.get(), TNode::This),
    }
}

/// Whether the own object may be called so.
fn may_be_called(this: This, method: &Method) -> bool
    ensures { result ≡ spec.may_be_called this method.now }
{
    match this {
        This::Absent => false,
        This::Guarded => method.is_private && method.is_helper,
        This::Free => true,
    }
}

/// A call, whose checks stand at the called name, and that of its receiver at the dot.
fn called(
    alloc: Global,
    site: &Site<'_>,
    tree: CallTree<'_>,
    target: Target,
    callee: Callee<'_>,
    args: List<TExpr>,
) -> Result<TExpr, OutOfMemory>
    requires setting { IsSetting (setting site.now) }
    requires whole { (span_of (ast.view tree.whole.now)).from ≤ 1048576 }
    requires dot { tree.dot.from ≤ 1048576 }
    requires name { IsPlaced tree.name.now }
    ensures made { IfOk result (λ e. view e ≡ spec.called (setting site.now) (span_of (ast.view tree.entry.whole.now)) tree.entry.dot tree.entry.name.now (spec.seen_target target) (spec.seen_callee callee.entry) (map view args)) }
    ensures same { IfOk result (λ e. e.ty ≡ callee.entry.method.now.result) }
{
    let how = receiver(alloc, site, tree.name.span, target, callee.method)?;
    let places = Places {
        start: place_at(site.lines, span_of(tree.whole)),
        at: place_at(site.lines, tree.name.span),
        dot: place_at(site.lines, tree.dot),
    };
    let ty = callee.method.result;
    made_call(alloc, places, ty, how, callee.class, callee.id, args)
}

/// The places of a call.
#[derive(Drop, Clone, Copy)]
struct Places {
    start: Place,
    at: Place,
    dot: Place,
}

/// A call with these places.
fn made_call(
    alloc: Global,
    places: Places,
    ty: Ty,
    how: CallHow,
    class: ClassId,
    method: MethodId,
    args: List<TExpr>,
) -> Result<TExpr, OutOfMemory>
    ensures made { IfOk result (λ e. view e ≡ tree.expression places.start places.at places.dot ty (tree.call (spec.how_view how) class method (tree.expressions_of (map view args)))) }
    ensures same { IfOk result (λ e. e.ty ≡ ty) }
{
    let call = TCall {
        how,
        class,
        method,
        args,
    };
    let node = TNode::Call(Boxed::new(alloc, call)?);
    let node = Boxed::new(alloc, node)?;
    Ok(TExpr {
        start: places.start,
        at: places.at,
        dot: places.dot,
        ty,
        node,
    })
}

/// How the call finds its receiver.
fn receiver(
    alloc: Global,
    site: &Site<'_>,
    span: Span,
    target: Target,
    method: &Method,
) -> Result<CallHow, OutOfMemory>
    requires setting { IsSetting (setting site.now) }
    requires within { span.from ≤ 1048576 }
    ensures { IfOk result (λ how. spec.how_view how ≡ spec.receiver_of (setting site.now) span (spec.seen_target target) method.now) }
{
    match target {
        Target::Implied => {
            if method.is_static {
                Ok(CallHow::Static)
            } else {
                Ok(CallHow::On(implied_this(alloc, site, span)?))
            }
        }
        Target::Super => Ok(CallHow::Super),
        Target::Class(_) => Ok(CallHow::Static),
        Target::On(x) => Ok(CallHow::On(x)),
    }
}
