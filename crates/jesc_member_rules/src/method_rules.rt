//! The rules on methods and constructors.

ghost use Rattle.std.specs.Prelude.{◌≡◌, ◌∷◌, ◌<◌, ◌+◌, [], List, Some, nat_eq, length, map, slice_get};
ghost use Rattle.std.specs.List.{list_any};
ghost use Rattle.jesc_ast.specs.Lines.{IsLines, place_at};
ghost use Rattle.jesc_ast.specs.declared.class.ConstructorTree as constructor_tree;
ghost use Rattle.jesc_classes.specs.Given.{IsPlaced};
ghost use Rattle.jesc_classes.specs.Headings.{Source};
ghost use Rattle.jesc_classes.specs.Sources.{seen};
ghost use Rattle.jesc_member_rules.specs.Judging.{Decides};
ghost use Rattle.jesc_member_rules.specs.Members.{Judges, constructor_name, constructor_parts, constructor_stands, is_abstract, method_name, method_parts, method_stands};
ghost use Rattle.jesc_members.specs.Methods.{methods_of};
ghost use Rattle.jesc_members.specs.Placed.{IsPlacedConstructor, IsPlacedMethod};
ghost use Rattle.jesc_members.specs.Seen.{seen_method};

use crate::answer::{answer_at, if_broken};
use crate::bearer::Bearer;
use crate::heads::{judge_result, judge_signature};
use crate::known::Known;
use crate::modifiers::judge_modifiers;
use jesc_ast::ConstructorTree;
use jesc_classes::{GivenClass, Rule, RuleError, is_same, stands_in};
use jesc_members::{GivenMethod, is_final, is_private, is_static};
use std::alloc::Global;

/// Judges the method of this number: its words from left to right.
///
/// Answers `OutOfMemory` where there is no room for an error's text or for a table of names.
pub fn judge_method(
    alloc: Global,
    known: &Known<'_>,
    number: u32,
    method: &GivenMethod<'_>,
) -> Result<(), RuleError>
    requires lines { IsLines method.now.class.lines.now }
    requires placed { IsPlacedMethod method.now.tree.now }
    requires class { method.now.number < length known.now + 7 }
    requires given { slice_get (methods_of known.now) number ≡ Some (seen_method method.now) }
    ensures { Judges known.now result (method_parts number (seen_method method.now)) }
{
    let tree = method.tree;
    let class = &method.class;
    let modifiers = tree.modifiers.as_slice();
    judge_modifiers(alloc, class, Bearer::Method(tree), modifiers)?;
    judge_result(alloc, known, class, &tree.result)?;
    judge_method_name(alloc, known, number, method)?;
    let parameters = tree.params.as_slice();
    let throws = tree.throws.as_slice();
    judge_signature(alloc, known, class, parameters, throws)
}

fn judge_method_name(
    alloc: Global,
    known: &Known<'_>,
    number: u32,
    method: &GivenMethod<'_>,
) -> Result<(), RuleError>
    requires lines { IsLines method.now.class.lines.now }
    requires placed { IsPlaced method.now.tree.now.name }
    requires class { method.now.number < length known.now + 7 }
    requires given { slice_get (methods_of known.now) number ≡ Some (seen_method method.now) }
    ensures { Judges known.now result (method_name number (seen_method method.now) ∷ []) }
{
    let broken = broken_by_method(known, number, method);
    answer_at(alloc, broken, method.class.lines, &method.tree.name)
}

/// The rule that the method as a whole breaks.
fn broken_by_method(known: &Known<'_>, number: u32, method: &GivenMethod<'_>) -> Option<Rule>
    requires class { method.now.number < length known.now + 7 }
    requires given { slice_get (methods_of known.now) number ≡ Some (seen_method method.now) }
    ensures { Decides known.now (method_name number (seen_method method.now)) (place_at method.now.class.lines.now method.now.tree.now.name.span) method.now.tree.now.name.text result }
{
    let overridden = known.inheritance.overridden(method);
    if overridden.differs {
        return Some(Rule::N4);
    }
    if known.is_later_method(number, method) {
        return Some(Rule::N6);
    }
    if overridden.is_hidden {
        return Some(Rule::N8);
    }
    if overridden.is_final {
        return Some(Rule::N9);
    }
    if_broken(!method_stands(method), Rule::N9)
}

/// Whether it is a method that its class or interface may have.
fn method_stands(method: &GivenMethod<'_>) -> bool
    ensures { result ≡ method_stands (seen_method method.now) }
{
    let tree = method.tree;
    let has_body = tree.body.is_some();
    if is_abstract(method) {
        !(has_body || is_static(tree) || is_private(tree) || is_final(tree))
    } else {
        has_body
    }
}

fn is_abstract(method: &GivenMethod<'_>) -> bool
    ensures { result ≡ is_abstract (seen_method method.now) }
{
    method.class.tree.is_interface || stands_in(method.tree.modifiers.as_slice(), b"abstract")
}

/// Judges a constructor, behind those with these numbers of parameters: its words from left to right.
///
/// Answers `OutOfMemory` where there is no room for an error's text or for a table of names.
pub fn judge_constructor(
    alloc: Global,
    known: &Known<'_>,
    class: &GivenClass<'_>,
    counts: &[usize],
    tree: &ConstructorTree,
) -> Result<(), RuleError>
    requires lines { IsLines class.now.lines.now }
    requires placed { IsPlacedConstructor tree.now }
    ensures { (before : List constructor_tree.ConstructorTree) → counts.now ≡ map (λ c. length c.params) before → Judges known.now result (constructor_parts (seen class.now) before tree.now) }
{
    let modifiers = tree.modifiers.as_slice();
    judge_modifiers(alloc, class, Bearer::Constructor, modifiers)?;
    let broken = broken_by_constructor(class, counts, tree);
    answer_at(alloc, broken, class.lines, &tree.name)?;
    let parameters = tree.params.as_slice();
    let throws = tree.throws.as_slice();
    judge_signature(alloc, known, class, parameters, throws)
}

/// The rule that the constructor as a whole breaks.
fn broken_by_constructor(
    class: &GivenClass<'_>,
    counts: &[usize],
    tree: &ConstructorTree,
) -> Option<Rule>
    ensures { (given : List Source) (before : List constructor_tree.ConstructorTree) → counts.now ≡ map (λ c. length c.params) before → Decides given (constructor_name (seen class.now) before tree.now) (place_at class.now.lines.now tree.now.name.span) tree.now.name.text result }
{
    if has_count(counts, tree.params.len()) {
        return Some(Rule::N6);
    }
    if_broken(!constructor_stands(class, tree), Rule::N9)
}

/// Whether it has the name of its class, which is no interface.
fn constructor_stands(class: &GivenClass<'_>, tree: &ConstructorTree) -> bool
    ensures { result ≡ constructor_stands (seen class.now) tree.now }
{
    !class.tree.is_interface && is_same(class.tree.name.text.as_slice(), tree.name.text.as_slice())
}

fn has_count(counts: &[usize], count: usize) -> bool
    ensures { result ≡ list_any (nat_eq count) counts.now }
{
    counts.iter().any(|other| count == *other)
}
