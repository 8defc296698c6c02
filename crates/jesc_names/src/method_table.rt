//! The table of methods and constructors.

ghost use Rattle.std.specs.Prelude.{ℕ, ◌≡◌, ◌+◌, ◌<◌, ◌∷◌, [], get_or, length, map, IfOk, OnOk};
ghost use Rattle.std.specs.List.{All, AllZip};
ghost use Rattle.jesc_classes.specs.Sources.{seen};
ghost use Rattle.jesc_members.specs.Placed.{IsPlacedMember};
ghost use Rattle.jesc_names.specs.Program as spec;
ghost use Rattle.jesc_names.specs.Program.{IsMethod, callable_in, callable_order, callables_at, callables_of, generated_for, joined};
ghost use Rattle.jesc_names.specs.TablesKnown.{AreNumbers, IsKnownMember, IsReady};
ghost use Rattle.jesc_names.specs.TablesRows.{Adds};

use crate::class_ids::{ClassIds, class_id};
use crate::harmless::unwritten;
use crate::method_rows::{written_constructor, written_method};
use jesc_ast::{MemberNode, MemberTree};
use jesc_classes::{GivenClass, place_at};
use jesc_text::{List, OutOfMemory, Place};
use jesc_tree::Method;
use std::alloc::Global;

/// The methods and constructors in the order of their ids, and how many each class has, in the order of the classes' ids.
#[derive(Drop)]
pub struct MethodTable {
    pub methods: List<Method>,
    pub counts: List<usize>,
}

/// The methods and constructors of all classes.
///
/// Answers `OutOfMemory` where there is no room for the table.
pub fn method_table(alloc: Global, names: ClassIds<'_>) -> Result<MethodTable, OutOfMemory>
    requires numbers { AreNumbers names.classes.now names.order.now names.ids.now }
    requires within { (i : ℕ) → i < length names.order.now → get_or names.order.now i 0 < length names.classes.now + 7 }
    requires ready { All (IsReady names.classes.now) names.classes.now }
    ensures methods { IfOk result (λ t. AllZip (IsMethod names.entry.classes.now names.entry.order.now) (callable_order names.entry.classes.now names.entry.order.now) t.methods) }
    ensures counts { IfOk result (λ t. t.counts ≡ map (λ class. length (callables_at names.entry.classes.now class)) names.entry.order.now) }
{
    let mut methods = List::new(alloc);
    let mut counts = List::new(alloc);
    for number in names.order {
        let before = methods.len();
        add_all(alloc, names, *number, &mut methods)?;
        counts.push(methods.len() - before)?;
    }
    Ok(MethodTable { methods, counts })
}

/// Adds the methods and constructors of the class of that number.
fn add_all(
    alloc: Global,
    names: ClassIds<'_>,
    number: u32,
    methods: &mut List<Method>,
) -> Result<(), OutOfMemory>
    requires numbers { AreNumbers names.classes.now names.order.now names.ids.now }
    requires within { number < length names.classes.now + 7 }
    requires ready { All (IsReady names.classes.now) names.classes.now }
    ensures { OnOk result (Adds names.entry.classes.now names.entry.order.now (callables_at names.entry.classes.now number) methods.old methods.new) }
{
    if number < 7 {
        return add_predefined(alloc, names, number, methods);
    }
    let class = names.classes.list()[number as usize - 7];
    add_generated(alloc, names, number, class, methods)?;
    add_members(alloc, names, number, class, methods)
}

fn add_predefined(
    alloc: Global,
    names: ClassIds<'_>,
    number: u32,
    methods: &mut List<Method>,
) -> Result<(), OutOfMemory>
    requires numbers { AreNumbers names.classes.now names.order.now names.ids.now }
    requires few { number < 7 }
    ensures { OnOk result (Adds names.entry.classes.now names.entry.order.now (spec.predefined_one number ∷ []) methods.old methods.new) }
{
    let nowhere = Place {
        file: 0,
        line: 0,
        col: 0,
    };
    let owner = class_id(names, number);
    methods.push(unwritten(alloc, predefined_name(number), nowhere, owner)?)
}

/// The name of the predefined class of that number.
fn predefined_name<'a>(number: u32) -> &'a [u8]
    requires { number < 7 }
    ensures { result.now ≡ spec.predefined_name number }
{
    match number {
        0 => b"Object",
        1 => b"Throwable",
        2 => b"Exception",
        3 => b"Error",
        4 => b"RuntimeException",
        5 => b"IllegalArgumentException",
        _ => b"IllegalStateException",
    }
}

/// Adds the constructor of a class that has none.
fn add_generated(
    alloc: Global,
    names: ClassIds<'_>,
    number: u32,
    class: GivenClass<'_>,
    methods: &mut List<Method>,
) -> Result<(), OutOfMemory>
    requires numbers { AreNumbers names.classes.now names.order.now names.ids.now }
    requires within { number < length names.classes.now + 7 }
    requires ready { IsReady names.classes.now (seen class) }
    ensures { OnOk result (Adds names.entry.classes.now names.entry.order.now (generated_for number (seen class.entry)) methods.old methods.new) }
{
    let tree = class.tree;
    if tree.is_interface || has_constructor(tree.members.as_slice()) {
        return Ok(());
    }
    let place = place_at(class.lines, tree.name.span);
    let owner = class_id(names, number);
    methods.push(unwritten(alloc, tree.name.text.as_slice(), place, owner)?)
}

fn has_constructor(members: &[MemberTree]) -> bool
    ensures { result ≡ spec.has_constructor members.now }
{
    for member in members {
        if let MemberNode::Constructor(_) = member.node.get() {
            return true;
        }
    }
    false
}

/// Adds the methods and constructors that a class declares.
fn add_members(
    alloc: Global,
    names: ClassIds<'_>,
    number: u32,
    class: GivenClass<'_>,
    methods: &mut List<Method>,
) -> Result<(), OutOfMemory>
    requires numbers { AreNumbers names.classes.now names.order.now names.ids.now }
    requires within { number < length names.classes.now + 7 }
    requires ready { IsReady names.classes.now (seen class) }
    ensures { OnOk result (Adds names.entry.classes.now names.entry.order.now (joined (map (λ m. callable_in number (seen class.entry) m.node) class.entry.tree.now.members)) methods.old methods.new) }
{
    for member in class.tree.members.as_slice() {
        add_member(alloc, names, number, class, member.node.get(), methods)?;
    }
    Ok(())
}

fn add_member(
    alloc: Global,
    names: ClassIds<'_>,
    number: u32,
    class: GivenClass<'_>,
    member: &MemberNode,
    methods: &mut List<Method>,
) -> Result<(), OutOfMemory>
    requires numbers { AreNumbers names.classes.now names.order.now names.ids.now }
    requires within { number < length names.classes.now + 7 }
    requires ready { IsReady names.classes.now (seen class) }
    requires placed { IsPlacedMember member.now }
    requires known { IsKnownMember names.classes.now member.now }
    ensures { OnOk result (Adds names.entry.classes.now names.entry.order.now (callable_in number (seen class.entry) member.now) methods.old methods.new) }
{
    match member {
        MemberNode::Empty => Ok(()),
        MemberNode::Field(_) => Ok(()),
        MemberNode::SpecField(_) => Ok(()),
        MemberNode::Invariant(_) => Ok(()),
        MemberNode::Represents(_) => Ok(()),
        MemberNode::Method(tree) => {
            methods.push(written_method(alloc, names, number, class, tree.get())?)
        }
        MemberNode::Constructor(tree) => {
            methods.push(written_constructor(alloc, names, number, class, tree.get())?)
        }
    }
}
