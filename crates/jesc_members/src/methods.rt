//! The methods that the given classes declare, without constructors.

ghost use Rattle.std.specs.Prelude.{◌≡◌, ◌++◌, map, IfOk, OnOk};
ghost use Rattle.jesc_classes.specs.Sources.{seen};
ghost use Rattle.jesc_members.specs.GivenMembers.{listed};
ghost use Rattle.jesc_members.specs.Methods.{method_in, methods_in, methods_of};
ghost use Rattle.jesc_members.specs.Methods as spec;
ghost use Rattle.jesc_members.specs.Seen.{seen_method};

use crate::fields::class_number;
use jesc_ast::{MemberNode, MemberTree, MethodTree};
use jesc_classes::{Classes, GivenClass, stands_in};
use jesc_text::{List, OutOfMemory};
use std::alloc::Global;

/// A method, with its class and that class's number.
#[derive(Drop, Clone, Copy)]
pub struct GivenMethod<'a> {
    pub number: u32,
    pub class: GivenClass<'a>,
    pub tree: &'a MethodTree,
}

/// The methods of these classes in source order.
///
/// Answers `OutOfMemory` where there is no room for the list, or where the number of a class is no `u32`.
pub fn given_methods<'a>(
    alloc: Global,
    classes: &Classes<'a>,
) -> Result<List<GivenMethod<'a>>, OutOfMemory>
    ensures { IfOk result (λ methods. map seen_method methods ≡ methods_of classes.now) }
{
    let mut methods = List::new(alloc);
    for (place, class) in classes.list().iter().enumerate() {
        add_methods(class_number(place)?, class, &mut methods)?;
    }
    Ok(methods)
}

/// Appends the methods of a class.
fn add_methods<'a>(
    number: u32,
    class: &GivenClass<'a>,
    methods: &mut List<GivenMethod<'a>>,
) -> Result<(), OutOfMemory>
    ensures { OnOk result (map seen_method methods.new ≡ map seen_method methods.old ++ methods_in number (seen class.now) class.now.tree.now.members) }
{
    for member in class.tree.members.as_slice() {
        if let Some(method) = method_of(number, class, member) {
            methods.push(method)?;
        }
    }
    Ok(())
}

/// The method that a member is.
fn method_of<'a>(
    number: u32,
    class: &GivenClass<'a>,
    member: &'a MemberTree,
) -> Option<GivenMethod<'a>>
    ensures { listed seen_method result ≡ method_in number (seen class.now) member.now.node }
{
    match member.node.get() {
        MemberNode::Method(tree) => Some(GivenMethod {
            number,
            class: *class,
            tree: tree.get(),
        }),
        MemberNode::Field(_) => None,
        MemberNode::SpecField(_) => None,
        MemberNode::Empty => None,
        MemberNode::Invariant(_) => None,
        MemberNode::Represents(_) => None,
        MemberNode::Constructor(_) => None,
    }
}

/// Whether the method is private.
pub fn is_private(method: &MethodTree) -> bool
    ensures { result ≡ spec.is_private method.now }
{
    stands_in(method.modifiers.as_slice(), b"private")
}

/// Whether the method is static.
pub fn is_static(method: &MethodTree) -> bool
    ensures { result ≡ spec.is_static method.now }
{
    stands_in(method.modifiers.as_slice(), b"static")
}

/// Whether the method is final.
pub fn is_final(method: &MethodTree) -> bool
    ensures { result ≡ spec.is_final method.now }
{
    stands_in(method.modifiers.as_slice(), b"final")
}
