//! The fields that the given classes declare.

ghost use Rattle.std.specs.Prelude.{◌≡◌, ◌+◌, ◌++◌, map, IfOk, OnOk};
ghost use Rattle.jesc_classes.specs.Sources.{seen};
ghost use Rattle.jesc_members.specs.Fields.{field_in, fields_in, fields_of, is_model};
ghost use Rattle.jesc_members.specs.GivenMembers.{listed};
ghost use Rattle.jesc_members.specs.Seen.{seen_field};

use jesc_ast::{FieldTree, MemberNode, MemberTree};
use jesc_classes::{Classes, GivenClass, stands_in};
use jesc_text::{List, OutOfMemory};
use std::alloc::Global;

/// The place of the last given class that has a number.
const LAST_PLACE: usize = u32::MAX as usize - 7;

/// A field, with its class and that class's number.
#[derive(Drop, Clone, Copy)]
pub struct GivenField<'a> {
    pub number: u32,
    pub class: GivenClass<'a>,
    /// Whether it is a ghost or model field.
    pub is_spec: bool,
    pub tree: &'a FieldTree,
}

/// The fields of these classes in source order.
///
/// Answers `OutOfMemory` where there is no room for the list, or where the number of a class is no `u32`.
pub fn given_fields<'a>(
    alloc: Global,
    classes: &Classes<'a>,
) -> Result<List<GivenField<'a>>, OutOfMemory>
    ensures { IfOk result (λ fields. map seen_field fields ≡ fields_of classes.now) }
{
    let mut fields = List::new(alloc);
    for (place, class) in classes.list().iter().enumerate() {
        add_fields(class_number(place)?, class, &mut fields)?;
    }
    Ok(fields)
}

/// The number of the given class at that place. Answers `OutOfMemory` where it is no `u32`.
pub fn class_number(place: usize) -> Result<u32, OutOfMemory>
    ensures { IfOk result (λ number. number ≡ 7 + place) }
{
    if place > LAST_PLACE {
        return Err(OutOfMemory);
    }
    Ok(7 + place as u32)
}

/// Appends the fields of a class.
fn add_fields<'a>(
    number: u32,
    class: &GivenClass<'a>,
    fields: &mut List<GivenField<'a>>,
) -> Result<(), OutOfMemory>
    ensures { OnOk result (map seen_field fields.new ≡ map seen_field fields.old ++ fields_in number (seen class.now) class.now.tree.now.members) }
{
    for member in class.tree.members.as_slice() {
        if let Some(field) = field_of(number, class, member) {
            fields.push(field)?;
        }
    }
    Ok(())
}

/// The field that a member is.
fn field_of<'a>(
    number: u32,
    class: &GivenClass<'a>,
    member: &'a MemberTree,
) -> Option<GivenField<'a>>
    ensures { listed seen_field result ≡ field_in number (seen class.now) member.now.node }
{
    let (is_spec, tree) = match member.node.get() {
        MemberNode::Field(tree) => (false, tree.get()),
        MemberNode::SpecField(tree) => (true, tree.get()),
        MemberNode::Empty => return None,
        MemberNode::Invariant(_) => return None,
        MemberNode::Represents(_) => return None,
        MemberNode::Method(_) => return None,
        MemberNode::Constructor(_) => return None,
    };
    Some(GivenField {
        number,
        class: *class,
        is_spec,
        tree,
    })
}

/// Whether it is a model field.
pub fn is_model(field: &GivenField<'_>) -> bool
    ensures { result ≡ is_model (seen_field field.now) }
{
    field.is_spec && stands_in(field.tree.modifiers.as_slice(), b"model")
}
