//! The table of fields.

ghost use Rattle.std.specs.Prelude.{ℕ, ◌≡◌, ◌+◌, ◌<◌, Some, slice_get, get_or, length, map, IfOk};
ghost use Rattle.std.specs.List.{All, AllZip, Contains};
ghost use Rattle.jesc_classes.specs.Entries.{AreApart, AreIds};
ghost use Rattle.jesc_members.specs.Fields.{fields_of, is_ghost};
ghost use Rattle.jesc_names.specs.Program as spec;
ghost use Rattle.jesc_names.specs.Program.{IsField};
ghost use Rattle.jesc_members.specs.Seen.{seen_field};
ghost use Rattle.jesc_names.specs.TablesKnown.{AreNumbers, IsReadyField};
ghost use Rattle.jesc_names.specs.TablesRows.{AreFieldIds, IsRow};

use crate::class_ids::{ClassIds, class_id, type_of};
use crate::members::{FieldIds, members_of};
use crate::method_rows::copied;
use jesc_classes::{place_at, stands_in};
use jesc_member_rules::literal_value;
use jesc_members::{GivenField, Groups, is_model};
use jesc_text::{List, OutOfMemory};
use jesc_tree::Field;
use std::alloc::Global;

/// The fields in the order of their ids.
///
/// Answers `OutOfMemory` where there is no room for the table.
pub fn field_table(
    alloc: Global,
    names: ClassIds<'_>,
    groups: &Groups<'_>,
    ids: FieldIds<'_>,
    fields: &[GivenField<'_>],
) -> Result<List<Field>, OutOfMemory>
    requires numbers { AreNumbers names.classes.now names.order.now names.ids.now }
    requires same { groups.now ≡ names.classes.now }
    requires fields { map seen_field fields.now ≡ fields_of names.classes.now }
    requires ready { All (IsReadyField names.classes.now) (fields_of names.classes.now) }
    requires ids { AreFieldIds names.classes.now names.order.now ids.order.now ids.ids.now }
    ensures { IfOk result (AllZip (IsRow names.entry.classes.now names.entry.order.now) (spec.field_order names.entry.classes.now names.entry.order.now)) }
{
    let mut table = List::new(alloc);
    for number in ids.order {
        let field = &fields[*number as usize];
        table.push(row(alloc, names, groups, ids, *number, field)?)?;
    }
    Ok(table)
}

/// What the table holds of the field of that number.
fn row(
    alloc: Global,
    names: ClassIds<'_>,
    groups: &Groups<'_>,
    ids: FieldIds<'_>,
    number: u32,
    field: &GivenField<'_>,
) -> Result<Field, OutOfMemory>
    requires numbers { AreNumbers names.classes.now names.order.now names.ids.now }
    requires same { groups.now ≡ names.classes.now }
    requires ids { AreFieldIds names.classes.now names.order.now ids.order.now ids.ids.now }
    requires ready { IsReadyField names.classes.now (seen_field field.now) }
    requires there { slice_get (fields_of names.classes.now) number ≡ Some (seen_field field.now) }
    ensures field { IfOk result (IsField names.entry.classes.now names.entry.order.now number) }
    ensures below { IfOk result (λ x. (q : ℕ) → Contains (map (λ m. m.0) x.members) q → q < length (spec.field_order names.entry.classes.now names.entry.order.now)) }
{
    let tree = field.tree;
    let modifiers = tree.modifiers.as_slice();
    let name = copied(alloc, &tree.name)?;
    let members = members_of(alloc, groups, ids, number)?;
    let is_model = is_model(field);
    Ok(Field {
        name,
        place: place_at(field.class.lines, tree.name.span),
        owner: class_id(names, field.number),
        ty: type_of(names, &tree.ty),
        nullable: stands_in(modifiers, b"nullable") || is_model,
        is_final: stands_in(modifiers, b"final"),
        is_ghost: is_ghost(field),
        is_model,
        constant: constant_of(field),
        init: None,
        members,
    })
}

fn is_ghost(field: &GivenField<'_>) -> bool
    ensures { result ≡ is_ghost (seen_field field.now) }
{
    field.is_spec && stands_in(field.tree.modifiers.as_slice(), b"ghost")
}

/// The value of a static field.
fn constant_of(field: &GivenField<'_>) -> Option<i128>
    ensures { result ≡ spec.constant_of (seen_field field.now) }
{
    if field.is_spec || !stands_in(field.tree.modifiers.as_slice(), b"static") {
        return None;
    }
    match &field.tree.value {
        None => None,
        Some(e) => literal_value(e),
    }
}
