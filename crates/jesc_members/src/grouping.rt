//! The model fields that each field names behind `in`.

ghost use Rattle.std.specs.Prelude.{ℕ, ◌≡◌, ◌↔◌, ◌<◌, ◌+◌, Some, length, map, IfOk};
ghost use Rattle.std.specs.List.{Contains};
ghost use Rattle.jesc_members.specs.Fields.{fields_of, is_model as is_model_field};
ghost use Rattle.jesc_members.specs.GroupGraph.{AreGroups};
ghost use Rattle.jesc_members.specs.Groups.{NamesModel};
ghost use Rattle.jesc_members.specs.GroupTables.{Names};
ghost use Rattle.jesc_members.specs.Seen.{seen_field};

use crate::fields::{GivenField, is_model};
use crate::inherit::Inheritance;
use jesc_ast::Word;
use jesc_text::{List, OutOfMemory};
use std::alloc::Global;

/// Of each field by number, the numbers of the model fields that it names.
///
/// Answers `OutOfMemory` where there is no room for the lists.
pub fn group_graph(
    alloc: Global,
    inheritance: &Inheritance<'_>,
    fields: &[GivenField<'_>],
) -> Result<List<List<u32>>, OutOfMemory>
    requires fields { map seen_field fields.now ≡ fields_of inheritance.now }
    ensures { IfOk result (AreGroups inheritance.now) }
{
    let models = models_of(alloc, fields)?;
    let mut graph = List::new(alloc);
    for field in fields {
        graph.push(groups_of(alloc, inheritance, models.as_slice(), field)?)?;
    }
    Ok(graph)
}

/// Of each field, whether it is a model field.
fn models_of(alloc: Global, fields: &[GivenField<'_>]) -> Result<List<bool>, OutOfMemory>
    ensures { IfOk result (λ models. models ≡ map is_model_field (map seen_field fields.now)) }
{
    let mut models = List::new(alloc);
    for field in fields {
        models.push(is_model(field))?;
    }
    Ok(models)
}

/// The numbers of the model fields that a field names.
fn groups_of(
    alloc: Global,
    inheritance: &Inheritance<'_>,
    models: &[bool],
    field: &GivenField<'_>,
) -> Result<List<u32>, OutOfMemory>
    requires models { models.now ≡ map is_model_field (fields_of inheritance.now) }
    requires class { field.now.number < length inheritance.now + 7 }
    ensures { IfOk result (λ groups. (g : ℕ) → Contains groups g ↔ Names inheritance.now field.now.number field.now.tree.now.groups g) }
{
    let mut groups = List::new(alloc);
    for word in field.tree.groups.as_slice() {
        if let Some(group) = model_named(inheritance, models, field.number, word.text.as_slice()) {
            groups.push(group)?;
        }
    }
    Ok(groups)
}

/// The number of the model field that a name means in the class.
fn model_named(
    inheritance: &Inheritance<'_>,
    models: &[bool],
    class: u32,
    name: &[u8],
) -> Option<u32>
    requires models { models.now ≡ map is_model_field (fields_of inheritance.now) }
    requires class { class < length inheritance.now + 7 }
    ensures { (g : ℕ) → (result ≡ Some g) ↔ NamesModel inheritance.now class name.now g }
{
    match inheritance.field(class, name) {
        Some(group) => {
            if models[group as usize] {
                Some(group)
            } else {
                None
            }
        }
        None => None,
    }
}
