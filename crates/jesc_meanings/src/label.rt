//! Labels: what the items of a table are found by.

ghost use Rattle.std.specs.Prelude.{◌≡◌, map, Some, IfOk};
ghost use Rattle.jesc_meanings.specs.Labels.{class_label, field_label, method_label, seen};

use jesc_text::{List, OutOfMemory};
use jesc_tree::{Class, Field, Method};
use std::alloc::Global;

/// A name and a number: of a method that of its parameters, of a class or field 0.
#[derive(Drop, Clone, Copy)]
pub struct Label<'a> {
    pub name: &'a [u8],
    pub count: usize,
}

/// The labels of these classes. Answers `OutOfMemory` where there is no room for the list.
pub fn class_labels<'a>(
    alloc: Global,
    classes: &'a [Class],
) -> Result<List<Option<Label<'a>>>, OutOfMemory>
    ensures { IfOk result (λ labels. map seen labels ≡ map class_label classes.now) }
{
    let mut labels = List::new(alloc);
    for class in classes {
        labels.push(Some(named(class.name.as_slice())))?;
    }
    Ok(labels)
}

/// The labels of these fields. Answers `OutOfMemory` where there is no room for the list.
pub fn field_labels<'a>(
    alloc: Global,
    fields: &'a [Field],
) -> Result<List<Option<Label<'a>>>, OutOfMemory>
    ensures { IfOk result (λ labels. map seen labels ≡ map field_label fields.now) }
{
    let mut labels = List::new(alloc);
    for field in fields {
        labels.push(Some(named(field.name.as_slice())))?;
    }
    Ok(labels)
}

/// The labels of these methods, of which constructors have none. Answers `OutOfMemory` where there is no room for the list.
pub fn method_labels<'a>(
    alloc: Global,
    methods: &'a [Method],
) -> Result<List<Option<Label<'a>>>, OutOfMemory>
    ensures { IfOk result (λ labels. map seen labels ≡ map method_label methods.now) }
{
    let mut labels = List::new(alloc);
    for method in methods {
        labels.push(label_of(method))?;
    }
    Ok(labels)
}

/// The label of the method; a constructor has none.
fn label_of(method: &Method) -> Option<Label<'_>>
    ensures { seen result ≡ method_label method.now }
{
    if method.is_constructor {
        return None;
    }
    Some(Label {
        name: method.name.as_slice(),
        count: method.params.len(),
    })
}

/// The label of what is found by its name alone.
fn named(name: &[u8]) -> Label<'_>
    ensures { seen (Some result) ≡ Some (name.now, 0) }
{
    Label { name, count: 0 }
}
