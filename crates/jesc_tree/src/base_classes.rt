//! The classes that every program has.

ghost use Rattle.std.specs.Prelude.{◌≡◌, [], ◌∷◌, ◌++◌, map, IfOk, OnOk};
ghost use Rattle.std.specs.List.{All};
ghost use Rattle.jesc_tree.specs.Programs as spec;
ghost use Rattle.jesc_tree.specs.Programs.{IsBare, bare_class};
ghost use Rattle.jesc_tree.specs.Subtypes.{parent_list};

use crate::class::Class;
use crate::ids::ClassId;
use jesc_text::{List, OutOfMemory, Place, Text};
use std::alloc::Global;

/// The seven predefined classes in the order of their ids, with their superclasses and nothing else: no constructors
/// yet, and a place with file, line and column 0.
///
/// Answers `OutOfMemory` where there is no room for them.
pub fn predefined(alloc: Global) -> Result<List<Class>, OutOfMemory>
    ensures names { IfOk result (λ classes. map (λ c. (c.name, parent_list c.parent)) classes ≡ spec.predefined) }
    ensures bare { IfOk result (λ classes. All IsBare classes) }
    ensures methods { IfOk result (λ classes. All (λ c. c.methods ≡ []) classes) }
{
    let mut classes = List::new(alloc);
    add(alloc, &mut classes, b"Object", None)?;
    add(alloc, &mut classes, b"Throwable", Some(ClassId(0)))?;
    add(alloc, &mut classes, b"Exception", Some(ClassId(1)))?;
    add(alloc, &mut classes, b"Error", Some(ClassId(1)))?;
    add(alloc, &mut classes, b"RuntimeException", Some(ClassId(2)))?;
    add(
        alloc,
        &mut classes,
        b"IllegalArgumentException",
        Some(ClassId(4)),
    )?;
    add(
        alloc,
        &mut classes,
        b"IllegalStateException",
        Some(ClassId(4)),
    )?;
    Ok(classes)
}

/// Appends a class that has a name and a superclass alone.
fn add(
    alloc: Global,
    classes: &mut List<Class>,
    name: &[u8],
    parent: Option<ClassId>,
) -> Result<(), OutOfMemory>
    ensures { OnOk result (classes.new ≡ classes.old ++ bare_class name.now parent ∷ []) }
{
    let mut text = Text::new(alloc);
    text.append(name)?;
    classes.push(Class {
        name: text,
        place: Place {
            file: 0,
            line: 0,
            col: 0,
        },
        parent,
        interfaces: List::new(alloc),
        is_interface: false,
        is_abstract: false,
        fields: List::new(alloc),
        methods: List::new(alloc),
        invariants: List::new(alloc),
        represents: List::new(alloc),
    })
}
