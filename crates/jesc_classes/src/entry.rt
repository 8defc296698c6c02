//! What the table of classes holds of a given class.

ghost use Rattle.std.specs.Prelude.{◌≡◌, ◌+◌, ◌≤◌, false, length, map, IfOk};
ghost use Rattle.jesc_tree.specs.Subtypes.{parent_list};
ghost use Rattle.jesc_classes.specs.Entries.{ExtendsOne, HasNoMembers, IsEntry, id_in};
ghost use Rattle.jesc_classes.specs.Given.{ArePlaced};
ghost use Rattle.jesc_classes.specs.Headings.{classes_named};
ghost use Rattle.jesc_classes.specs.Resolved as spec;
ghost use Rattle.jesc_classes.specs.Sources.{seen};

use crate::graph::named;
use crate::place::place_at;
use crate::source::{Classes, GivenClass};
use crate::texts::stands_in;
use jesc_ast::{ClassTree, Word};
use jesc_text::{List, OutOfMemory, Text};
use jesc_tree::{Class, ClassId};
use std::alloc::Global;

/// A given class without members. The ids are those of all classes, by number.
///
/// Answers `OutOfMemory` where there is no room for it.
pub fn entry(
    alloc: Global,
    given: &Classes<'_>,
    ids: &[u32],
    class: GivenClass<'_>,
) -> Result<Class, OutOfMemory>
    requires ids { length ids.now ≡ length given.now + 7 }
    requires placed { ArePlaced (seen class) }
    requires one { ExtendsOne (seen class) }
    ensures entry { IfOk result (IsEntry given.now ids.now (seen class.entry)) }
    ensures plain { IfOk result HasNoMembers }
{
    let tree = class.tree;
    let mut name = Text::new(alloc);
    name.append(tree.name.text.as_slice())?;
    let interfaces = interfaces(alloc, given, ids, tree)?;
    Ok(Class {
        name,
        place: place_at(class.lines, tree.name.span),
        parent: superclass(given, ids, tree),
        interfaces,
        is_interface: tree.is_interface,
        is_abstract: stands_in(tree.modifiers.as_slice(), b"abstract"),
        fields: List::new(alloc),
        methods: List::new(alloc),
        invariants: List::new(alloc),
        represents: List::new(alloc),
    })
}

/// The id of the superclass, which an interface does not have.
fn superclass(given: &Classes<'_>, ids: &[u32], tree: &ClassTree) -> Option<ClassId>
    requires ids { length ids.now ≡ length given.now + 7 }
    requires one { tree.now.is_interface ≡ false → length tree.now.extends ≤ 1 }
    ensures { parent_list result ≡ map (id_in ids.now) (spec.superclass given.now tree.now) }
{
    if tree.is_interface {
        return None;
    }
    match tree.extends.as_slice().first() {
        None => Some(ClassId(ids[0])),
        Some(word) => match given.find(word.text.as_slice()) {
            None => None,
            Some(number) => Some(ClassId(ids[number as usize])),
        },
    }
}

/// The ids of the interfaces that the heading names.
fn interfaces(
    alloc: Global,
    given: &Classes<'_>,
    ids: &[u32],
    tree: &ClassTree,
) -> Result<List<ClassId>, OutOfMemory>
    requires { length ids.now ≡ length given.now + 7 }
    ensures { IfOk result (λ found. map (λ i. i.0) found ≡ map (id_in ids.now) (spec.interfaces given.now tree.now)) }
{
    if tree.is_interface {
        named_ids(alloc, given, ids, tree.extends.as_slice())
    } else {
        named_ids(alloc, given, ids, tree.implements.as_slice())
    }
}

/// The ids of the classes of these names, as far as they are known.
fn named_ids(
    alloc: Global,
    given: &Classes<'_>,
    ids: &[u32],
    words: &[Word],
) -> Result<List<ClassId>, OutOfMemory>
    requires { length ids.now ≡ length given.now + 7 }
    ensures { IfOk result (λ found. map (λ i. i.0) found ≡ map (id_in ids.now) (classes_named given.now words.now)) }
{
    let numbers = named(alloc, given, words)?;
    let mut found = List::new(alloc);
    for number in numbers.as_slice() {
        found.push(ClassId(ids[*number as usize]))?;
    }
    Ok(found)
}
