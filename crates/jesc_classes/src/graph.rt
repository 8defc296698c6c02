//! The supertypes that headings name.

ghost use Rattle.std.specs.Prelude.{◌≡◌, ◌<◌, ◌+◌, ◌^◌, ◌∷◌, ◌++◌, [], length, map, IfOk, OnOk};
ghost use Rattle.jesc_classes.specs.Headings.{classes_named, extended_by, graph_of};
ghost use Rattle.jesc_tree.specs.Programs.{predefined};

use crate::source::Classes;
use jesc_ast::{ClassTree, Word};
use jesc_text::{List, OutOfMemory};
use std::alloc::Global;

/// The numbers of the superclasses of the predefined classes but the first, which has none.
const SUPERCLASSES: [u32; 6] = [0, 1, 1, 2, 4, 4];

/// Of each class, predefined and given, the numbers of the classes that its heading names, as far as they are known.
///
/// Answers `OutOfMemory` where there is no room for the table.
pub fn supertypes(alloc: Global, classes: &Classes<'_>) -> Result<List<List<u32>>, OutOfMemory>
    requires { length classes.now + 7 < 2 ^ 32 }
    ensures { IfOk result (λ graph. graph ≡ graph_of classes.now) }
{
    let mut graph = predefined_supertypes(alloc)?;
    for class in classes.list() {
        graph.push(supertypes_of(alloc, classes, class.tree)?)?;
    }
    Ok(graph)
}

fn predefined_supertypes(alloc: Global) -> Result<List<List<u32>>, OutOfMemory>
    ensures { IfOk result (λ graph. graph ≡ map (λ p. p.1) predefined) }
{
    let mut graph = List::new(alloc);
    graph.push(List::new(alloc))?;
    for superclass in &SUPERCLASSES {
        graph.push(alone(alloc, *superclass)?)?;
    }
    Ok(graph)
}

fn alone(alloc: Global, class: u32) -> Result<List<u32>, OutOfMemory>
    ensures { IfOk result (λ row. row ≡ class ∷ []) }
{
    let mut row = List::new(alloc);
    row.push(class)?;
    Ok(row)
}

/// The numbers of the classes that this heading names; Object where it is a class without `extends`.
fn supertypes_of(
    alloc: Global,
    classes: &Classes<'_>,
    class: &ClassTree,
) -> Result<List<u32>, OutOfMemory>
    ensures { IfOk result (λ row. row ≡ extended_by classes.now class.now class.now.extends ++ classes_named classes.now class.now.implements) }
{
    let mut row = List::new(alloc);
    let extended = class.extends.as_slice();
    if extended.is_empty() && !class.is_interface {
        row.push(0)?;
    }
    add_named(classes, extended, &mut row)?;
    add_named(classes, class.implements.as_slice(), &mut row)?;
    Ok(row)
}

/// The classes of those names, as far as they are known.
pub fn named(alloc: Global, classes: &Classes<'_>, words: &[Word]) -> Result<List<u32>, OutOfMemory>
    ensures { IfOk result (λ found. found ≡ classes_named classes.now words.now) }
{
    let mut found = List::new(alloc);
    add_named(classes, words, &mut found)?;
    Ok(found)
}

fn add_named(
    classes: &Classes<'_>,
    words: &[Word],
    found: &mut List<u32>,
) -> Result<(), OutOfMemory>
    ensures { OnOk result (found.new ≡ found.old ++ classes_named classes.now words.now) }
{
    for word in words {
        if let Some(class) = classes.find(word.text.as_slice()) {
            found.push(class)?;
        }
    }
    Ok(())
}
