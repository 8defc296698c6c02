//! Lists of numbers of each class.

ghost use Rattle.std.specs.Prelude.{◌≡◌, ◌<◌, ◌^◌, ℕ, length, get_or, map, IfOk};
ghost use Rattle.jesc_meanings.specs.Meanings.{field_rows, graph_of, method_rows};
ghost use Rattle.jesc_tree.specs.Subtypes.{supertypes};

use jesc_text::{List, OutOfMemory};
use jesc_tree::{Class, FieldId, MethodId};
use std::alloc::Global;

/// Of each class its supertypes. Answers `OutOfMemory` where there is no room for the lists.
pub fn graph_of(alloc: Global, classes: &[Class]) -> Result<List<List<u32>>, OutOfMemory>
    ensures { IfOk result (λ graph. graph ≡ graph_of classes.now) }
{
    let mut graph = List::new(alloc);
    for class in classes {
        graph.push(supertypes(alloc, class)?)?;
    }
    Ok(graph)
}

/// The supertypes of the class, the superclass first.
fn supertypes(alloc: Global, class: &Class) -> Result<List<u32>, OutOfMemory>
    ensures { IfOk result (λ list. list ≡ supertypes class.now) }
{
    let mut list = List::new(alloc);
    if let Some(parent) = class.parent {
        list.push(parent.0)?;
    }
    for interface in class.interfaces.as_slice() {
        list.push(interface.0)?;
    }
    Ok(list)
}

/// Of each class its fields. Answers `OutOfMemory` where there is no room for the lists.
pub fn field_rows(alloc: Global, classes: &[Class]) -> Result<List<List<u32>>, OutOfMemory>
    ensures { IfOk result (λ rows. rows ≡ field_rows classes.now) }
{
    let mut rows = List::new(alloc);
    for class in classes {
        rows.push(field_row(alloc, class.fields.as_slice())?)?;
    }
    Ok(rows)
}

/// The numbers of these fields.
fn field_row(alloc: Global, fields: &[FieldId]) -> Result<List<u32>, OutOfMemory>
    ensures { IfOk result (λ row. row ≡ map (λ f. f.0) fields.now) }
{
    let mut row = List::new(alloc);
    for field in fields {
        row.push(field.0)?;
    }
    Ok(row)
}

/// Of each class its constructors and methods. Answers `OutOfMemory` where there is no room for the lists.
pub fn method_rows(alloc: Global, classes: &[Class]) -> Result<List<List<u32>>, OutOfMemory>
    ensures { IfOk result (λ rows. rows ≡ method_rows classes.now) }
{
    let mut rows = List::new(alloc);
    for class in classes {
        rows.push(method_row(alloc, class.methods.as_slice())?)?;
    }
    Ok(rows)
}

/// The numbers of these methods.
fn method_row(alloc: Global, methods: &[MethodId]) -> Result<List<u32>, OutOfMemory>
    ensures { IfOk result (λ row. row ≡ map (λ m. m.0) methods.now) }
{
    let mut row = List::new(alloc);
    for method in methods {
        row.push(method.0)?;
    }
    Ok(row)
}

/// The numbers below the count, rising. Answers `OutOfMemory` where there is no room for the list.
pub fn rising(alloc: Global, count: usize) -> Result<List<u32>, OutOfMemory>
    requires { count < 2 ^ 32 }
    ensures count { IfOk result (λ list. length list ≡ count) }
    ensures each { IfOk result (λ list. (i : ℕ) → i < count → get_or list i 0 ≡ i) }
{
    let mut list = List::new(alloc);
    for i in 0..count {
        list.push(i as u32)?;
    }
    Ok(list)
}
