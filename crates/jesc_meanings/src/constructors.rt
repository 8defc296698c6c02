//! The constructors of each class by number of parameters.

ghost use Rattle.std.specs.Prelude.{◌≡◌, ◌<◌, ◌++◌, ◌∷◌, [], length, map, IfOk, OnOk};
ghost use Rattle.std.specs.List.{All};
ghost use Rattle.jesc_meanings.specs.Meanings.{method_rows};
ghost use Rattle.jesc_meanings.specs.Rows.{AreConstructors, TakesMethod, TellsConstructors};

use crate::row::Row;
use jesc_text::OutOfMemory;
use jesc_tree::{Class, Method, MethodId};
use std::alloc::Global;

/// Of each class the row of its constructors. Answers `OutOfMemory` where there is no room for the rows.
pub fn constructor_rows(
    alloc: Global,
    classes: &[Class],
    methods: &[Method],
) -> Result<Vec<Row>, OutOfMemory>
    requires { All (All (λ m. m < length methods.now)) (method_rows classes.now) }
    ensures { IfOk result (λ rows. AreConstructors classes.now methods.now rows.items) }
{
    let mut rows = Vec::new(alloc);
    for class in classes {
        let row = constructor_row(alloc, methods, class.methods.as_slice())?;
        let Ok(_) = rows.push(row) else {
            return Err(OutOfMemory);
        };
    }
    Ok(rows)
}

/// The row of those of these methods that are constructors.
fn constructor_row(alloc: Global, methods: &[Method], ids: &[MethodId]) -> Result<Row, OutOfMemory>
    requires { All (λ m. m < length methods.now) (map (λ m. m.0) ids.now) }
    ensures { IfOk result (TellsConstructors methods.now (map (λ m. m.0) ids.now)) }
{
    let mut row = Row::new(alloc);
    for id in ids {
        add(&mut row, methods, *id)?;
    }
    Ok(row)
}

/// Takes up a method, where it is a constructor.
fn add(row: &mut Row, methods: &[Method], id: MethodId) -> Result<(), OutOfMemory>
    requires { id.0 < length methods.now }
    ensures { OnOk result (TakesMethod methods.now row.old id.0 row.new) }
{
    let method = &methods[id.0 as usize];
    if !method.is_constructor {
        return Ok(());
    }
    row.put(method.params.len(), id.0)
}
