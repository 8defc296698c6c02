//! The given classes of files, and the tables beside them.

ghost use Rattle.std.specs.Prelude.{◌≡◌, ◌<◌, ◌+◌, ◌^◌, ◌++◌, [], List as Items, ℕ, codes, get_or, length, map, IfOk, OnOk};
ghost use Rattle.std.specs.List.{list_any};
ghost use Rattle.jesc_tree.specs.Programs.{predefined};
ghost use Rattle.jesc_classes.specs.Headings.{class_named, is_word, source, sources};
ghost use Rattle.jesc_classes.specs.Named.{find};
ghost use Rattle.jesc_classes.specs.Sources.{AddsFirst, HasFirsts, seen};

use crate::source::GivenClass;
use crate::table::Table;
use crate::texts::stands_in;
use jesc_ast::File;
use jesc_text::{List, OutOfMemory};
use std::alloc::Global;

/// How many classes are predefined.
const PREDEFINED: u32 = 7;

/// The classes of these files, file by file.
pub fn given_classes<'a>(
    alloc: Global,
    files: &'a [File],
) -> Result<List<GivenClass<'a>>, OutOfMemory>
    ensures { IfOk result (λ list. map seen list ≡ sources files.now) }
{
    let mut list = List::new(alloc);
    for file in files {
        add_classes(file, &mut list)?;
    }
    Ok(list)
}

fn add_classes<'a>(file: &'a File, list: &mut List<GivenClass<'a>>) -> Result<(), OutOfMemory>
    ensures { OnOk result (map seen list.new ≡ map seen list.old ++ map (source file.now.lines) file.now.classes) }
{
    for tree in file.classes.as_slice() {
        list.push(GivenClass {
            lines: file.lines.as_slice(),
            tree,
        })?;
    }
    Ok(())
}

/// Of each given class, whether it is final.
pub fn finals_of(alloc: Global, list: &[GivenClass<'_>]) -> Result<List<bool>, OutOfMemory>
    ensures { IfOk result (λ finals. finals ≡ map (λ s. list_any (is_word (codes "final")) s.tree.modifiers) (map seen list.now)) }
{
    let mut finals = List::new(alloc);
    for class in list {
        finals.push(stands_in(class.tree.modifiers.as_slice(), b"final"))?;
    }
    Ok(finals)
}

/// The number of the first class of each name, predefined or given.
pub fn names_of<'a>(alloc: Global, list: &[GivenClass<'a>]) -> Result<Table<'a, u32>, OutOfMemory>
    requires { length list.now + 7 < 2 ^ 32 }
    ensures { IfOk result (λ names. (name : Items ℕ) → find name names ≡ class_named (map seen list.now) name) }
{
    let mut names = predefined_names(alloc)?;
    for (i, class) in list.iter().enumerate() {
        add_first(
            &mut names,
            class.tree.name.text.as_slice(),
            i as u32 + PREDEFINED,
        )?;
    }
    Ok(names)
}

fn predefined_names<'a>(alloc: Global) -> Result<Table<'a, u32>, OutOfMemory>
    ensures { IfOk result (λ names. HasFirsts names (map (λ p. p.0) predefined)) }
{
    let mut names = Table::new(alloc);
    for number in 0..PREDEFINED {
        add_first(&mut names, predefined_name(number), number)?;
    }
    Ok(names)
}

/// The name of the predefined class of that number.
pub fn predefined_name<'a>(number: u32) -> &'a [u8]
    requires { number < PREDEFINED }
    ensures { result.now ≡ get_or (map (λ p. p.0) predefined) number [] }
{
    match number {
        0 => b"Object",
        1 => b"Throwable",
        2 => b"Exception",
        3 => b"Error",
        4 => b"RuntimeException",
        5 => b"IllegalArgumentException",
        _ => b"IllegalStateException",
    }
}

/// Takes up the next class's name, where no class before has it.
fn add_first<'a>(names: &mut Table<'a, u32>, name: &'a [u8], number: u32) -> Result<(), OutOfMemory>
    ensures { OnOk result (AddsFirst names.old name.now number names.new) }
{
    match names.get(name) {
        Some(_) => Ok(()),
        None => names.add(name, number),
    }
}
