//! The given classes, and which class a name means.

ghost use Rattle.std.specs.Prelude.{◌≡◌, ◌<◌, ◌+◌, ◌^◌, ◌↔◌, true, length, map, IfOk};
ghost use Rattle.jesc_classes.specs.Headings.{IsFinal, IsInterface, class_named, sources};
ghost use Rattle.jesc_classes.specs.Sources.{seen};

use crate::index::{finals_of, given_classes, names_of};
use crate::table::Table;
use jesc_ast::{ClassTree, File};
use jesc_text::{List, OutOfMemory};
use std::alloc::Global;
use std::marker::Model;

/// A given class, with where the lines of its file begin.
#[derive(Drop, Clone, Copy)]
pub struct GivenClass<'a> {
    pub lines: &'a [u32],
    pub tree: &'a ClassTree,
}

/// The given classes in source order, found by name. Contracts see the list of the classes alone.
///
/// The predefined classes have the numbers 0 to 6, and the given ones those from 7 on.
#[derive(Drop)]
pub struct Classes<'a> {
    list: List<GivenClass<'a>>,
    /// Of each given class, whether it is final.
    finals: List<bool>,
    /// The number of the first class of each name.
    names: Table<'a, u32>,
}

impl<'a> Model for Classes<'a> {
    ghost use Rattle.std.specs.Prelude.{List as Items};
    ghost use Rattle.jesc_classes.specs.Headings.{Source};
    ghost use Rattle.jesc_classes.specs.Sources.{IsIndex, seen_all};
    ghost use Rattle.jesc_ast.specs.contracts.class.ClassTree as class_tree;
    ghost use Rattle.std.specs.Coded.{codes};

    ghost Value = { Items Source };

    ghost coded = { Prim.hlevel (codes, class_tree.the_row.coded) };

    ghost view = { λ c. seen_all c.list };

    ghost invariant = { λ c. IsIndex (seen_all c.list) c.finals c.names };
}

impl<'a> Classes<'a> {
    /// The classes of these files, file by file.
    ///
    /// Answers `OutOfMemory` where there is no room for the tables.
    pub fn new(alloc: Global, files: &'a [File]) -> Result<Classes<'a>, OutOfMemory>
        requires { length (sources files.now) + 7 < 2 ^ 32 }
        ensures { IfOk result (λ classes. classes ≡ sources files.now) }
    {
        let list = given_classes(alloc, files)?;
        let finals = finals_of(alloc, list.as_slice())?;
        let names = names_of(alloc, list.as_slice())?;
        Ok(Classes {
            list,
            finals,
            names,
        })
    }

    /// The given classes in source order. Takes no memory.
    pub fn list(&self) -> &[GivenClass<'a>]
        ensures { map seen result.now ≡ self.now }
    {
        self.list.as_slice()
    }

    /// The number of the first class of that name, predefined or given. Takes no memory.
    pub fn find(&self, name: &[u8]) -> Option<u32>
        ensures { result ≡ class_named self.now name.now }
    {
        self.names.get(name)
    }

    /// Whether the class of that number is an interface. Takes no memory.
    pub fn is_interface(&self, number: u32) -> bool
        ensures { (result ≡ true) ↔ IsInterface self.now number }
    {
        match self
            .list
            .as_slice()
            .get((number as usize).saturating_sub(7))
        {
            Some(class) => number >= 7 && class.tree.is_interface,
            None => false,
        }
    }

    /// Whether the class of that number is final. Takes no memory.
    pub fn is_final(&self, number: u32) -> bool
        ensures { (result ≡ true) ↔ IsFinal self.now number }
    {
        match self
            .finals
            .as_slice()
            .get((number as usize).saturating_sub(7))
        {
            Some(is_final) => number >= 7 && *is_final,
            None => false,
        }
    }
}
