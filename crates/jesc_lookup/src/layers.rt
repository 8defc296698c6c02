//! Of each class the first item of each key in its line: one map from keys to items, with a version for each class.

ghost use Rattle.std.specs.Prelude.{◌≡◌, ◌<◌, ◌^◌, ◌⊎◌, ℕ, [], ◌∷◌, length, get_or, map, IfOk, OnOk};
ghost use Rattle.std.specs.List.{All, Contains};
ghost use Rattle.jesc_classes.specs.Order.{supers};
ghost use Rattle.jesc_lookup.specs.Layers.{AddsLayer, AreItems, AreSized, AreLayersOf, first_keyed, own_keyed, Steps, version_above};
ghost use Rattle.jesc_lookup.specs.Lines.{AreExtras, first_in, or_else};
ghost use Rattle.jesc_lookup.specs.Maps.{at};
ghost use Rattle.jesc_lookup.specs.Numbering.{IsArranged};
ghost use Rattle.jesc_lookup.specs.Tallies.{marked_in};

use crate::rows::zeros;
use crate::tallies::tallies_of;
use crate::versions::Versions;
use jesc_text::{List, OutOfMemory};
use std::alloc::Global;

/// Of each class by number, a version of a map that has the first item of each key in its line.
#[derive(Drop)]
pub struct Layers {
    /// The versions of the map from keys to items.
    pub versions: Versions,
    /// Of each class by number, its version.
    pub of: Vec<u32>,
}

impl Layers {
    /// The layers of these classes. `order` has the classes, each behind its supertypes, and `extras` what each one's line
    /// has behind that of its first supertype.
    ///
    /// Answers `OutOfMemory` where there is no room for the versions.
    pub fn new(
        alloc: Global,
        graph: &[List<u32>],
        order: &[u32],
        extras: &[List<u32>],
        keys: &[u32],
        rows: &[List<u32>],
    ) -> Result<Layers, OutOfMemory>
        requires few { length keys.now < 2 ^ 32 }
        requires order { IsArranged graph.now order.now }
        requires extras { AreExtras graph.now extras.now }
        requires items { AreItems (length graph.now) keys.now rows.now }
        ensures { IfOk result (λ l. AreLayersOf (λ class. class < length graph.now) graph.now keys.now rows.now l.versions l.of.items) }
    {
        let mut layers = Layers {
            versions: Versions::new(alloc, keys.len() as u32)?,
            of: zeros(alloc, graph.len())?,
        };
        for class in order {
            layers.add(graph, extras, keys, rows, *class)?;
        }
        Ok(layers)
    }

    /// The item that is the first of its key in the line of the class. Takes no memory.
    pub fn first(&self, class: u32, key: u32) -> Option<u32>
        requires class { class < length self.now.of.items }
        requires version { get_or self.now.of.items class 0 < length self.now.versions }
        ensures { result ≡ at (get_or self.now.versions (get_or self.now.of.items class 0) []) key }
    {
        self.versions.get(self.of[class as usize], key)
    }

    /// The version of the class. Takes no memory.
    pub fn version(&self, class: u32) -> u32
        requires { class < length self.now.of.items }
        ensures { result ≡ get_or self.now.of.items class 0 }
    {
        self.of[class as usize]
    }

    /// Of each version how many of its items are marked; `marks` tells it of each item.
    ///
    /// Answers `OutOfMemory` where there is no room for the list.
    pub fn tallies(&self, alloc: Global, marks: &[bool]) -> Result<List<u64>, OutOfMemory>
        ensures { IfOk result (λ tallies. tallies ≡ map (marked_in marks.now) self.now.versions) }
    {
        tallies_of(alloc, &self.versions, marks)
    }

    /// Makes the version of a class, whose supertypes have theirs.
    fn add(
        &mut self,
        graph: &[List<u32>],
        extras: &[List<u32>],
        keys: &[u32],
        rows: &[List<u32>],
        class: u32,
    ) -> Result<(), OutOfMemory>
        requires class { class < length graph.now }
        requires above { All (λ above. above < length graph.now) (supers graph.now class) }
        requires extras { length extras.now ≡ length graph.now }
        requires within { All (λ above. above < length graph.now) (get_or extras.now class []) }
        requires items { AreItems (length graph.now) keys.now rows.now }
        requires count { length self.old.of.items ≡ length graph.now }
        requires sized { AreSized (length keys.now) self.old.versions }
        requires there { (c : ℕ) → get_or self.old.of.items c 0 < length self.old.versions }
        ensures { OnOk result (AddsLayer graph.now extras.now keys.now rows.now class self.old.versions self.old.of.items self.new.versions self.new.of.items) }
    {
        let above = self.first_above(graph, class);
        let above = add_extra(
            &mut self.versions,
            above,
            keys,
            rows,
            extras[class as usize].as_slice(),
        )?;
        let own = put_own(
            &mut self.versions,
            above,
            keys,
            rows[class as usize].as_slice(),
        )?;
        self.of[class as usize] = own;
        Ok(())
    }

    /// The version of the first supertype, or the empty one.
    fn first_above(&self, graph: &[List<u32>], class: u32) -> u32
        requires class { class < length graph.now }
        requires above { All (λ above. above < length self.now.of.items) (supers graph.now class) }
        ensures { result ≡ version_above (supers graph.now class) self.now.of.items }
    {
        match graph[class as usize].as_slice().first() {
            None => 0,
            Some(above) => self.of[*above as usize],
        }
    }
}

/// Adds what these classes declare, where no item of its key is there yet.
fn add_extra(
    versions: &mut Versions,
    version: u32,
    keys: &[u32],
    rows: &[List<u32>],
    classes: &[u32],
) -> Result<u32, OutOfMemory>
    requires version { version < length versions.old }
    requires sized { AreSized (length keys.now) versions.old }
    requires within { All (λ class. class < length rows.now) classes.now }
    requires items { AreItems (length rows.now) keys.now rows.now }
    ensures { IfOk result (λ n. Steps (length keys.now) versions.old version versions.new n (λ key old. or_else old (first_in (own_keyed keys.now rows.now key) classes.now))) }
{
    let mut version = version;
    for class in classes {
        let row = rows[*class as usize].as_slice();
        version = add_missing(versions, version, keys, row)?;
    }
    Ok(version)
}

/// Adds these items, where none of its key is there yet.
fn add_missing(
    versions: &mut Versions,
    version: u32,
    keys: &[u32],
    row: &[u32],
) -> Result<u32, OutOfMemory>
    requires version { version < length versions.old }
    requires sized { AreSized (length keys.now) versions.old }
    requires row { All (λ i. i < length keys.now) row.now }
    requires keys { All (λ key. key < length keys.now) keys.now }
    ensures { IfOk result (λ n. Steps (length keys.now) versions.old version versions.new n (λ key old. or_else old (first_keyed keys.now key row.now))) }
{
    let mut version = version;
    for item in row {
        version = add_one(versions, version, keys, *item)?;
    }
    Ok(version)
}

/// Adds the item, where none of its key is there yet.
fn add_one(
    versions: &mut Versions,
    version: u32,
    keys: &[u32],
    item: u32,
) -> Result<u32, OutOfMemory>
    requires version { version < length versions.old }
    requires sized { AreSized (length keys.now) versions.old }
    requires item { item < length keys.now }
    requires key { get_or keys.now item 0 < length keys.now }
    ensures { IfOk result (λ n. Steps (length keys.now) versions.old version versions.new n (λ key old. or_else old (first_keyed keys.now key (item ∷ [])))) }
{
    let key = keys[item as usize];
    match versions.get(version, key) {
        Some(_) => Ok(version),
        None => versions.put(version, key, item),
    }
}

/// Puts these items in the place of others, where the first one of each key counts.
fn put_own(
    versions: &mut Versions,
    version: u32,
    keys: &[u32],
    row: &[u32],
) -> Result<u32, OutOfMemory>
    requires version { version < length versions.old }
    requires sized { AreSized (length keys.now) versions.old }
    requires row { All (λ i. i < length keys.now) row.now }
    requires keys { All (λ key. key < length keys.now) keys.now }
    ensures { IfOk result (λ n. Steps (length keys.now) versions.old version versions.new n (λ key old. or_else (first_keyed keys.now key row.now) old)) }
{
    let mut version = version;
    let mut left = row.len();
    while left > 0 {
        left -= 1;
        let item = row[left];
        version = versions.put(version, keys[item as usize], item)?;
    }
    Ok(version)
}
