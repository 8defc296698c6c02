//! What labels mean in each class.

ghost use Rattle.std.specs.Prelude.{◌≡◌, ◌<◌, ◌^◌, [], length, get_or, map, IfOk};
ghost use Rattle.jesc_lookup.specs.Lines.{AreExtras};
ghost use Rattle.jesc_lookup.specs.Numbering.{IsArranged};
ghost use Rattle.jesc_meanings.specs.Labels.{AreNamed, found_in, seen};
ghost use Rattle.jesc_meanings.specs.Layered.{AreRows, KnowsMembers, found_at};

use crate::label::Label;
use crate::label_table::LabelTable;
use jesc_lookup::Layers;
use jesc_text::{List, OutOfMemory};
use std::alloc::Global;

/// The table of labels, and of each class the first item of each label in the order of lookup.
#[derive(Drop)]
pub struct Members<'a> {
    table: LabelTable<'a>,
    layers: Layers,
}

impl<'a> Members<'a> {
    /// What these labels mean in each class. `rows` has the items of each class.
    ///
    /// `order` has the classes, each behind its supertypes, and `extras` what each one's line has behind that of its first
    /// supertype. Answers `OutOfMemory` where there is no room for the tables.
    pub fn new(
        alloc: Global,
        graph: &[List<u32>],
        order: &[u32],
        extras: &[List<u32>],
        labels: &[Option<Label<'a>>],
        rows: &[List<u32>],
    ) -> Result<Members<'a>, OutOfMemory>
        requires few { length labels.now < 2 ^ 32 }
        requires order { IsArranged graph.now order.now }
        requires extras { AreExtras graph.now extras.now }
        requires rows { AreRows graph.now (map seen labels.now) rows.now }
        ensures { IfOk result (λ m. KnowsMembers graph.now (map seen labels.now) rows.now m.table.names m.table.rows.items m.layers.versions m.layers.of.items) }
    {
        let table = LabelTable::new(alloc, labels)?;
        let keys = table.keys(alloc, labels)?;
        let layers = Layers::new(alloc, graph, order, extras, keys.as_slice(), rows)?;
        Ok(Members { table, layers })
    }

    /// The item that a name and a number of parameters mean in the class. Takes no memory.
    pub fn find(&self, class: u32, name: &[u8], count: usize) -> Option<u32>
        requires named { AreNamed self.now.table.names self.now.table.rows.items }
        requires class { class < length self.now.layers.of.items }
        requires version { get_or self.now.layers.of.items class 0 < length self.now.layers.versions }
        ensures { result ≡ found_at (found_in self.now.table.names self.now.table.rows.items (name.now, count)) (get_or self.now.layers.versions (get_or self.now.layers.of.items class 0) []) }
    {
        match self.table.find(name, count) {
            Some(key) => self.layers.first(class, key),
            None => None,
        }
    }
}
