//! What names of fields mean in each class.

ghost use Rattle.std.specs.Prelude.{◌≡◌, ◌<◌, ◌^◌, [], length, get_or, map, IfOk};
ghost use Rattle.std.specs.List.{All};
ghost use Rattle.jesc_classes.specs.Named.{find as find_name};
ghost use Rattle.jesc_members.specs.Keys.{KnowsFields, found_at};
ghost use Rattle.jesc_lookup.specs.Lines.{AreExtras};
ghost use Rattle.jesc_lookup.specs.Numbering.{IsArranged};
ghost use Rattle.jesc_members.specs.Seen.{seen_field};

use crate::fields::GivenField;
use crate::keys::{field_keys, field_owners, rows_of};
use jesc_classes::Table;
use jesc_lookup::Layers;
use jesc_text::{List, OutOfMemory};
use std::alloc::Global;

/// The keys of names, and of each class the first field of each key in its line.
#[derive(Drop)]
pub struct FieldLayers<'a> {
    names: Table<'a, u32>,
    layers: Layers,
}

impl<'a> FieldLayers<'a> {
    /// The layers of these fields. Answers `OutOfMemory` where there is no room for the tables.
    pub fn new(
        alloc: Global,
        graph: &[List<u32>],
        order: &[u32],
        extras: &[List<u32>],
        fields: &[GivenField<'a>],
    ) -> Result<FieldLayers<'a>, OutOfMemory>
        requires few { length fields.now < 2 ^ 32 }
        requires order { IsArranged graph.now order.now }
        requires extras { AreExtras graph.now extras.now }
        requires owners { All (λ f. f.class < length graph.now) (map seen_field fields.now) }
        ensures { IfOk result (λ l. KnowsFields graph.now (map seen_field fields.now) l.names l.layers.versions l.layers.of.items) }
    {
        let found = field_keys(alloc, fields)?;
        let owners = field_owners(alloc, fields)?;
        let rows = rows_of(alloc, graph.len(), owners.as_slice())?;
        let keys = found.keys.as_slice();
        let layers = Layers::new(alloc, graph, order, extras, keys, rows.as_slice())?;
        Ok(FieldLayers {
            names: found.names,
            layers,
        })
    }

    /// The number of the field that a name means in the class. Takes no memory.
    pub fn find(&self, class: u32, name: &[u8]) -> Option<u32>
        requires class { class < length self.now.layers.of.items }
        requires version { get_or self.now.layers.of.items class 0 < length self.now.layers.versions }
        ensures { result ≡ found_at (find_name name.now self.now.names) (get_or self.now.layers.versions (get_or self.now.layers.of.items class 0) []) }
    {
        match self.names.get(name) {
            Some(key) => self.layers.first(class, key),
            None => None,
        }
    }
}
