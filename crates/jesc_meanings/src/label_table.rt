//! A table of labels, which tells the first item of each.

ghost use Rattle.std.specs.Prelude.{◌≡◌, ◌<◌, ◌^◌, ◌++◌, ◌∷◌, [], length, get_or, map, Some, IfOk, OnOk};
ghost use Rattle.jesc_meanings.specs.Labels.{AreKeys, AreNamed, IsTableOf, TakesItem, TakesName, found_in, key_by, seen};

use crate::label::Label;
use crate::row::Row;
use jesc_classes::Table;
use jesc_text::{List, OutOfMemory};
use std::alloc::Global;

/// The first item of each label.
#[derive(Drop)]
pub struct LabelTable<'a> {
    /// Of each name the number of its row.
    names: Table<'a, u32>,
    /// Of each name the first item with each number of parameters.
    rows: Vec<Row>,
}

impl<'a> LabelTable<'a> {
    /// The table of items with these labels, of which some have none.
    ///
    /// Answers `OutOfMemory` where there is no room for it.
    pub fn new(alloc: Global, labels: &[Option<Label<'a>>]) -> Result<LabelTable<'a>, OutOfMemory>
        requires { length labels.now < 2 ^ 32 }
        ensures { IfOk result (λ t. IsTableOf (map seen labels.now) t.names t.rows.items) }
    {
        let mut table = LabelTable {
            names: Table::new(alloc),
            rows: Vec::new(alloc),
        };
        for (i, label) in labels.iter().enumerate() {
            table.add(alloc, *label, i as u32)?;
        }
        Ok(table)
    }

    /// The first item with that name and number of parameters. Takes no memory.
    pub fn find(&self, name: &[u8], count: usize) -> Option<u32>
        requires { AreNamed self.now.names self.now.rows.items }
        ensures { result ≡ found_in self.now.names self.now.rows.items (name.now, count) }
    {
        match self.names.get(name) {
            Some(row) => self.rows[row as usize].get(count),
            None => None,
        }
    }

    /// Of each item the number of the first one with its label; of one without a label its own number.
    ///
    /// `labels` are those that the table was made of. Answers `OutOfMemory` where there is no room for the list.
    pub fn keys(
        &self,
        alloc: Global,
        labels: &[Option<Label<'_>>],
    ) -> Result<List<u32>, OutOfMemory>
        requires few { length labels.now < 2 ^ 32 }
        requires table { IsTableOf (map seen labels.now) self.now.names self.now.rows.items }
        ensures { IfOk result (AreKeys (map seen labels.now)) }
    {
        let mut keys = List::new(alloc);
        for (i, label) in labels.iter().enumerate() {
            keys.push(self.key(*label, i as u32))?;
        }
        Ok(keys)
    }

    /// The first item with the label, or the given one where there is none.
    fn key(&self, label: Option<Label<'_>>, item: u32) -> u32
        requires { AreNamed self.now.names self.now.rows.items }
        ensures { result ≡ key_by (found_in self.now.names self.now.rows.items) item (seen label.entry) }
    {
        match label {
            Some(label) => self.find(label.name, label.count).unwrap_or(item),
            None => item,
        }
    }

    /// Takes up an item under its label.
    fn add(&mut self, alloc: Global, label: Option<Label<'a>>, item: u32) -> Result<(), OutOfMemory>
        requires { AreNamed self.old.names self.old.rows.items }
        ensures { OnOk result (TakesItem self.old.names self.old.rows.items (seen label.entry) item self.new.names self.new.rows.items) }
    {
        let Some(label) = label else {
            return Ok(());
        };
        let row = self.row_of(alloc, label.name)?;
        self.rows[row as usize].put(label.count, item)
    }

    /// The number of the name's row, a new one where it has none.
    fn row_of(&mut self, alloc: Global, name: &'a [u8]) -> Result<u32, OutOfMemory>
        requires { AreNamed self.old.names self.old.rows.items }
        ensures { IfOk result (TakesName self.old.names self.old.rows.items name.now self.new.names self.new.rows.items) }
    {
        if let Some(row) = self.names.get(name) {
            return Ok(row);
        }
        let row = self.rows.len();
        if row >= u32::MAX as usize {
            return Err(OutOfMemory);
        }
        let Ok(_) = self.rows.push(Row::new(alloc)) else {
            return Err(OutOfMemory);
        };
        self.names.add(name, row as u32)?;
        Ok(row as u32)
    }
}
