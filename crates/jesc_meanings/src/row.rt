//! A list of items by number of parameters.

ghost use Rattle.std.specs.Prelude.{◌≡◌, ◌<◌, ℕ, None, [], length, get_or, OnOk};
ghost use Rattle.jesc_meanings.specs.Rows.{Puts};

use jesc_text::OutOfMemory;
use std::alloc::Global;
use std::marker::Model;

/// Of each count the first item that was put there. Contracts see the list of the items by count.
///
/// Its length is one more than the greatest count, so that all rows together take no more room than the parameters.
#[derive(Drop)]
pub struct Row {
    items: Vec<Option<u32>>,
}

impl Model for Row {
    ghost use Rattle.std.specs.Prelude.{ℕ, Option, List as Items};

    ghost Value = { Items (Option ℕ) };

    ghost view = { λ row. row.items.items };
}

impl Row {
    /// A row without items. Takes no memory.
    pub fn new(alloc: Global) -> Row
        ensures { result ≡ [] }
    {
        Row {
            items: Vec::new(alloc),
        }
    }

    /// The item at the count. Takes no memory.
    pub fn get(&self, count: usize) -> Option<u32>
        ensures { result ≡ get_or self.now count None }
    {
        if count < self.items.len() {
            return self.items[count];
        }
        None
    }

    /// Puts the item at the count, where there is none yet. Answers `OutOfMemory` where there is no room for it.
    pub fn put(&mut self, count: usize, item: u32) -> Result<(), OutOfMemory>
        ensures { OnOk result (Puts self.old count item self.new) }
    {
        self.widen(count)?;
        if self.items[count].is_none() {
            self.items[count] = Some(item);
        }
        Ok(())
    }

    /// Makes places without items, as far as the count.
    fn widen(&mut self, count: usize) -> Result<(), OutOfMemory>
        ensures long { OnOk result (count < length self.new) }
        ensures same { OnOk result ((k : ℕ) → get_or self.new k None ≡ get_or self.old k None) }
    {
        while self.items.len() <= count {
            let Ok(_) = self.items.push(None) else {
                return Err(OutOfMemory);
            };
        }
        Ok(())
    }
}
