//! Sets of names.

ghost use Rattle.std.specs.Prelude.{◌≡◌, [], length, take, IfOk};
ghost use Rattle.jesc_first.specs.Parsing.{slot_in};
ghost use Rattle.jesc_first.specs.Reads.{Adds, Keeps};

use indexmap::IndexSet;
use jesc_text::OutOfMemory;
use std::alloc::Global;
use std::marker::Model;

/// Names in order, each of which stands once, which contracts see as the list of their texts.
#[derive(Drop)]
pub struct Names<'a> {
    set: IndexSet<&'a [u8]>,
}

impl<'a> Model for Names<'a> {
    ghost use Rattle.std.specs.Prelude.{List, ℕ, map, ◌<◌, ◌^◌, length as count};

    ghost Value = { List (List ℕ) };

    ghost view = { λ names. map (λ name. name.now) names.set.keys };

    ghost invariant = { λ names. count names.set.keys < 2 ^ 32 };
}

impl<'a> Names<'a> {
    /// No names. Takes no memory.
    pub fn new(alloc: Global) -> Names<'a>
        ensures { result ≡ [] }
    {
        Names {
            set: IndexSet::new(alloc),
        }
    }

    /// The number of names.
    pub(crate) fn len(&self) -> usize
        ensures { result ≡ length self.now }
    {
        self.set.len()
    }

    /// The place of a name, counted from 0.
    pub fn slot_of(&self, name: &[u8]) -> Option<u32>
        ensures { result ≡ slot_in self.now name.now }
    {
        match self.set.get_index_of(name) {
            Some(slot) => Some(slot as u32),
            None => None,
        }
    }

    /// Adds a name at the end, and answers whether it is new. Answers `OutOfMemory` where there is no room for it.
    pub fn add(&mut self, name: &'a [u8]) -> Result<bool, OutOfMemory>
        ensures added { IfOk result (λ added. Adds self.old name.now (slot_in self.old name.now) added self.new) }
        ensures keeps { Keeps self.old self.new }
    {
        if self.set.len() >= u32::MAX as usize {
            return Err(OutOfMemory);
        }
        let Ok(added) = self.set.insert(name) else {
            return Err(OutOfMemory);
        };
        Ok(added)
    }

    /// Keeps the first `len` names.
    pub(crate) fn cut(&mut self, len: usize)
        ensures { self.new ≡ take len self.old }
    {
        self.set.truncate(len);
    }
}
