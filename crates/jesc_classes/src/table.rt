ghost use Rattle.std.specs.Prelude.{◌≡◌, ◌∷◌, [], ◌++◌, ◌≤◌, length, take, None, OnOk, OnErr};
ghost use Rattle.jesc_classes.specs.Named.{find};

use indexmap::IndexMap;
use jesc_text::OutOfMemory;
use std::alloc::Global;
use std::marker::Model;

/// What names stand for, which contracts see as the list of the names with their values, in the order of adding.
///
/// The names are borrowed from the trees that hold them.
#[derive(Drop)]
pub struct Table<'a, V> {
    map: IndexMap<&'a [u8], V>,
}

impl<'a, V> Model for Table<'a, V> {
    ghost use Rattle.jesc_classes.specs.Named.{Named};
    ghost use Rattle.std.specs.Prelude.{List, map as each};

    ghost Value = { List (Named V) };

    ghost view = { λ t. each (λ e. (e.0.now, e.1)) t.map.entries };
}

impl<'a, V: Copy + Drop> Table<'a, V> {
    /// A table without names. Takes no memory.
    pub fn new(alloc: Global) -> Table<'a, V>
        ensures { result ≡ [] }
    {
        Table {
            map: IndexMap::new(alloc),
        }
    }

    /// The number of names.
    pub fn len(&self) -> usize
        ensures { result ≡ length self.now }
    {
        self.map.len()
    }

    /// What a name stands for, where it is there.
    pub fn get(&self, name: &[u8]) -> Option<V>
        ensures { result ≡ find name.now self.now }
    {
        self.map.get(name).copied()
    }

    /// Adds a name that isn't there. Answers `OutOfMemory`, and leaves the table as it was, where there is no room.
    pub fn add(&mut self, name: &'a [u8], value: V) -> Result<(), OutOfMemory>
        requires { find name.now self.old ≡ None }
        ensures ok { OnOk result (self.new ≡ self.old ++ (name.now, value) ∷ []) }
        ensures err { OnErr result (self.new ≡ self.old) }
    {
        let Ok(_) = self.map.insert(name, value) else {
            return Err(OutOfMemory);
        };
        Ok(())
    }

    /// Keeps the first `kept` names. Takes no memory.
    pub fn cut(&mut self, kept: usize)
        requires { kept ≤ length self.old }
        ensures { self.new ≡ take kept self.old }
    {
        self.map.truncate(kept);
    }
}
