ghost use Rattle.std.specs.Prelude.{◌≡◌, ◌≤◌, [], ◌∷◌, ◌++◌, length, take, OnOk, OnErr};

use std::alloc::Global;
use std::marker::Model;

/// Memory ran out.
#[derive(Debug, Drop, Clone, Copy, PartialEq, Eq)]
pub struct OutOfMemory;

/// A growing list, which contracts see as the list of its items.
#[derive(Debug, Drop)]
pub struct List<T> {
    items: Vec<T>,
}

impl<T> Model for List<T> {
    ghost use Rattle.std.specs.Prelude.{List as Items};
    ghost use Rattle.std.specs.Coded.{coded_list};

    ghost Value = { Items T };

    ghost coded = { coded_list T.code };

    ghost view = { λ list. list.items.items };
}

impl<T> List<T> {
    /// An empty list. Takes no memory until the first `push`.
    pub fn new(alloc: Global) -> List<T>
        ensures { result ≡ [] }
    {
        List {
            items: Vec::new(alloc),
        }
    }

    /// All items, in order. Takes no memory.
    pub fn as_slice(&self) -> &[T]
        ensures { result.now ≡ self.now }
    {
        self.items.as_slice()
    }

    /// The number of items.
    pub fn len(&self) -> usize
        ensures { result ≡ length self.now }
    {
        self.items.len()
    }
}

impl<T: Drop> List<T> {
    /// Makes room for one more item: for one at first, and from then on for as many again.
    ///
    /// Most lists of a tree hold one item or two, and `Vec` would begin with room for four.
    fn make_room(&mut self) -> Result<(), OutOfMemory>
        ensures { self.new ≡ self.old }
    {
        let len = self.items.len();
        if len < self.items.capacity() {
            return Ok(());
        }
        match self.items.reserve_exact(len.max(1)) {
            Ok(_) => Ok(()),
            Err(_) => Err(OutOfMemory),
        }
    }

    /// Appends an item. Answers `OutOfMemory`, and leaves the list as it was, where there is no room for it.
    pub fn push(&mut self, item: T) -> Result<(), OutOfMemory>
        ensures ok { OnOk result (self.new ≡ self.old ++ item ∷ []) }
        ensures err { OnErr result (self.new ≡ self.old) }
    {
        self.make_room()?;
        match self.items.push(item) {
            Ok(_) => Ok(()),
            Err(_) => Err(OutOfMemory),
        }
    }

    /// Keeps the first `kept` items, of which there are at least so many. Takes no memory.
    pub fn cut(&mut self, kept: u32)
        requires { kept ≤ length self.old }
        ensures { self.new ≡ take kept self.old }
    {
        self.items.truncate(kept as usize);
    }
}

impl List<u8> {
    /// Appends all of these bytes. Answers `OutOfMemory`, and leaves the text as it was, where there is no room for them.
    pub fn append(&mut self, more: &[u8]) -> Result<(), OutOfMemory>
        ensures ok { OnOk result (self.new ≡ self.old ++ more.now) }
        ensures err { OnErr result (self.new ≡ self.old) }
    {
        match self.items.extend_from_slice(more) {
            Ok(_) => Ok(()),
            Err(_) => Err(OutOfMemory),
        }
    }
}
