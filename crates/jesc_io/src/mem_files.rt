ghost use Rattle.std.specs.Prelude.{◌≡◌, Some, OnOk, OnErr};
ghost use Rattle.std.specs.Option.{option_copied};
ghost use Rattle.jesc_io.specs.Contents.{holding, no_files};
ghost use Rattle.jesc_io.specs.Memory.{mem_store};

use crate::faults::Faults;
use crate::memory::Memory;
use crate::outside::{Files, IoError};
use jesc_text::{List, OutOfMemory};
use std::alloc::Global;

/// Files in memory, of which the calls with certain numbers fail.
///
/// The calls of `open`, `read`, `create` and `put` are numbered together from 0.
#[derive(Drop)]
pub struct MemFiles {
    memory: Memory,
    faults: Faults,
    read_count: u64,
    write_count: u64,
}

impl MemFiles {
    /// No files. A pair of `faults` is the number of a call that fails and how many bytes it takes before, where it
    /// is a `put`; of several pairs with one number the first counts. Takes no memory.
    pub fn new(alloc: Global, faults: List<(u32, u32)>) -> MemFiles
        ensures empty { mem_store result ≡ no_files }
        ensures reads { ⟦<MemFiles as Files>⟧.read_faults result ≡ 0 }
        ensures writes { ⟦<MemFiles as Files>⟧.write_faults result ≡ 0 }
    {
        MemFiles {
            memory: Memory::new(alloc),
            faults: Faults::new(faults),
            read_count: 0,
            write_count: 0,
        }
    }

    /// Makes these bytes the content of a name, as no numbered call.
    ///
    /// Answers `OutOfMemory`, and leaves the files as they were, where there is no room.
    pub fn add(&mut self, name: &str, bytes: &[u8]) -> Result<(), OutOfMemory>
        ensures ok { OnOk result (mem_store self.new ≡ holding name.now bytes.now (mem_store self.old)) }
        ensures err { OnErr result (mem_store self.new ≡ mem_store self.old) }
        ensures faults { self.new.faults ≡ self.old.faults }
        ensures reads { ⟦<MemFiles as Files>⟧.read_faults self.new ≡ ⟦<MemFiles as Files>⟧.read_faults self.old }
        ensures writes { ⟦<MemFiles as Files>⟧.write_faults self.new ≡ ⟦<MemFiles as Files>⟧.write_faults self.old }
    {
        self.memory.add(name, bytes)
    }

    /// The content of a name, and None where it isn't there. Takes no memory.
    pub fn content(&self, name: &str) -> Option<&[u8]>
        ensures { option_copied result ≡ (mem_store self.now).content name.now }
    {
        self.memory.content(name)
    }
}

impl Files for MemFiles {
    ghost told = { λ files. Some (mem_store files) };

    ghost read_faults = { λ files. files.read_count };

    ghost write_faults = { λ files. files.write_count };

    fn open(&mut self, name: &str) -> Result<(), IoError> {
        let fails = self.faults.next().is_some();
        if fails || self.memory.content(name).is_none() {
            self.read_count = self.read_count.saturating_add(1);
            return Err(IoError::Failed);
        }
        match self.memory.open(name) {
            Ok(_) => Ok(()),
            Err(_) => Err(IoError::OutOfMemory),
        }
    }

    fn read(&mut self, into: &mut [u8]) -> Result<usize, IoError> {
        if self.faults.next().is_some() {
            self.read_count = self.read_count.saturating_add(1);
            return Err(IoError::Failed);
        }
        Ok(self.memory.read(into))
    }

    fn create(&mut self, name: &str) -> Result<(), IoError> {
        if self.faults.next().is_some() {
            self.write_count = self.write_count.saturating_add(1);
            return Err(IoError::Failed);
        }
        match self.memory.create(name) {
            Ok(_) => Ok(()),
            Err(_) => Err(IoError::OutOfMemory),
        }
    }

    fn put(&mut self, piece: &[u8]) -> Result<(), IoError> {
        let fault = self.faults.next();
        let kept = match fault {
            None => piece,
            Some(taken) => &piece[..(taken as usize).min(piece.len())],
        };
        match self.memory.put(kept) {
            Err(_) => Err(IoError::OutOfMemory),
            Ok(_) => {
                if fault.is_none() {
                    return Ok(());
                }
                self.write_count = self.write_count.saturating_add(1);
                Err(IoError::Failed)
            }
        }
    }
}
