ghost use Rattle.std.specs.Prelude.{◌≡◌, Some, OnOk, OnErr};
ghost use Rattle.std.specs.Option.{option_copied};
ghost use Rattle.jesc_io.specs.Contents.{holding, no_files};
ghost use Rattle.jesc_io.specs.Memory.{steady_store};

use crate::memory::Memory;
use crate::outside::{Files, IoError};
use jesc_text::OutOfMemory;
use std::alloc::Global;

/// Files in memory that never fail. A name that isn't there opens as an empty file.
#[derive(Drop)]
pub struct SteadyFiles {
    memory: Memory,
}

impl SteadyFiles {
    /// No files. Takes no memory.
    pub fn new(alloc: Global) -> SteadyFiles
        ensures { steady_store result ≡ no_files }
    {
        SteadyFiles {
            memory: Memory::new(alloc),
        }
    }

    /// Makes these bytes the content of a name.
    ///
    /// Answers `OutOfMemory`, and leaves the files as they were, where there is no room.
    pub fn add(&mut self, name: &str, bytes: &[u8]) -> Result<(), OutOfMemory>
        ensures ok { OnOk result (steady_store self.new ≡ holding name.now bytes.now (steady_store self.old)) }
        ensures err { OnErr result (steady_store self.new ≡ steady_store self.old) }
    {
        self.memory.add(name, bytes)
    }

    /// The content of a name, and None where it isn't there. Takes no memory.
    pub fn content(&self, name: &str) -> Option<&[u8]>
        ensures { option_copied result ≡ (steady_store self.now).content name.now }
    {
        self.memory.content(name)
    }
}

impl Files for SteadyFiles {
    ghost told = { λ files. Some (steady_store files) };

    ghost read_faults = { λ files. 0 };

    ghost write_faults = { λ files. 0 };

    fn open(&mut self, name: &str) -> Result<(), IoError> {
        match self.memory.open(name) {
            Ok(_) => Ok(()),
            Err(_) => Err(IoError::OutOfMemory),
        }
    }

    fn read(&mut self, into: &mut [u8]) -> Result<usize, IoError> {
        Ok(self.memory.read(into))
    }

    fn create(&mut self, name: &str) -> Result<(), IoError> {
        match self.memory.create(name) {
            Ok(_) => Ok(()),
            Err(_) => Err(IoError::OutOfMemory),
        }
    }

    fn put(&mut self, piece: &[u8]) -> Result<(), IoError> {
        match self.memory.put(piece) {
            Ok(_) => Ok(()),
            Err(_) => Err(IoError::OutOfMemory),
        }
    }
}
