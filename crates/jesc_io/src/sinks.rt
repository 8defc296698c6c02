ghost use Rattle.std.specs.Prelude.{◌≡◌, [], Some};
ghost use Rattle.jesc_io.specs.Memory.{mem_bytes, steady_bytes};

use crate::faults::Faults;
use crate::outside::{IoError, Sink};
use jesc_text::{List, Text};
use std::alloc::Global;

/// An output in memory, of which the calls with certain numbers fail. They are numbered from 0.
#[derive(Drop)]
pub struct MemSink {
    bytes: Text,
    faults: Faults,
    count: u64,
}

impl MemSink {
    /// No bytes. A pair of `faults` is the number of a call that fails and how many bytes it takes before; of several
    /// pairs with one number the first counts. Takes no memory.
    pub fn new(alloc: Global, faults: List<(u32, u32)>) -> MemSink
        ensures empty { mem_bytes result ≡ [] }
        ensures none { ⟦<MemSink as Sink>⟧.faults result ≡ 0 }
    {
        MemSink {
            bytes: Text::new(alloc),
            faults: Faults::new(faults),
            count: 0,
        }
    }

    /// What was taken. Takes no memory.
    pub fn bytes(&self) -> &[u8]
        ensures { result.now ≡ mem_bytes self.now }
    {
        self.bytes.as_slice()
    }
}

impl Sink for MemSink {
    ghost taken = { λ sink. Some (mem_bytes sink) };

    ghost faults = { λ sink. sink.count };

    fn put(&mut self, piece: &[u8]) -> Result<(), IoError> {
        match self.faults.next() {
            None => match self.bytes.append(piece) {
                Ok(_) => Ok(()),
                Err(_) => Err(IoError::OutOfMemory),
            },
            Some(taken) => {
                let kept = (taken as usize).min(piece.len());
                match self.bytes.append(&piece[..kept]) {
                    Ok(_) => {
                        self.count = self.count.saturating_add(1);
                        Err(IoError::Failed)
                    }
                    Err(_) => Err(IoError::OutOfMemory),
                }
            }
        }
    }
}

/// An output in memory that never fails.
#[derive(Drop)]
pub struct SteadySink {
    bytes: Text,
}

impl SteadySink {
    /// No bytes. Takes no memory.
    pub fn new(alloc: Global) -> SteadySink
        ensures { steady_bytes result ≡ [] }
    {
        SteadySink {
            bytes: Text::new(alloc),
        }
    }

    /// What was taken. Takes no memory.
    pub fn bytes(&self) -> &[u8]
        ensures { result.now ≡ steady_bytes self.now }
    {
        self.bytes.as_slice()
    }
}

impl Sink for SteadySink {
    ghost taken = { λ sink. Some (steady_bytes sink) };

    ghost faults = { λ sink. 0 };

    fn put(&mut self, piece: &[u8]) -> Result<(), IoError> {
        match self.bytes.append(piece) {
            Ok(_) => Ok(()),
            Err(_) => Err(IoError::OutOfMemory),
        }
    }
}
