//! The thin adapters over std's files and outputs. No clause can say what a disk holds, so they tell nothing but
//! their counts, which rise at each fault that std answers.

ghost use Rattle.std.specs.Prelude.{None};

use crate::outside::{Files, IoError, Sink};
use std::io::{Read, Write};
use std::{fs, rt};

/// Files on the disk.
#[derive(Drop)]
pub struct DiskFiles<'a, R: rt::Files> {
    host: &'a R,
    reading: Option<R::File>,
    writing: Option<R::File>,
    read_count: u64,
    write_count: u64,
}

impl<'a, R: rt::Files> DiskFiles<'a, R> {
    /// The files of the host, of which none is open.
    pub fn new(host: &'a R) -> DiskFiles<'a, R> {
        DiskFiles {
            host,
            reading: None,
            writing: None,
            read_count: 0,
            write_count: 0,
        }
    }
}

impl<'a, R: rt::Files> Files for DiskFiles<'a, R> {
    ghost told = { λ files. None };

    ghost read_faults = { λ files. files.read_count };

    ghost write_faults = { λ files. files.write_count };

    fn open(&mut self, name: &str) -> Result<(), IoError> {
        match fs::open(self.host, name) {
            Ok(file) => {
                self.reading = Some(file);
                Ok(())
            }
            Err(_) => {
                self.read_count = self.read_count.saturating_add(1);
                Err(IoError::Failed)
            }
        }
    }

    fn read(&mut self, into: &mut [u8]) -> Result<usize, IoError> {
        match &mut self.reading {
            Some(file) => match file.read(into) {
                Ok(count) => Ok(count),
                Err(_) => {
                    self.read_count = self.read_count.saturating_add(1);
                    Err(IoError::Failed)
                }
            },
            None => {
                self.read_count = self.read_count.saturating_add(1);
                Err(IoError::Failed)
            }
        }
    }

    fn create(&mut self, name: &str) -> Result<(), IoError> {
        match fs::create(self.host, name) {
            Ok(file) => {
                self.writing = Some(file);
                Ok(())
            }
            Err(_) => {
                self.write_count = self.write_count.saturating_add(1);
                Err(IoError::Failed)
            }
        }
    }

    fn put(&mut self, piece: &[u8]) -> Result<(), IoError> {
        match &mut self.writing {
            Some(file) => match file.write_all(piece) {
                Ok(_) => Ok(()),
                Err(_) => {
                    self.write_count = self.write_count.saturating_add(1);
                    Err(IoError::Failed)
                }
            },
            None => {
                self.write_count = self.write_count.saturating_add(1);
                Err(IoError::Failed)
            }
        }
    }
}

/// An output of the host.
#[derive(Drop)]
pub struct StdSink<W: Write + Drop> {
    inner: W,
    count: u64,
}

impl<W: Write + Drop> StdSink<W> {
    /// The output that takes what this one is given.
    pub fn new(inner: W) -> StdSink<W> {
        StdSink { inner, count: 0 }
    }
}

impl<W: Write + Drop> Sink for StdSink<W> {
    ghost taken = { λ sink. None };

    ghost faults = { λ sink. sink.count };

    fn put(&mut self, piece: &[u8]) -> Result<(), IoError> {
        match self.inner.write_all(piece) {
            Ok(_) => Ok(()),
            Err(_) => {
                self.count = self.count.saturating_add(1);
                Err(IoError::Failed)
            }
        }
    }
}
