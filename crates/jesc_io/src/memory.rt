ghost use Rattle.std.specs.Prelude.{◌≡◌, ◌≤◌, ◌<◌, ◌+◌, ◌^◌, IfOk, OnOk, OnErr, [], length, take, drop, unwrap_or};
ghost use Rattle.std.specs.BTreeMap.{get_by_text};
ghost use Rattle.std.specs.String.{string_bytes};
ghost use Rattle.std.specs.Option.{option_copied};
ghost use Rattle.jesc_io.specs.Contents.{GivesNext, holding, reading_at, moved, writing_to, added, no_files};
ghost use Rattle.jesc_io.specs.Memory.{store_of};

use jesc_text::{OutOfMemory, Text};
use std::alloc::Global;
use std::collections::BTreeMap;

/// The file that is open for reading, and the place in bytes from its start.
#[derive(Drop)]
pub struct Reading {
    name: String,
    place: usize,
}

/// Files in memory, and what is open. Each call that answers an error has changed nothing.
#[derive(Drop)]
pub struct Memory {
    alloc: Global,
    files: BTreeMap<String, Text>,
    reading: Option<Reading>,
    writing: Option<String>,
}

fn name_of(alloc: Global, name: &str) -> Result<String, OutOfMemory>
    ensures { IfOk result (λ text. string_bytes text ≡ name.now) }
{
    match String::from_str(alloc, name) {
        Ok(text) => Ok(text),
        Err(_) => Err(OutOfMemory),
    }
}

fn text_of(alloc: Global, bytes: &[u8]) -> Result<Text, OutOfMemory>
    ensures { IfOk result (λ text. text ≡ bytes.now) }
{
    let mut text = Text::new(alloc);
    text.append(bytes)?;
    Ok(text)
}

/// Copies the bytes from this place on, as many as there is room for, and tells how many.
fn copy_from(bytes: &[u8], place: usize, into: &mut [u8]) -> usize
    ensures next { take result into.new ≡ take result (drop place bytes.now) }
    ensures there { result ≤ length (drop place bytes.now) }
    ensures room { result ≤ length into.new }
    ensures last { result ≡ 0 → 0 < length into.new → drop place bytes.now ≡ [] }
    ensures fits { place + result < 2 ^ 64 }
{
    if place >= bytes.len() {
        return 0;
    }
    let rest = &bytes[place..];
    let count = rest.len().min(into.len());
    into[..count].copy_from_slice(&rest[..count]);
    count
}

/// The same from the file of this name.
fn copy_of(files: &BTreeMap<String, Text>, name: &str, place: usize, into: &mut [u8]) -> usize
    ensures next { take result into.new ≡ take result (drop place (unwrap_or (get_by_text files.now name.now) [])) }
    ensures there { result ≤ length (drop place (unwrap_or (get_by_text files.now name.now) [])) }
    ensures room { result ≤ length into.new }
    ensures last { result ≡ 0 → 0 < length into.new → drop place (unwrap_or (get_by_text files.now name.now) []) ≡ [] }
    ensures fits { place + result < 2 ^ 64 }
{
    match files.get(name) {
        Some(text) => copy_from(text.as_slice(), place, into),
        None => 0,
    }
}

impl Memory {
    pub fn new(alloc: Global) -> Memory
        ensures { store_of result ≡ no_files }
    {
        Memory {
            alloc,
            files: BTreeMap::new(alloc),
            reading: None,
            writing: None,
        }
    }

    /// The bytes of a name, if it is there.
    pub fn content(&self, name: &str) -> Option<&[u8]>
        ensures { option_copied result ≡ (store_of self.now).content name.now }
    {
        match self.files.get(name) {
            Some(text) => Some(text.as_slice()),
            None => None,
        }
    }

    /// Makes these bytes the content of a name.
    pub fn add(&mut self, name: &str, bytes: &[u8]) -> Result<(), OutOfMemory>
        ensures ok { OnOk result (store_of self.new ≡ holding name.now bytes.now (store_of self.old)) }
        ensures err { OnErr result (store_of self.new ≡ store_of self.old) }
    {
        let text = text_of(self.alloc, bytes)?;
        let name = name_of(self.alloc, name)?;
        match self.files.insert(name, text) {
            Ok(_) => Ok(()),
            Err(_) => Err(OutOfMemory),
        }
    }

    /// Opens a name for reading, whether it is there or not.
    pub fn open(&mut self, name: &str) -> Result<(), OutOfMemory>
        ensures ok { OnOk result (store_of self.new ≡ reading_at name.now 0 (store_of self.old)) }
        ensures err { OnErr result (store_of self.new ≡ store_of self.old) }
    {
        let name = name_of(self.alloc, name)?;
        self.reading = Some(Reading { name, place: 0 });
        Ok(())
    }

    /// Reads the next bytes; none where nothing is open.
    pub fn read(&mut self, into: &mut [u8]) -> usize
        ensures change { store_of self.new ≡ moved result (store_of self.old) }
        ensures next { GivesNext (store_of self.old) result into.new }
        ensures within { result ≤ length into.new }
    {
        match &mut self.reading {
            None => 0,
            Some(open) => {
                let count = copy_of(&self.files, open.name.as_str(), open.place, into);
                open.place += count;
                count
            }
        }
    }

    /// Makes a name empty and opens it for writing.
    pub fn create(&mut self, name: &str) -> Result<(), OutOfMemory>
        ensures ok { OnOk result (store_of self.new ≡ writing_to name.now (holding name.now [] (store_of self.old))) }
        ensures err { OnErr result (store_of self.new ≡ store_of self.old) }
    {
        let open = name_of(self.alloc, name)?;
        self.add(name, &[])?;
        self.writing = Some(open);
        Ok(())
    }

    /// Adds a piece to the file that is open for writing.
    pub fn put(&mut self, piece: &[u8]) -> Result<(), OutOfMemory>
        ensures ok { OnOk result (store_of self.new ≡ added piece.now (store_of self.old)) }
        ensures err { OnErr result (store_of self.new ≡ store_of self.old) }
    {
        match &self.writing {
            None => Ok(()),
            Some(name) => match self.files.get_mut(name.as_str()) {
                Some(text) => text.append(piece),
                None => Ok(()),
            },
        }
    }
}
