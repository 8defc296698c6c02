//! Maps from numbers to numbers, of which every version stays.

ghost use Rattle.std.specs.Prelude.{ℕ, ◌≡◌, ◌∷◌, ◌++◌, [], ◌<◌, ◌≤◌, ◌^◌, length, get_or, replicate, None, IfOk, OnOk, OnErr};
ghost use Rattle.jesc_lookup.specs.Maps.{at, with_at};
ghost use Rattle.jesc_lookup.specs.Tries.{IsMade};

use crate::tries::{bits_of, find, put_in};
use jesc_text::{List, OutOfMemory};
use std::alloc::Global;
use std::marker::Model;

/// How a version is made: the older one that it comes from, the key that has another value in it, and that value.
#[derive(Drop, Clone, Copy)]
pub struct Version {
    /// Where its trie has its root.
    pub root: u32,
    pub from: u32,
    pub key: u32,
    pub value: u32,
}

/// Versions of a map from the numbers below a size to numbers. A new version is an old one with one more value; the old
/// one stays as it was. Contracts see the list of all versions.
#[derive(Drop)]
pub struct Versions {
    bits: u32,
    list: List<Version>,
    nodes: List<(u32, u32)>,
}

impl Model for Versions {
    ghost use Rattle.std.specs.Prelude.{List as Items};
    ghost use Rattle.jesc_lookup.specs.Maps.{Map};
    ghost use Rattle.jesc_lookup.specs.Tries.{maps_of, AreVersions};

    ghost Value = { Items Map };

    ghost view = { λ v. maps_of v.bits v.nodes v.list };

    ghost invariant = { λ v. AreVersions v.bits v.nodes v.list };
}

impl Versions {
    /// The map without values for the numbers below the size, as version 0.
    ///
    /// Answers `OutOfMemory` where there is no room for it.
    pub fn new(alloc: Global, size: u32) -> Result<Versions, OutOfMemory>
        ensures { IfOk result (λ v. (n : ℕ) × (size ≤ n) × (v ≡ replicate n None ∷ [])) }
    {
        let bits = bits_of(size);
        let mut nodes = List::new(alloc);
        nodes.push((0, 0))?;
        let mut list = List::new(alloc);
        list.push(Version {
            root: 0,
            from: 0,
            key: 0,
            value: 0,
        })?;
        Ok(Versions { bits, list, nodes })
    }

    /// What the key has in the version. The time is logarithmic in the size.
    pub fn get(&self, version: u32, key: u32) -> Option<u32>
        requires { version < length self.now }
        ensures { result ≡ at (get_or self.now version []) key }
    {
        let list = self.list.as_slice();
        find(
            self.nodes.as_slice(),
            self.bits,
            list[version as usize].root,
            key,
        )
    }

    /// How many versions there are.
    pub fn len(&self) -> usize
        ensures { result ≡ length self.now }
    {
        self.list.len()
    }

    /// How the version is made; the first one is made of none, and has no values.
    pub fn made(&self, version: usize) -> Version
        requires version { version < length self.now }
        ensures small { (v : ℕ) → v < length self.now → length (get_or self.now v []) ≤ 2 ^ 32 }
        ensures first { (key : ℕ) → at (get_or self.now 0 []) key ≡ None }
        ensures each { 0 < version → IsMade self.now version result }
    {
        let list = self.list.as_slice();
        list[version]
    }

    /// Makes the next version, which is the given one but for the value of the key, and answers its number.
    ///
    /// Answers `OutOfMemory`, and leaves the versions as they were, where there is no room, nor is there for the greatest
    /// value, `u32::MAX`. The time and the memory are
    /// logarithmic in the size.
    pub fn put(&mut self, version: u32, key: u32, value: u32) -> Result<u32, OutOfMemory>
        requires version { version < length self.old }
        requires key { key < length (get_or self.old version []) }
        ensures ok { OnOk result (self.new ≡ self.old ++ with_at (get_or self.old version []) key value ∷ []) }
        ensures number { IfOk result (λ n. n ≡ length self.old) }
        ensures err { OnErr result (self.new ≡ self.old) }
    {
        let number = self.list.len();
        if number >= u32::MAX as usize || value == u32::MAX {
            return Err(OutOfMemory);
        }
        let list = self.list.as_slice();
        let root = list[version as usize].root;
        let next = put_in(&mut self.nodes, self.bits, root, key, value)?;
        self.list.push(Version {
            root: next,
            from: version,
            key,
            value,
        })?;
        Ok(number as u32)
    }
}
