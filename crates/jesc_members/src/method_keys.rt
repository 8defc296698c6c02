//! Keys of methods: a method is known by the number of the first one of its name and number of parameters.

ghost use Rattle.std.specs.Prelude.{◌≡◌, ◌<◌, ◌^◌, [], List as Items, ℕ, bytes_eq, length, get_or, map, Some, IfOk};
ghost use Rattle.std.specs.List.{All};
ghost use Rattle.jesc_classes.specs.Named.{find as find_name};
ghost use Rattle.jesc_members.specs.Counts.{AreCounted, Label, TakesCount, alike, found_in};
ghost use Rattle.jesc_members.specs.Keys.{HasKeys, HasNames};
ghost use Rattle.jesc_lookup.specs.Layers.{first_keyed};

use crate::keys::{empty_rows, take_up};
use crate::methods::GivenMethod;
use jesc_classes::Table;
use jesc_text::{List, OutOfMemory};
use std::alloc::Global;

/// The keys of methods by name and number of parameters.
#[derive(Drop)]
pub struct MethodKeys<'a> {
    /// The first method of each name.
    names: Table<'a, u32>,
    /// Of the first method of each name, the first ones of that name with each number of parameters.
    rows: Vec<List<u32>>,
    /// The number of parameters of each method.
    counts: List<usize>,
}

/// The key of each method, and the keys by name.
#[derive(Drop)]
pub struct KeyedMethods<'a> {
    pub by_name: MethodKeys<'a>,
    pub keys: List<u32>,
}

impl<'a> MethodKeys<'a> {
    /// The key of a name and a number of parameters. Takes no memory.
    pub fn find(&self, name: &[u8], count: usize) -> Option<u32>
        requires names { (row : ℕ) → find_name name.now self.now.names ≡ Some row → row < length self.now.rows.items }
        requires rows { All (All (λ i. i < length self.now.counts)) self.now.rows.items }
        ensures { result ≡ found_in self.now.counts self.now.rows.items (find_name name.now self.now.names) count }
    {
        match self.names.get(name) {
            Some(row) => first_counted(
                self.counts.as_slice(),
                self.rows[row as usize].as_slice(),
                count,
            ),
            None => None,
        }
    }
}

/// The keys of these methods. Answers `OutOfMemory` where there is no room for the tables.
pub fn method_keys<'a>(
    alloc: Global,
    methods: &[GivenMethod<'a>],
) -> Result<KeyedMethods<'a>, OutOfMemory>
    requires { length methods.now < 2 ^ 32 }
    ensures names { IfOk result (λ k. HasNames k.by_name.names (map (λ m. m.tree.now.name.text) methods.now)) }
    ensures counts { IfOk result (λ k. k.by_name.counts ≡ map (λ m. length m.tree.now.params) methods.now) }
    ensures rows { IfOk result (λ k. AreCounted k.by_name.counts (length methods.now) (map (λ m. (m.tree.now.name.text, length m.tree.now.params)) methods.now) k.by_name.rows.items) }
    ensures keys { IfOk result (λ k. HasKeys Label alike (map (λ m. (m.tree.now.name.text, length m.tree.now.params)) methods.now) k.keys) }
{
    let counts = method_counts(alloc, methods)?;
    let each_count = counts.as_slice();
    let mut names = Table::new(alloc);
    let mut rows = empty_rows(alloc, methods.len())?;
    let mut keys = List::new(alloc);
    for (i, method) in methods.iter().enumerate() {
        let name = take_up(&mut names, method.tree.name.text.as_slice(), i as u32)?;
        let key = take_count(each_count, &mut rows, name, i as u32)?;
        keys.push(key)?;
    }
    Ok(KeyedMethods {
        by_name: MethodKeys {
            names,
            rows,
            counts,
        },
        keys,
    })
}

/// The number of parameters of each method.
fn method_counts(alloc: Global, methods: &[GivenMethod<'_>]) -> Result<List<usize>, OutOfMemory>
    ensures { IfOk result (λ counts. counts ≡ map (λ m. length m.tree.now.params) methods.now) }
{
    let mut counts = List::new(alloc);
    for method in methods {
        counts.push(method.tree.params.len())?;
    }
    Ok(counts)
}

/// Takes up the next method among those of its name, where none before has its number of parameters, and answers the key.
fn take_count(
    counts: &[usize],
    rows: &mut Vec<List<u32>>,
    name: u32,
    item: u32,
) -> Result<u32, OutOfMemory>
    requires name { name < length rows.old.items }
    requires item { item < length counts.now }
    requires small { All (All (λ i. i < length counts.now)) rows.old.items }
    ensures { IfOk result (λ key. TakesCount counts.now rows.old.items name item rows.new.items key) }
{
    let row = rows[name as usize].as_slice();
    match first_counted(counts, row, counts[item as usize]) {
        Some(key) => Ok(key),
        None => {
            rows[name as usize].push(item)?;
            Ok(item)
        }
    }
}

/// The first of these methods that has so many parameters.
fn first_counted(counts: &[usize], row: &[u32], count: usize) -> Option<u32>
    requires { All (λ i. i < length counts.now) row.now }
    ensures { result ≡ first_keyed counts.now count row.now }
{
    for item in row {
        if counts[*item as usize] == count {
            return Some(*item);
        }
    }
    None
}
