//! What names of methods mean in each class.

ghost use Rattle.std.specs.Prelude.{◌≡◌, ◌↔◌, ◌<◌, ◌^◌, ℕ, [], Some, None, true, not, length, get_or, map, IfOk};
ghost use Rattle.std.specs.List.{All};
ghost use Rattle.jesc_classes.specs.Named.{find as find_name};
ghost use Rattle.jesc_members.specs.Counts.{KnowsMethods, found_in};
ghost use Rattle.jesc_members.specs.Keys.{found_at};
ghost use Rattle.jesc_members.specs.KeyedMethods.{AreKeyed};
ghost use Rattle.jesc_lookup.specs.Lines.{AreExtras};
ghost use Rattle.jesc_members.specs.Methods.{has_body};
ghost use Rattle.jesc_lookup.specs.Numbering.{IsArranged};
ghost use Rattle.jesc_members.specs.Seen.{seen_method};
ghost use Rattle.jesc_members.specs.BareMethods.{TellsBare};

use crate::keys::rows_of;
use crate::method_keys::{MethodKeys, method_keys};
use crate::methods::GivenMethod;
use jesc_ast::MethodTree;
use jesc_lookup::Layers;
use jesc_text::{List, OutOfMemory};
use std::alloc::Global;

/// The keys of methods, and of each class the first method of each key in its line.
#[derive(Drop)]
pub struct MethodLayers<'a> {
    keys: MethodKeys<'a>,
    layers: Layers,
    /// The key of each method.
    pub key_of: List<u32>,
    /// The methods of each class.
    pub rows: Vec<List<u32>>,
    /// Of each version how many of its methods have no body.
    bare: List<u64>,
}

impl<'a> MethodLayers<'a> {
    /// The layers of these methods. Answers `OutOfMemory` where there is no room for the tables.
    pub fn new(
        alloc: Global,
        graph: &[List<u32>],
        order: &[u32],
        extras: &[List<u32>],
        methods: &[GivenMethod<'a>],
    ) -> Result<MethodLayers<'a>, OutOfMemory>
        requires few { length methods.now < 2 ^ 32 }
        requires order { IsArranged graph.now order.now }
        requires extras { AreExtras graph.now extras.now }
        requires owners { All (λ m. m.class < length graph.now) (map seen_method methods.now) }
        ensures known { IfOk result (λ l. KnowsMethods graph.now (map seen_method methods.now) l.keys.names l.keys.rows.items l.keys.counts l.layers.versions l.layers.of.items) }
        ensures keyed { IfOk result (λ l. AreKeyed (length graph.now) (map seen_method methods.now) l.keys.names l.keys.rows.items l.keys.counts l.key_of l.rows.items) }
        ensures bare { IfOk result (λ l. TellsBare graph.now (map seen_method methods.now) l.bare l.layers.of.items) }
    {
        let found = method_keys(alloc, methods)?;
        let owners = method_owners(alloc, methods)?;
        let rows = rows_of(alloc, graph.len(), owners.as_slice())?;
        let keys = found.keys.as_slice();
        let layers = Layers::new(alloc, graph, order, extras, keys, rows.as_slice())?;
        let marks = marks_of(alloc, methods)?;
        let bare = layers.tallies(alloc, marks.as_slice())?;
        Ok(MethodLayers {
            keys: found.by_name,
            layers,
            key_of: found.keys,
            rows,
            bare,
        })
    }

    /// The key of a name and a number of parameters that a method has. Takes no memory.
    pub fn key(&self, name: &[u8], count: usize) -> u32
        requires names { (row : ℕ) → find_name name.now self.now.keys.names ≡ Some row → row < length self.now.keys.rows.items }
        requires rows { All (All (λ i. i < length self.now.keys.counts)) self.now.keys.rows.items }
        requires there { found_in self.now.keys.counts self.now.keys.rows.items (find_name name.now self.now.keys.names) count ≡ None → ⊥ }
        ensures { found_in self.now.keys.counts self.now.keys.rows.items (find_name name.now self.now.keys.names) count ≡ Some result }
    {
        match self.keys.find(name, count) {
            Some(key) => key,
            None => 0,
        }
    }

    /// Whether some method that a name and a number of parameters mean in the class has no body. Takes no memory.
    pub fn is_open(&self, class: u32) -> bool
        requires class { class < length self.now.layers.of.items }
        requires there { get_or self.now.layers.of.items class 0 < length self.now.bare }
        ensures { (result ≡ true) ↔ (0 < get_or self.now.bare (get_or self.now.layers.of.items class 0) 0) }
    {
        let bare = self.bare.as_slice();
        bare[self.layers.version(class) as usize] > 0
    }

    /// The number of the method that a name and a number of parameters mean in the class. Takes no memory.
    pub fn find(&self, class: u32, name: &[u8], count: usize) -> Option<u32>
        requires names { (row : ℕ) → find_name name.now self.now.keys.names ≡ Some row → row < length self.now.keys.rows.items }
        requires rows { All (All (λ i. i < length self.now.keys.counts)) self.now.keys.rows.items }
        requires class { class < length self.now.layers.of.items }
        requires version { get_or self.now.layers.of.items class 0 < length self.now.layers.versions }
        ensures { result ≡ found_at (found_in self.now.keys.counts self.now.keys.rows.items (find_name name.now self.now.keys.names) count) (get_or self.now.layers.versions (get_or self.now.layers.of.items class 0) []) }
    {
        match self.keys.find(name, count) {
            Some(key) => self.layers.first(class, key),
            None => None,
        }
    }
}

/// Of each method the number of its class.
fn method_owners(alloc: Global, methods: &[GivenMethod<'_>]) -> Result<List<u32>, OutOfMemory>
    ensures { IfOk result (λ owners. owners ≡ map (λ m. m.number) methods.now) }
{
    let mut owners = List::new(alloc);
    for method in methods {
        owners.push(method.number)?;
    }
    Ok(owners)
}

/// Of each method whether it has no body.
fn marks_of(alloc: Global, methods: &[GivenMethod<'_>]) -> Result<List<bool>, OutOfMemory>
    ensures { IfOk result (λ marks. marks ≡ map (λ m. not (has_body m.tree.now)) methods.now) }
{
    let mut marks = List::new(alloc);
    for method in methods {
        marks.push(is_bare(method.tree))?;
    }
    Ok(marks)
}

/// Whether the method has no body.
fn is_bare(method: &MethodTree) -> bool
    ensures { result ≡ not (has_body method.now) }
{
    method.body.is_none()
}
