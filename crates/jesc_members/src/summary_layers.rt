//! Of each class the summaries of the methods that the classes above it declare, key by key.

ghost use Rattle.std.specs.Prelude.{◌≡◌, ◌<◌, ◌^◌, ◌||◌, ◌&&◌, ℕ, [], ◌∷◌, ◌++◌, length, map, get_or, replicate, IfOk, OnOk};
ghost use Rattle.std.specs.List.{All};
ghost use Rattle.jesc_classes.specs.Order.{supers};
ghost use Rattle.jesc_lookup.specs.Layers.{AreItems};
ghost use Rattle.jesc_lookup.specs.Lines.{AreExtras};
ghost use Rattle.jesc_lookup.specs.Maps.{at};
ghost use Rattle.jesc_lookup.specs.Numbering.{IsArranged};
ghost use Rattle.jesc_members.specs.Seen.{seen_method};
ghost use Rattle.jesc_members.specs.SummaryKnown.{Adds, AddsClass, IsHeld, IsStore, first_above, items_of};
ghost use Rattle.jesc_members.specs.SummaryLayers.{AreSummaries, above_at, nothing_above, summary_at, summary_of};

use crate::methods::GivenMethod;
use crate::summary::{Summary, summed};
use jesc_lookup::Versions;
use jesc_text::{List, OutOfMemory};
use std::alloc::Global;

/// What is known of a class's line without the class itself.
#[derive(Drop, Clone, Copy)]
pub struct Above {
    /// The version of the map from keys to places of summaries.
    pub version: u32,
    /// Whether of some key two different types declare methods of different signatures.
    pub differs: bool,
    /// Whether of some key two different types declare methods, one of them private or static.
    pub hides: bool,
}

/// The summaries of each class by number.
#[derive(Drop)]
pub struct SummaryLayers {
    pub versions: Versions,
    pub summaries: List<Summary>,
    pub above: Vec<Above>,
}

impl SummaryLayers {
    /// The summaries of these classes. `order` has the classes, each behind its supertypes, and `extras` what each one's
    /// line has behind that of its first supertype; `keys` has the key of each method, and `rows` the methods of each class.
    ///
    /// Answers `OutOfMemory` where there is no room for the versions.
    pub fn new(
        alloc: Global,
        graph: &[List<u32>],
        order: &[u32],
        extras: &[List<u32>],
        methods: &[GivenMethod<'_>],
        keys: &[u32],
        rows: &[List<u32>],
    ) -> Result<SummaryLayers, OutOfMemory>
        requires few { length keys.now < 2 ^ 32 }
        requires count { length keys.now ≡ length methods.now }
        requires order { IsArranged graph.now order.now }
        requires extras { AreExtras graph.now extras.now }
        requires items { AreItems (length graph.now) keys.now rows.now }
        ensures { IfOk result (λ l. AreSummaries graph.now (map seen_method methods.now) keys.now rows.now l.versions l.summaries l.above.items) }
    {
        let versions = Versions::new(alloc, keys.len() as u32)?;
        let above = nothings(alloc, graph.len())?;
        let mut whole = nothings(alloc, graph.len())?;
        let mut layers = SummaryLayers {
            versions,
            summaries: List::new(alloc),
            above,
        };
        for class in order {
            layers.add(&mut whole, graph, extras, methods, keys, rows, *class)?;
        }
        Ok(layers)
    }

    /// The summary of the key above the class. Takes no memory.
    pub fn above(&self, class: u32, key: u32) -> Option<Summary>
        requires class { class < length self.now.above.items }
        requires version { (c : ℕ) → c < length self.now.above.items → (above_at self.now.above.items c).version < length self.now.versions }
        ensures { result ≡ summary_at self.now.versions self.now.summaries (above_at self.now.above.items class) key }
    {
        let version = self.above[class as usize].version;
        find(&self.versions, self.summaries.as_slice(), version, key)
    }

    /// Notes what is known above a class and, in `whole`, what is known with the class, by what `whole` has of its
    /// supertypes.
    fn add(
        &mut self,
        whole: &mut Vec<Above>,
        graph: &[List<u32>],
        extras: &[List<u32>],
        methods: &[GivenMethod<'_>],
        keys: &[u32],
        rows: &[List<u32>],
        class: u32,
    ) -> Result<(), OutOfMemory>
        requires count { length keys.now ≡ length methods.now }
        requires class { class < length graph.now }
        requires above { All (λ above. above < length graph.now) (supers graph.now class) }
        requires extras { length extras.now ≡ length graph.now }
        requires within { All (λ above. above < length graph.now) (get_or extras.now class []) }
        requires items { AreItems (length graph.now) keys.now rows.now }
        requires whole { length whole.old.items ≡ length graph.now }
        requires layers { length self.old.above.items ≡ length graph.now }
        requires store { IsStore (length keys.now) self.old.versions self.old.summaries }
        requires held { (c : ℕ) → IsHeld (map seen_method methods.now) keys.now self.old.versions self.old.summaries (above_at whole.old.items c) }
        ensures { OnOk result (AddsClass (map seen_method methods.now) keys.now rows.now (get_or extras.now class []) class (first_above (supers graph.now class) whole.old.items) self.old.versions self.old.summaries self.old.above.items whole.old.items self.new.versions self.new.summaries self.new.above.items whole.new.items) }
    {
        let first = first_of(graph, class, whole);
        let above = add_classes(
            &mut self.versions,
            &mut self.summaries,
            methods,
            keys,
            rows,
            extras[class as usize].as_slice(),
            first,
        )?;
        let own = add_row(
            &mut self.versions,
            &mut self.summaries,
            methods,
            keys,
            rows[class as usize].as_slice(),
            above,
        )?;
        self.above[class as usize] = above;
        whole[class as usize] = own;
        Ok(())
    }
}

/// What is known of the first supertype, or nothing.
fn first_of(graph: &[List<u32>], class: u32, whole: &Vec<Above>) -> Above
    requires class { class < length graph.now }
    requires above { All (λ above. above < length whole.now.items) (supers graph.now class) }
    ensures { result ≡ first_above (supers graph.now class) whole.now.items }
{
    match graph[class as usize].as_slice().first() {
        None => Above {
            version: 0,
            differs: false,
            hides: false,
        },
        Some(above) => whole[*above as usize],
    }
}

/// Adds the methods of these classes.
fn add_classes(
    versions: &mut Versions,
    summaries: &mut List<Summary>,
    methods: &[GivenMethod<'_>],
    keys: &[u32],
    rows: &[List<u32>],
    classes: &[u32],
    above: Above,
) -> Result<Above, OutOfMemory>
    requires count { length keys.now ≡ length methods.now }
    requires store { IsStore (length keys.now) versions.old summaries.old }
    requires held { IsHeld (map seen_method methods.now) keys.now versions.old summaries.old above }
    requires within { All (λ class. class < length rows.now) classes.now }
    requires items { AreItems (length rows.now) keys.now rows.now }
    ensures { IfOk result (λ a. Adds (map seen_method methods.now) keys.now versions.old summaries.old above versions.new summaries.new a (items_of rows.now classes.now)) }
{
    let mut above = above;
    for class in classes {
        let row = rows[*class as usize].as_slice();
        above = add_row(versions, summaries, methods, keys, row, above)?;
    }
    Ok(above)
}

/// Adds these methods.
fn add_row(
    versions: &mut Versions,
    summaries: &mut List<Summary>,
    methods: &[GivenMethod<'_>],
    keys: &[u32],
    row: &[u32],
    above: Above,
) -> Result<Above, OutOfMemory>
    requires count { length keys.now ≡ length methods.now }
    requires store { IsStore (length keys.now) versions.old summaries.old }
    requires held { IsHeld (map seen_method methods.now) keys.now versions.old summaries.old above }
    requires row { All (λ i. i < length keys.now) row.now }
    requires keys { All (λ key. key < length keys.now) keys.now }
    ensures { IfOk result (λ a. Adds (map seen_method methods.now) keys.now versions.old summaries.old above versions.new summaries.new a row.now) }
{
    let mut above = above;
    for method in row {
        above = add_one(versions, summaries, methods, keys, *method, above)?;
    }
    Ok(above)
}

/// Adds the method.
fn add_one(
    versions: &mut Versions,
    summaries: &mut List<Summary>,
    methods: &[GivenMethod<'_>],
    keys: &[u32],
    method: u32,
    above: Above,
) -> Result<Above, OutOfMemory>
    requires count { length keys.now ≡ length methods.now }
    requires store { IsStore (length keys.now) versions.old summaries.old }
    requires held { IsHeld (map seen_method methods.now) keys.now versions.old summaries.old above }
    requires method { method < length keys.now }
    requires key { get_or keys.now method 0 < length keys.now }
    ensures { IfOk result (λ a. Adds (map seen_method methods.now) keys.now versions.old summaries.old above versions.new summaries.new a (method ∷ [])) }
{
    let key = keys[method as usize];
    let old = find(versions, summaries.as_slice(), above.version, key);
    let new = summed(methods, old, method);
    let place = next_place(summaries)?;
    summaries.push(new)?;
    let version = versions.put(above.version, key, place)?;
    Ok(Above {
        version,
        differs: or_both(above.differs, new.many, new.mixed),
        hides: or_both(above.hides, new.many, new.hides),
    })
}

/// The summary of the key in the version.
fn find(versions: &Versions, summaries: &[Summary], version: u32, key: u32) -> Option<Summary>
    requires { version < length versions.now }
    ensures { result ≡ summary_of summaries.now (at (get_or versions.now version []) key) }
{
    match versions.get(version, key) {
        None => None,
        Some(place) => summaries.get(place as usize).copied(),
    }
}

/// The place behind the last summary, where there is a number for it.
fn next_place(summaries: &List<Summary>) -> Result<u32, OutOfMemory>
    ensures { IfOk result (λ place. place ≡ length summaries.now) }
{
    let place = summaries.len();
    if place >= u32::MAX as usize {
        return Err(OutOfMemory);
    }
    Ok(place as u32)
}

/// Whether the first holds, or both others do.
fn or_both(first: bool, second: bool, third: bool) -> bool
    ensures { result ≡ (first || (second && third)) }
{
    first || (second && third)
}

/// For so many classes, that nothing is known.
fn nothings(alloc: Global, count: usize) -> Result<Vec<Above>, OutOfMemory>
    ensures { IfOk result (λ all. all.items ≡ replicate count nothing_above) }
{
    let mut all = Vec::new(alloc);
    for _ in 0..count {
        push(
            &mut all,
            Above {
                version: 0,
                differs: false,
                hides: false,
            },
        )?;
    }
    Ok(all)
}

/// Appends an item.
fn push<T: Drop>(items: &mut Vec<T>, item: T) -> Result<(), OutOfMemory>
    ensures { OnOk result (items.new.items ≡ items.old.items ++ item ∷ []) }
{
    match items.push(item) {
        Ok(_) => Ok(()),
        Err(_) => Err(OutOfMemory),
    }
}
