//! The order in which classes get their ids.

ghost use Rattle.std.specs.Prelude.{◌≡◌, ◌<◌, ◌^◌, ◌↔◌, ◌⊎◌, ℕ, [], ◌∷◌, ◌++◌, length, IfOk, OnOk, MatchOption};
ghost use Rattle.std.specs.List.{All, Contains};
ghost use Rattle.jesc_classes.specs.Order.{IsOrder, IsReady, IsWithin};
ghost use Rattle.jesc_classes.specs.Progress.{AllMarked, IsEmpty, IsFirstUnmarked, IsOpen, IsSized, Keeps, Settles};

use jesc_text::{List, OutOfMemory};
use std::alloc::Global;
use std::collections::BTreeSet;
use std::mem;

/// The classes in the order of their ids: again and again, the next id goes to the first class in source order whose
/// supertypes all have ids. Of each class the numbers of its supertypes are given.
///
/// The ready classes are kept in order, and each other class waits for one supertype at a time, so that the time is near
/// linear in the number of supertypes. Answers `OutOfMemory` where there is no room for the tables.
pub fn order(alloc: Global, graph: &[List<u32>]) -> Result<List<u32>, OutOfMemory>
    requires few { length graph.now < 2 ^ 32 }
    requires within { IsWithin graph.now }
    ensures { IfOk result (λ order. ∥ IsOrder graph.now [] order ∥₁) }
{
    let mut progress = Progress::start(alloc, graph)?;
    while let Some(class) = progress.ready.pop_first() {
        progress.release(alloc, graph, class)?;
    }
    Ok(progress.order)
}

/// A class without an id. Those that its heading names before that place all have ids.
#[derive(Drop, Clone, Copy)]
struct Waiting {
    class: u32,
    place: usize,
}

/// How far the giving of ids has come.
///
/// A class without an id is among the ready ones, or it waits for one of its supertypes that has no id.
#[derive(Drop)]
struct Progress {
    order: List<u32>,
    has_id: Vec<bool>,
    ready: BTreeSet<u32>,
    waiting: Vec<List<Waiting>>,
}

impl Progress {
    /// No class has an id yet.
    fn start(alloc: Global, graph: &[List<u32>]) -> Result<Progress, OutOfMemory>
        requires few { length graph.now < 2 ^ 32 }
        requires within { IsWithin graph.now }
        ensures order { IfOk result (λ p. p.order ≡ []) }
        ensures sized { IfOk result (IsSized (length graph.now)) }
        ensures keeps { IfOk result (Keeps graph.now []) }
    {
        let mut progress = Progress::empty(alloc, graph.len())?;
        for class in 0..graph.len() {
            let class = class as u32;
            progress.settle(graph, Waiting { class, place: 0 })?;
        }
        Ok(progress)
    }

    /// So many classes, of which none has an id, is ready or waits.
    fn empty(alloc: Global, classes: usize) -> Result<Progress, OutOfMemory>
        ensures sized { IfOk result (IsSized classes) }
        ensures empty { IfOk result IsEmpty }
    {
        let mut has_id = Vec::new(alloc);
        let mut waiting = Vec::new(alloc);
        for _class in 0..classes {
            push(&mut has_id, false)?;
            push(&mut waiting, List::new(alloc))?;
        }
        Ok(Progress {
            order: List::new(alloc),
            has_id,
            ready: BTreeSet::new(alloc),
            waiting,
        })
    }

    /// Gives the class the next id. Those that waited for it become ready, or wait for another one.
    fn release(&mut self, alloc: Global, graph: &[List<u32>], class: u32) -> Result<(), OutOfMemory>
        requires within { IsWithin graph.now }
        requires sized { IsSized (length graph.now) self.old }
        requires class { IsReady graph.now self.old.order class }
        requires left { Contains self.old.ready.keys class → ⊥ }
        requires keeps { Keeps graph.now (class ∷ []) self.old }
        ensures order { OnOk result (self.new.order ≡ self.old.order ++ class ∷ []) }
        ensures sized { OnOk result (IsSized (length graph.now) self.new) }
        ensures keeps { OnOk result (Keeps graph.now [] self.new) }
    {
        self.order.push(class)?;
        self.has_id[class as usize] = true;
        let released = mem::replace(&mut self.waiting[class as usize], List::new(alloc));
        for waiting in released.as_slice() {
            self.settle(graph, *waiting)?;
        }
        Ok(())
    }

    /// Enters the class among the ready ones, or lets it wait for the first supertype that has no id.
    fn settle(&mut self, graph: &[List<u32>], waiting: Waiting) -> Result<(), OutOfMemory>
        requires within { IsWithin graph.now }
        requires sized { IsSized (length graph.now) self.old }
        requires open { IsOpen graph.now self.old.order waiting }
        ensures { OnOk result (Settles graph.now waiting.class self.old self.new) }
    {
        let supers = graph[waiting.class as usize].as_slice();
        match next_without_id(self.has_id.as_slice(), supers, waiting.place) {
            None => add(&mut self.ready, waiting.class),
            Some(place) => self.waiting[supers[place] as usize].push(Waiting {
                class: waiting.class,
                place,
            }),
        }
    }
}

/// The first place from that one on with a supertype that has no id.
fn next_without_id(has_id: &[bool], supers: &[u32], start: usize) -> Option<usize>
    requires { All (λ class. class < length has_id.now) supers.now }
    ensures { MatchOption result (AllMarked has_id.now supers.now start (length supers.now)) (IsFirstUnmarked has_id.now supers.now start) }
{
    for place in start..supers.len() {
        if !has_id[supers[place] as usize] {
            return Some(place);
        }
    }
    None
}

/// Adds a class.
fn add(ready: &mut BTreeSet<u32>, class: u32) -> Result<(), OutOfMemory>
    ensures { OnOk result ((q : ℕ) → Contains ready.new.keys q ↔ (Contains ready.old.keys q ⊎ (q ≡ class))) }
{
    match ready.insert(class) {
        Ok(_) => Ok(()),
        Err(_) => Err(OutOfMemory),
    }
}

/// Appends an item.
fn push<T: Drop>(items: &mut Vec<T>, item: T) -> Result<(), OutOfMemory>
    ensures { OnOk result (items.new.items ≡ items.old.items ++ item ∷ []) }
{
    match items.push(item) {
        Ok(_) => Ok(()),
        Err(_) => Err(OutOfMemory),
    }
}
