ghost use Rattle.std.specs.Prelude.{◌≡◌, IfOk};

use super::copy_ids;
use crate::spec::{Case, TFrame, TOnly, TSignals, TSpec, TStore, TStoreNode};
use jesc_text::{Boxed, List, OutOfMemory};
use std::alloc::Global;

impl TSpec {
    /// An equal clause.
    pub fn copy(&self, alloc: Global) -> Result<TSpec, OutOfMemory>
        ensures { IfOk result (λ copy. copy ≡ self.now) }
    {
        let e = self.e.copy(alloc)?;
        Ok(TSpec { by: self.by, e })
    }
}

/// Equal clauses, in order.
pub(super) fn copy_specs(alloc: Global, list: &List<TSpec>) -> Result<List<TSpec>, OutOfMemory>
    ensures { IfOk result (λ copy. copy ≡ list.now) }
{
    let mut copies = List::new(alloc);
    for spec in list.as_slice() {
        copies.push(spec.copy(alloc)?)?;
    }
    Ok(copies)
}

impl TSignals {
    /// An equal clause.
    pub fn copy(&self, alloc: Global) -> Result<TSignals, OutOfMemory>
        ensures { IfOk result (λ copy. copy ≡ self.now) }
    {
        let e = self.e.copy(alloc)?;
        Ok(TSignals {
            by: self.by,
            class: self.class,
            local: self.local,
            e,
        })
    }
}

fn copy_signals(alloc: Global, list: &List<TSignals>) -> Result<List<TSignals>, OutOfMemory>
    ensures { IfOk result (λ copy. copy ≡ list.now) }
{
    let mut copies = List::new(alloc);
    for signals in list.as_slice() {
        copies.push(signals.copy(alloc)?)?;
    }
    Ok(copies)
}

impl TOnly {
    /// An equal clause.
    pub fn copy(&self, alloc: Global) -> Result<TOnly, OutOfMemory>
        ensures { IfOk result (λ copy. copy ≡ self.now) }
    {
        let classes = copy_ids(alloc, &self.classes)?;
        Ok(TOnly {
            by: self.by,
            classes,
        })
    }
}

fn copy_onlys(alloc: Global, list: &List<TOnly>) -> Result<List<TOnly>, OutOfMemory>
    ensures { IfOk result (λ copy. copy ≡ list.now) }
{
    let mut copies = List::new(alloc);
    for only in list.as_slice() {
        copies.push(only.copy(alloc)?)?;
    }
    Ok(copies)
}

impl TStore {
    /// An equal store reference.
    pub fn copy(&self, alloc: Global) -> Result<TStore, OutOfMemory>
        ensures { IfOk result (λ copy. copy ≡ self.now) }
    {
        let node = Boxed::new(alloc, copy_store(alloc, self.node.get())?)?;
        Ok(TStore { node })
    }
}

fn copy_store(alloc: Global, node: &TStoreNode) -> Result<TStoreNode, OutOfMemory>
    ensures { IfOk result (λ copy. copy ≡ node.now) }
{
    match node {
        TStoreNode::Path(e, field) => Ok(TStoreNode::Path(e.copy(alloc)?, *field)),
        TStoreNode::Star(e) => Ok(TStoreNode::Star(e.copy(alloc)?)),
        TStoreNode::Elem(array, index) => {
            let array = array.copy(alloc)?;
            Ok(TStoreNode::Elem(array, index.copy(alloc)?))
        }
        TStoreNode::Range(array, first, last) => {
            let array = array.copy(alloc)?;
            let first = first.copy(alloc)?;
            Ok(TStoreNode::Range(array, first, last.copy(alloc)?))
        }
        TStoreNode::AllElems(e) => Ok(TStoreNode::AllElems(e.copy(alloc)?)),
    }
}

impl TFrame {
    /// An equal frame.
    pub fn copy(&self, alloc: Global) -> Result<TFrame, OutOfMemory>
        ensures { IfOk result (λ copy. copy ≡ self.now) }
    {
        let mut stores = List::new(alloc);
        for store in self.stores.as_slice() {
            stores.push(store.copy(alloc)?)?;
        }
        Ok(TFrame {
            by: self.by,
            all: self.all,
            stores,
        })
    }
}

impl Case {
    /// An equal case.
    pub fn copy(&self, alloc: Global) -> Result<Case, OutOfMemory>
        ensures { IfOk result (λ copy. copy ≡ self.now) }
    {
        let demands = self.demands.copy(alloc)?;
        let promises = copy_specs(alloc, &self.promises)?;
        let signals = copy_signals(alloc, &self.signals)?;
        let signals_only = copy_onlys(alloc, &self.signals_only)?;
        let frame = self.frame.copy(alloc)?;
        Ok(Case {
            place: self.place,
            demands,
            promises,
            signals,
            signals_only,
            frame,
        })
    }
}

/// Equal cases, in order.
pub(super) fn copy_cases(alloc: Global, list: &List<Case>) -> Result<List<Case>, OutOfMemory>
    ensures { IfOk result (λ copy. copy ≡ list.now) }
{
    let mut copies = List::new(alloc);
    for case in list.as_slice() {
        copies.push(case.copy(alloc)?)?;
    }
    Ok(copies)
}
