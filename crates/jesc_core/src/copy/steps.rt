ghost use Rattle.std.specs.Prelude.{◌≡◌, IfOk};

use super::term::copy_formulas;
use crate::steps::{Core, CoreCheck, CoreStep, CoreStepNode, Frame};
use jesc_text::{Boxed, List, OutOfMemory};
use std::alloc::Global;

impl Frame {
    /// An equal frame.
    pub fn copy(&self, alloc: Global) -> Result<Frame, OutOfMemory>
        ensures { IfOk result (λ copy. copy ≡ self.now) }
    {
        let fields = copy_formulas(alloc, &self.fields)?;
        let elements = self.elements.copy(alloc)?;
        Ok(Frame {
            object: self.object,
            index: self.index,
            fields,
            elements,
        })
    }
}

impl CoreCheck {
    /// An equal check.
    pub fn copy(&self, alloc: Global) -> Result<CoreCheck, OutOfMemory>
        ensures { IfOk result (λ copy. copy ≡ self.now) }
    {
        let formula = self.formula.copy(alloc)?;
        Ok(CoreCheck {
            kind: self.kind,
            place: self.place,
            by: self.by,
            formula,
        })
    }
}

impl Core {
    /// An equal core.
    #[cycle(copy_core)]
    pub fn copy(&self, alloc: Global) -> Result<Core, OutOfMemory>
        ensures { IfOk result (λ copy. copy ≡ self.now) }
    {
        let mut steps = List::new(alloc);
        for step in self.steps.as_slice() {
            steps.push(step.copy(alloc)?)?;
        }
        Ok(Core { steps })
    }
}

impl CoreStep {
    /// An equal step.
    #[cycle(copy_core)]
    pub fn copy(&self, alloc: Global) -> Result<CoreStep, OutOfMemory>
        ensures { IfOk result (λ copy. copy ≡ self.now) }
    {
        let node = Boxed::new(alloc, copy_step_node(alloc, self.node.get())?)?;
        Ok(CoreStep { node })
    }
}

#[cycle(copy_core)]
fn copy_step_node(alloc: Global, node: &CoreStepNode) -> Result<CoreStepNode, OutOfMemory>
    ensures { IfOk result (λ copy. copy ≡ node.now) }
{
    match node {
        CoreStepNode::Assume(f) => Ok(CoreStepNode::Assume(f.copy(alloc)?)),
        CoreStepNode::Check(check) => Ok(CoreStepNode::Check(check.copy(alloc)?)),
        CoreStepNode::Let(x, term) => Ok(CoreStepNode::Let(*x, term.copy(alloc)?)),
        CoreStepNode::Keep(k) => Ok(CoreStepNode::Keep(*k)),
        CoreStepNode::Write {
            field,
            object,
            value,
        } => {
            let object = object.copy(alloc)?;
            let value = value.copy(alloc)?;
            Ok(CoreStepNode::Write {
                field: *field,
                object,
                value,
            })
        }
        CoreStepNode::WriteElem {
            array,
            index,
            value,
        } => {
            let array = array.copy(alloc)?;
            let index = index.copy(alloc)?;
            let value = value.copy(alloc)?;
            Ok(CoreStepNode::WriteElem {
                array,
                index,
                value,
            })
        }
        CoreStepNode::New {
            variable,
            ty,
            length,
        } => {
            let length = length.copy(alloc)?;
            Ok(CoreStepNode::New {
                variable: *variable,
                ty: *ty,
                length,
            })
        }
        CoreStepNode::Build(object) => Ok(CoreStepNode::Build(object.copy(alloc)?)),
        CoreStepNode::Havoc(x, frame) => Ok(CoreStepNode::Havoc(*x, frame.copy(alloc)?)),
        CoreStepNode::Branch(place, cores) => {
            let cores = copy_cores(alloc, cores)?;
            Ok(CoreStepNode::Branch(*place, cores))
        }
        CoreStepNode::Block(core) => Ok(CoreStepNode::Block(core.copy(alloc)?)),
        CoreStepNode::Leave(depth) => Ok(CoreStepNode::Leave(*depth)),
        CoreStepNode::Stop => Ok(CoreStepNode::Stop),
    }
}

/// Equal cores, in order.
#[cycle(copy_core)]
fn copy_cores(alloc: Global, list: &List<Core>) -> Result<List<Core>, OutOfMemory>
    ensures { IfOk result (λ copy. copy ≡ list.now) }
{
    let mut copies = List::new(alloc);
    for core in list.as_slice() {
        copies.push(core.copy(alloc)?)?;
    }
    Ok(copies)
}
