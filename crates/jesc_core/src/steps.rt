//! Cores: steps, and cores inside steps.

ghost use Rattle.std.specs.Prelude.{◌≡◌, IfOk};
ghost use Rattle.jesc_core.specs.Trees.{step_view, step_node_view};

use crate::term::{CoreFormula, CoreTerm};
use jesc_text::{Boxed, List, OutOfMemory, Place};
use jesc_tree::Kind;
use std::alloc::Global;

/// Steps, one after another.
#[cycle(core)]
#[derive(Drop)]
pub struct Core {
    pub steps: List<CoreStep>,
}

/// One step.
#[cycle(core)]
#[derive(Drop)]
pub struct CoreStep {
    pub node: Boxed<CoreStepNode>,
}

/// The forms of a step.
#[cycle(core)]
#[derive(Drop)]
pub enum CoreStepNode {
    /// The run goes on only where the formula is true.
    Assume(CoreFormula),
    Check(CoreCheck),
    /// Sets a variable to the value of a term.
    Let(u32, CoreTerm),
    /// Keeps the present heap under a number.
    Keep(u32),
    Write {
        field: u32,
        object: CoreTerm,
        value: CoreTerm,
    },
    WriteElem {
        array: CoreTerm,
        index: CoreTerm,
        value: CoreTerm,
    },
    /// Makes an object and sets the variable to it. `ty` is its dynamic type, as symbol 5 of a structure gives it: the id
    /// of a class, and a number below 0 for an array.
    New {
        variable: u32,
        ty: i128,
        length: CoreTerm,
    },
    /// Marks an object built.
    Build(CoreTerm),
    /// Takes the heap of the structure's next choice, which may differ from the present heap inside the frame alone, and
    /// sets the variable to the number of the choice.
    Havoc(u32, Frame),
    /// One of these cores, which the place's way tells.
    Branch(Place, List<Core>),
    /// A core that `Leave` can leave.
    Block(Core),
    /// Goes on after the block around it of this depth, 0 being the innermost.
    Leave(u32),
    /// Ends the run.
    Stop,
}

/// A check, which fails where the formula is false.
#[derive(Drop)]
pub struct CoreCheck {
    pub kind: Kind,
    pub place: Place,
    /// The clause or the field that the check tests, if it tests one.
    pub by: Option<Place>,
    pub formula: CoreFormula,
}

/// Which locations of a heap may change.
///
/// Formula k of `fields` is true where field k may change, with the variable `object` at the object; a field beyond the
/// list doesn't change. `elements` is true where an element may change, with `object` at the array and `index` at the
/// index. The formulas are read in the state before the change.
#[derive(Drop)]
pub struct Frame {
    pub object: u32,
    pub index: u32,
    pub fields: List<CoreFormula>,
    pub elements: CoreFormula,
}

impl CoreStep {
    /// The step of a node. Answers `OutOfMemory` where there is no room for it.
    pub fn new(alloc: Global, node: CoreStepNode) -> Result<CoreStep, OutOfMemory>
        ensures { IfOk result (λ step. step_view step ≡ step_node_view node) }
    {
        let node = Boxed::new(alloc, node)?;
        Ok(CoreStep { node })
    }
}
