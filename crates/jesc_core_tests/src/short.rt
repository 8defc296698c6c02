//! Cores in short: one character a step.

use jesc_core::{
    Core, CoreCheck, CoreFormula, CoreFormulaNode, CoreRange, CoreStep, CoreStepNode, CoreTerm,
    CoreTermNode, Frame, HeapName,
};
use jesc_logic::Sort;
use jesc_text::{List, OutOfMemory, Place};
use jesc_tree::Kind;
use std::alloc::Global;
use std::test::Fail;

/// What stands before a block or a branch that is still open, and the ways of the branch so far.
#[derive(Drop)]
struct Open {
    before: List<CoreStep>,
    ways: List<Core>,
}

const PLACE: Place = Place {
    file: 0,
    line: 1,
    col: 1,
};

/// The core of a text: `(` and `)` around a block, `[`, `|` and `]` around the ways of a branch, a digit for a `Leave`, `!`
/// for a `Stop`, and a letter for each of the other steps.
pub fn core(alloc: Global, text: &str) -> Result<Core, Fail> {
    let mut opened = Vec::new(alloc);
    let mut steps = List::new(alloc);
    for byte in text.as_bytes() {
        match *byte {
            b'(' | b'[' => {
                let ways = List::new(alloc);
                opened.push(Open {
                    before: steps,
                    ways,
                })?;
                steps = List::new(alloc);
            }
            b'|' => steps = next_way(alloc, steps, &mut opened)?,
            b')' | b']' => steps = closed(alloc, *byte == b']', steps, &mut opened)?,
            letter => steps.push(CoreStep::new(alloc, step(alloc, letter)?)?)?,
        }
    }
    Ok(Core { steps })
}

/// Ends a way of the branch that was opened last.
fn next_way(
    alloc: Global,
    steps: List<CoreStep>,
    opened: &mut Vec<Open>,
) -> Result<List<CoreStep>, Fail> {
    match opened.pop() {
        Some(mut open) => {
            open.ways.push(Core { steps })?;
            opened.push(open)?;
            Ok(List::new(alloc))
        }
        None => Ok(steps),
    }
}

/// Ends what was opened last.
fn closed(
    alloc: Global,
    branch: bool,
    steps: List<CoreStep>,
    opened: &mut Vec<Open>,
) -> Result<List<CoreStep>, Fail> {
    match opened.pop() {
        Some(Open { before, ways }) => {
            let mut all = before;
            let mut ways = ways;
            let node = if branch {
                ways.push(Core { steps })?;
                CoreStepNode::Branch(PLACE, ways)
            } else {
                CoreStepNode::Block(Core { steps })
            };
            all.push(CoreStep::new(alloc, node)?)?;
            Ok(all)
        }
        None => Ok(steps),
    }
}

fn number(alloc: Global, n: i128) -> Result<CoreTerm, OutOfMemory> {
    CoreTerm::new(alloc, CoreTermNode::Num(n))
}

/// The term of a field of object 1.
fn field(alloc: Global, field: u32) -> Result<CoreTerm, OutOfMemory> {
    let object = number(alloc, 1)?;
    CoreTerm::new(alloc, CoreTermNode::Field(HeapName::Present, field, object))
}

/// A formula that is true nowhere.
fn falsity(alloc: Global) -> Result<CoreFormula, OutOfMemory> {
    CoreFormula::new(alloc, CoreFormulaNode::False)
}

/// Field 20 of object 1 is 0 or more.
fn formula(alloc: Global) -> Result<CoreFormula, OutOfMemory> {
    let zero = number(alloc, 0)?;
    let value = field(alloc, 20)?;
    CoreFormula::new(alloc, CoreFormulaNode::Le(zero, value))
}

/// Such a formula of each number from 0 to 9.
fn range(alloc: Global) -> Result<CoreFormula, OutOfMemory> {
    let low = number(alloc, 0)?;
    let high = number(alloc, 9)?;
    let body = formula(alloc)?;
    CoreFormula::new(
        alloc,
        CoreFormulaNode::All(CoreRange {
            variable: 1,
            sort: Sort::Number,
            low,
            high,
            body,
        }),
    )
}

/// A frame in which the fields 0 to 6 don't change.
fn frame(alloc: Global) -> Result<Frame, OutOfMemory> {
    let mut fields = List::new(alloc);
    for _ in 0..7 {
        fields.push(falsity(alloc)?)?;
    }
    let elements = falsity(alloc)?;
    Ok(Frame {
        object: 1,
        index: 2,
        fields,
        elements,
    })
}

fn step(alloc: Global, letter: u8) -> Result<CoreStepNode, OutOfMemory> {
    match letter {
        b'a' => Ok(CoreStepNode::Assume(range(alloc)?)),
        b'c' => check(alloc),
        b'l' => Ok(CoreStepNode::Let(3, field(alloc, 8)?)),
        b'k' => Ok(CoreStepNode::Keep(1)),
        b'w' | b'e' => write(alloc, letter == b'w'),
        b'n' => Ok(CoreStepNode::New {
            variable: 4,
            ty: -1,
            length: number(alloc, 2)?,
        }),
        b'b' => Ok(CoreStepNode::Build(number(alloc, 1)?)),
        b'h' => Ok(CoreStepNode::Havoc(5, frame(alloc)?)),
        b'0'..=b'9' => Ok(CoreStepNode::Leave((letter - b'0') as u32)),
        _ => Ok(CoreStepNode::Stop),
    }
}

fn check(alloc: Global) -> Result<CoreStepNode, OutOfMemory> {
    Ok(CoreStepNode::Check(CoreCheck {
        kind: Kind::Assert,
        place: PLACE,
        by: None,
        formula: formula(alloc)?,
    }))
}

/// A write of field 3, or of an element.
fn write(alloc: Global, field: bool) -> Result<CoreStepNode, OutOfMemory> {
    let object = number(alloc, 1)?;
    let value = number(alloc, 7)?;
    if field {
        return Ok(CoreStepNode::Write {
            field: 3,
            object,
            value,
        });
    }
    Ok(CoreStepNode::WriteElem {
        array: object,
        index: number(alloc, 0)?,
        value,
    })
}
