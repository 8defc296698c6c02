//! The number of paths through a core.
//!
//! The steps are counted from the last to the first: what comes after a step has been counted when the step is met, so each
//! step is met once, however many paths lead through it.

ghost use Rattle.std.specs.Prelude.{◌≡◌, length, map};
ghost use Rattle.jesc_core.specs.Trees.{core_view, cores_of, step_view};
ghost use Rattle.jesc_core.specs.Walks.{paths_of};
ghost use Rattle.jesc_core.specs.Counts.{limited, count_step, count_core, count_ways, left_of};

use crate::steps::{Core, CoreStep, CoreStepNode};

/// The greatest number that `paths` tells.
const LIMIT: u32 = 1_000_000_000;

/// The number of paths of a core, or 1,000,000,000 where there are more. Takes no memory.
pub fn paths(core: &Core) -> u32
    ensures { result ≡ limited (length (paths_of (core_view core.now))) }
{
    paths_through(core, 1, &Blocks::Outside)
}

/// The blocks around a step, the innermost first, each with the number of paths of what comes after it.
#[derive(Drop)]
enum Blocks<'a> {
    Outside,
    Inside { after: u32, outer: &'a Blocks<'a> },
}

impl<'a> Blocks<'a> {
    /// The number of paths of what comes after the block of that depth, and 0 where there is none.
    fn left(&self, depth: u32) -> u32
        ensures { result ≡ left_of self.now depth }
    {
        match self {
            Blocks::Outside => 0,
            Blocks::Inside { after, outer } => {
                if depth == 0 {
                    *after
                } else {
                    outer.left(depth - 1)
                }
            }
        }
    }
}

/// The number of paths from the beginning of a core on, by that of what comes after it.
#[cycle(paths)]
fn paths_through(core: &Core, after: u32, blocks: &Blocks) -> u32
    ensures { result ≡ count_core (core_view core.now) after (left_of blocks.now) }
{
    let steps = core.steps.as_slice();
    let mut count = after;
    for k in (0..steps.len()).rev() {
        count = paths_from(&steps[k], count, blocks);
    }
    count
}

/// The number of paths from a step on, by that of what comes after it.
#[cycle(paths)]
fn paths_from(step: &CoreStep, after: u32, blocks: &Blocks) -> u32
    ensures { result ≡ count_step (step_view step.now) after (left_of blocks.now) }
{
    match step.node.get() {
        CoreStepNode::Branch(_, cores) => paths_of_ways(cores.as_slice(), after, blocks),
        CoreStepNode::Block(core) => {
            let inside = Blocks::Inside {
                after,
                outer: &*blocks,
            };
            paths_through(core, after, &inside)
        }
        CoreStepNode::Leave(depth) => blocks.left(*depth),
        CoreStepNode::Stop => 1,
        _ => after,
    }
}

/// The number of paths through one of these cores.
#[cycle(paths)]
fn paths_of_ways(cores: &[Core], after: u32, blocks: &Blocks) -> u32
    ensures { result ≡ count_ways (cores_of (map core_view cores.now)) after (left_of blocks.now) }
{
    let mut count = 0;
    for k in (0..cores.len()).rev() {
        let through = paths_through(&cores[k], after, blocks);
        count = through.saturating_add(count).min(LIMIT);
    }
    count
}
