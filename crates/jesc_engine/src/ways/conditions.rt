ghost use Rattle.std.specs.Prelude.{◌≡◌, ◌∷◌, [], ◌≤◌, IfOk, OnOk};
ghost use Rattle.jesc_engine.specs.Ways.{atom_in, no_outcome, with_rows, each_way, holding, breaking, trouble_ways, break_ways, condition_facts, condition_obligations, demand_facts};
ghost use Rattle.jesc_engine.specs.Outcomes.{Answers};
ghost use Rattle.jesc_engine.specs.Walk.{IsBelow, IsScope, IsGrown, Extends};

use crate::answer::{Answer, Finding};
use crate::ways::atom::Atom;
use crate::ways::facts::Facts;
use crate::ways::rows::{less, no_more};
use crate::ways::sums::{NO_OUTCOME, assume_sum, judge_sum};
use jesc_first::{Check, Comparison, Condition, Kind};
use jesc_text::{List, OutOfMemory};
use std::alloc::Global;

/// Adds the rows of a comparison that is true.
fn hold(
    alloc: Global,
    facts: &mut Facts,
    comparison: Comparison,
    x: Atom,
    y: Atom,
) -> Result<(), OutOfMemory>
    ensures { OnOk result (facts.new ≡ with_rows facts.old (holding comparison x y)) }
{
    match comparison {
        Comparison::Less => facts.add(less(alloc, x, y)?),
        Comparison::AtMost => facts.add(no_more(alloc, x, y)?),
        Comparison::Greater => facts.add(less(alloc, y, x)?),
        Comparison::AtLeast => facts.add(no_more(alloc, y, x)?),
        Comparison::Equal => {
            facts.add(no_more(alloc, x, y)?)?;
            facts.add(no_more(alloc, y, x)?)
        }
    }
}

/// The answer to the ways in which a comparison is false. Leaves the facts as they are.
fn answer_break(
    alloc: Global,
    facts: &mut Facts,
    comparison: Comparison,
    x: Atom,
    y: Atom,
) -> Result<Answer, OutOfMemory>
    ensures { IfOk result (λ answer. (facts.new ≡ facts.old) × Answers (each_way facts.old.rows (breaking comparison x y)) answer) }
{
    match comparison {
        Comparison::Less => facts.way(alloc, no_more(alloc, y, x)?),
        Comparison::AtMost => facts.way(alloc, less(alloc, y, x)?),
        Comparison::Greater => facts.way(alloc, no_more(alloc, x, y)?),
        Comparison::AtLeast => facts.way(alloc, less(alloc, x, y)?),
        Comparison::Equal => facts.either_way(alloc, less(alloc, x, y)?, less(alloc, y, x)?),
    }
}

/// Adds a condition that is true without trouble.
fn assume(
    alloc: Global,
    facts: &mut Facts,
    atoms: &[Atom],
    condition: &Condition,
) -> Result<(), OutOfMemory>
    requires { IsScope facts.old.fresh atoms.now no_outcome }
    ensures { OnOk result (IsGrown facts.old (condition_facts (atom_in atoms.now no_outcome) facts.old condition.now) facts.new) }
{
    let x = assume_sum(alloc, facts, atoms, NO_OUTCOME, &condition.left)?;
    let y = assume_sum(alloc, facts, atoms, NO_OUTCOME, &condition.right)?;
    hold(alloc, facts, condition.comparison, x, y)?;
    Ok(())
}

/// Adds each `requires`, in order.
pub(crate) fn assume_all(
    alloc: Global,
    facts: &mut Facts,
    atoms: &[Atom],
    demands: &List<Condition>,
) -> Result<(), OutOfMemory>
    requires { IsScope facts.old.fresh atoms.now no_outcome }
    ensures { OnOk result (IsGrown facts.old (demand_facts (atom_in atoms.now no_outcome) facts.old demands.now) facts.new) }
{
    for condition in demands.as_slice() {
        assume(alloc, facts, atoms, condition)?;
    }
    Ok(())
}

/// The answers to the two checks of a condition.
#[derive(Debug, Drop, Clone, Copy, PartialEq, Eq)]
struct Judgement {
    /// That its arithmetic leaves `int`.
    trouble: Answer,
    /// That it is false.
    broken: Answer,
}

/// Answers the two checks of a condition, and adds that it is true without trouble.
fn judge(
    alloc: Global,
    facts: &mut Facts,
    atoms: &[Atom],
    outcome: Atom,
    condition: &Condition,
) -> Result<Judgement, OutOfMemory>
    requires { IsScope facts.old.fresh atoms.now outcome }
    ensures facts { IfOk result (λ judgement. IsGrown facts.old (condition_facts (atom_in atoms.now outcome) facts.old condition.now) facts.new) }
    ensures trouble { IfOk result (λ judgement. Answers (trouble_ways (atom_in atoms.now outcome) facts.old condition.now) judgement.trouble) }
    ensures broken { IfOk result (λ judgement. Answers (break_ways (atom_in atoms.now outcome) facts.old condition.now) judgement.broken) }
{
    let (x, left) = judge_sum(
        alloc,
        facts,
        atoms,
        outcome,
        &condition.left,
        Answer::Proved,
    )?;
    let (y, trouble) = judge_sum(alloc, facts, atoms, outcome, &condition.right, left)?;
    let broken = answer_break(alloc, facts, condition.comparison, x, y)?;
    hold(alloc, facts, condition.comparison, x, y)?;
    Ok(Judgement { trouble, broken })
}

/// Adds a condition, with the findings on its two checks: that of its trouble, and the given one.
pub(crate) fn find_in_condition(
    alloc: Global,
    facts: &mut Facts,
    atoms: &[Atom],
    outcome: Atom,
    check: Check,
    condition: &Condition,
    findings: &mut List<Finding>,
) -> Result<(), OutOfMemory>
    requires { IsScope facts.old.fresh atoms.now outcome }
    ensures facts { OnOk result (IsGrown facts.old (condition_facts (atom_in atoms.now outcome) facts.old condition.now) facts.new) }
    ensures findings { OnOk result (Extends (condition_obligations (atom_in atoms.now outcome) facts.old check.kind check.at check.by condition.now) findings.old findings.new) }
{
    let judgement = judge(alloc, facts, atoms, outcome, condition)?;
    let undefined = Check {
        kind: Kind::Undefined,
        ..check
    };
    findings.push(Finding {
        check: undefined,
        answer: judgement.trouble,
    })?;
    findings.push(Finding {
        check,
        answer: judgement.broken,
    })?;
    Ok(())
}
