ghost use Rattle.std.specs.Prelude.{◌≡◌, ℕ, ◌≤◌, [], ◌∷◌, None, IfOk};
ghost use Rattle.jesc_engine.specs.Ways.{atom_in, no_outcome, operation_ways, operated, overflows_along, sum_overflows, ways_along, sum_ways, concat};
ghost use Rattle.jesc_engine.specs.Walk.{IsBelow, IsScope, IsSummed, Continues, Extends};

use crate::answer::{Answer, Finding};
use crate::ways::atom::Atom;
use crate::ways::facts::Facts;
use jesc_first::{Check, Kind, Operation, Part, Sum};
use jesc_text::{List, OutOfMemory};
use std::alloc::Global;

/// The atom of `\result` where it cannot stand.
pub(crate) const NO_OUTCOME: Atom = Atom::Number(0);

/// The atom of a part, where the slots have these atoms and `\result` has this one.
fn atom_of(atoms: &[Atom], outcome: Atom, part: Part) -> Atom
    ensures value { result ≡ atom_in atoms.now outcome part }
    ensures below { (fresh : ℕ) → IsScope fresh atoms.now outcome → IsBelow fresh result }
{
    match part {
        Part::Number(number) => Atom::Number(number as i64),
        Part::Slot(slot) => match atoms.get(slot as usize) {
            Some(atom) => *atom,
            None => Atom::Number(0),
        },
        Part::Outcome => outcome,
    }
}

/// Adds a sum whose operations are all in range, and gives its atom.
pub(crate) fn assume_sum(
    alloc: Global,
    facts: &mut Facts,
    atoms: &[Atom],
    outcome: Atom,
    sum: &Sum,
) -> Result<Atom, OutOfMemory>
    requires { IsScope facts.old.fresh atoms.now outcome }
    ensures { IfOk result (λ made. IsSummed atoms.now outcome facts.old sum.now made facts.new) }
{
    let mut x = atom_of(atoms, outcome, sum.first);
    for operation in sum.rest.as_slice() {
        let y = atom_of(atoms, outcome, operation.part);
        x = facts.operate(alloc, x, operation.operator, y)?;
    }
    Ok(x)
}

/// The atom of an operation, and the answer to the ways before it with its own: a first answer other than Proved stands.
#[tactic(auto, using(crate::proofs::AnswerLists::continues_after_proved, crate::proofs::AnswerLists::continues_other))]
fn operate_on(
    alloc: Global,
    facts: &mut Facts,
    x: Atom,
    operation: Operation,
    y: Atom,
    known: Answer,
) -> Result<(Atom, Answer), OutOfMemory>
    requires left { IsBelow facts.old.fresh x }
    requires right { IsBelow facts.old.fresh y }
    ensures { IfOk result (λ made. (made.0 ≡ Atom.Term facts.old.fresh) × Continues known (operation_ways facts.old x operation.operator y) made.1 × (facts.new ≡ operated facts.old x operation.operator y)) }
{
    match known {
        Answer::Proved => {
            let made = facts.check_operation(alloc, x, operation.operator, y)?;
            Ok(made)
        }
        _ => {
            let atom = facts.operate(alloc, x, operation.operator, y)?;
            Ok((atom, known))
        }
    }
}

/// Adds a sum, and answers the ways in which its operations leave `int` together with those before it.
pub(crate) fn judge_sum(
    alloc: Global,
    facts: &mut Facts,
    atoms: &[Atom],
    outcome: Atom,
    sum: &Sum,
    known: Answer,
) -> Result<(Atom, Answer), OutOfMemory>
    requires { IsScope facts.old.fresh atoms.now outcome }
    ensures sum { IfOk result (λ made. IsSummed atoms.now outcome facts.old sum.now made.0 facts.new) }
    ensures answer { IfOk result (λ made. Continues known (concat (sum_ways (atom_in atoms.now outcome) facts.old sum.now)) made.1) }
{
    let mut x = atom_of(atoms, outcome, sum.first);
    let mut answer = known;
    for operation in sum.rest.as_slice() {
        let y = atom_of(atoms, outcome, operation.part);
        let made = operate_on(alloc, facts, x, *operation, y, answer)?;
        x = made.0;
        answer = made.1;
    }
    Ok((x, answer))
}

/// Adds an operation and the finding on its overflow.
fn find_overflow(
    alloc: Global,
    facts: &mut Facts,
    x: Atom,
    operation: Operation,
    y: Atom,
    findings: &mut List<Finding>,
) -> Result<Atom, OutOfMemory>
    requires left { IsBelow facts.old.fresh x }
    requires right { IsBelow facts.old.fresh y }
    ensures facts { IfOk result (λ atom. (atom ≡ Atom.Term facts.old.fresh) × (facts.new ≡ operated facts.old x operation.operator y)) }
    ensures findings { IfOk result (λ atom. Extends (record { check = record { kind = Kind.Overflow; at = operation.at; by = None }; ways = operation_ways facts.old x operation.operator y } ∷ []) findings.old findings.new) }
{
    let (atom, answer) = facts.check_operation(alloc, x, operation.operator, y)?;
    let check = Check {
        kind: Kind::Overflow,
        at: operation.at,
        by: None,
    };
    findings.push(Finding { check, answer })?;
    Ok(atom)
}

/// Adds a sum, with a finding on the overflow of each of its operations.
pub(crate) fn find_in_sum(
    alloc: Global,
    facts: &mut Facts,
    atoms: &[Atom],
    sum: &Sum,
    findings: &mut List<Finding>,
) -> Result<Atom, OutOfMemory>
    requires { IsScope facts.old.fresh atoms.now no_outcome }
    ensures sum { IfOk result (λ made. IsSummed atoms.now no_outcome facts.old sum.now made facts.new) }
    ensures findings { IfOk result (λ made. Extends (sum_overflows (atom_in atoms.now no_outcome) facts.old sum.now) findings.old findings.new) }
{
    let mut x = atom_of(atoms, NO_OUTCOME, sum.first);
    for operation in sum.rest.as_slice() {
        let y = atom_of(atoms, NO_OUTCOME, operation.part);
        x = find_overflow(alloc, facts, x, *operation, y, findings)?;
    }
    Ok(x)
}
