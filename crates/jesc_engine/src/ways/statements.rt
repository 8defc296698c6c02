ghost use Rattle.std.specs.Prelude.{◌≡◌, ◌∷◌, [], ◌≤◌, None, Some, ◌++◌, IfOk, OnOk};
ghost use Rattle.jesc_engine.specs.Ways.{atom_in, no_outcome, sum_facts, sum_atom, sum_overflows, statement_facts, statement_atoms, statement_obligations, value_facts, value_atom, value_obligations, clause_obligations, condition_facts, condition_obligations, body_obligations, with_atom};
ghost use Rattle.jesc_engine.specs.Walk.{IsBelow, IsScope, IsGrown, Extends, IsAfter};

use crate::answer::Finding;
use crate::ways::atom::Atom;
use crate::ways::conditions::find_in_condition;
use crate::ways::facts::Facts;
use crate::ways::parameters::{push_atom, put_atom};
use crate::ways::sums::{NO_OUTCOME, find_in_sum};
use jesc_first::{Check, Clause, Condition, Kind, Method, Stmt, Sum};
use jesc_text::{List, OutOfMemory};
use std::alloc::Global;

/// The findings on a new local.
#[tactic(auto, using(crate::proofs::Statements::after_local))]
fn find_in_local(
    alloc: Global,
    facts: &mut Facts,
    atoms: &mut Vec<Atom>,
    value: &Sum,
    findings: &mut List<Finding>,
) -> Result<(), OutOfMemory>
    requires { IsScope facts.old.fresh atoms.old.items no_outcome }
    ensures after { OnOk result (IsAfter facts.old (sum_facts (atom_in atoms.old.items no_outcome) facts.old value.now) facts.new (atoms.old.items ++ sum_atom (atom_in atoms.old.items no_outcome) facts.old value.now ∷ []) atoms.new.items) }
    ensures findings { OnOk result (Extends (sum_overflows (atom_in atoms.old.items no_outcome) facts.old value.now) findings.old findings.new) }
{
    let x = find_in_sum(alloc, facts, atoms.as_slice(), value, findings)?;
    push_atom(atoms, x)?;
    Ok(())
}

/// The findings on an assignment.
#[tactic(auto, using(crate::proofs::Statements::after_assignment))]
fn find_in_assignment(
    alloc: Global,
    facts: &mut Facts,
    atoms: &mut Vec<Atom>,
    slot: u32,
    value: &Sum,
    findings: &mut List<Finding>,
) -> Result<(), OutOfMemory>
    requires { IsScope facts.old.fresh atoms.old.items no_outcome }
    ensures after { OnOk result (IsAfter facts.old (sum_facts (atom_in atoms.old.items no_outcome) facts.old value.now) facts.new (with_atom atoms.old.items slot (sum_atom (atom_in atoms.old.items no_outcome) facts.old value.now)) atoms.new.items) }
    ensures findings { OnOk result (Extends (sum_overflows (atom_in atoms.old.items no_outcome) facts.old value.now) findings.old findings.new) }
{
    let x = find_in_sum(alloc, facts, atoms.as_slice(), value, findings)?;
    put_atom(atoms, slot, x);
    Ok(())
}

/// The findings on an `assert` at this offset.
fn find_in_assert(
    alloc: Global,
    facts: &mut Facts,
    atoms: &[Atom],
    at: u32,
    condition: &Condition,
    findings: &mut List<Finding>,
) -> Result<(), OutOfMemory>
    requires { IsScope facts.old.fresh atoms.now no_outcome }
    ensures facts { OnOk result (IsGrown facts.old (condition_facts (atom_in atoms.now no_outcome) facts.old condition.now) facts.new) }
    ensures findings { OnOk result (Extends (condition_obligations (atom_in atoms.now no_outcome) facts.old Kind.Assert at None condition.now) findings.old findings.new) }
{
    let check = Check {
        kind: Kind::Assert,
        at,
        by: None,
    };
    find_in_condition(alloc, facts, atoms, NO_OUTCOME, check, condition, findings)
}

/// The findings on a statement, and what is known after it.
#[tactic(auto, using(crate::proofs::Statements::after_assert))]
fn find_in_statement(
    alloc: Global,
    facts: &mut Facts,
    atoms: &mut Vec<Atom>,
    statement: &Stmt,
    findings: &mut List<Finding>,
) -> Result<(), OutOfMemory>
    requires { IsScope facts.old.fresh atoms.old.items no_outcome }
    ensures after { OnOk result (IsAfter facts.old (statement_facts atoms.old.items facts.old statement.now) facts.new (statement_atoms atoms.old.items facts.old statement.now) atoms.new.items) }
    ensures findings { OnOk result (Extends (statement_obligations atoms.old.items facts.old statement.now) findings.old findings.new) }
{
    match statement {
        Stmt::Local { value, .. } => find_in_local(alloc, facts, atoms, value, findings),
        Stmt::Assign { slot, value } => {
            find_in_assignment(alloc, facts, atoms, *slot, value, findings)
        }
        Stmt::Assert { at, condition } => {
            find_in_assert(alloc, facts, atoms.as_slice(), *at, condition, findings)?;
            Ok(())
        }
    }
}

/// The findings on the returned value, and its atom.
fn find_in_value(
    alloc: Global,
    facts: &mut Facts,
    atoms: &[Atom],
    value: &Option<Sum>,
    findings: &mut List<Finding>,
) -> Result<Atom, OutOfMemory>
    requires { IsScope facts.old.fresh atoms.now no_outcome }
    ensures facts { IfOk result (λ made. IsGrown facts.old (value_facts atoms.now facts.old value.now) facts.new) }
    ensures atom { IfOk result (λ made. (made ≡ value_atom atoms.now facts.old value.now) × IsBelow facts.new.fresh made) }
    ensures findings { IfOk result (λ made. Extends (value_obligations atoms.now facts.old value.now) findings.old findings.new) }
{
    match value {
        Some(sum) => {
            let x = find_in_sum(alloc, facts, atoms, sum, findings)?;
            Ok(x)
        }
        None => Ok(NO_OUTCOME),
    }
}

/// The findings on an `ensures` at the end of its method.
fn find_in_clause(
    alloc: Global,
    facts: &mut Facts,
    arguments: &[Atom],
    outcome: Atom,
    exit: u32,
    clause: &Clause,
    findings: &mut List<Finding>,
) -> Result<(), OutOfMemory>
    requires { IsScope facts.old.fresh arguments.now outcome }
    ensures facts { OnOk result (IsGrown facts.old (condition_facts (atom_in arguments.now outcome) facts.old clause.now.condition) facts.new) }
    ensures findings { OnOk result (Extends (condition_obligations (atom_in arguments.now outcome) facts.old Kind.Postcondition exit (Some clause.now.at) clause.now.condition) findings.old findings.new) }
{
    let check = Check {
        kind: Kind::Postcondition,
        at: exit,
        by: Some(clause.at),
    };
    find_in_condition(
        alloc,
        facts,
        arguments,
        outcome,
        check,
        &clause.condition,
        findings,
    )
}

/// The findings on each `ensures`, in order.
fn find_in_clauses(
    alloc: Global,
    facts: &mut Facts,
    arguments: &[Atom],
    outcome: Atom,
    exit: u32,
    promises: &List<Clause>,
    findings: &mut List<Finding>,
) -> Result<(), OutOfMemory>
    requires { IsScope facts.old.fresh arguments.now outcome }
    ensures { OnOk result (Extends (clause_obligations (atom_in arguments.now outcome) facts.old exit promises.now) findings.old findings.new) }
{
    for clause in promises.as_slice() {
        find_in_clause(alloc, facts, arguments, outcome, exit, clause, findings)?;
    }
    Ok(())
}

/// The findings at the end of the body, where the arguments have the atoms of the method's entry.
fn find_at_end(
    alloc: Global,
    facts: &mut Facts,
    atoms: &[Atom],
    arguments: &[Atom],
    method: &Method,
    findings: &mut List<Finding>,
) -> Result<(), OutOfMemory>
    requires atoms { IsScope facts.old.fresh atoms.now no_outcome }
    requires arguments { IsScope facts.old.fresh arguments.now no_outcome }
    ensures { OnOk result (Extends (body_obligations method.now arguments.now atoms.now facts.old []) findings.old findings.new) }
{
    let outcome = find_in_value(alloc, facts, atoms, &method.value, findings)?;
    find_in_clauses(
        alloc,
        facts,
        arguments,
        outcome,
        method.exit,
        &method.promises,
        findings,
    )?;
    Ok(())
}

/// The findings on the body, with those at its end.
pub(crate) fn find_in_body(
    alloc: Global,
    facts: &mut Facts,
    atoms: &mut Vec<Atom>,
    arguments: &[Atom],
    method: &Method,
    findings: &mut List<Finding>,
) -> Result<(), OutOfMemory>
    requires atoms { IsScope facts.old.fresh atoms.old.items no_outcome }
    requires arguments { IsScope facts.old.fresh arguments.now no_outcome }
    ensures { OnOk result (Extends (body_obligations method.now arguments.now atoms.old.items facts.old method.now.body) findings.old findings.new) }
{
    for statement in method.body.as_slice() {
        find_in_statement(alloc, facts, atoms, statement, findings)?;
    }
    find_at_end(alloc, facts, atoms.as_slice(), arguments, method, findings)?;
    Ok(())
}
