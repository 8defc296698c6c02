//! The facts of formulas.

ghost use Rattle.std.specs.Prelude.{◌≡◌, IfOk, All, map};
ghost use Rattle.std.specs.List.{flat_map};
ghost use Rattle.jesc_logic.specs.Terms.{Keeps};
ghost use Rattle.jesc_logic.specs.Claims.{claim_of, IsOver};
ghost use Rattle.jesc_arithmetic.specs.Arithmetic.{facts_of, arithmetic_facts as facts_in};
ghost use Rattle.jesc_arithmetic.specs.Rules.{Say};
ghost use Rattle.jesc_arithmetic.specs.Walks.{names, IsOverTerms, HasOperations};

use crate::facts::put_facts;
use crate::operation::Operation;
use crate::walk::Walk;
use jesc_logic::{Formula, TermError, Terms};
use jesc_text::List;
use std::alloc::Global;

/// What is known of the products, quotients and remainders that stand in formulas, in the order in which they stand there
/// first. Each is known once.
///
/// May add terms, also where it answers `OutOfMemory`; the terms that are there keep their numbers.
pub fn arithmetic_facts(
    alloc: Global,
    formulas: &[Formula],
    terms: &mut Terms,
) -> Result<List<Formula>, TermError>
    requires { All (IsOver terms.old) formulas.now }
    ensures keeps { Keeps terms.old terms.new }
    ensures there { IfOk result (λ facts. All (IsOver terms.new) facts) }
    ensures facts { IfOk result (λ facts. map (claim_of terms.new) facts ≡ facts_in (map (claim_of terms.old) formulas.now)) }
{
    let walk = walk_all(alloc, formulas, terms)?;
    put_all(alloc, walk.operations.as_slice(), terms)
}

/// Walks the terms of the formulas.
fn walk_all(alloc: Global, formulas: &[Formula], terms: &Terms) -> Result<Walk, TermError>
    requires { All (IsOver terms.now) formulas.now }
    ensures { IfOk result (HasOperations terms.now (map (claim_of terms.now) formulas.now)) }
{
    let mut walk = Walk::new(alloc, terms);
    for f in formulas {
        let Ok(()) = walk.walk_formula(terms, f) else {
            return Err(TermError::OutOfMemory);
        };
    }
    Ok(walk)
}

/// What is known of the operations, in order.
fn put_all(
    alloc: Global,
    operations: &[Operation],
    terms: &mut Terms,
) -> Result<List<Formula>, TermError>
    requires { All (IsOverTerms terms.old) operations.now }
    ensures keeps { Keeps terms.old terms.new }
    ensures say { IfOk result (λ facts. Say terms.new facts (flat_map facts_of (names terms.old operations.now))) }
{
    let mut facts = List::new(alloc);
    for operation in operations {
        put_facts(alloc, terms, *operation, &mut facts)?;
    }
    Ok(facts)
}
