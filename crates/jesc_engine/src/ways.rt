//! The ways in which the checks of a method can fail, as lists of linear rows, and the answer to each check.
//!
//! `facts` holds the one list of rows that grows along a method. Each way to fail is that list with one row more,
//! which is taken off again, so no list is copied.

mod atom;
mod conditions;
mod facts;
mod parameters;
mod rows;
mod statements;
mod sums;

ghost use Rattle.std.specs.Prelude.{◌≡◌, IfOk};
ghost use Rattle.jesc_engine.specs.Ways.{obligations};
ghost use Rattle.jesc_engine.specs.Outcomes.{AnswerAll};

use crate::answer::Finding;
use crate::ways::conditions::assume_all;
use crate::ways::facts::LIMIT;
use crate::ways::parameters::{parameter_facts, parameter_terms};
use crate::ways::statements::find_in_body;
pub use atom::Atom;
use jesc_first::Method;
use jesc_text::{List, OutOfMemory};
use std::alloc::Global;

/// A finding for each check of a method, in the order in which a call meets them.
///
/// A check is Proved where steps refute each of its ways to fail, and otherwise has the answer of the first way that
/// isn't refuted. Answers `OutOfMemory` also where the rows or the terms would pass 2^31 - 1.
pub(crate) fn find(alloc: Global, method: &Method) -> Result<List<Finding>, OutOfMemory>
    ensures { IfOk result (λ findings. AnswerAll (obligations method.now) findings) }
{
    let parameters = method.parameters.as_slice();
    if parameters.len() > LIMIT as usize {
        return Err(OutOfMemory);
    }
    let arguments = parameter_terms(alloc, parameters)?;
    let mut atoms = parameter_terms(alloc, parameters)?;
    let mut facts = parameter_facts(alloc, parameters)?;
    assume_all(alloc, &mut facts, arguments.as_slice(), &method.demands)?;
    let mut findings = List::new(alloc);
    find_in_body(
        alloc,
        &mut facts,
        &mut atoms,
        arguments.as_slice(),
        method,
        &mut findings,
    )?;
    Ok(findings)
}
