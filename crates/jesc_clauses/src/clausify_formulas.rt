//! Formulas without variables as clauses.

ghost use Rattle.std.specs.Prelude.{◌≡◌, ◌==◌, IfOk, IfSome, All, map};
ghost use Rattle.std.specs.List.{list_any};
ghost use Rattle.jesc_logic.specs.Terms.{Keeps};
ghost use Rattle.jesc_logic.specs.Claims.{IsOver, claim_of, shape};
ghost use Rattle.jesc_clauses.specs.Builders.{IsFree};
ghost use Rattle.jesc_clauses.specs.Clausified.{IsClausified, IsWideAmong};
ghost use Rattle.jesc_clauses.specs.Formulas.{AreReadIn, IsWideOneIn};
ghost use Rattle.jesc_clauses.specs.Merges.{OnWide};

use crate::builder::Builder;
use crate::clause::{Clauses, Opaque};
use crate::error::ClauseError;
use crate::reader::Reader;
use jesc_logic::{Formula, Ground, Terms};
use jesc_text::List;
use std::alloc::Global;

/// The formulas as clauses. Answers `Wide` exactly where a number of a term or of an atom is too large.
///
/// May add terms, also where it answers an error; the terms that are there keep their numbers.
pub fn clausify(alloc: Global, ground: &Ground, terms: &mut Terms) -> Result<Clauses, ClauseError>
    requires { All (IsOver terms.old) ground.now.formulas }
    ensures keeps { Keeps terms.old terms.new }
    ensures clausified { IfOk result (IsClausified terms.new (map (claim_of terms.old) ground.now.formulas)) }
    ensures wide { OnWide (IsWideAmong (map (claim_of terms.old) ground.now.formulas)) result }
{
    let formulas = ground.formulas.as_slice();
    let Reader { sums, opaques } = read_all(alloc, terms, formulas)?;
    let Some(symbol) = free_symbol(opaques.as_slice()) else {
        return Err(ClauseError::OutOfMemory);
    };
    let mut builder = Builder {
        symbol,
        first: opaques.len() as u32,
        opaques,
        atoms: List::new(alloc),
        clauses: List::new(alloc),
    };
    builder.assert_all(alloc, terms, &sums, formulas)?;
    Ok(Clauses {
        terms: builder.opaques,
        atoms: builder.atoms,
        clauses: builder.clauses,
    })
}

/// Reads the terms of the formulas.
fn read_all(alloc: Global, terms: &Terms, formulas: &[Formula]) -> Result<Reader, ClauseError>
    requires { All (IsOver terms.now) formulas.now }
    ensures read { IfOk result (AreReadIn terms.now (map shape formulas.now)) }
    ensures wide { OnWide (IsWideOneIn (map (claim_of terms.now) formulas.now)) result }
{
    let mut reader = Reader::new(alloc, terms);
    for f in formulas {
        reader.read_formula(alloc, terms, f)?;
    }
    Ok(reader)
}

/// The greatest symbol that none of the terms has, if there is one.
fn free_symbol(opaques: &[Opaque]) -> Option<u32>
    ensures { IfSome result (IsFree opaques.now) }
{
    let mut symbol = 0xffff_ffff;
    while has_symbol(opaques, symbol) {
        if symbol == 0 {
            return None;
        }
        symbol -= 1;
    }
    Some(symbol)
}

/// Whether one of the terms has the symbol.
fn has_symbol(opaques: &[Opaque], symbol: u32) -> bool
    ensures { result ≡ list_any (λ o. symbol == o.symbol) opaques.now }
{
    opaques.iter().any(|opaque| symbol == opaque.symbol)
}
