//! The numbers of a line.

ghost use Rattle.std.specs.Prelude.{length, MatchOption, IfOk};
ghost use Rattle.jesc_accept.specs.Numbers.{AreNoPart, IsPartOf};
ghost use Rattle.jesc_accept.specs.States.{AreNoSum, IsSumOf};

use jesc_linear::Row;
use jesc_text::{List, OutOfMemory};
use std::alloc::Global;

/// The row of a bound, a count of parts and the parts, over so many terms.
///
/// Answers `OutOfMemory` where there is no room for it.
pub(crate) fn row_of(
    alloc: Global,
    terms: usize,
    numbers: &[i128],
) -> Result<Option<Row>, OutOfMemory>
    ensures { IfOk result (λ answer. MatchOption answer (AreNoSum terms numbers.now) (IsSumOf terms numbers.now)) }
{
    let [bound, count, parts @ ..] = numbers else {
        return Ok(None);
    };
    if parts.len() % 2 != 0 || *count != (parts.len() / 2) as i128 {
        return Ok(None);
    }
    let mut form = List::new(alloc);
    for at in 0..parts.len() / 2 {
        let Some(part) = part_of(terms, parts[2 * at], parts[2 * at + 1]) else {
            return Ok(None);
        };
        form.push(part)?;
    }
    Ok(Some(Row {
        form,
        bound: *bound,
    }))
}

/// The part of a coefficient and the number of a term, where both are within their bounds. Takes no memory.
fn part_of(terms: usize, coefficient: i128, term: i128) -> Option<(i64, u32)>
    ensures { MatchOption result (AreNoPart terms coefficient term) (IsPartOf terms coefficient term) }
{
    let is_narrow = coefficient.unsigned_abs() <= 1 << 31;
    let is_there = 0 <= term && term < terms as i128 && term < 1 << 32;
    if is_narrow && is_there {
        Some((coefficient as i64, term as u32))
    } else {
        None
    }
}
