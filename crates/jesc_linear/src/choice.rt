//! Which variable goes next.
//!
//! One pass over the rows counts for each term the upper and the lower rows that have it, and a pass over the counts finds
//! the term with the fewest pairs. The counts are a list by term, which grows where a row has a term past its end.

ghost use Rattle.std.specs.Prelude.{◌≡◌, ℕ, suc, ◌<◌, ◌≤◌, ◌^◌, ◌==◌, if◌then◌else◌, false, All, IfOk, OnOk, length, vec_len, MatchOption};
ghost use Rattle.jesc_linear.specs.Forms.{RisesFrom, IsForm, coefficient_of};
ghost use Rattle.jesc_linear.specs.Elimination.{IsNext, occurs, pairs_of};
ghost use Rattle.jesc_linear.specs.Tables.{IsSlot, entries_of};
ghost use Rattle.jesc_linear.specs.Counts as spec;
ghost use Rattle.jesc_linear.specs.Counts.{count_at, HasCounts, IsBest};

use crate::rows::LinStep;
use crate::stop::Slot;
use crate::table::row_in;
use jesc_text::{List, OutOfMemory};
use std::alloc::Global;

/// A variable, and the number of pairs of an upper and a lower row that have it.
#[derive(Clone, Copy, Debug, Drop)]
pub(crate) struct Choice {
    pub(crate) term: u32,
    pub(crate) pairs: u64,
}

/// How many upper and how many lower rows have a term.
#[derive(Clone, Copy, Debug, Drop)]
pub(crate) struct Count {
    pub(crate) uppers: u32,
    pub(crate) lowers: u32,
}

/// Extends the counts with zeros until they have the term.
fn reach(counts: &mut Vec<Count>, term: u32) -> Result<(), OutOfMemory>
    ensures same { (t : ℕ) → count_at counts.new.items t ≡ count_at counts.old.items t }
    ensures within { OnOk result (term < vec_len counts.new) }
    ensures few { vec_len counts.old ≤ 2 ^ 32 → vec_len counts.new ≤ 2 ^ 32 }
{
    for _place in counts.len()..term as usize + 1 {
        match counts.push(Count {
            uppers: 0,
            lowers: 0,
        }) {
            Ok(_) => (),
            Err(_) => return Err(OutOfMemory),
        }
    }
    Ok(())
}

fn one_more(rows: u32) -> Result<u32, OutOfMemory>
    ensures { IfOk result (λ more. more ≡ suc rows) }
{
    match rows.checked_add(1) {
        Some(more) => Ok(more),
        None => Err(OutOfMemory),
    }
}

/// The counts of the part's term with the part's row.
fn more(count: Count, part: &(i64, u32)) -> Result<Count, OutOfMemory>
    ensures { IfOk result (λ counted. counted ≡ spec.more count part.now.0) }
{
    if part.0 > 0 {
        Ok(Count {
            uppers: one_more(count.uppers)?,
            lowers: count.lowers,
        })
    } else if part.0 < 0 {
        Ok(Count {
            uppers: count.uppers,
            lowers: one_more(count.lowers)?,
        })
    } else {
        Ok(count)
    }
}

/// Counts one part of a row's form.
fn count_part(counts: &mut Vec<Count>, part: &(i64, u32)) -> Result<(), OutOfMemory>
    ensures counted { OnOk result ((t : ℕ) → count_at counts.new.items t ≡ (if t == part.now.1 then spec.more (count_at counts.old.items t) part.now.0 else count_at counts.old.items t)) }
    ensures few { vec_len counts.old ≤ 2 ^ 32 → vec_len counts.new ≤ 2 ^ 32 }
{
    let term = part.1 as usize;
    reach(counts, part.1)?;
    counts[term] = more(counts[term], part)?;
    Ok(())
}

/// Counts a row.
fn count_form(counts: &mut Vec<Count>, form: &[(i64, u32)]) -> Result<(), OutOfMemory>
    requires { RisesFrom 0 form.now }
    ensures counted { OnOk result ((t : ℕ) → count_at counts.new.items t ≡ spec.more (count_at counts.old.items t) (coefficient_of form.now t)) }
    ensures few { vec_len counts.old ≤ 2 ^ 32 → vec_len counts.new ≤ 2 ^ 32 }
{
    for part in form {
        count_part(counts, part)?;
    }
    Ok(())
}

/// Counts the rows of the table.
fn count_rows(alloc: Global, log: &List<LinStep>, slots: &[Slot]) -> Result<Vec<Count>, OutOfMemory>
    requires slots { All (IsSlot log.now) slots.now }
    requires forms { All (λ step. IsForm step.row.form) log.now }
    ensures { IfOk result (λ counts. HasCounts (entries_of log.now slots.now) counts.items) }
{
    let mut counts = Vec::new(alloc);
    for slot in slots {
        count_form(&mut counts, row_in(log, *slot).form.as_slice())?;
    }
    Ok(counts)
}

/// The better of the best so far and the next term, which is greater.
fn lesser(best: Option<Choice>, term: u32, count: Count) -> Option<Choice>
    ensures { (counts : List Count) → count_at counts term ≡ count → IsBest counts term best → IsBest counts (suc term) result }
{
    if count.uppers == 0 && count.lowers == 0 {
        return best;
    }
    let choice = Choice {
        term,
        pairs: count.uppers as u64 * count.lowers as u64,
    };
    match best {
        Some(older) => {
            if older.pairs <= choice.pairs {
                best
            } else {
                Some(choice)
            }
        }
        None => Some(choice),
    }
}

/// The term with the fewest pairs.
fn least(counts: &[Count]) -> Option<Choice>
    requires { length counts.now ≤ 2 ^ 32 }
    ensures { IsBest counts.now (length counts.now) result }
{
    let mut best = None;
    for (term, count) in counts.iter().enumerate() {
        best = lesser(best, term as u32, *count);
    }
    best
}

/// Of the terms that occur in the table the one in the fewest pairs, at a tie the smallest.
pub(crate) fn next_term(
    alloc: Global,
    log: &List<LinStep>,
    slots: &[Slot],
) -> Result<Option<Choice>, OutOfMemory>
    requires slots { All (IsSlot log.now) slots.now }
    requires forms { All (λ step. IsForm step.row.form) log.now }
    ensures term { IfOk result (λ found. MatchOption found ((term : ℕ) → occurs (entries_of log.now slots.now) term ≡ false) (λ choice. IsNext (entries_of log.now slots.now) choice.term)) }
    ensures pairs { IfOk result (λ found. MatchOption found (Unit {0}) (λ choice. choice.pairs ≡ pairs_of (entries_of log.now slots.now) choice.term)) }
{
    let counts = count_rows(alloc, log, slots)?;
    Ok(least(counts.as_slice()))
}
