//! How long many calls take, at a quarter of their number and at the whole. `tools/measure_clauses.py` reads what is
//! printed.

use crate::making::{clauses_of, formulas_of, of_one};
use crate::words::{Word, put};
use jesc_logic::{TermId, Terms};
use jesc_text::{List, OutOfMemory};
use std::alloc::Global;
use std::test::Fail;
use std::time::Instant;

/// Makes terms over so many numbers, each ten times, and answers how many terms there are.
fn make_terms(terms: &mut Terms, count: u32) -> u32 {
    for n in 0..count {
        let _made = terms.num(n as i128).is_ok();
    }
    for _time in 0..10 {
        for id in 0..count {
            let _made = of_one(terms, 20, TermId(id)).is_some();
        }
    }
    terms.len()
}

/// Prints how long it takes to make terms over so many numbers, and answers how many terms there are.
fn time_terms(rt: &HostRuntime, count: u32) -> Result<u32, Fail> {
    let mut terms = Terms::new(rt.alloc());
    let start = Instant::now(rt)?;
    let made = make_terms(&mut terms, count);
    let micros = start.elapsed(rt)?.as_micros();
    println!(rt; "app {count} {micros} us")?;
    Ok(made)
}

#[test]
fn equal_terms_are_found(rt: HostRuntime) -> Result<(), Fail> {
    assert_eq!(rt; time_terms(&rt, 25_000)?, 50_000);
    Ok(())
}

#[test]
fn four_times_as_many_equal_terms(rt: HostRuntime) -> Result<(), Fail> {
    assert_eq!(rt; time_terms(&rt, 100_000)?, 200_000);
    Ok(())
}

/// So many formulas of the form `or (f(n) <= x) (x = y + n)`.
fn put_formulas(words: &mut List<Word>, count: u32) {
    for n in 0..count {
        let n = Word::Number(n as i128);
        for word in [
            Word::Or,
            Word::AtMost,
            Word::Function,
            n,
            Word::X,
            Word::Equal,
            Word::X,
            Word::Sum,
            Word::Y,
            n,
        ] {
            put(words, word);
        }
    }
}

/// The words of so many formulas.
fn formulas(alloc: Global, count: u32) -> List<Word> {
    let mut words = List::new(alloc);
    put_formulas(&mut words, count);
    words
}

/// Prints how long it takes to make clauses of so many formulas, and answers how many there are.
fn time_clauses(rt: &HostRuntime, count: u32) -> Result<usize, Fail> {
    let alloc = rt.alloc();
    let mut terms = Terms::new(alloc);
    let words = formulas(alloc, count);
    let ground = formulas_of(alloc, &mut terms, words.as_slice()).ok_or(OutOfMemory)?;
    let start = Instant::now(rt)?;
    let clauses = clauses_of(alloc, &mut terms, &ground)?;
    let micros = start.elapsed(rt)?.as_micros();
    println!(rt; "clausify {count} {micros} us")?;
    Ok(clauses.clauses.len())
}

#[test]
fn clauses_are_made(rt: HostRuntime) -> Result<(), Fail> {
    assert!(rt; time_clauses(&rt, 12_500)? >= 12_500);
    Ok(())
}

#[test]
fn four_times_as_many_clauses(rt: HostRuntime) -> Result<(), Fail> {
    assert!(rt; time_clauses(&rt, 50_000)? >= 50_000);
    Ok(())
}
