//! A certificate tried over clauses: by the checker, by the plain reading, and by small numbers for the terms.

use crate::plain::judge;
use crate::problems::{ROWS, clauses_of, is_row, put};
use crate::worlds::has_countermodel;
use jesc_accept::{Accept, accept};
use jesc_cert::{Cert, Certs};
use jesc_clauses::Clauses;
use jesc_text::List;
use std::alloc::Global;
use std::process::Abort;

/// How many certificates were tried, and how many of them were accepted.
#[derive(Drop, Clone, Copy)]
pub struct Tally {
    pub tried: u32,
    pub accepted: u32,
}

impl Tally {
    pub fn new() -> Tally {
        Tally {
            tried: 0,
            accepted: 0,
        }
    }

    fn add(&mut self, answer: Accept) {
        self.tried = self.tried.saturating_add(1);
        if answer == Accept::Yes {
            self.accepted = self.accepted.saturating_add(1);
        }
    }
}

/// Clauses, and whether some small numbers are a countermodel of them.
#[derive(Drop)]
pub struct Given {
    pub clauses: Clauses,
    pub has_countermodel: bool,
}

/// The problem of a row, but for the clause of this place, if there is one.
pub fn given_without(alloc: Global, row: &str, left_out: usize) -> Given {
    let clauses = clauses_of(alloc, row, left_out);
    let has_countermodel = has_countermodel(&clauses);
    Given {
        clauses,
        has_countermodel,
    }
}

/// All problems.
pub fn given_problems(alloc: Global) -> List<Given> {
    let mut problems = List::new(alloc);
    for row in ROWS.lines() {
        if is_row(row) {
            put(&mut problems, given_without(alloc, row, usize::MAX));
        }
    }
    problems
}

/// The problem of this number.
pub fn problem_of<'a>(rt: &impl Abort, problems: &'a List<Given>, number: u32) -> &'a Given {
    problems
        .as_slice()
        .get(number as usize)
        .expect(rt, "a problem")
}

/// What the checker answers, which is asserted to be what the plain reading says, and not Yes where there is a countermodel.
pub fn answer_to(
    rt: &impl Abort,
    alloc: Global,
    given: &Given,
    cert: &Cert,
    tally: &mut Tally,
) -> Accept {
    let lines = cert.lines.as_slice();
    let answer = accept(alloc, &given.clauses, cert).expect(rt, "memory");
    assert_eq!(rt; answer, judge(alloc, &given.clauses, lines), "{lines:?}");
    if given.has_countermodel {
        assert!(rt; answer != Accept::Yes, "{lines:?}");
    }
    tally.add(answer);
    answer
}

/// Tries each certificate over the problem of its number, where there is one.
pub fn try_all(
    rt: &impl Abort,
    alloc: Global,
    problems: &[Given],
    certs: &Certs,
    tally: &mut Tally,
) {
    for block in certs.list.as_slice() {
        if let Some(given) = problems.get(block.1 as usize) {
            let _answer = answer_to(rt, alloc, given, &block.2, tally);
        }
    }
}
