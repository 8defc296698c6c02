//! Certificates as they stand, over other clauses, and with a number or a line damaged.

use crate::certificates::certificates;
use crate::problems::{ROWS, count_clauses, is_row, put};
use crate::trial::{Given, Tally, answer_to, given_problems, given_without, problem_of, try_all};
use jesc_cert::{Cert, CertKind, CertLine};
use jesc_text::List;
use std::alloc::Global;
use std::process::Abort;

/// What is done to a line.
#[derive(Drop, Clone, Copy)]
enum Damage {
    Dropped,
    Doubled,
    /// The number of a place becomes another by so much.
    Moved(usize, i128),
    /// It gets this letter.
    Turned(CertKind),
}

/// The kind with the line's numbers, but for that of a place, if there is one, which is another by so much.
fn moved(alloc: Global, kind: CertKind, given: &[i128], place: usize, by: i128) -> CertLine {
    let mut numbers = List::new(alloc);
    for at in 0..given.len() {
        let change = if at == place { by } else { 0 };
        put(&mut numbers, given[at].wrapping_add(change));
    }
    CertLine { kind, numbers }
}

/// Puts the line with its damage.
fn put_damaged(alloc: Global, lines: &mut List<CertLine>, line: &CertLine, damage: Damage) {
    let numbers = line.numbers.as_slice();
    match damage {
        Damage::Dropped => {}
        Damage::Doubled => {
            put(lines, moved(alloc, line.kind, numbers, 0, 0));
            put(lines, moved(alloc, line.kind, numbers, 0, 0));
        }
        Damage::Moved(place, by) => put(lines, moved(alloc, line.kind, numbers, place, by)),
        Damage::Turned(kind) => put(lines, moved(alloc, kind, numbers, 0, 0)),
    }
}

/// The certificate with the line of this number damaged.
fn damaged(alloc: Global, given: &[CertLine], number: usize, damage: Damage) -> Cert {
    let mut lines = List::new(alloc);
    for at in 0..given.len() {
        if at == number {
            put_damaged(alloc, &mut lines, &given[at], damage);
        } else {
            put_damaged(alloc, &mut lines, &given[at], Damage::Moved(0, 0));
        }
    }
    Cert { lines }
}

/// Each number of the line one less and one more.
fn moves(alloc: Global, line: &CertLine) -> List<Damage> {
    let mut damages = List::new(alloc);
    for place in 0..line.numbers.len() {
        put(&mut damages, Damage::Moved(place, -1));
        put(&mut damages, Damage::Moved(place, 1));
    }
    damages
}

/// Tries a certificate with each of these damages of the line of this number.
fn try_damages(
    rt: &impl Abort,
    alloc: Global,
    given: &Given,
    lines: &[CertLine],
    number: usize,
    damages: &[Damage],
    tally: &mut Tally,
) {
    for damage in damages {
        let cert = damaged(alloc, lines, number, *damage);
        let _answer = answer_to(rt, alloc, given, &cert, tally);
    }
}

#[test]
fn certificates_are_accepted(rt: HostRuntime) {
    let alloc = rt.alloc();
    let mut tally = Tally::new();
    let certs = certificates(&rt, alloc);
    try_all(
        &rt,
        alloc,
        given_problems(alloc).as_slice(),
        &certs,
        &mut tally,
    );
    assert_eq!(rt; tally.tried, 16);
    assert_eq!(rt; tally.accepted, 16);
}

#[test]
fn each_number_is_moved(rt: HostRuntime) {
    let alloc = rt.alloc();
    let problems = given_problems(alloc);
    let mut tally = Tally::new();
    for (_, number, cert) in certificates(&rt, alloc).list.as_slice() {
        let given = problem_of(&rt, &problems, *number);
        let lines = cert.lines.as_slice();
        for at in 0..lines.len() {
            let damages = moves(alloc, &lines[at]);
            try_damages(&rt, alloc, given, lines, at, damages.as_slice(), &mut tally);
        }
    }
    assert_eq!(rt; tally.tried, 720);
    assert_eq!(rt; tally.accepted, 26);
}

/// Tries each certificate with each of these damages of each line.
fn try_each_line(rt: &impl Abort, alloc: Global, damages: &[Damage]) -> Tally {
    let problems = given_problems(alloc);
    let mut tally = Tally::new();
    for (_, number, cert) in certificates(rt, alloc).list.as_slice() {
        let given = problem_of(rt, &problems, *number);
        let lines = cert.lines.as_slice();
        for at in 0..lines.len() {
            try_damages(rt, alloc, given, lines, at, damages, &mut tally);
        }
    }
    tally
}

#[test]
fn each_line_is_dropped_and_doubled(rt: HostRuntime) {
    let tally = try_each_line(&rt, rt.alloc(), &[Damage::Dropped, Damage::Doubled]);
    assert_eq!(rt; tally.tried, 328);
    assert_eq!(rt; tally.accepted, 16);
}

#[test]
fn each_line_is_turned(rt: HostRuntime) {
    let letters = [
        Damage::Turned(CertKind::T),
        Damage::Turned(CertKind::G),
        Damage::Turned(CertKind::R),
        Damage::Turned(CertKind::Q),
        Damage::Turned(CertKind::S),
        Damage::Turned(CertKind::C),
        Damage::Turned(CertKind::M),
    ];
    let tally = try_each_line(&rt, rt.alloc(), &letters);
    assert_eq!(rt; tally.tried, 1148);
    assert_eq!(rt; tally.accepted, 165);
}

/// All problems, and each but for one of its clauses.
fn given_clauses(alloc: Global) -> List<Given> {
    let mut problems = List::new(alloc);
    for row in ROWS.lines() {
        if is_row(row) {
            for left_out in 0..=count_clauses(row) {
                put(&mut problems, given_without(alloc, row, left_out));
            }
        }
    }
    problems
}

#[test]
fn each_certificate_over_all_clauses(rt: HostRuntime) {
    let alloc = rt.alloc();
    let certs = certificates(&rt, alloc);
    let mut tally = Tally::new();
    let mut met = 0u32;
    for given in given_clauses(alloc).as_slice() {
        met = met.saturating_add(given.has_countermodel as u32);
        for block in certs.list.as_slice() {
            let _answer = answer_to(&rt, alloc, given, &block.2, &mut tally);
        }
    }
    assert_eq!(rt; met, 44);
    assert_eq!(rt; tally.tried, 960);
    assert_eq!(rt; tally.accepted, 18);
}
