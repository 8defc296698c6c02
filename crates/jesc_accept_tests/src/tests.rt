//! Certificates over one term, the one atom that it is at most 0, and the clauses of the literals 1 and -1.

use crate::certificates::append_lines;
use crate::trial::{Given, Tally, answer_to, given_problems, problem_of};
use jesc_accept::Accept;
use jesc_cert::parse_cert;
use jesc_text::Text;
use std::alloc::Global;
use std::process::Abort;

const YES: Accept = Accept::Yes;

/// This line is wrong, or there are so many and the tree isn't finished.
fn no(step: u32) -> Accept {
    Accept::No { step }
}

/// What the checker answers to the certificate of these lines.
fn answer(rt: &impl Abort, alloc: Global, given: &Given, lines: &str, tally: &mut Tally) -> Accept {
    let mut file = Text::new(alloc);
    append_lines(&mut file, "jescert 1; rounds 0; cond A 0");
    append_lines(&mut file, lines);
    append_lines(&mut file, "end");
    let certs = parse_cert(alloc, file.as_slice()).expect(rt, "certificates");
    let block = certs.list.as_slice().first().expect(rt, "a certificate");
    answer_to(rt, alloc, given, &block.2, tally)
}

/// Asserts the answers to certificates of these lines.
fn expect_answers(rt: &impl Abort, alloc: Global, cases: &[(&str, Accept)]) {
    let problems = given_problems(alloc);
    let given = problem_of(rt, &problems, 0);
    let mut tally = Tally::new();
    for (lines, wanted) in cases {
        let found = answer(rt, alloc, given, lines, &mut tally);
        assert_eq!(rt; found, *wanted, "{lines}");
    }
}

#[test]
fn trees(rt: HostRuntime) {
    let cases: [(&str, Accept); 9] = [
        ("s 1; c 1; c 0", YES),
        ("s 1; c 0; c 1", no(1)),
        ("s 1; c 1", no(2)),
        ("s 1; c 1; c 0; c 0", no(3)),
        ("s 2; c 1; c 0", no(0)),
        ("", no(0)),
        ("s 1; s 1", no(1)),
        ("s 1; c 2", no(1)),
        ("s 0", no(0)),
    ];
    expect_answers(&rt, rt.alloc(), &cases);
}

#[test]
fn lines_of_atoms(rt: HostRuntime) {
    let cases: [(&str, Accept); 7] = [
        ("t 5 1 1 0; s 2; s 1; c 1; c 0; s 1; c 1; c 0", YES),
        ("t 5 1 2 0", no(0)),
        ("t 5 1 -1 0", no(0)),
        ("t 5 1 1 1", no(0)),
        ("t 5 0", no(0)),
        ("t 5 1 2147483649 0", no(0)),
        ("s 1; t 5 1 1 0", no(1)),
    ];
    expect_answers(&rt, rt.alloc(), &cases);
}

#[test]
fn lines_of_arithmetic(rt: HostRuntime) {
    let cases: [(&str, Accept); 11] = [
        ("r 2 1 -1 1; q 1 0 1 1 1 -1 0; s 1; c 1; c 0", YES),
        (
            "t -1 1 1 0; r 2 -1 2 1; q 1 0 1 1 1 -2 0; s 1; c 1; s 2; m 0; c 0",
            YES,
        ),
        (
            "t -1 1 1 0; r 2 -1 2 1; q 1 0 1 1 1 -2 0; s 1; s 2; m 0",
            no(5),
        ),
        ("r 2 1 -1 1; q 1 0 1 1 1 0 0", no(1)),
        ("r 2 1 -1 1; q 1 0 1 2 1 -1 0", no(1)),
        ("r 2 1 -1 2; q 1 0 1 1 1 -1 0; s 1", no(2)),
        ("t -1 1 1 0; r 2 1 -2 1; q 1 0 1 1 1 0 0", no(2)),
        ("r 1 1 1; q 1 0 0 0 1 0 1 1 0", no(1)),
        ("r 2 1 -1 0", no(0)),
        ("r 1 2 1", no(0)),
        ("q 1 0 1 1 1 -1 0", no(0)),
    ];
    expect_answers(&rt, rt.alloc(), &cases);
}

#[test]
fn lines_of_congruence(rt: HostRuntime) {
    let cases: [(&str, Accept); 4] = [
        ("g 0 0; s 1; c 1; c 0", YES),
        ("g 0 0; s 1; m 0", no(2)),
        ("g 0 1", no(0)),
        ("g 0 -1", no(0)),
    ];
    expect_answers(&rt, rt.alloc(), &cases);
}
