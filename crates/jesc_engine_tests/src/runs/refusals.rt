use crate::runs::{Contents, NOTHING, UP, ends_so};
use jesc_engine::Status;
use jesc_text::OutOfMemory;
use std::alloc::Global;
use std::test::Fail;

/// Four quantifiers, one in another.
const DEEP: &[u8] = b"class A {
  //@ requires (\\forall int a; 0 <= a && a < 1; (\\forall int b; 0 <= b && b < 1; (\\forall int c; 0 <= c && c < 1; (\\forall int d; 0 <= d && d < 1; true))));
  static void f() { }
}
";

/// A content, and what is written of it.
type Case = (&'static [u8], &'static str);

const LEXICAL: [Case; 6] = [
    (
        b"class A { } // \\u0041 \xff\n",
        "A.java:1:23: refused: L1 not UTF-8\n",
    ),
    (
        b"class Cut {\n  /*@ ensures",
        "A.java:2:3: refused: L2 comment not closed\n",
    ),
    (
        b"class A { int x = 3; # }\n",
        "A.java:1:22: refused: L3 character not in the grammar: #\n",
    ),
    (
        b"class A { int x = 1__; }\n",
        "A.java:1:19: refused: L4 bad number\n",
    ),
    (
        b"class A { # } // \\u0041\n",
        "A.java:1:18: refused: L5 Unicode escape\n",
    ),
    (
        b"class A { } //+ESC@ ensures true;\n",
        "A.java:1:13: refused: L6 conditional annotation\n",
    ),
];

const SYNTACTIC: [Case; 5] = [
    (
        b"class A { int x = ; }\n",
        "A.java:1:19: refused: S1 unexpected token: ;\n",
    ),
    (
        b"class A {\n",
        "A.java:2:1: refused: S1 unexpected token: end of file\n",
    ),
    (
        b"import x; class A { }\n",
        "A.java:1:1: refused: S2 left-out word: import\n",
    ),
    (
        b"class Asm {\n  static void f(int x) {\n    //@ assume x > 0;\n  }\n}\n",
        "A.java:3:9: refused: S2 left-out word: assume\n",
    ),
    (DEEP, "A.java:2:116: refused: S3 nested too deeply\n"),
];

const OUTSIDE: [Case; 2] = [
    (
        b"class A { int x; }\n",
        "A.java:1:11: refused: P1 outside the first profile: int\n",
    ),
    (
        b"interface I {\n  //@ ensures \\result > 0;\n  int m();\n}\n",
        "A.java:1:1: refused: P1 outside the first profile: interface\n",
    ),
];

/// Whether a file with this content is refused so.
fn is_refused(alloc: Global, case: Case) -> Result<bool, OutOfMemory> {
    let (content, err) = case;
    ends_so(
        alloc,
        &["--esc", "A.java"],
        &[("A.java", content)],
        (&[], &[], &[]),
        (Status::Refused, "", err),
    )
}

/// Whether each of these files is refused so.
fn are_refused(alloc: Global, cases: &[Case]) -> Result<bool, OutOfMemory> {
    for case in cases {
        if !is_refused(alloc, *case)? {
            return Ok(false);
        }
    }
    Ok(true)
}

#[test]
fn a_file_without_tokens_is_refused(rt: HostRuntime) -> Result<(), Fail> {
    assert!(rt; are_refused(rt.alloc(), &LEXICAL)?);
    Ok(())
}

#[test]
fn a_file_outside_the_grammar_is_refused(rt: HostRuntime) -> Result<(), Fail> {
    assert!(rt; are_refused(rt.alloc(), &SYNTACTIC)?);
    Ok(())
}

#[test]
fn a_file_outside_the_profile_is_refused(rt: HostRuntime) -> Result<(), Fail> {
    assert!(rt; are_refused(rt.alloc(), &OUTSIDE)?);
    Ok(())
}

/// Words, and how a call with them ends.
type Call = (&'static [&'static str], Status, &'static str);

/// Calls over files of which some are refused.
const CALLS: [Call; 7] = [
    // a class has the name of an earlier one
    (
        &["--esc", "Up.java", "Up.java"],
        Status::Refused,
        "Up.java:1:7: refused: P1 outside the first profile: Up\n",
    ),
    // the files are read in their order
    (
        &["--esc", "Missing.java", "Cut.java"],
        Status::ReadFault,
        "Missing.java: cannot read\n",
    ),
    (
        &["--esc", "Cut.java", "Missing.java"],
        Status::Refused,
        "Cut.java:2:3: refused: L2 comment not closed\n",
    ),
    (
        &["--esc", "Up.java", "Missing.java"],
        Status::ReadFault,
        "Missing.java: cannot read\n",
    ),
    (
        &["--esc", "Up.java", "Field.java"],
        Status::Refused,
        "Field.java:1:11: refused: P1 outside the first profile: int\n",
    ),
    // what leaves the first profile comes behind all other refusals
    (
        &["--esc", "Field.java", "Value.java"],
        Status::Refused,
        "Value.java:1:19: refused: S1 unexpected token: ;\n",
    ),
    (
        &["--esc", "Field.java", "Missing.java"],
        Status::ReadFault,
        "Missing.java: cannot read\n",
    ),
];

#[test]
fn the_first_refusal_ends_the_call(rt: HostRuntime) -> Result<(), Fail> {
    let files: Contents = &[
        ("Up.java", UP.as_bytes()),
        ("Cut.java", b"class Cut {\n  /*@ ensures"),
        ("Field.java", b"class A { int x; }\n"),
        ("Value.java", b"class A { int x = ; }\n"),
    ];
    for (words, status, err) in CALLS {
        assert!(rt; ends_so(rt.alloc(), words, files, (&[], &[], &[]), (status, "", err))?);
    }
    Ok(())
}

#[test]
fn a_large_file_is_refused(rt: HostRuntime) -> Result<(), Fail> {
    let at = vec![in rt.alloc(); 32u8; 1048576]?;
    let over = vec![in rt.alloc(); 32u8; 1048577]?;
    let cases: [(&[u8], Status, &str, &str); 2] = [
        (at.as_slice(), Status::Verified, NOTHING, ""),
        (
            over.as_slice(),
            Status::Refused,
            "",
            "Spaces.java: refused: F1 file too large\n",
        ),
    ];
    for (content, status, out, err) in cases {
        assert!(rt;
            ends_so(
                rt.alloc(),
                &["--esc", "Spaces.java"],
                &[("Spaces.java", content)],
                (&[], &[], &[]),
                (status, out, err)
            )?
        );
    }
    Ok(())
}

#[test]
fn files_too_large_together_are_refused(rt: HostRuntime) -> Result<(), Fail> {
    let spaces = vec![in rt.alloc(); 32u8; 1048576]?;
    let files: Contents = &[("Spaces.java", spaces.as_slice()), ("One.java", b"\n")];
    let mut at = ["Spaces.java"; 9];
    at[0] = "--esc";
    let mut over = ["Spaces.java"; 10];
    over[0] = "--esc";
    over[9] = "One.java";
    let cases: [(&[&str], Status, &str, &str); 2] = [
        (&at, Status::Verified, NOTHING, ""),
        (
            &over,
            Status::Refused,
            "",
            "refused: F2 files too large together: 8388609\n",
        ),
    ];
    for (words, status, out, err) in cases {
        assert!(rt;
            ends_so(
                rt.alloc(),
                words,
                files,
                (&[], &[], &[]),
                (status, out, err)
            )?
        );
    }
    Ok(())
}
