//! Texts of files with what is read of them, or the place of the refusal.

mod files;
mod methods;

use files::FILES;
use jesc_first::{Class, Method, Names, Part, ReadError, Stmt, read_classes};
use jesc_lexer::{Tokens, lex};
use jesc_text::List;
use methods::METHODS;
use std::alloc::Global;
use std::process::Abort;
use std::test::Fail;

/// What is expected: one class with so many methods, or another number of classes, or the place of the refusal.
#[derive(Debug, Drop, Clone, Copy)]
enum Want {
    Methods(usize),
    Classes(usize),
    Token(u32, u32),
    End,
}

fn place(tokens: &Tokens, at: u32) -> Want {
    match tokens.list.as_slice().get(at as usize) {
        Some(token) => Want::Token(token.span.from, token.span.to),
        None => Want::End,
    }
}

fn answer(tokens: &Tokens, outcome: &Result<List<Class>, ReadError>) -> Option<Want> {
    match outcome {
        Ok(classes) => match classes.as_slice() {
            [class] => Some(Want::Methods(class.methods.len())),
            all => Some(Want::Classes(all.len())),
        },
        Err(ReadError::Outside { at }) => Some(place(tokens, *at)),
        Err(ReadError::OutOfMemory) => None,
    }
}

/// What is read of a file without earlier ones. None where it has no tokens.
fn read(alloc: Global, bytes: &[u8]) -> Option<Want> {
    if bytes.len() > 1048576 {
        return None;
    }
    let Ok(tokens) = lex(alloc, 0, bytes) else {
        return None;
    };
    let mut names = Names::new(alloc);
    let outcome = read_classes(alloc, &tokens, &mut names);
    answer(&tokens, &outcome)
}

fn is_wanted(got: Option<Want>, want: Want) -> bool {
    match (got, want) {
        (Some(Want::Methods(a)), Want::Methods(b)) => a == b,
        (Some(Want::Classes(a)), Want::Classes(b)) => a == b,
        (Some(Want::Token(a, b)), Want::Token(c, d)) => a == c && b == d,
        (Some(Want::End), Want::End) => true,
        _ => false,
    }
}

/// Asserts what is read of each text. The rows are taken by reference: by value they cost the proof minutes.
fn expect_rows(rt: &impl Abort, alloc: Global, rows: &[(&str, Want)]) {
    for (text, want) in rows {
        let got = read(alloc, text.as_bytes());
        assert!(rt; is_wanted(got, *want), "{text}");
    }
}

#[test]
fn reads_files(rt: HostRuntime) {
    expect_rows(&rt, rt.alloc(), &FILES);
}

#[test]
fn reads_methods(rt: HostRuntime) {
    expect_rows(&rt, rt.alloc(), &METHODS);
}

#[test]
fn keeps_the_names_of_earlier_files(rt: HostRuntime) -> Result<(), Fail> {
    let Ok(first) = lex(rt.alloc(), 0, b"class A { } class B { }") else {
        panic!(rt; "no tokens");
    };
    let Ok(second) = lex(rt.alloc(), 1, b"class C { } class B { }") else {
        panic!(rt; "no tokens");
    };
    let mut names = Names::new(rt.alloc());
    assert!(rt; names.add(b"D").is_ok());
    let outcome = read_classes(rt.alloc(), &first, &mut names);
    assert!(rt; is_wanted(answer(&first, &outcome), Want::Classes(2)));
    assert!(rt; matches!(names.slot_of(b"B"), Some(2)));
    let outcome = read_classes(rt.alloc(), &second, &mut names);
    assert!(rt; is_wanted(answer(&second, &outcome), Want::Token(18, 19)));
    Ok(())
}

/// A class with three methods.
const WHOLE: &str =
    "class A {\n//@ ensures \\result == x + 1;\nstatic int f(int x) { int y = x + 1; y = y - x; return y; }\n//@ requires a < b;\nstatic void g(int a, int b) {\n//@ assert a <= b;\n}\nstatic int h() { int k = 2147483647; return k - 1 - 2 + 3 - 4 + 5 - 6 + 7 - 8 + 9; } }\n";

#[test]
fn answers_each_cut(rt: HostRuntime) -> Result<(), Fail> {
    let whole = WHOLE.as_bytes();
    assert!(rt; whole.len() < 1000);
    for len in 0..whole.len() {
        let got = read(rt.alloc(), &whole[..len]);
        let is_whole = is_wanted(got, Want::Methods(3));
        assert_eq!(rt; is_whole, len + 1 == whole.len(), "{len}");
    }
    Ok(())
}

/// Where the first promise and the end of a method stand, and how many names and statements it has.
fn shape(method: &Method) -> (u32, u32, usize, usize) {
    let by = match method.promises.as_slice() {
        [clause, ..] => clause.at,
        [] => 0,
    };
    (by, method.exit, method.parameters.len(), method.body.len())
}

/// The first operation of a method's first statement: its offset, and the slots to its left and right.
fn first_operation(method: &Method) -> Option<(u32, Part, Part)> {
    let [Stmt::Local { value, .. }, ..] = method.body.as_slice() else {
        return None;
    };
    match value.rest.as_slice() {
        [operation, ..] => Some((operation.at, value.first, operation.part)),
        [] => None,
    }
}

#[test]
fn keeps_places_and_slots(rt: HostRuntime) -> Result<(), Fail> {
    let whole = WHOLE.as_bytes();
    assert!(rt; whole.len() < 1000);
    let Ok(tokens) = lex(rt.alloc(), 0, whole) else {
        panic!(rt; "no tokens");
    };
    let mut names = Names::new(rt.alloc());
    let Ok(classes) = read_classes(rt.alloc(), &tokens, &mut names) else {
        panic!(rt; "no classes");
    };
    let [class] = classes.as_slice() else {
        panic!(rt; "not one class");
    };
    let [first, second, third] = class.methods.as_slice() else {
        panic!(rt; "not three methods");
    };
    assert_eq!(rt; shape(first), (22, 88, 1, 2));
    assert_eq!(rt; shape(second), (0, 169, 2, 1));
    assert_eq!(rt; shape(third).3, 1);
    assert!(rt;
        matches!(
            first_operation(first),
            Some((72, Part::Slot(0), Part::Number(1)))
        )
    );
    Ok(())
}
