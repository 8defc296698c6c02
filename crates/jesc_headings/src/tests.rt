//! Tables of programs: in each row the files, with ` ‖ ` between, and behind ` # ` the names of the classes in the order
//! of their ids, the predefined ones left out, or the rule broken.

use crate::member_rows::{BROKEN, KEPT};
use crate::parsed::Parsed;
use crate::shown::put_program;
use jesc_classes::{Rule, RuleError};
use jesc_names::headings;
use jesc_rows::{is_row, parts_of, put, put_count, put_text, put_word, said};
use jesc_text::Text;
use jesc_tree::{Class, Program};
use std::alloc::Global;
use std::process::Abort;

/// Ids, in one file and in several.
const IDS: &str = r"
 # 
class A { } # A
class B { } class A { } # B A
class A extends B { } class B { } # B A
class A extends B { } class B { } class C { } # B A C
class A extends C { } class B { } class C { } # B C A
class A implements I, J { } interface J extends I { } interface I { } # I J A
interface I extends J, K { } interface K { } interface J { } # K J I
class A extends RuntimeException { } # A
class A extends B { } ‖ class B { } # B A
class C extends B { } ‖ class A { } ‖ class B { } # A B C
class A extends Object { } # A
public final class A { } # A
abstract class A { } public abstract class B extends A { } # A B
public abstract interface I { } # I
";

/// The rules, each at its part.
const REFUSED: &str = r"
class A extends B { } # N1 at 1:17: B
class A implements I { } # N1 at 1:20: I
class A extends a { } # N1 at 1:17: a
interface I extends J { } # N1 at 1:21: J
class A { } class A { } # N2 at 1:19: A
class A { } ‖ class A { } # N2 at 1:7: A
class Object { } # N2 at 1:7: Object
interface Error { } # N2 at 1:11: Error
class A extends A { } # N3 at 1:17: A
class A extends B { }¶class B extends A { } # N3 at 1:17: B
class A extends B { } class B extends C { } class C extends B { } # N3 at 1:39: C
class A extends B { } ‖ class B extends A { } # N3 at 1:17: B
interface I extends J { } interface J extends I { } # N3 at 1:21: J
class A implements A { } # N3 at 1:20: A
class B { } class A extends B implements I { } interface I extends J, I { } interface J { } # N3 at 1:71: I
public public class A { } # N9 at 1:8: public
private class A { } # N9 at 1:1: private
final interface I { } # N9 at 1:1: final
static class A { } # N9 at 1:1: static
class A extends I { } interface I { } # N9 at 1:17: I
final class A { } class B extends A { } # N9 at 1:35: A
class A implements B { } class B { } # N9 at 1:20: B
interface I extends A { } class A { } # N9 at 1:21: A
interface I extends Object { } # N9 at 1:21: Object
class A implements Throwable { } # N9 at 1:20: Throwable

# the first in the order of the words
private class A extends B { } # N9 at 1:1: private
class A { } class A extends B { } # N2 at 1:19: A
class A extends B implements C { } # N1 at 1:17: B
class A extends A { } class A { } # N3 at 1:17: A
class A { } ‖ class B extends C { } ‖ private class D { } # N1 at 1:17: C

# a name means the first class that has it
class A { } class B extends A { } class A { } # N2 at 1:41: A
";

/// Appends the names of the classes in the order of their ids, the predefined ones left out.
fn put_names(into: &mut Text, classes: &[Class]) {
    for class in classes.iter().skip(7) {
        put_word(into, said(&class.name));
    }
}

/// Appends the number of a rule on headings.
fn put_rule(into: &mut Text, rule: Rule) {
    match rule {
        Rule::N1 => put(into, b"N1"),
        Rule::N2 => put(into, b"N2"),
        Rule::N3 => put(into, b"N3"),
        Rule::N4 => put(into, b"N4"),
        Rule::N5 => put(into, b"N5"),
        Rule::N6 => put(into, b"N6"),
        Rule::N7 => put(into, b"N7"),
        Rule::N8 => put(into, b"N8"),
        Rule::N9 => put(into, b"N9"),
        Rule::Y1 => put(into, b"Y1"),
        _ => put(into, b"another rule"),
    }
}

/// Appends the rule that is broken, its place and its word.
fn put_error(into: &mut Text, error: &RuleError) {
    match error {
        RuleError::Refused {
            number,
            place,
            word,
        } => {
            put_rule(into, *number);
            put(into, b" at ");
            put_count(into, place.line as usize);
            put(into, b":");
            put_count(into, place.col as usize);
            put(into, b": ");
            put(into, word.as_slice());
        }
        RuleError::Limit {
            number: _,
            count: _,
        } => put(into, b"a limit"),
        RuleError::OutOfMemory => put(into, b"out of memory"),
    }
}

/// What is looked at in a program.
#[derive(Drop, Clone, Copy)]
enum Shown {
    /// The names of the classes.
    Names,
    /// The classes with their members.
    Tables,
}

/// Appends what is looked at in the program.
fn put_shown(into: &mut Text, shown: Shown, program: &Program) {
    match shown {
        Shown::Names => put_names(into, program.classes()),
        Shown::Tables => put_program(into, program),
    }
}

/// What the headings of these files give, in one line.
fn found(alloc: Global, shown: Shown, files: &str) -> Text {
    let mut out = Text::new(alloc);
    let mut parsed = Parsed::new(alloc);
    for file in files.split(" ‖ ") {
        let mut text = Text::new(alloc);
        put_text(&mut text, file);
        match parsed.add(alloc, text.as_slice()) {
            Ok(_) => {}
            Err(_) => put(&mut out, b"no file "),
        }
    }
    match &headings(alloc, parsed.files()) {
        Ok(program) => put_shown(&mut out, shown, program),
        Err(error) => put_error(&mut out, error),
    }
    out
}

/// Asserts what each row says.
fn expect_rows(rt: &impl Abort, alloc: Global, shown: Shown, table: &str) {
    for line in table.lines() {
        if is_row(line) {
            let (files, wanted) = parts_of(line);
            let found = found(alloc, shown, files);
            let line = said(&found);
            assert!(rt; line == wanted, "{files}: {line}");
        }
    }
}

#[test]
fn ids_in_order(rt: HostRuntime) {
    expect_rows(&rt, rt.alloc(), Shown::Names, IDS);
}

#[test]
fn the_first_rule_broken(rt: HostRuntime) {
    expect_rows(&rt, rt.alloc(), Shown::Names, REFUSED);
}

#[test]
fn members_in_tables(rt: HostRuntime) {
    expect_rows(&rt, rt.alloc(), Shown::Tables, KEPT);
}

#[test]
fn the_first_rule_on_members_broken(rt: HostRuntime) {
    expect_rows(&rt, rt.alloc(), Shown::Tables, BROKEN);
}
