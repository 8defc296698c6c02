//! Words that the language leaves out of annotations, and words that look like them.

use crate::reading::{MEMBER, SPECIFICATION, expect_before_words, expect_rows, expect_words};

/// Words that are left out of annotations.
const LEFT_OUT: &str = r"
assume
axiom
nowarn
diverges
measured_by
decreases
decreasing
constraint
initially
maps
accessible
callable
captures
forall
old
loop_modifies
loop_assigns
nullable_by_default
\sum
\product
\num_of
\max
\min
\reach
\type
\typeof
\bigint
\real
\such_that
\not_specified
requires_redundantly
ensures_redundantly
assignable_redundantly
signals_redundantly
invariant_redundantly
represents_redundantly
_redundantly
x_redundantly
";

/// Words that are left out of code alone, and words that are left out nowhere.
const TOKENS: &str = r"
import
enum
record
switch
assert
var
redundantly
requires_redundant
requires_redundantly2
assumes
\summa
\old
\x_redundantly
";

/// The word that ends as those left out, but with a backslash, at other places than the first.
const SPECIFICATIONS: &str = r"
also \x_redundantly a; # token \x_redundantly at 1:6
public \x_redundantly a; # token \x_redundantly at 1:8
requires a; also \x_redundantly a; # token \x_redundantly at 1:18
requires a;\x_redundantly # up to 11
behavior ensures a;\x_redundantly # up to 19
";

#[test]
fn in_specifications(rt: HostRuntime) {
    expect_words(
        &rt,
        rt.alloc(),
        SPECIFICATION,
        (&["", "also ", "public ", "requires a; also "], " a;"),
        "left out ",
        LEFT_OUT,
    );
    expect_before_words(
        &rt,
        rt.alloc(),
        SPECIFICATION,
        &["requires a;", "behavior ensures a;"],
        LEFT_OUT,
    );
    expect_words(
        &rt,
        rt.alloc(),
        SPECIFICATION,
        (&[""], " a;"),
        "token ",
        TOKENS,
    );
    expect_rows(&rt, rt.alloc(), SPECIFICATION, SPECIFICATIONS);
}

/// The same in members.
const MEMBERS: &str = r"
public \x_redundantly a; # token \x_redundantly at 1:8
invariant a \x_redundantly a; # token \x_redundantly at 1:13
invariant a;\x_redundantly # up to 12
";

#[test]
fn in_members(rt: HostRuntime) {
    expect_words(
        &rt,
        rt.alloc(),
        MEMBER,
        (&["", "public ", "invariant a "], " a;"),
        "left out ",
        LEFT_OUT,
    );
    expect_before_words(&rt, rt.alloc(), MEMBER, &["invariant a;"], LEFT_OUT);
    expect_words(&rt, rt.alloc(), MEMBER, (&[""], " a;"), "token ", TOKENS);
    expect_rows(&rt, rt.alloc(), MEMBER, MEMBERS);
}
