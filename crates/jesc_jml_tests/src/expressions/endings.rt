//! Expressions with what goes on with none.

use crate::reading::{CODE, NOTE, expect_rows};

/// In code and in annotations.
const BOTH: &str = r"
a b # up to 1
a 0 # up to 1
a this # up to 1
a !b # up to 1
a = b # up to 1
a += b # up to 1
a++ # up to 1
a--b # up to 1
a+++b # up to 1
a : b # up to 1
a, b # up to 1
a] # up to 1
a { # up to 1
a @ b # up to 1
a instanceofs b # up to 1
a assert b # up to 1
0(b) # up to 1
this(a) # up to 4
a.b c # up to 3
a[0](b) # up to 4
a[0] = b # up to 4
m()() # up to 3
a.m()(b) # up to 5
a + b c # up to 5
a ? b : c : d # up to 9
(a) goto # up to 3
(a) int # up to 3
(a) assert b # up to 3
(a) = b # up to 3
(a) ++b # up to 3
(a) --b # up to 3
(a), b # up to 3
(a)] # up to 3
(a) b c # up to 5
((a)) b # up to 5
(0) b # up to 3
(this) b # up to 6
(a.b) c # up to 5
(a[0]) b # up to 6
(a()) (b) # up to 5
(a + b) c # up to 7
new A()(b) # up to 7
new int[3][0] # up to 10
new A[n][0].b # up to 8
new A[n](b) # up to 8
-new int[3][0] # up to 11
(a) new int[3][0] # up to 14
a + new int[3][0] # up to 14
a instanceof A b # up to 14
a instanceof A.b # up to 14
a instanceof int(b) # up to 16
a instanceof A[][0] # up to 16
";

#[test]
fn on_both_sides(rt: HostRuntime) {
    expect_rows(&rt, rt.alloc(), CODE, BOTH);
    expect_rows(&rt, rt.alloc(), NOTE, BOTH);
}

/// In annotations alone.
const NOTES: &str = r"
a .. b # up to 1
a \result # up to 1
a \sum # up to 1
a assume b # up to 1
(a) \sum # up to 3
(a) \forall # up to 3
\result(a) # up to 7
\old(a)(b) # up to 7
a ==> b c # up to 7
(\forall int i; 0 < i && i < n; a) b # up to 34
";

#[test]
fn in_annotations(rt: HostRuntime) {
    expect_rows(&rt, rt.alloc(), NOTE, NOTES);
}

/// In code alone.
const CODES: &str = r"
(a) \result # up to 3
(a) \old(b) # up to 3
a \sum # up to 1
a switch # up to 1
# With annotations and comments beside the code.
a /*@ + b */ - c # up to 1
a //@ .b # up to 1
(a) /*@ b */ # up to 3
m(a) /*@ [0] */ # up to 4
a /* + b */ - c
a // + b¶- c
";

#[test]
fn in_code(rt: HostRuntime) {
    expect_rows(&rt, rt.alloc(), CODE, CODES);
}
