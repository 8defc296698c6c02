//! Words that the language leaves out, in expressions.

use crate::reading::{CODE, NOTE, expect_rows, expect_words};

/// The words that the language leaves out of code alone.
const CODE_WORDS: &str = r"
import
enum
record
switch
case
default
do
finally
synchronized
volatile
transient
native
strictfp
char
byte
short
float
double
assert
var
";

/// At other places in code than behind a name.
const CODES: &str = r"
switch (a) # left out switch at 1:1
assert a # left out assert at 1:1
a + char # left out char at 1:5
(byte) a # left out byte at 1:2
(int) float # left out float at 1:7
a.default # left out default at 1:3
super.enum # left out enum at 1:7
m(short a) # left out short at 1:3
new double[3] # left out double at 1:5
a instanceof char[] # left out char at 1:14
a ? import # left out import at 1:5
a ? b case # left out case at 1:7
a[0 var] # left out var at 1:5
new A record # left out record at 1:7
super.a var # left out var at 1:9
# With annotations beside the code.
a + /*@ \sum */ # left out \sum at 1:9
(a /*@ assume */ ) # left out assume at 1:8
/*@ old */ # left out old at 1:5
";

#[test]
fn left_out_of_code(rt: HostRuntime) {
    expect_words(
        &rt,
        rt.alloc(),
        CODE,
        (&["(a "], ")"),
        "left out ",
        CODE_WORDS,
    );
    expect_words(&rt, rt.alloc(), NOTE, (&["(a "], ")"), "token ", CODE_WORDS);
    expect_rows(&rt, rt.alloc(), CODE, CODES);
}

/// The words that it leaves out of annotations alone.
const NOTE_WORDS: &str = r"
assume
axiom
nowarn
diverges
measured_by
decreases
decreasing
constraint
initially
maps
accessible
callable
captures
forall
old
loop_modifies
loop_assigns
nullable_by_default
\sum
\product
\num_of
\max
\min
\reach
\type
\typeof
\bigint
\real
\such_that
\not_specified
";

/// At other places in annotations than behind a name.
const NOTES: &str = r"
\sum # left out \sum at 1:1
\max(a) # left out \max at 1:1
a + \product # left out \product at 1:5
a.\type # left out \type at 1:3
(\num_of int i; 0 < i && i < n; a) # left out \num_of at 1:2
new \bigint() # left out \bigint at 1:5
m(a, \min(b)) # left out \min at 1:6
(\forall \real i; a) # left out \real at 1:10
(\forall int i assume # left out assume at 1:16
(\forall int i; 0 < old && i < n; a) # left out old at 1:21
(\exists int i; 0 < i axiom # left out axiom at 1:23
\old old(a) # left out old at 1:6
a ? b forall : c # left out forall at 1:7
super.a maps # left out maps at 1:9
(a requires_redundantly) # left out requires_redundantly at 1:4
(a _redundantly) # left out _redundantly at 1:4
new A ensures_redundantly # left out ensures_redundantly at 1:7
(a x_redundantly) # left out x_redundantly at 1:4
# A word that ends so, but with a backslash, is not left out.
(a \x_redundantly) # token \x_redundantly at 1:4
";

#[test]
fn left_out_of_annotations(rt: HostRuntime) {
    expect_words(
        &rt,
        rt.alloc(),
        NOTE,
        (&["(a "], ")"),
        "left out ",
        NOTE_WORDS,
    );
    expect_words(&rt, rt.alloc(), CODE, (&["(a "], ")"), "token ", NOTE_WORDS);
    expect_rows(&rt, rt.alloc(), NOTE, NOTES);
}
