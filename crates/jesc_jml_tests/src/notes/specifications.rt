//! Specifications, and where they end.

use crate::reading::{FILE_SPECIFICATION, SPECIFICATION, expect_from, expect_rows, expect_texts};

/// What stands behind each text, and doesn't belong to it.
const ENDINGS: [&str; 4] = [" )", " goto b", " nowarn", " import a;"];

/// Specifications as a whole.
const TEXTS: &str = r"
# Cases with their headings and clauses.
requires a;
pre a;
requires a; requires b;
requires a; pre b; requires c;
ensures a;
post a;
ensures a; post b;
requires a; ensures b;
assignable x;
signals_only E;
requires a; assignable x; ensures b;
ensures b; assignable x;
requires a == \old(b) + 1;
ensures \result >= 0 && !b;
also requires a;
also ensures a;
also behavior
also private normal_behavior requires a;
behavior
behaviour
normal_behavior
normal_behaviour
exceptional_behavior
exceptional_behaviour
public behavior
protected behavior
private behavior
public normal_behavior ensures a;
protected exceptional_behaviour signals (E) a;
private behaviour requires a; requires b;
normal_behavior requires a; assignable a[i]; ensures b;
exceptional_behavior requires a; assignable \nothing; signals (E e) b; signals_only E;
behavior requires a; ensures b; signals (E) c; signals_only E; assignable x;
requires a; also requires b;
also ensures a; also requires b; requires c; also behavior
normal_behavior ensures a; also exceptional_behavior signals (E);
exceptional_behavior also ensures a;
normal_behavior also signals_only E;
public behavior also private behavior also behavior
# The words are names elsewhere.
requires requires;
ensures also == behavior;
requires old + forall;
assignable in, ghost.model;
# Store references.
assignable \nothing;
modifies \nothing;
modifiable \nothing;
assigns \nothing;
assignable \everything;
modifies \everything;
modifiable x;
assigns x;
modifies x;
assignable this;
assignable this.f;
assignable a.b.c;
assignable o.*;
assignable this.*;
assignable a.b.*;
assignable a[i];
assignable a[i + 1];
assignable a[0..n];
assignable a[i - 1..a.length];
assignable a[*];
assignable this.a[*];
assignable a[i].f;
assignable a[i][j];
assignable a[i].*;
assignable a[i][*];
assignable a[i][j..k];
assignable a[i].f[j];
assignable a[b[0]..c[1]];
assignable x, y;
assignable a[i], b[*], o.*, this.f, c[0..n];
assignable x; assignable \nothing; assigns y;
assignable x, x;
# Clauses of exceptions.
signals (E e) a;
signals (E) a;
signals (E e);
signals (E);
exsures (E e) a;
exsures (E) a;
exsures (E e);
exsures (E);
signals (E e) a == b; exsures (F) c;
signals (signals also) old;
signals_only \nothing;
signals_only E, F;
signals_only E, F, G;
signals_only E; signals_only \nothing;
";

#[test]
fn texts(rt: HostRuntime) {
    expect_texts(&rt, rt.alloc(), SPECIFICATION, TEXTS, &ENDINGS);
}

/// Specifications with what doesn't belong to them.
const BEHIND: &str = r"
# A clause that the heading doesn't allow.
normal_behavior signals (E) a; # up to 15
normal_behaviour requires a; signals (E) b; # up to 28
normal_behavior ensures a; exsures (E) b; # up to 26
normal_behavior ensures a; signals_only E; # up to 26
normal_behavior signals_only \nothing; # up to 15
exceptional_behavior ensures a; # up to 20
exceptional_behaviour requires a; post b; # up to 33
exceptional_behavior signals (E) a; ensures b; # up to 35
requires a; also public normal_behavior ensures b; signals (E) c; # up to 50
# A `requires` behind another clause.
ensures a; requires b; # up to 10
requires a; assignable x; pre b; # up to 25
behavior signals_only E; requires b; # up to 24
# A case without `also`.
behavior behavior # up to 8
requires a; public behavior # up to 11
requires a; normal_behavior # up to 11
behavior ensures a; exceptional_behavior # up to 19
# Other words and signs.
requires a; ; # up to 11
requires a;; # up to 11
requires a; pure # up to 11
ensures a; helper # up to 10
requires a; static # up to 11
requires a; invariant b; # up to 11
requires a; ghost int x; # up to 11
assignable x; in g; # up to 13
behavior a; # up to 8
requires a; \nothing; # up to 11
";

#[test]
fn endings(rt: HostRuntime) {
    expect_rows(&rt, rt.alloc(), SPECIFICATION, BEHIND);
}

/// Whole files.
const FILES: &str = r"
//@ requires a;¶//@ ensures b;¶int x; # up to 30
/*@ requires a¶  @  ; */
/*@ requires a; */ //@ also¶ // none¶ //@ ensures b;¶//@ in g; # up to 52
/*@ requires a; */ ensures b; # up to 15
/*@ behavior */ requires a; # up to 12
/*@ requires a; */ also /*@ ensures b; */ # up to 15
/*@ requires a; */ void m() {} # up to 15
# Unexpected tokens.
 # token end of file at the end
requires a; # token requires at 1:1
assume a; # token assume at 1:1
/*@ requires a */ ; # token ; at 1:19
/*@ requires */ a /*@ ; */ # token a at 1:17
/*@ also */ requires a; # token requires at 1:13
/*@ public */ behavior # token behavior at 1:15
/*@ assignable a */ .*; # token . at 1:21
/*@ assignable a[i */ ]; # token ] at 1:23
/*@ signals */ (E) a; # token ( at 1:16
//@ requires a;¶//@ also¶int x; # token int at 3:1
# Words that code leaves out, where they stand in code.
record A() {} # left out record at 1:1
/*@ also */ enum E {} # left out enum at 1:13
/*@ public */ double m(); # left out double at 1:15
/*@ requires */ assert a; # left out assert at 1:17
";

#[test]
fn files(rt: HostRuntime) {
    expect_rows(&rt, rt.alloc(), FILE_SPECIFICATION, FILES);
}

/// From the token on whose number stands in front.
const FROM_TOKENS: &str = r"
0 /*@ requires a; ensures b; also behavior */ # all
1 /*@ requires a; ensures b; also behavior */ # token a at 1:14
2 /*@ requires a; ensures b; also behavior */ # token ; at 1:15
3 /*@ requires a; ensures b; also behavior */ # all
4 /*@ requires a; ensures b; also behavior */ # token b at 1:25
5 /*@ requires a; ensures b; also behavior */ # token ; at 1:26
6 /*@ requires a; ensures b; also behavior */ # all
7 /*@ requires a; ensures b; also behavior */ # all
8 /*@ requires a; ensures b; also behavior */ # token end of file at the end
9 /*@ requires a; ensures b; also behavior */ # no tokens
# At and past the limit of depth.
3 //@ requires a; requires ⟨199 (⟩b⟨199 )⟩; # all
3 //@ requires a; requires ⟨200 (⟩ # deep at 1:225
3 //@ requires a; ensures ⟨199 - ⟩( # deep at 1:423
";

#[test]
fn from_a_token_on(rt: HostRuntime) {
    expect_from(&rt, rt.alloc(), FILE_SPECIFICATION, FROM_TOKENS);
}
