//! Members that stand in annotations, where they end, and where texts are refused.

use crate::reading::{FILE_MEMBER, MEMBER, expect_from, expect_rows, expect_texts};

/// What stands behind each text, and doesn't belong to it.
const ENDINGS: [&str; 4] = [" )", " goto b", " nowarn", " import a;"];

/// Invariants, represents clauses and fields.
const TEXTS: &str = r"
invariant a;
invariant a + 1 == b;
invariant invariant;
public invariant a;
protected invariant a;
private invariant a;
instance invariant a;
public instance invariant a;
private instance invariant a;
represents x = a;
represents x <- a;
represents x <- -a;
represents x = a[i] + 1;
represents represents <- represents;
public represents x = a;
protected represents x = a;
private represents x <- a;
ghost int x;
model int x;
ghost long x;
ghost boolean x;
model A x;
ghost int[] x;
model A[] x;
ghost int x = 1;
ghost int[] x = a.b;
ghost A x = null;
model int x = 1;
ghost int x; in g;
model int x; in g, h;
model A[] x; in g, h, k;
ghost boolean x = true; in g;
public ghost int x;
ghost public int x;
model instance int x;
instance model int x;
private nullable ghost A x = null; in g;
ghost non_null A[] x;
public model instance nullable A x; in g;
public pure helper spec_public model spec_protected instance int x;
public public ghost int x;
# The words are names elsewhere, but modifiers before the type.
ghost ghost x;
model model model;
ghost in in = in; in in;
ghost int pure;
ghost forall old; in axiom;
";

#[test]
fn texts(rt: HostRuntime) {
    expect_texts(&rt, rt.alloc(), MEMBER, TEXTS, &ENDINGS);
}

/// Where a member ends, or is refused.
const ROWS: &str = r"
# What doesn't belong to a member.
invariant a; invariant b; # up to 12
invariant a; in g; # up to 12
invariant a;; # up to 12
represents x = a; in g; # up to 17
represents x <- a; represents y <- b; # up to 18
ghost int x; ghost int y; # up to 12
ghost int x;; # up to 12
ghost int x; inside g; # up to 12
ghost int x; g; # up to 12
model int x; in g; in h; # up to 18
model int x; in g, h; requires a; # up to 21
model int x; in g; maps y; # up to 18
# A token that no member goes on with.
# Behind modifiers in another order or of another member.
 # token end of file at the end
public # token end of file at the end
a b; # token a at 1:1
; # token ; at 1:1
in g; # token in at 1:1
int x; # token int at 1:1
invariants a; # token invariants at 1:1
requires a; # token requires at 1:1
also invariant a; # token also at 1:1
static invariant a; # token static at 1:1
final ghost int x; # token final at 1:1
void m(); # token void at 1:1
public int x; # token int at 1:8
public behavior # token behavior at 1:8
instance public invariant a; # token invariant at 1:17
public private invariant a; # token invariant at 1:16
instance instance invariant a; # token invariant at 1:19
public instance instance invariant a; # token invariant at 1:26
pure invariant a; # token invariant at 1:6
public helper invariant a; # token invariant at 1:15
public instance public invariant a; # token invariant at 1:24
instance represents x = a; # token represents at 1:10
public instance represents x = a; # token represents at 1:17
public public represents x = a; # token represents at 1:15
nullable represents x = a; # token represents at 1:10
public static ghost int x; # token static at 1:8
# Invariants.
invariant # token end of file at the end
invariant a # token end of file at the end
invariant ; # token ; at 1:11
invariant a, b; # token , at 1:12
invariant a b; # token b at 1:13
invariant public a; # token public at 1:11
invariant = a; # token = at 1:11
# Represents clauses.
represents # token end of file at the end
represents this = a; # token this at 1:12
represents \result = a; # token \result at 1:12
represents x a; # token a at 1:14
represents x == a; # token == at 1:14
represents x.f = a; # token . at 1:13
represents x[0] = a; # token [ at 1:13
represents x, y = a; # token , at 1:13
represents x; # token ; at 1:13
represents x = ; # token ; at 1:16
represents x <- <- a; # token < at 1:17
represents x = a, b; # token , at 1:17
represents x <- a # token end of file at the end
# Fields.
ghost # token end of file at the end
ghost void x; # token void at 1:7
ghost final int x; # token final at 1:7
ghost pure x; # token ; at 1:13
ghost int # token end of file at the end
ghost int = 1; # token = at 1:11
ghost int[0] x; # token 0 at 1:11
ghost int[][] x; # token [ at 1:12
ghost int x[]; # token [ at 1:12
ghost int x, y; # token , at 1:12
ghost int x == 1; # token == at 1:13
ghost int x = ; # token ; at 1:15
ghost int x = 1 # token end of file at the end
# The same in the groups behind a field.
ghost int x in g; # token in at 1:13
ghost int x; in # token end of file at the end
ghost int x; in ; # token ; at 1:17
ghost int x; in int; # token int at 1:17
ghost int x; in this; # token this at 1:17
ghost int x; in g # token end of file at the end
ghost int x; in g h; # token h at 1:19
ghost int x; in g.h; # token . at 1:18
ghost int x; in g, ; # token ; at 1:20
ghost int x; in g, , h; # token , at 1:20
ghost int x; in \nothing; # token \nothing at 1:17
# Words that are left out.
ghost \bigint x; # left out \bigint at 1:7
public model \real x; # left out \real at 1:14
represents x \such_that a; # left out \such_that at 1:14
represents x <- \sum; # left out \sum at 1:17
invariant \typeof(a); # left out \typeof at 1:11
ghost int x; in \not_specified; # left out \not_specified at 1:17
public constraint a; # left out constraint at 1:8
";

#[test]
fn endings(rt: HostRuntime) {
    expect_rows(&rt, rt.alloc(), MEMBER, ROWS);
}

/// Whole files.
const FILES: &str = r"
//@ ghost int x;¶//@ in g;¶int y; # up to 26
/*@ ghost int x; */ in g; # up to 16
/*@ public */ //@ model¶/*@ int x; */ int y; # up to 34
//@ invariant a¶//@ && b;¶int y; # up to 25
/*@ represents x */ /*@ <- a; */
# Unexpected tokens.
invariant a; # token invariant at 1:1
public /*@ invariant a; */ # token public at 1:1
/*@ public */ invariant a; # token invariant at 1:15
/*@ invariant a */ ; # token ; at 1:20
/*@ represents x */ = a; # token = at 1:21
/*@ ghost */ int x; # token int at 1:14
/*@ ghost int */ x; # token x at 1:18
/*@ ghost int x */ = 1; # token = at 1:20
/*@ ghost int x; in */ g; # token g at 1:24
";

#[test]
fn files(rt: HostRuntime) {
    expect_rows(&rt, rt.alloc(), FILE_MEMBER, FILES);
}

/// At and past the limit of depth, from the token on whose number stands in front.
const DEEP: &str = r"
3 invariant a; invariant ⟨199 (⟩b⟨199 )⟩; # all
3 invariant a; invariant ⟨200 (⟩ # deep at 1:223
3 invariant a; represents x = ⟨199 - ⟩( # deep at 1:427
";

#[test]
fn deep(rt: HostRuntime) {
    expect_from(&rt, rt.alloc(), MEMBER, DEEP);
}
