//! Texts that begin no specification from some token on.

use crate::reading::{SPECIFICATION, expect_rows};

/// Texts in one annotation.
const ROWS: &str = r"
# Where a case has to begin.
 # token end of file at the end
; requires a; # token ; at 1:1
a; # token a at 1:1
invariant a; # token invariant at 1:1
in g; # token in at 1:1
\nothing; # token \nothing at 1:1
Requires a; # token Requires at 1:1
behaviors # token behaviors at 1:1
static behavior # token static at 1:1
instance behavior # token instance at 1:1
pure behavior # token pure at 1:1
void m(); # token void at 1:1
also # token end of file at the end
also also requires a; # token also at 1:6
also ; # token ; at 1:6
also pure # token pure at 1:6
also int m(); # token int at 1:6
requires a; also # token end of file at the end
requires a; also also requires b; # token also at 1:18
requires a; also void # token void at 1:18
behavior also signal (E) a; # token signal at 1:15
# Behind a visibility.
public # token end of file at the end
public requires a; # token requires at 1:8
public ensures a; # token ensures at 1:8
private assignable x; # token assignable at 1:9
public public behavior # token public at 1:8
public also behavior # token also at 1:8
public instance behavior # token instance at 1:8
public int m(); # token int at 1:8
requires a; also protected requires b; # token requires at 1:28
# Clauses of an expression.
requires # token end of file at the end
requires ; # token ; at 1:10
requires a # token end of file at the end
requires a, b; # token , at 1:11
requires a b; # token b at 1:12
requires a ensures b; # token ensures at 1:12
requires = a; # token = at 1:10
pre ) a; # token ) at 1:5
requires a; requires ; # token ; at 1:22
requires a; pre b); # token ) at 1:18
ensures # token end of file at the end
ensures ; # token ; at 1:9
ensures a also b; # token also at 1:11
post a]; # token ] at 1:7
requires a; ensures ; # token ; at 1:21
normal_behavior requires a; ensures # token end of file at the end
behavior requires public a; # token public at 1:19
ensures (a; # token ; at 1:11
# Store references.
assignable # token end of file at the end
assignable ; # token ; at 1:12
assigns , x; # token , at 1:9
modifies *; # token * at 1:10
modifiable 1; # token 1 at 1:12
assignable (x); # token ( at 1:12
assignable super.f; # token super at 1:12
assignable \result.f; # token \result at 1:12
assignable null; # token null at 1:12
assignable new A(); # token new at 1:12
assignable int; # token int at 1:12
assignable ..; # token .. at 1:12
# Behind a whole store.
assignable x # token end of file at the end
assignable x y; # token y at 1:14
assignable x + y; # token + at 1:14
assignable x(); # token ( at 1:13
assignable x = 1; # token = at 1:14
assignable x, ; # token ; at 1:15
assignable x, , y; # token , at 1:15
assignable x, \nothing; # token \nothing at 1:15
assignable x, \everything; # token \everything at 1:15
assignable \nothing # token end of file at the end
assignable \nothing, x; # token , at 1:20
assignable \nothing.*; # token . at 1:20
assignable \everything, x; # token , at 1:23
assignable \everything[0]; # token [ at 1:23
# Behind a dot.
assignable x.; # token ; at 1:14
assignable x.this; # token this at 1:14
assignable x.1; # token 1 at 1:14
assignable x.[0]; # token [ at 1:14
assignable x.\nothing; # token \nothing at 1:14
assignable x.*.f; # token . at 1:15
assignable x.*[0]; # token [ at 1:15
# In brackets.
assignable a[]; # token ] at 1:14
assignable a[..n]; # token .. at 1:14
assignable a[0..]; # token ] at 1:17
assignable a[0..n .. m]; # token .. at 1:19
assignable a[0..n; # token ; at 1:18
assignable a[0, 1]; # token , at 1:15
assignable a[* 1]; # token 1 at 1:16
assignable a[* .. n]; # token .. at 1:16
assignable a[0.. *]; # token * at 1:18
assignable a[0..n].f; # token . at 1:19
assignable a[0..n][0]; # token [ at 1:19
assignable a[*].f; # token . at 1:16
assignable a[*][0]; # token [ at 1:16
# Clauses of exceptions.
signals # token end of file at the end
signals E a; # token E at 1:9
signals ; # token ; at 1:9
signals () a; # token ) at 1:10
exsures (int e) a; # token int at 1:10
signals (\nothing); # token \nothing at 1:10
signals (E, F) a; # token , at 1:11
signals (E[] e) a; # token [ at 1:11
signals (E.F e) a; # token . at 1:11
signals (E this) a; # token this at 1:12
signals (E e f) a; # token f at 1:14
signals (E e # token end of file at the end
signals (E e) ); # token ) at 1:15
signals (E e) a # token end of file at the end
exsures (E e) a b; # token b at 1:17
signals (E) # token end of file at the end
signals_only # token end of file at the end
signals_only ; # token ; at 1:14
signals_only (E); # token ( at 1:14
signals_only int; # token int at 1:14
signals_only \everything; # token \everything at 1:14
signals_only \nothing, E; # token , at 1:22
signals_only E, ; # token ; at 1:17
signals_only E, \nothing; # token \nothing at 1:17
signals_only E F; # token F at 1:16
# Words that are left out.
requires a; also diverges true; # left out diverges at 1:18
private accessible x; # left out accessible at 1:9
requires a forall b; # left out forall at 1:12
requires \sum; # left out \sum at 1:10
ensures a + \max; # left out \max at 1:13
assignable \not_specified; # left out \not_specified at 1:12
assignable \reach(x); # left out \reach at 1:12
assignable x, \not_specified; # left out \not_specified at 1:15
assignable x assignable_redundantly y; # left out assignable_redundantly at 1:14
assignable a[\min]; # left out \min at 1:14
signals old; # left out old at 1:9
signals_only \not_specified; # left out \not_specified at 1:14
";

#[test]
fn refused(rt: HostRuntime) {
    expect_rows(&rt, rt.alloc(), SPECIFICATION, ROWS);
}
