//! Texts that begin no expression from some token on.

use crate::reading::{CODE, NOTE, expect_rows};

/// In code and in annotations.
const BOTH: &str = r"
# Too short texts.
 # token end of file at the end
a + # token end of file at the end
- # token end of file at the end
( # token end of file at the end
(a # token end of file at the end
((a) # token end of file at the end
((a) b # token end of file at the end
(int # token end of file at the end
(int) # token end of file at the end
(a[] # token end of file at the end
(a[]) - # token end of file at the end
a[ # token end of file at the end
a[0 # token end of file at the end
a. # token end of file at the end
super # token end of file at the end
super. # token end of file at the end
super.m # token end of file at the end
super.m( # token end of file at the end
m( # token end of file at the end
m(a # token end of file at the end
m(a, # token end of file at the end
new # token end of file at the end
new A # token end of file at the end
new A[n # token end of file at the end
new int # token end of file at the end
a instanceof # token end of file at the end
a instanceof A[ # token end of file at the end
a ? # token end of file at the end
a ? b # token end of file at the end
a ? b : # token end of file at the end
# Where an expression has to begin.
) a # token ) at 1:1
; # token ; at 1:1
] # token ] at 1:1
{} # token { at 1:1
.a # token . at 1:1
, a # token , at 1:1
* a # token * at 1:1
/ a # token / at 1:1
== a # token == at 1:1
? a : b # token ? at 1:1
= a # token = at 1:1
++a # token ++ at 1:1
--a # token -- at 1:1
@ a # token @ at 1:1
goto # token goto at 1:1
class A # token class at 1:1
instanceof A # token instanceof at 1:1
int[0] # token int at 1:1
void # token void at 1:1
_ # token _ at 1:1
if (a) # token if at 1:1
a + ) # token ) at 1:5
a + goto b # token goto at 1:5
a + int # token int at 1:5
a - * b # token * at 1:5
a || && b # token && at 1:6
a << b # token < at 1:4
a && instanceof A # token instanceof at 1:6
- * a # token * at 1:3
- --a # token -- at 1:3
!) # token ) at 1:2
a ? : b # token : at 1:5
a ? b : ; # token ; at 1:9
() # token ) at 1:2
(a + ) # token ) at 1:6
(void) a # token void at 1:2
(goto) a # token goto at 1:2
(int) * a # token * at 1:7
(int).a # token . at 1:6
(int) goto # token goto at 1:7
(int) ; # token ; at 1:7
(a[]) ) # token ) at 1:7
(a[]).b # token . at 1:6
(a[]) instanceof b # token instanceof at 1:7
(a) () # token ) at 1:6
a[] # token ] at 1:3
m(, a) # token , at 1:3
m(a, ) # token ) at 1:6
m(a, goto) # token goto at 1:6
m(int) # token int at 1:3
new A(a, ) # token ) at 1:10
new A[] # token ] at 1:7
new int[] {} # token ] at 1:9
# Inside an expression.
a ? b; # token ; at 1:6
a ? b, c # token , at 1:6
a ? b : c ? d) # token ) at 1:14
(a b) # token b at 1:4
(a; # token ; at 1:3
(a, b) # token , at 1:3
(a] # token ] at 1:3
((a); # token ; at 1:5
(int+ a) # token + at 1:5
(int.a) # token . at 1:5
(int[0]) a # token 0 at 1:6
(a[]+ b) # token + at 1:5
(a[][]) b # token [ at 1:5
(a[) # token ) at 1:4
a[0) # token ) at 1:4
a[0, 1] # token , at 1:4
a[0; # token ; at 1:4
a[0 b] # token b at 1:5
a.0 # token 0 at 1:3
a.(b) # token ( at 1:3
a.this # token this at 1:3
a.new B() # token new at 1:3
a.super.m() # token super at 1:3
a.class # token class at 1:3
a.true # token true at 1:3
a.* # token * at 1:3
super; # token ; at 1:6
super(a) # token ( at 1:6
super[0] # token [ at 1:6
super.super.m() # token super at 1:7
super.0 # token 0 at 1:7
super.a; # token ; at 1:8
super.a.b() # token . at 1:8
super.m(a; # token ; at 1:10
m(a;) # token ; at 1:4
m(a b) # token b at 1:5
m(a] # token ] at 1:4
new ; # token ; at 1:5
new 0 # token 0 at 1:5
new this() # token this at 1:5
new (A) # token ( at 1:5
new new A() # token new at 1:5
new goto() # token goto at 1:5
new void[3] # token void at 1:5
new A; # token ; at 1:6
new A.B() # token . at 1:6
new A{} # token { at 1:6
new A(a; # token ; at 1:8
new A[n) # token ) at 1:8
new int() # token ( at 1:8
new int; # token ; at 1:8
a instanceof 0 # token 0 at 1:14
a instanceof null # token null at 1:14
a instanceof goto # token goto at 1:14
a instanceof (A) # token ( at 1:14
a instanceof A[0] # token 0 at 1:16
";

#[test]
fn on_both_sides(rt: HostRuntime) {
    expect_rows(&rt, rt.alloc(), CODE, BOTH);
    expect_rows(&rt, rt.alloc(), NOTE, BOTH);
}

/// In annotations alone.
const NOTES: &str = r"
==> a # token ==> at 1:1
.. a # token .. at 1:1
\nothing # token \nothing at 1:1
\forall int i; 0 < i && i < n; a # token \forall at 1:1
a + \exists # token \exists at 1:5
a + \nought # token \nought at 1:5
a ==> ==> b # token ==> at 1:7
a <==> <=!=> b # token <=!=> at 1:8
a ==> # token end of file at the end
a.\result # token \result at 1:3
new \result() # token \result at 1:5
a[0 .. 1] # token .. at 1:5
\old # token end of file at the end
\old a # token a at 1:6
\old() # token ) at 1:6
\old(a, b) # token , at 1:7
\old(a # token end of file at the end
\fresh ; # token ; at 1:8
\fresh() # token ) at 1:8
\fresh(a, b) # token , at 1:9
switch (a) # token switch at 1:1
a + assert # token assert at 1:5
(a record) # token record at 1:4
(a var) # token var at 1:4
(char) a # token char at 1:2
# In quantifiers.
(\forall long i; 0 < i && i < n; a) # token long at 1:10
(\forall i; 0 < i && i < n; a) # token i at 1:10
(\forall int goto; 0 < goto && goto < n; a) # token goto at 1:14
(\forall int[] i; 0 < i && i < n; a) # token [ at 1:13
(\forall int 0; a) # token 0 at 1:14
(\forall int i, j; a) # token , at 1:15
(\forall int i) # token ) at 1:15
(\forall int i; ; a) # token ; at 1:17
(\forall int i; a; b) # token ; at 1:18
(\forall int i; 0 > i && i < n; a) # token > at 1:19
(\forall int i; 0 >= i && i < n; a) # token >= at 1:19
(\forall int i; 0 == i && i < n; a) # token == at 1:19
(\forall int i; a || b < i && i < n; c) # token || at 1:19
(\forall int i; a ? b : c < i && i < n; d) # token ? at 1:19
(\forall int i; a instanceof A < i && i < n; d) # token instanceof at 1:19
(\forall int i; a ==> b < i && i < n; d) # token ==> at 1:19
(\forall int i; 0 < j && j < n; a) # token j at 1:21
(\forall int i; i < n; a) # token n at 1:21
(\forall int i; 0 < ii && ii < n; a) # token ii at 1:21
(\forall int i; 0 < (i) && i < n; a) # token ( at 1:21
(\forall int i; 0 < -i && i < n; a) # token - at 1:21
(\forall int i; a < b < i && i < n; c) # token b at 1:21
(\forall int i; 0 < i < n; a) # token < at 1:23
(\forall int i; 0 < i || i < n; a) # token || at 1:23
(\forall int i; 0 < i.a && i < n; b) # token . at 1:22
(\forall int i; 0 < i; a) # token ; at 1:22
(\forall int i; 0 < i && j < n; a) # token j at 1:26
(\forall int i; 0 <= i && 0 < n; a) # token 0 at 1:27
(\exists int i; 0 <= i && (i < n); a) # token ( at 1:27
(\exists int i; 0 < i && i > n; a) # token > at 1:28
(\exists int i; 0 < i && i + 1 < n; a) # token + at 1:28
(\exists int i; 0 < i && i < n < m; a) # token < at 1:32
(\exists int i; 0 < i && i < n && a; b) # token && at 1:32
(\exists int i; 0 < i && i < n == m; b) # token == at 1:32
(\exists int i; 0 < i && i < n instanceof A; b) # token instanceof at 1:32
(\exists int i; 0 < i && i < n ? m : k; b) # token ? at 1:32
(\exists int i; 0 < i && i < n) # token ) at 1:31
(\exists int i; 0 < i && i < n;) # token ) at 1:32
(\exists int i; 0 < i && i < n; a; b) # token ; at 1:34
(\exists int i; 0 < i && i < n; a # token end of file at the end
(\exists int i; 0 < i && i < # token end of file at the end
";

#[test]
fn in_annotations(rt: HostRuntime) {
    expect_rows(&rt, rt.alloc(), NOTE, NOTES);
}

/// In code alone.
const CODES: &str = r"
a <==> b # token = at 1:5
a <=!=> b # token != at 1:5
a ==> b # token > at 1:5
a..b # token . at 1:3
\result # token \result at 1:1
\old(a) # token \old at 1:1
\fresh(a) # token \fresh at 1:1
a + \result # token \result at 1:5
(\forall int i; 0 < i && i < n; a) # token \forall at 1:2
a + \sum # token \sum at 1:5
(a assume) # token assume at 1:4
(a requires_redundantly) # token requires_redundantly at 1:4
# With annotations beside the code, and on several lines.
/*@ a */ # token a at 1:5
a + /*@ b */ # token b at 1:9
(a /*@ ) */ ) # token ) at 1:8
(a /*@ switch */ ) # token switch at 1:8
a +¶  goto # token goto at 2:3
a¶+¶¶ (b ; # token ; at 4:5
a +¶ # token end of file at the end
a + // b # token end of file at the end
a + /*¶ */  # token end of file at the end
";

#[test]
fn in_code(rt: HostRuntime) {
    expect_rows(&rt, rt.alloc(), CODE, CODES);
}
