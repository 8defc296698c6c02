//! Texts of which one token, or the end, is refused.

use crate::reading::{BODY, CLASS, FILE, expect_rows};

/// Files that end too early.
const ENDS: &str = r"
package # token end of file at the end
package p # token end of file at the end
package p. # token end of file at the end
class # token end of file at the end
class A # token end of file at the end
class A { # token end of file at the end
class A { int # token end of file at the end
class A { int x # token end of file at the end
class A { void f( # token end of file at the end
class A { void f() { # token end of file at the end
class A { void f() { }  # token end of file at the end
public # token end of file at the end
@ # token end of file at the end
class A { //@ invariant a # token end of file at the end
";

#[test]
fn ends(rt: HostRuntime) {
    expect_rows(&rt, rt.alloc(), FILE, ENDS);
}

/// In files.
const FILES: &str = r"
x class A { } # token x at 1:1
{ } # token { at 1:1
int x; # token int at 1:1
package ; # token ; at 1:9
package p class A { } # token class at 1:11
package p.; # token ; at 1:11
package p; package q; # token package at 1:12
class { } # token { at 1:7
class class { } # token class at 1:7
class A ; # token ; at 1:9
class A extends { } # token { at 1:17
class A extends B, C { } # token , at 1:18
class A implements B,{ } # token { at 1:22
class A implements B extends C { } # token extends at 1:22
interface I implements J { } # token implements at 1:13
class A { } } # token } at 1:13
class A { } ; # token ; at 1:13
@Deprecated class A { } # token Deprecated at 1:2
void f() { } # token void at 1:1
//@ invariant a;¶ class A { } # token invariant at 1:5
# Words that are left out.
import x; class A { } # left out import at 1:1
enum E { } # left out enum at 1:1
class A { enum E { } } # left out enum at 1:11
class A { native void f(); } # left out native at 1:11
class A { synchronized void f() { } } # left out synchronized at 1:11
class A { char c; } # left out char at 1:11
";

#[test]
fn files(rt: HostRuntime) {
    expect_rows(&rt, rt.alloc(), FILE, FILES);
}

/// In members of a class.
const MEMBERS: &str = r"
int ; # token ; at 1:5
int x = ; # token ; at 1:9
int x} # token } at 1:6
int x, y; # token , at 1:6
int[1] x; # token 1 at 1:5
int[] [] x; # token [ at 1:7
void ; # token ; at 1:6
void x; # token ; at 1:7
void[] f(); # token [ at 1:5
void f{ } # token { at 1:7
void f() } # token } at 1:10
void f(,) { } # token , at 1:8
void f(int) { } # token ) at 1:11
void f(int a b) { } # token b at 1:14
void f(int a,) { } # token ) at 1:14
void f(void a) { } # token void at 1:8
void f() throws { } # token { at 1:17
void f() throws E,; # token ; at 1:19
int f() = 1; # token = at 1:9
A() ; # token ; at 1:5
A() = 1; # token = at 1:5
A(int) ; # token ) at 1:6
class B { } # token class at 1:1
@f void f(); # token f at 1:2
//@ requires a;¶ int x; # token ; at 2:7
//@ requires a;¶ int x = 1; # token = at 2:8
//@ requires a;¶ ; # token ; at 2:2
//@ requires a;¶ //@ invariant b;¶ # token invariant at 2:6
//@ public requires a;¶ void f(); # token requires at 1:12
//@ in s;¶ # token in at 1:5
int x; //@ in s¶ int y; # token int at 2:2
//@ ghost int g¶ ; # token ; at 2:2
int x; //@ in ;¶ # token ; at 1:15
//@ maintaining a;¶ # token maintaining at 1:5
";

#[test]
fn members(rt: HostRuntime) {
    expect_rows(&rt, rt.alloc(), CLASS, MEMBERS);
}

/// In statements of a method.
const STATEMENTS: &str = r"
int x; # token ; at 1:6
int = 1; # token = at 1:5
int; # token ; at 1:4
int x += 1; # token += at 1:7
final x = 1; # token = at 1:9
x; # token ; at 1:2
x + 1; # token + at 1:3
x == 1; # token == at 1:3
x = ; # token ; at 1:5
x = y = 1; # token = at 1:7
x++ ++; # token ++ at 1:5
1; # token ; at 1:2
a.b; # token ; at 1:4
a[i]; # token ; at 1:5
a[] = 1; # token = at 1:5
f() = 1; # token = at 1:5
f() ++; # token ++ at 1:5
++f(); # token ; at 1:6
new A(); # token ; at 1:8
(a) = 1; # token = at 1:5
this = a; # token = at 1:6
super(); # token ( at 1:6
if a f(); # token a at 1:4
if (a{ } # token { at 1:6
if (a) if (b) f(); # token if at 1:8
if (a) while (b) f(); # token while at 1:8
if (a) else f(); # token else at 1:8
if (a) f(); else while (b) f(); # token while at 1:18
if (a) f(); else for (;;) f(); # token for at 1:18
else f(); # token else at 1:1
while (a) for (;;) { } # token for at 1:11
while (a) if (b) { } # token if at 1:11
while { } # token { at 1:7
for (;) { } # token ) at 1:7
for (f();;) { } # token ; at 1:9
for (;; int i = 0) { } # token int at 1:9
for (int i = 0, int j = 0;;) { } # token , at 1:15
try { } } # token } at 1:9
try f(); catch (E e) { } # token f at 1:5
try { } catch (E) { } # token ) at 1:17
try { } catch (E e) ; # token ; at 1:21
break x; # token x at 1:7
//@ set f() = 1;¶ # token = at 1:13
//@ loop_invariant a;¶ f(); # token f at 2:2
# Words that are left out.
switch (a) { } # left out switch at 1:1
do { } while (a); # left out do at 1:1
synchronized (a) { } # left out synchronized at 1:1
assert a; # left out assert at 1:1
try { } finally { } # left out finally at 1:9
char c = 1; # left out char at 1:1
//@ assume a;¶ # left out assume at 1:5
//@ decreases a;¶ while (b) { } # left out decreases at 1:5
";

#[test]
fn statements(rt: HostRuntime) {
    expect_rows(&rt, rt.alloc(), BODY, STATEMENTS);
}
