//! Texts that are a file, or the members of a class or the statements of a method in one.

use crate::reading::{BODY, CLASS, FILE, expect_rows};

/// Whole files.
const FILES: &str = r"
 # all
 ¶// nothing¶/* here */
package p;
package p.q.r; class A { }
class A { }
class A { } class B { } interface I { }
public final class A extends B implements C, D { }
class A implements I { }
interface I extends J, K { }
abstract class A { }
@Override class A { }
@ Override public class A { }
/*@ pure @*/ class A { }
//@ public¶final class A { }
class record { record var; }
class A { ; }
class A { class_ x; }
";

#[test]
fn files(rt: HostRuntime) {
    expect_rows(&rt, rt.alloc(), FILE, FILES);
}

/// Members of a class.
const MEMBERS: &str = r"
 # all
; ;
int x;
int x = 1;
A x;
A[] x = null;
boolean[] x;
private static final long X = 1L;
int x; //@ in s;¶
int x = a; //@ in s, t;¶
/*@ nullable @*/ A x;
private /*@ spec_public nullable @*/ A x;
//@ public¶ int x;
//@ ghost int g;¶
//@ public model instance int m; in s;¶
//@ ghost int g = 1; ghost int h;¶
//@ invariant x > 0;¶
//@ public instance invariant x > 0;¶
//@ represents s = x;¶
//@ private represents s <- x + 1;¶
void f() { }
void f();
public abstract int f(int a);
A f() { }
A[] f() { }
int f(int a, final long b, boolean[] c) { return a; }
int f(/*@ nullable @*/ A a, /*@ non_null @*/ final B b) { return 0; }
void f() throws E { }
void f() throws E, F;
static void A() { }
@Override public void f() { }
//@ requires a;¶ void f() { }
//@ requires a; ensures b;¶ //@ also requires c;¶ int f() { return 1; }
/*@ public normal_behavior requires a; @*/ public /*@ pure @*/ int f();
//@ also ensures a;¶ void f() { }
//@ pure¶ int f() { return 1; }
A() { }
public A(int a) throws E { }
A() { super(); }
//@ requires a;¶ A() { super(1, b); int x = 1; }
";

#[test]
fn members(rt: HostRuntime) {
    expect_rows(&rt, rt.alloc(), CLASS, MEMBERS);
}

/// Statements of a method.
const STATEMENTS: &str = r"
 # all
;
{ }
{ { } ; }
int x = 1;
final int x = 1;
A x = null;
A[] x = b;
int[] x = b;
final A[] x = b;
var x = 1;
x = 1;
x += 1;
x -= 1; x *= 2; x /= 3; x %= 4;
x++;
x--;
++x;
--a.b;
a.b = 1;
a[i] = 1;
a[i][j] = 1;
a[i].b++;
this.x = 1;
(a).x = 1;
(a)[0] = 1;
new A().x = 1;
f().x = 1;
f();
f(a, b + 1);
a.f();
a[0].f();
this.f();
super.f();
super.f().g();
super.f().x = 1;
new A().f();
(a + b).f();
if (a) f();
if (a) { }
if (a) ; else ;
if (a) { } else { }
if (a) f(); else if (b) x = 1; else ;
if (a) { if (b) f(); } else g();
if (a) { if (b) f(); else g(); }
while (a) f();
while (a) { f(); }
//@ maintaining a;¶ while (a) { }
//@ loop_invariant a; maintaining b;¶ while (a) { }
for (;;) { }
for (int i = 0; i < n; i++) f();
for (i = 0; ; f()) { }
for (final int i = 0; a; --i) { }
for (; a; ) ;
//@ maintaining a;¶ for (; a; ) { }
return;
return a;
return (a);
throw e;
break;
continue;
try { } catch (E e) { }
try { f(); } catch (final E e) { } catch (F g) { ; }
//@ assert a;¶
//@ assert a; assert b;¶
//@ set g = 1;¶
//@ set a.b[0] = 1;¶
//@ ghost int g = 1;¶
//@ ghost A[] g = a;¶
f(); /*@ assert a; @*/ g();
/* no */ f(); // no¶ g();
a.b.c.d();
";

#[test]
fn statements(rt: HostRuntime) {
    expect_rows(&rt, rt.alloc(), BODY, STATEMENTS);
}
