//! Rows on members: programs that keep the rules, with what the tables then hold, and programs that break one, with its place
//! and word.

/// Programs that keep all rules on headings. Of each class, in the order of ids, its fields with their types, `?` where null
/// may stand there, the value of a constant and the members of a model field; then its methods and constructors with the
/// number of their parameters and the type of their result.
pub const KEPT: &str = r"
class A { } # A(A/0)
class A { ; } # A(A/0)
class A { int x; boolean b; long[] l; A a; } # A(x:int b:boolean l:long[] a:A A/0)
class A { B b; } class B { } # A(b:B A/0) B(B/0)
class A { A() { } } # A(A/0)
class A { A(int a) { } A() { } } # A(A/1 A/0)
class A { void f() { } A() { } int g(int a, A b) { return a; } } # A(f/0 A/0 g/2:int)
interface I { int m(); } # I(m/0:int)
interface I { public abstract int m(); } # I(m/0:int)
interface I { /*@ instance model int m; @*/ } # I(m:int{})
interface I { /*@ instance model int m; @*/ } class A implements I { int x; /*@ in m; @*/ } # I(m:int{x}) A(x:int A/0)
class A { static final int x = 5; } # A(x:int=5 A/0)
class A { final static int x = -2147483648; } # A(x:int=-2147483648 A/0)
class A { final static long x = 1_000_000L; } # A(x:long=1000000 A/0)
class A { final static boolean x = true; final static boolean y = false; } # A(x:boolean=1 y:boolean=0 A/0)
class A { final static int x = true; } # A(x:int=1 A/0)
class A { final int x = 5; } # A(x:int A/0)
class A { private int x; protected int y; public int z; /*@ spec_public @*/ int u; /*@ spec_protected @*/ int v; /*@ instance @*/ int w; } # A(x:int y:int z:int u:int v:int w:int A/0)
class A { /*@ nullable @*/ A a; /*@ non_null @*/ A b; /*@ nullable @*/ int[] c; } # A(a:A? b:A c:int[]? A/0)
class A { /*@ ghost int g; @*/ /*@ model A m; @*/ } # A(g:int m:A?{} A/0)
class A { /*@ public ghost nullable A g = null; @*/ } # A(g:A? A/0)
class A { /*@ model int m; @*/ int x; /*@ in m; @*/ int y; /*@ in m; @*/ } # A(m:int{x,y} x:int y:int A/0)
class A { int x; /*@ in m; @*/ /*@ model int m; @*/ } # A(x:int m:int{x} A/0)
class A { /*@ model int m; in n; model int n; @*/ int x; /*@ in m; @*/ } # A(m:int{x} n:int{m,x} x:int A/0)
class A { /*@ model int m; @*/ } class B extends A { int x; /*@ in m; @*/ } # A(m:int{x} A/0) B(x:int B/0)
class B extends A { int x; /*@ in m; @*/ } class A { /*@ model int m; @*/ int y; /*@ in m; @*/ } # A(m:int{y,x} y:int A/0) B(x:int B/0)
class A { /*@ model int m; in n; model int n; @*/ } class B extends A { int x; /*@ in m, n; @*/ } # A(m:int{x} n:int{m,x} A/0) B(x:int B/0)
class A { /*@ model int m; represents m = 1; @*/ } class B extends A { /*@ represents m = 2; @*/ } # A(m:int{} A/0) B(B/0)
class A { int x; } class B extends A { int x; } # A(x:int A/0) B(x:int B/0)
class A { static int f() { return 1; } private /*@ helper @*/ void g() { } static /*@ helper @*/ void h() { } } # A(A/0 f/0:int g/0 h/0)
class A { public final /*@ pure spec_public @*/ int f() { return 1; } } # A(A/0 f/0:int)
class A { @Override protected /*@ nullable @*/ A f(final A a, /*@ nullable @*/ A b) { return b; } } # A(A/0 f/2:A?)
class A { void f() throws Exception, Error { } A() throws Throwable { } } # A(f/0 A/0)
class E extends Exception { } class A { void f() throws E { } } # E(E/0) A(A/0 f/0)
abstract class A { abstract void f(); } class B extends A { void f() { } } # A(A/0 f/0) B(B/0 f/0)
abstract class A { abstract void f(); } abstract class B extends A { } # A(A/0 f/0) B(B/0)
interface I { void f(); } class A { public void f() { } } class B extends A implements I { } # I(f/0) A(A/0 f/0) B(B/0)
interface I { void f(); } interface J { void f(); } class A implements I, J { public void f() { } } # I(f/0) J(f/0) A(A/0 f/0)
interface I { void f(); } interface J extends I { } interface K extends I { } class A implements J, K { public void f() { } } # I(f/0) J() K() A(A/0 f/0)
class A { void f(int a) { } } class B extends A { void f(int b) { } void f() { } } # A(A/0 f/1) B(B/0 f/1 f/0)
class A { private void f() { } } class B extends A { } # A(A/0 f/0) B(B/0)
class A { private void f() { } } class B { void f() { } } # A(A/0 f/0) B(B/0 f/0)
class A { A f; void f() { } void f(A f) { } } # A(f:A A/0 f/0 f/1)
";

/// Programs of which a member, or what a class inherits, breaks a rule.
pub const BROKEN: &str = r"
# fields
class A { int x; int x; } # N2 at 1:22: x
class A { int x; boolean x; } # N2 at 1:26: x
class A { int x; /*@ ghost int x; @*/ } # N2 at 1:32: x
class A { /*@ model int x; @*/ long x; } # N2 at 1:37: x
class A { B x; } # N1 at 1:11: B
class A { B[] x; } # N1 at 1:11: B
class A { /*@ ghost B x; @*/ } # N1 at 1:21: B
class A { int x; B y; int x; } # N1 at 1:18: B
interface I { int x; } # N9 at 1:19: x
interface I { static final int x = 1; } # N9 at 1:32: x
interface I { /*@ ghost int x; @*/ } # N9 at 1:29: x
interface I { /*@ model int x; @*/ } # N9 at 1:29: x
class A { /*@ model int x = 1; @*/ } # N9 at 1:25: x
class A { static int x; } # N9 at 1:11: static
class A { static int x = 1; } # N9 at 1:11: static
class A { final static int x; } # N9 at 1:17: static
class A { static final final int x = 1; } # N9 at 1:24: final
class A { final static int x = 1 + 2; } # N9 at 1:17: static
class A { final static int x = (1); } # N9 at 1:17: static
class A { final static int x = +1; } # N9 at 1:17: static
class A { final static int x = - -1; } # N9 at 1:17: static
class A { final static int x = -(1); } # N9 at 1:17: static
class A { final static Object x = null; } # N9 at 1:17: static
class A { final static int[] x = null; } # N9 at 1:17: static
class A { abstract int x; } # N9 at 1:11: abstract
class A { @Override int x; } # N9 at 1:12: Override
class A { /*@ pure @*/ int x; } # N9 at 1:15: pure
class A { /*@ helper @*/ int x; } # N9 at 1:15: helper
class A { /*@ nullable @*/ int x; } # N9 at 1:15: nullable
class A { /*@ non_null @*/ boolean x; } # N9 at 1:15: non_null
class A { /*@ nullable non_null @*/ A x; } # N9 at 1:24: non_null
class A { /*@ non_null nullable @*/ A x; } # N9 at 1:24: nullable
class A { /*@ nullable nullable @*/ A x; } # N9 at 1:24: nullable
class A { public /*@ public @*/ int x; } # N9 at 1:22: public
class A { /*@ ghost spec_public int x; @*/ } # N9 at 1:21: spec_public
class A { /*@ pure model int x; @*/ } # N9 at 1:15: pure
class A { /*@ ghost nullable int x; @*/ } # N9 at 1:21: nullable

# methods and constructors
class A { void f() { } void f() { } } # N6 at 1:29: f
class A { void f(int a) { } int f(boolean b) { return 1; } } # N6 at 1:33: f
class A { A() { } A(int a) { } A(long b) { } } # N6 at 1:32: A
class A { B f() { return null; } } # N1 at 1:11: B
class A { void f(B b) { } } # N1 at 1:18: B
class A { void f(int a, int a) { } } # N2 at 1:29: a
class A { A(int a, A b, int a) { } } # N2 at 1:29: a
class A { void f() throws B { } } # N1 at 1:27: B
class A { void f() throws A { } } # Y1 at 1:27: A
class A { void f() throws Exception, Object { } } # Y1 at 1:38: Object
class A { A() throws A { } } # Y1 at 1:22: A
class A { B() { } } # N9 at 1:11: B
interface I { I() { } } # N9 at 1:15: I
class A { instance() { } } # N9 at 1:11: instance
class A { /*@ instance @*/ void f() { } } # N9 at 1:15: instance
class A { public public void f() { } } # N9 at 1:18: public
class A { /*@ nullable @*/ void f() { } } # N9 at 1:15: nullable
class A { /*@ nullable @*/ int f() { return 1; } } # N9 at 1:15: nullable
class A { /*@ helper @*/ void f() { } } # N9 at 1:15: helper
class A { public /*@ helper @*/ void f() { } } # N9 at 1:22: helper
class A { /*@ helper @*/ A() { } } # N9 at 1:15: helper
class A { static A() { } } # N9 at 1:11: static
class A { final A() { } } # N9 at 1:11: final
class A { abstract A() { } } # N9 at 1:11: abstract
class A { @Override A() { } } # N9 at 1:12: Override
class A { /*@ nullable @*/ A() { } } # N9 at 1:15: nullable
class A { void f(final final int a) { } } # N9 at 1:24: final
class A { void f(/*@ nullable @*/ int a) { } } # N9 at 1:22: nullable
class A { void f(/*@ nullable non_null @*/ A a) { } } # N9 at 1:31: non_null
abstract class A { void f(); } # N9 at 1:25: f
abstract class A { abstract void f() { } } # N9 at 1:34: f
abstract class A { abstract static void f(); } # N9 at 1:41: f
abstract class A { private abstract void f(); } # N9 at 1:42: f
abstract class A { abstract final void f(); } # N9 at 1:40: f
interface I { void f() { } } # N9 at 1:20: f
interface I { static void f(); } # N9 at 1:27: f
interface I { private void f(); } # N9 at 1:28: f
class A { final void f() { } } class B extends A { void f() { } } # N9 at 1:57: f
class A { final void f() { } } class B extends A { } class C extends B { void f() { } } # N9 at 1:79: f

# what a class leaves open
class A { void f(); } # N5 at 1:7: A
class A { abstract void f(); } # N5 at 1:7: A
interface I { void f(); } class A implements I { } # N5 at 1:33: A
abstract class A { abstract void f(); } class B extends A { } # N5 at 1:47: B
abstract class A { void f() { } } abstract class B extends A { abstract void f(); } class C extends B { } # N5 at 1:91: C
interface I { void f(); } interface J extends I { } class A implements J { } # N5 at 1:59: A
interface I { void f(); } class A { void f(int a) { } } class B extends A implements I { } # N5 at 1:63: B

# other overrides
class A { void f() { } } class B extends A { int f() { return 1; } } # N4 at 1:50: f
class A { void f(int a) { } } class B extends A { void f(long a) { } } # N4 at 1:56: f
class A { A f() { return this; } } class B extends A { /*@ nullable @*/ A f() { return null; } } # N4 at 1:75: f
class A { void f(A a) { } } class B extends A { void f(/*@ nullable @*/ A a) { } } # N4 at 1:54: f
class A { A f() { return this; } } class B extends A { B f() { return this; } } # N4 at 1:58: f
class A { void f(int[] a) { } } class B extends A { void f(int a) { } } # N4 at 1:58: f
class A { void f(int a) { } } class B extends A { } class C extends B { void f(boolean a) { } } # N4 at 1:78: f
interface I { int f(); } class A implements I { public long f() { return 1; } } # N4 at 1:61: f
interface I { int f(); } interface J extends I { long f(); } # N4 at 1:55: f
interface I { int f(); } interface J { long f(); } interface K extends I, J { } # N4 at 1:62: K
interface I { int f(); } interface J { long f(); } abstract class A implements I, J { } # N4 at 1:67: A
interface I { int f(); } class A { public long f() { return 1; } } class B extends A implements I { } # N4 at 1:74: B
class C extends B { } class B extends A { int f() { return 1; } } class A { void f() { } } # N4 at 1:7: C
class A { private void f() { } } class B extends A { int f() { return 1; } } # N4 at 1:58: f
class A { static void f(int a) { } } class B extends A { void f(long a) { } } # N4 at 1:63: f
interface I { int f(); } class A { private long f() { return 1; } } class B extends A implements I { } # N4 at 1:75: B

# hidden methods
class A { private void f() { } } class B extends A { void f() { } } # N8 at 1:59: f
class A { void f() { } } class B extends A { private void f() { } } # N8 at 1:59: f
class A { static void f() { } } class B extends A { static void f() { } } # N8 at 1:65: f
class A { static void f() { } } class B extends A { void f() { } } # N8 at 1:58: f
class A { /*@ private @*/ void f() { } } class B extends A { void f() { } } # N8 at 1:67: f
class A { private void f() { } } class B extends A { } class C extends B { void f() { } } # N8 at 1:81: f
interface I { int m(); } class C { private int m() { return 0; } } class D extends C implements I { } # N8 at 1:74: D
interface I { int m(); } class C { static int m() { return 0; } } class D extends C implements I { } # N8 at 1:73: D
class C extends B { } class B extends A { private void f() { } } class A { void f() { } } # N8 at 1:7: C
class A { private final void f() { } } class B extends A { void f() { } } # N8 at 1:65: f

# groups and represents clauses
class A { int x; /*@ in m; @*/ } # N7 at 1:25: m
class A { int m; int x; /*@ in m; @*/ } # N7 at 1:32: m
class A { /*@ ghost int m; @*/ int x; /*@ in m; @*/ } # N7 at 1:46: m
class A { /*@ model int m; @*/ int x; /*@ in m, n; @*/ } # N7 at 1:49: n
class A { /*@ model int m; @*/ } class B extends A { int m; int x; /*@ in m; @*/ } # N7 at 1:75: m
class A { /*@ model int m; in m; @*/ } # N7 at 1:25: m
class A { /*@ model int m; in n; model int n; in m; @*/ } # N7 at 1:25: m
class A { /*@ model int a; in b; model int b; in c; model int c; in b; @*/ } # N7 at 1:44: b
class A { int x; /*@ represents x = 1; @*/ } # N7 at 1:33: x
class A { /*@ represents m = 1; @*/ } # N7 at 1:26: m
class A { /*@ model int m; represents m = 1; represents m = 2; @*/ } # N7 at 1:57: m
interface I { /*@ instance model int m; represents m = 1; @*/ } # N7 at 1:52: m

# in the order of the words
class A { private static abstract int x; } # N9 at 1:19: static
class A { static B x; } # N9 at 1:11: static
class A { B f(C c) throws D { return null; } } # N1 at 1:11: B
class A { void f() { } int f() { return 1; } int x; int x; } # N6 at 1:28: f
class A { int x = y; int x; } # N2 at 1:26: x
class A { void f(); int x; int x; } # N5 at 1:7: A
class A extends C { int x; int x; } # N1 at 1:17: C
class B extends A { } abstract class A { abstract void f(); int x; int x; } # N5 at 1:7: B
";
