//! Texts that are an expression as a whole, and end where one of a few texts stands behind them.

use crate::reading::{CODE, NOTE, expect_texts};

/// What stands behind each text, and goes on with no expression.
const ENDINGS: [&str; 3] = [";", " )", " goto b"];

/// Expressions in code and in annotations.
const BOTH: &str = r"
# Single tokens, and parentheses.
a
$a_1
é
0
12L
1_000l
2147483648
true
false
null
this
requires
old
assume
record
var
_redundantly
(a)
(0)
(this)
((a))
(((0)))
# Each operator alone, and with one of its own strength.
a || b
a && b
a == b
a != b
a < b
a <= b
a > b
a >= b
a + b
a - b
a * b
a / b
a % b
a instanceof A
a instanceof A[]
a instanceof int
a instanceof boolean[]
a ? b : c
-a
+a
!a
a || b || c
a && b && c
a == b == c
a != b == c != d
a < b < c
a < b <= c > d >= e
a - b - c
a - b + c
a + b - c + d
a / b / c
a * b / c % d
a instanceof A instanceof B
a < b instanceof A
a instanceof A < b
a ? b : c ? d : e
a ? b ? c : d : e
- -a
!!a
+ -!a
# Operators of different strength side by side.
a || b && c
a && b || c
a && b == c
a != b && c
a == b < c
a >= b != c
a == b instanceof A
a instanceof A == b
a instanceof A[] && b
a instanceof A ? b : c
a + b instanceof A
a <= b + c
a - b > c
a <-b
a + b * c
a % b - c
a - b * c - d
a * -b
-a * b
a - -b
a + +b - -c
!a == b
!a instanceof A
-a.b
-a[0]
!a.b(c)
a || b && c == d < e + f * -g
-a * b + c < d == e && f || g
a || b ? c || d : e || f
a ? -b : c + d
(a ? b : c) ? d : e
a - (b - c)
(a - b) - c
(a || b) && c
-(a + b)
(a + b) * (c - d)
(a + b).c
(-a)
a * (b) - c
# Casts, and names in parentheses.
(a) b
(a) (b)
(a)(b)
(a) (b) c
(a) !b
(a) 0
(a) null
(a) this
(a) new A()
(a) super.m()
(a) (-b)
(a) + b
(a) - b
(a) -b
(a) * b
(a) == b
(a) && b
(a) < b
(a) ? b : c
(a) instanceof b
(a).b
(a).b()
(a)[0]
(a[0])
(a[0].b) + c
(a[0] + b)
(a.b)
(a())
(a(b) + c)
(a instanceof A)
(int) a
(long) a
(boolean) a
(int) -a
(int) +a
(int) (a + b)
(a[]) b
(a[]) -b
(int[]) a
(long[]) (a) b
(int) a.b
(a) b[0]
(a) m(b)
(int) (long) -a
-(int) a
-(a) b
-(a) - b
!(boolean) a
(int) a + b
(a) b + c
(a) (b) + c
a * (int) b
a - (b) c
a - (b) - c
(a) b instanceof c
((a) b)
((a) b).c
((a) + b)
((a[]) b)[0]
# New objects and arrays, calls, members and indices.
new A()
new A(1, b + c)
new A().b
new A().m()
new A()[0]
new int[3]
new long[n]
new boolean[a + b]
new A[n]
new A[n].length
new A[n].m()
new A[n].b[0]
(new int[3])[0]
new int[new A[n].length]
new int[a[0]]
-new int[3].length
new int[3] == a
new A(new B(), new int[0])
m()
m(a)
m(a, b, c)
m(a ? b : c, (d) e)
m(n(a), b)
m() + n()
m()[0].b
a.m()
a.b.m(c)
a.m().n(b, c)
a[0].m()
this.a
this.m(this)
super.m()
super.m(1, 2)
super.m().b
super.m()[0] + 1
a.b.c
a.b[0].c
a[0][1]
a[b[c]]
a[b - c - d]
a[b][c].d(e)[f]
a.var.record
null.a
1.a
0[0]
";

#[test]
fn on_both_sides(rt: HostRuntime) {
    expect_texts(&rt, rt.alloc(), CODE, BOTH, &ENDINGS);
    expect_texts(&rt, rt.alloc(), NOTE, BOTH, &ENDINGS);
}

/// Expressions in annotations alone.
const NOTES: &str = r"
\result
\result.a
\result[0].m()
(\result)
-\result - 1
\old(a)
\old(a + b) + c
\old(a).b
\old(a)[0]
\old((a))
\old(\old(a) ==> b)
-\old(a)
\fresh(a)
!\fresh(\result) && b
(a) \old(b)
(a) \result
(a) \fresh(b)
a ==> b
a <==> b
a <=!=> b
a ==> b ==> c
a ==> b ==> c ==> d
a <==> b <==> c
a <==> b <=!=> c
a <=!=> b <==> c
a ==> b <==> c
a <==> b ==> c
a ==> b <==> c ==> d
a ==> b ==> c <=!=> d
a || b ==> c
a ==> b || c
a ==> b || c ==> d
a || b <==> c || d
a ==> b ? c : d
a <==> b ? c : d
a ? b ==> c : d <=!=> e
a && !b ==> c == d
(a ==> b) ==> c
# Quantifiers.
(\forall int i; 0 <= i && i < n; a)
(\exists int i; 0 < i && i <= n; a)
(\forall int i; 0 < i && i < n; a ==> b)
(\exists int i; a + b * c <= i && i <= d - e; f ? g : h)
(\forall int i; (a < b) <= i && i < (c || d); e)
(\forall int i; -a <= i && i < !b; c)
(\forall int i; (a) b <= i && i < (int) c; d)
(\forall int i; i <= i && i < i; i)
(\forall int i; (i) <= i && i < (i); i)
(\forall int i; a[i] <= i && i < m(i); \old(i))
(\forall int old; 0 < old && old < n; a)
!(\forall int i; 0 < i && i < n; a)
(\forall int i; 0 < i && i < n; a) && b
a ==> (\exists int i; 0 < i && i < n; b)
((\forall int i; 0 < i && i < n; a))
(\forall int i; 0 < i && i < n; a).b
(a) (\forall int i; 0 < i && i < n; b)
(\forall int i; 0 < i && i < n; (\exists int j; i < j && j <= n; a))
(\forall int i; 0 < i && i < n; (\forall int i; i < i && i < n; a))
(\forall int i; (\forall int j; 0 < j && j < n; a) < i && i < (\exists int k; 0 < k && k < n; b); c)
";

#[test]
fn in_annotations(rt: HostRuntime) {
    expect_texts(&rt, rt.alloc(), NOTE, NOTES, &ENDINGS);
}
