//! Statements in blocks that nest up to the limit of 200 nodes from a member to a leaf, and past it.

use crate::reading::{BODY, expect_blocks, expect_limits, expect_rows};

/// Bodies within the limit.
const SHALLOW: &str = r"
⟨200 {⟩⟨200 }⟩
⟨199 if (a) ;else ⟩;⟨199 ⟩
⟨100 if (a) {⟩⟨100 }⟩
⟨100 while (a) {⟩⟨100 }⟩
⟨100 for (;;) {⟩⟨100 }⟩
⟨100 //@ maintaining a;¶while (a) {⟩⟨100 }⟩
⟨200 try{⟩⟨200 }catch(E e){}⟩
⟨200 try{}catch(E e){⟩⟨200 }⟩
⟨199 {;⟩;⟨199 ;}⟩
";

#[test]
fn within_the_limit(rt: HostRuntime) {
    expect_rows(&rt, rt.alloc(), BODY, SHALLOW);
}

/// Statements that are within the limit in so many blocks, but not in one block more.
const INNER: &str = r"
199 ;
199 { }
199 return;
199 break;
199 continue;
199 try { } catch (E e) { }
198 try { ; } catch (E e) { }
198 try { } catch (E e) { ; }
198 try { } catch (E e) { } catch (F f) { ; }
198 return 0;
198 throw e;
198 x = 1;
198 x += 1;
198 x++;
198 --x;
198 f();
198 super.f();
198 int x = 1;
198 final A[] x = b;
198 if (a) ;
198 if (a) ; else ;
198 while (a) ;
198 for (;;) ;
198 //@ maintaining a;¶ while (a) ;
198 //@ assert a;¶
198 //@ set g = 1;¶
198 //@ ghost int g = 1;¶
197 f(a);
197 a[0] = 1;
197 a.b++;
197 this.x = 1;
197 new A().f();
197 super.f().g();
197 for (x = 1; ; ) ;
197 for (; ; x++) ;
197 for (int x = 1; a; f()) ;
197 if (a) { ; }
197 if (a) ; else if (b) ;
196 (a).x = 1;
196 (a).f();
195 while (a) f(-b);
197 ++f().x;
196 ++f(a).x;
196 ++x.f().y;
197 ++x[0];
196 ++x[-1];
196 ++f().x[-1];
197 --super.f().x;
196 for (f().x = 1; ; ) ;
195 for (f(a).x = 1; ; ) ;
195 for (x.f()[0] = 1; ; ) ;
195 for (f().g().x = 1; ; ) ;
196 for (x[0] = 1; ; ) ;
195 for (x[0][1] = 1; ; ) ;
195 for (x[-1] = 1; ; ) ;
195 for (this.x.y = 1; ; ) ;
197 for (A[] x = b; ; ) ;
196 for (; ; x[0]++) ;
196 for (; ; f(a)) ;
197 //@ set f().x = 1;¶
196 //@ set x.f().y = 1;¶
197 //@ set \result.x = 1;¶
196 //@ set \old(a).x = 1;¶
195 (a[0]).x = 1;
195 (a[0]).f();
195 ++(a[0]).x;
195 //@ set (a[0]).x = 1;¶
194 for ((a[0]).x = 1; ; ) ;
194 for (; ; (a[0]).x++) ;
194 for (; ; (a[0]).f()) ;
194 for (; ; ++(a[0]).x) ;
195 ((a[]) b).x = 1;
196 //@ set (\forall int i; 0 <= i && i < n; a).x = 1;¶
";

#[test]
fn at_the_limit(rt: HostRuntime) {
    expect_limits(&rt, rt.alloc(), INNER);
}

/// In so many blocks the tokens that go on with too deep a body alone.
const DEEP: &str = r"
200 {} # deep at 1:1
200 ; # deep at 1:1
200 return; # deep at 1:1
200 break; # deep at 1:1
200 continue; # deep at 1:1
200 try { } catch (E e) { } # deep at 1:1
200 x = 1; # deep at 1:1
200 (a).x = 1; # deep at 1:1
200 ++x; # deep at 1:1
200 //@ assert a;¶ # deep at 1:5
199 try {;} catch (E e) { } # deep at 1:6
199 try { } catch (E e) {;} # deep at 1:22
199 try { } catch (E e) { } catch (F f) {;} # deep at 1:38
199 return 0; # deep at 1:8
199 throw e; # deep at 1:1
199 x = 1; # deep at 1:1
199 ; x++; # deep at 1:3
199 --x; # deep at 1:1
199 f(); # deep at 1:1
199 super.f(); # deep at 1:1
199 this.f(); # deep at 1:1
199 new A().f(); # deep at 1:1
199 int x = 1; # deep at 1:1
199 final A[] x = b; # deep at 1:1
199 A x = b; # deep at 1:1
199 if (a) ; # deep at 1:1
199 while (a) ; # deep at 1:1
199 for (;;) ; # deep at 1:1
199 //@ maintaining a;¶ while (a) ; # deep at 1:5
199 //@ loop_invariant a;¶ for (;;) ; # deep at 1:5
199 //@ assert a;¶ # deep at 1:5
199 //@ set g = 1;¶ # deep at 1:5
199 //@ ghost int g = 1;¶ # deep at 1:5
198 x = -1; # deep at 1:5
198 x = 1 + 1; # deep at 1:7
198 x.y = 1; # deep at 1:2
198 x[0] = 1; # deep at 1:3
198 this.x = 1; # deep at 1:1
198 new A().f(); # deep at 1:1
198 (a).x = 1; # deep at 1:1
198 f(a); # deep at 1:3
198 f().g(); # deep at 1:4
198 super.f(a); # deep at 1:9
198 if (!a) ; # deep at 1:5
198 if (a) { ; } # deep at 1:10
198 if (a) x = 1; # deep at 1:8
198 if (a) ; else if (b) ; # deep at 1:15
198 while (a) {; } # deep at 1:12
198 for (x = 1; ; ) ; # deep at 1:6
198 for (; ; x++) ; # deep at 1:10
198 for (; -a; ) ; # deep at 1:8
198 for (;;) f(); # deep at 1:10
198 //@ maintaining !a;¶ while (a) ; # deep at 1:17
198 //@ assert a ==> b;¶ # deep at 1:14
198 //@ set g = (1);¶ # deep at 1:13
197 (a).x = 1; # deep at 1:1
";

#[test]
fn past_the_limit(rt: HostRuntime) {
    expect_blocks(&rt, rt.alloc(), DEEP);
}

/// The same in a target.
const TARGETS: &str = r"
197 for (; ; x[0]++) ; # deep at 1:11
196 for (; ; x[0][1]++) ; # deep at 1:14
197 for (x[0] = 1; ; ) ; # deep at 1:8
# A call in a target has a node above it.
197 for (f().x = 1; ; ) ; # deep at 1:7
196 for (f(a).x = 1; ; ) ; # deep at 1:8
195 for (f(-a).x = 1; ; ) ; # deep at 1:8
195 for (f(a).x[0] = 1; ; ) ; # deep at 1:12
196 for (x.f().x = 1; ; ) ; # deep at 1:9
195 for (x.f(-a).x = 1; ; ) ; # deep at 1:10
195 for (x[0].f().x = 1; ; ) ; # deep at 1:12
196 for (f().g().x = 1; ; ) ; # deep at 1:11
196 for (f().x.y = 1; ; ) ; # deep at 1:11
196 for (this.f().x = 1; ; ) ; # deep at 1:12
195 for ((a).f().x = 1; ; ) ; # deep at 1:11
197 for (super.f().x = 1; ; ) ; # deep at 1:6
198 ++f().x; # deep at 1:4
197 ++f(a).x; # deep at 1:5
197 ++x.f().y; # deep at 1:6
198 ++this.x; # deep at 1:3
197 ++this.f().x; # deep at 1:9
197 --(a).x; # deep at 1:3
197 for (; ; ++f().x) ; # deep at 1:13
198 //@ set f().x = 1;¶ # deep at 1:10
197 //@ set x.f().y = 1;¶ # deep at 1:12
198 //@ set x[0] = 1;¶ # deep at 1:10
198 //@ set super.f().x = 1;¶ # deep at 1:9
197 //@ set \old(a).x = 1;¶ # deep at 1:9
# Behind `(` and a name a bracket is that of an index, since a target and a call are no casts.
196 ++(a[0]).x; # deep at 1:5
196 ++(a[]).x; # deep at 1:5
196 ++(a[ # deep at 1:5
196 (a[0]).x = 1; # deep at 1:3
196 (a[]).x = 1; # deep at 1:3
196 (a[ # deep at 1:3
196 (a[0]).f(); # deep at 1:3
196 (a[]).f(); # deep at 1:3
196 //@ set (a[0]).x = 1;¶ # deep at 1:11
196 //@ set (a[]).x = 1;¶ # deep at 1:11
196 //@ set (a[¶ # deep at 1:11
195 for ((a[0]).x = 1; ; ) ; # deep at 1:8
195 for ((a[]).x = 1; ; ) ; # deep at 1:8
195 for ((a[ # deep at 1:8
195 for (++(a[0]).x; ; ) ; # deep at 1:10
195 for (; ; (a[0]).x++) ; # deep at 1:12
195 for (; ; (a[]).x++) ; # deep at 1:12
195 for (; ; (a[ # deep at 1:12
195 for (; ; (a[0]).f()) ; # deep at 1:12
195 for (; ; ++(a[0]).x) ; # deep at 1:14
195 for (; ; ++(a[]).x) ; # deep at 1:14
195 ((a[0])).x = 1; # deep at 1:5
196 (a.b).x = 1; # deep at 1:3
197 (a[0]).x = 1; # deep at 1:1
";

#[test]
fn targets_past_the_limit(rt: HostRuntime) {
    expect_blocks(&rt, rt.alloc(), TARGETS);
}

/// Tokens that go on with no body there, however deep.
const TOKENS: &str = r"
200 ) # token ) at 1:1
200 else ; # token else at 1:1
200 catch (E e) { } # token catch at 1:1
200 = 1; # token = at 1:1
200 //@ f();¶ # token f at 1:5
199 return ); # token ) at 1:8
199 { } else ; # token else at 1:5
198 x; # token ; at 1:2
198 if (a) while (b) ; # token while at 1:8
198 if (a) if (b) ; # token if at 1:8
198 x[ ;] = 1; # token ; at 1:4
196 for (f(); ; ) ; # token ; at 1:9
";

#[test]
fn in_no_body(rt: HostRuntime) {
    expect_blocks(&rt, rt.alloc(), TOKENS);
}
