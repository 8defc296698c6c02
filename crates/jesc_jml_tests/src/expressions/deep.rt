//! Texts of pieces that are repeated, at and past the limits of depth and of nested quantifiers.

use crate::reading::{CODE, NOTE, expect_rows};

/// In code and in annotations.
const BOTH: &str = r"
# Within the limits.
⟨199 (⟩0⟨199 )⟩
⟨199 - ⟩0
⟨199 !⟩a
⟨199 (int) ⟩0
⟨199 (a) ⟩0
⟨199 (a[]) ⟩0
⟨199 0 + ⟩0
⟨199 a || ⟩b
⟨199 a ? b : ⟩c
⟨199 a ? ⟩b⟨199  : c⟩
⟨199 a[⟩0⟨199 ]⟩
⟨199 m(⟩0⟨199 )⟩
⟨200 m(⟩⟨200 )⟩
⟨199 m(a, ⟩0⟨199 )⟩
⟨200 new A(⟩⟨200 )⟩
⟨199 new int[⟩0⟨199 ]⟩
⟨199 new A[⟩0⟨199 ]⟩
a⟨199 .b⟩
a⟨199 [0]⟩
a⟨199 .m()⟩
super.m()⟨199 .m()⟩
a⟨199  instanceof A⟩
⟨198 (⟩0 + 0⟨198 )⟩
⟨198 (⟩(a)⟨198 )⟩
⟨198 (⟩(a) 0⟨198 )⟩
⟨198 (⟩(int) 0⟨198 )⟩
⟨198 (⟩(a[]) b⟨198 )⟩
⟨198 (⟩a[0]⟨198 )⟩
⟨198 (⟩a.m()⟨198 )⟩
⟨199 (⟩m()⟨199 )⟩
⟨199 (⟩super.m()⟨199 )⟩
⟨199 (⟩new A()⟨199 )⟩
⟨198 (⟩(int) m()⟨198 )⟩
⟨198 (⟩0⟨198 ) ⟩+ 0
⟨199 0 + ⟩0 * 0
m(0, ⟨198 (⟩0⟨198 )⟩)
m(⟨5000 0, ⟩0)
# The first token that is too deep.
⟨199 (⟩( # deep at 1:200
⟨199 - ⟩- # deep at 1:399
⟨199 !⟩! # deep at 1:200
⟨199 (int) ⟩( # deep at 1:1195
⟨199 (a) ⟩( # deep at 1:797
⟨199 (a[]) ⟩- # deep at 1:1195
⟨199 0 + ⟩0 + # deep at 1:799
⟨199 a || ⟩b || # deep at 1:998
⟨199 a ? b : ⟩c ? # deep at 1:1595
⟨199 a ? ⟩b ? # deep at 1:799
⟨199 a[⟩a[ # deep at 1:400
⟨199 m(⟩0 + # deep at 1:401
⟨200 m(⟩0 # deep at 1:401
⟨200 m(⟩m # deep at 1:401
⟨200 m(⟩( # deep at 1:401
⟨200 new A(⟩new # deep at 1:1201
⟨199 new int[⟩new int # deep at 1:1597
⟨199 new A[⟩new A[ # deep at 1:1200
a⟨199 .b⟩. # deep at 1:400
a⟨199 [0]⟩[ # deep at 1:599
a⟨199 .m()⟩. # deep at 1:798
super.m()⟨199 .m()⟩. # deep at 1:806
a⟨199  instanceof A⟩ instanceof # deep at 1:2590
⟨199 (⟩- # deep at 1:200
⟨199 (⟩0 + # deep at 1:202
⟨199 (⟩0[ # deep at 1:201
⟨199 (⟩a + # deep at 1:202
⟨199 (⟩a. # deep at 1:201
⟨199 (⟩a[0 # deep at 1:202
⟨199 (⟩a(0 # deep at 1:202
⟨199 (⟩new A[ # deep at 1:205
⟨199 (⟩new int # deep at 1:204
⟨199 (⟩new A(0 # deep at 1:206
⟨199 (⟩super.m(0 # deep at 1:208
⟨198 (⟩(int) ( # deep at 1:205
⟨198 (⟩(int) - # deep at 1:205
⟨198 (⟩(a) ( # deep at 1:203
⟨198 (⟩(a) ! # deep at 1:203
⟨198 (⟩(a) + # deep at 1:203
⟨198 (⟩(a). # deep at 1:202
⟨198 (⟩(a)[ # deep at 1:202
⟨198 (⟩(a) instanceof # deep at 1:203
⟨198 (⟩(a) b. # deep at 1:204
⟨198 (⟩(a) b + # deep at 1:205
⟨198 (⟩a[( # deep at 1:201
⟨198 (⟩0 + ( # deep at 1:203
⟨199 (⟩0⟨199 ) ⟩+ # deep at 1:599
⟨199 (⟩0⟨199 ) ⟩? # deep at 1:599
⟨199 (⟩0⟨199 )⟩. # deep at 1:400
⟨200 m(⟩⟨200 ) ⟩+ # deep at 1:801
⟨200 m(⟩⟨200 )⟩[ # deep at 1:601
⟨200 m(⟩⟨200 ) ⟩instanceof # deep at 1:801
⟨199 new int[⟩0⟨199 ]⟩. # deep at 1:1793
m(0, ⟨198 (⟩( # deep at 1:204
⟨199 - ⟩0 + # deep at 1:401
⟨199 0 + ⟩0 instanceof # deep at 1:799
⟨199 0 + ⟩0 ? # deep at 1:799
# A token that no expression goes on with, where all others would be too deep.
⟨199 (⟩) # token ) at 1:200
⟨199 (⟩* # token * at 1:200
⟨199 (⟩0 b # token b at 1:202
⟨199 (⟩super+ # token + at 1:205
⟨199 (⟩a[) # token ) at 1:202
⟨200 m(⟩* # token * at 1:401
⟨200 m(⟩goto # token goto at 1:401
⟨199 new int[⟩new ; # token ; at 1:1597
⟨199 - ⟩goto # token goto at 1:399
";

#[test]
fn on_both_sides(rt: HostRuntime) {
    expect_rows(&rt, rt.alloc(), CODE, BOTH);
    expect_rows(&rt, rt.alloc(), NOTE, BOTH);
}

/// In annotations alone.
const NOTES: &str = r"
# Within the limits.
⟨199 a ==> ⟩b
⟨199 a <==> ⟩b
⟨199 \old(⟩a⟨199 )⟩
⟨199 \fresh(⟩a⟨199 )⟩
⟨199 (⟩\result⟨199 )⟩
⟨198 (⟩(\forall int i; 0 < i && i < n; a)⟨198 )⟩
(\forall int i; 0 < i && i < n; ⟨198 (⟩0⟨198 )⟩)
⟨3 (\forall int i; 0 < i && i < n; ⟩a⟨3 )⟩
⟨3 (\exists int i; 0 <= i && i <= n; ⟩a⟨3 )⟩
⟨3 (\forall int i; ⟩a⟨3  < i && i < n; b)⟩
⟨3 (\exists int i; 0 < i && i < ⟩n⟨3 ; b)⟩
a⟨9  && (\forall int i; 0 < i && i < n; b)⟩
# The first token that is too deep.
⟨199 a ==> ⟩b ==> # deep at 1:1197
⟨199 a <==> ⟩b <=!=> # deep at 1:1396
⟨199 \old(⟩\old # deep at 1:996
⟨199 \old(⟩\fresh # deep at 1:996
⟨199 (⟩\old # deep at 1:200
⟨199 (⟩\result. # deep at 1:207
⟨198 (⟩(\forall int i; - # deep at 1:215
⟨198 (⟩(\forall int i; 0 + # deep at 1:217
⟨198 (⟩(\forall int i; 0 < i && i < n; ( # deep at 1:231
⟨3 (\forall int i; 0 < i && i < n; ⟩(\forall # deep at 1:98
⟨3 (\forall int i; 0 < i && i < n; ⟩(\exists # deep at 1:98
⟨3 (\exists int i; 0 < i && i < n; ⟩m(a, (\forall # deep at 1:103
⟨3 (\forall int i; ⟩(\exists # deep at 1:50
⟨3 (\exists int i; 0 < i && i < ⟩(\forall # deep at 1:89
# A left-out word there.
⟨199 (⟩\sum # left out \sum at 1:200
⟨200 m(⟩\max # left out \max at 1:401
⟨3 (\forall int i; 0 < i && i < n; ⟩(\sum # left out \sum at 1:98
";

#[test]
fn in_annotations(rt: HostRuntime) {
    expect_rows(&rt, rt.alloc(), NOTE, NOTES);
}

/// Far past the limit, in code.
const ENDLESS: &str = r"
⟨20000 (⟩ # deep at 1:200
⟨20000 - ⟩ # deep at 1:399
⟨20000 (int) ⟩ # deep at 1:1195
⟨20000 a[⟩ # deep at 1:400
⟨20000 m(⟩ # deep at 1:401
⟨20000 new A(⟩ # deep at 1:1201
⟨20000 0 + ⟩ # deep at 1:799
⟨20000 a ? ⟩ # deep at 1:799
⟨20000 a ? b : ⟩ # deep at 1:1595
⟨20000 a.⟩ # deep at 1:400
";

#[test]
fn far_past_the_limits(rt: HostRuntime) {
    expect_rows(&rt, rt.alloc(), CODE, ENDLESS);
}
