//! Expressions in code, from the token on whose number stands in front.

use crate::reading::{CODE, expect_from};

/// Each token of a text, and deep texts behind others.
const ROWS: &str = r"
0 a ; b + c ) d # up to 1
1 a ; b + c ) d # token ; at 1:3
2 a ; b + c ) d # up to 9
3 a ; b + c ) d # up to 9
4 a ; b + c ) d # up to 9
5 a ; b + c ) d # token ) at 1:11
6 a ; b + c ) d # all
7 a ; b + c ) d # token end of file at the end
# Nodes are counted from the token on.
2 a ; ⟨199 (⟩0⟨199 )⟩ # all
2 a ; ⟨200 (⟩ # deep at 1:204
3 a ; ⟨200 (⟩ # token end of file at the end
0 ⟨200 - ⟩0 # deep at 1:399
1 ⟨200 - ⟩0 # all
199 ⟨200 - ⟩0 # all
300 ⟨300 a ⟩⟨199 - ⟩0 # all
300 ⟨300 a ⟩⟨200 - ⟩0 # deep at 1:999
300 ⟨300 a ⟩⟨50 (⟩ # token end of file at the end
";

#[test]
fn from_a_token_on(rt: HostRuntime) {
    expect_from(&rt, rt.alloc(), CODE, ROWS);
}
