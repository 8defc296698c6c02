//! Expressions of annotations with code between.

use crate::reading::{FILE_NOTE, expect_rows};

/// Whole files.
const ROWS: &str = r"
/*@ a */ + b # up to 5
/*@ (a) */ b # up to 7
/*@ a + */ //@ b
//@ a¶//@ .b + c¶+ d # up to 16
# Unexpected tokens.
a # token a at 1:1
/*@ a + */ b # token b at 1:12
/*@ (a */ ) # token ) at 1:11
/*@ (a */ assume # token assume at 1:11
//@ a +¶//@  goto # token goto at 2:6
# Words that are left out.
switch # left out switch at 1:1
var # left out var at 1:1
/*@ (a */ record # left out record at 1:11
/*@ a + */ char # left out char at 1:12
";

#[test]
fn beside_code(rt: HostRuntime) {
    expect_rows(&rt, rt.alloc(), FILE_NOTE, ROWS);
}
