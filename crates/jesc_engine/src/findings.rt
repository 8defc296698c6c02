ghost use Rattle.std.specs.Prelude.{IfOk};
ghost use Rattle.jesc_engine.specs.Findings.{AreFindings};

use crate::answer::Finding;
use crate::ways::find;
use jesc_first::Method;
use jesc_text::{List, OutOfMemory};
use std::alloc::Global;

/// The findings on a method: an answer for each of its checks, in order.
///
/// An Open check has a call that starts and fails it, and each check that some call fails has a finding that is not
/// Proved.
#[tactic(auto, using(crate::proofs::Answered::findings_are))]
pub(crate) fn findings(alloc: Global, method: &Method) -> Result<List<Finding>, OutOfMemory>
    ensures { IfOk result (λ found. AreFindings method.now found) }
{
    find(alloc, method)
}
