//! Where the lines of a text begin.

ghost use Rattle.std.specs.Prelude.{◌≡◌, ◌≤◌, length, IfOk};
ghost use Rattle.jesc_ast.specs.Lines as spec;

use jesc_text::{List, OutOfMemory};
use std::alloc::Global;

/// 0, and the offset after each line feed of the text.
#[tactic(auto, using(crate::proofs::LineStarts::found_all))]
pub fn lines_of(alloc: Global, text: &[u8]) -> Result<List<u32>, OutOfMemory>
    requires { length text.now ≤ 1048576 }
    ensures { IfOk result (λ lines. lines ≡ spec.lines_of text.now) }
{
    let mut lines = List::new(alloc);
    lines.push(0)?;
    for (i, byte) in text.iter().enumerate() {
        if *byte == b'\n' {
            lines.push(i as u32 + 1)?;
        }
    }
    Ok(lines)
}
