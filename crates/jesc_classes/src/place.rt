//! Places by the lines of a file.

ghost use Rattle.std.specs.Prelude.{◌≡◌, ◌≤◌};
ghost use Rattle.jesc_ast.specs.Lines as spec;
ghost use Rattle.jesc_ast.specs.Lines.{IsLines};

use jesc_text::{Place, Span};

/// The place of a span's first byte, where lines begin at these offsets. The time is logarithmic in the lines.
pub fn place_at(lines: &[u32], span: Span) -> Place
    requires lines { IsLines lines.now }
    requires within { span.from ≤ 1048576 }
    ensures { result ≡ spec.place_at lines.now span }
{
    let line = lines.partition_point(|start| *start <= span.from);
    Place {
        file: span.file,
        line: line as u32,
        col: span.from - lines[line - 1] + 1,
    }
}
