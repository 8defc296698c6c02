//! Which tokens begin a statement where it stands.

ghost use Rattle.std.specs.Prelude.{◌≡◌};
ghost use Rattle.jesc_java_grammar.specs.StatementMarks as spec;

use crate::statement_mark::{Slot, StatementMark};
use jesc_jml_grammar::mark::Mark;
use jesc_jml_grammar::opening::opens_at;

/// Whether an `if` may stand there.
pub fn allows_branch(slot: Slot) -> bool
    ensures { result ≡ spec.allows_branch slot }
{
    match slot {
        Slot::Any | Slot::Else => true,
        Slot::Then => false,
    }
}

/// Whether a loop may stand there.
pub fn allows_loop(slot: Slot) -> bool
    ensures { result ≡ spec.allows_loop slot }
{
    match slot {
        Slot::Any => true,
        _ => false,
    }
}

/// Whether a statement may begin with what is no mark of a statement.
fn begins_plain(mark: Mark) -> bool
    ensures { result ≡ spec.begins_plain mark }
{
    match mark {
        Mark::Semicolon | Mark::Name | Mark::Int | Mark::Long | Mark::Boolean => true,
        _ => opens_at(13, mark),
    }
}

/// Whether a statement there may begin with a token that has both marks.
pub fn begins(slot: Slot, mark: StatementMark, plain_mark: Mark) -> bool
    ensures { result ≡ spec.begins slot mark plain_mark }
{
    match mark {
        StatementMark::If => allows_branch(slot),
        StatementMark::While | StatementMark::For | StatementMark::Invariant => allows_loop(slot),
        StatementMark::Other => begins_plain(plain_mark),
        StatementMark::RightBrace
        | StatementMark::Else
        | StatementMark::Catch
        | StatementMark::Assign => false,
        _ => true,
    }
}
