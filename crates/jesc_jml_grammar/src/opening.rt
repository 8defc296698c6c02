//! Which tokens begin an expression.

ghost use Rattle.std.specs.Prelude.{◌≡◌};
ghost use Rattle.jesc_jml_grammar.specs.Reading as spec;

use crate::mark::Mark;

/// Whether an expression may begin with it.
pub fn opens(mark: Mark) -> bool
    ensures { result ≡ spec.opens mark }
{
    match mark {
        Mark::Name | Mark::Number | Mark::True | Mark::False | Mark::Null | Mark::This => true,
        Mark::New | Mark::Super | Mark::Result | Mark::Old | Mark::Fresh => true,
        Mark::LeftParen | Mark::Plus | Mark::Minus | Mark::Not => true,
        _ => false,
    }
}

/// Whether it makes a cast of the parenthesised name before it.
pub fn casts(mark: Mark) -> bool
    ensures { result ≡ spec.casts mark }
{
    match mark {
        Mark::Plus | Mark::Minus => false,
        _ => opens(mark),
    }
}

pub fn is_prefix_mark(mark: Mark) -> bool
    ensures { result ≡ spec.is_prefix_mark mark }
{
    match mark {
        Mark::Plus | Mark::Minus | Mark::Not => true,
        _ => false,
    }
}

/// Whether a prefix or a cast may stand where all parts bind as tightly as `least`.
pub fn allows_prefix(least: usize) -> bool
    ensures { result ≡ spec.allows_prefix least }
{
    least <= 10
}

/// Whether an expression whose parts bind as tightly as `least` may begin with it.
pub fn opens_at(least: usize, mark: Mark) -> bool
    ensures { result ≡ spec.opens_at least mark }
{
    opens(mark) && (allows_prefix(least) || !is_prefix_mark(mark))
}
