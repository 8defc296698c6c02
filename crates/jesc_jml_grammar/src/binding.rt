//! How tightly tokens bind the expressions beside them.

ghost use Rattle.std.specs.Prelude.{◌≡◌, ◌≤◌};
ghost use Rattle.jesc_jml_grammar.specs.Reading as spec;

use crate::mark::Mark;

/// How tightly it binds what stands before it, and 0 where it goes on with no expression.
pub fn binds(mark: Mark) -> usize
    ensures value { result ≡ spec.binds mark }
    ensures small { result ≤ 12 }
{
    match mark {
        Mark::Question => 1,
        Mark::Iff | Mark::NotIff => 2,
        Mark::Implies => 3,
        Mark::Or => 4,
        Mark::And => 5,
        Mark::Equal | Mark::Unequal => 6,
        Mark::Less | Mark::LessEqual | Mark::Greater | Mark::GreaterEqual => 7,
        Mark::InstanceOf => 7,
        Mark::Plus | Mark::Minus => 8,
        Mark::Times | Mark::Quotient | Mark::Remainder => 9,
        Mark::Dot => 11,
        Mark::LeftBracket => 12,
        _ => 0,
    }
}

/// The least strength of what stands before it.
fn needs(mark: Mark) -> usize
    ensures { result ≡ spec.needs mark }
{
    match mark {
        Mark::Question => 2,
        Mark::Implies => 4,
        _ => binds(mark),
    }
}

/// The least strength of an operator's right operand.
pub fn right_of(mark: Mark) -> usize
    ensures { result ≡ spec.right_of mark }
{
    match mark {
        Mark::Implies => 3,
        _ => binds(mark) + 1,
    }
}

/// Whether it goes on with a tree of this strength, where all that binds less tightly than `least` is left.
pub fn grows(strength: usize, mark: Mark, least: usize) -> bool
    ensures { result ≡ spec.grows strength mark least }
{
    least <= binds(mark) && needs(mark) <= strength
}
