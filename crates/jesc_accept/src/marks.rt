//! Marks of atoms: numbers by which most atoms differ.

ghost use Rattle.std.specs.Prelude.{◌≡◌};
ghost use Rattle.jesc_accept.specs.Marks as spec;

use jesc_clauses::Atom;

/// An odd factor that spreads the bits.
const FACTOR: u128 = 210_306_068_529_402_873_165_736_369_884_012_333_109;

/// The mark with one more part.
fn marked(mark: u128, part: &(i64, u32)) -> u128
    ensures { result ≡ spec.marked mark part.now }
{
    mark.wrapping_mul(FACTOR)
        .wrapping_add(part.1 as u128)
        .wrapping_mul(FACTOR)
        .wrapping_add_signed(part.0 as i128)
}

/// The mark of an atom. Takes no memory.
pub(crate) fn mark_of(atom: &Atom) -> u128
    ensures { result ≡ spec.mark_of atom.now }
{
    let mut mark = atom.bound.cast_unsigned();
    for part in atom.form.as_slice() {
        mark = marked(mark, part);
    }
    mark
}
