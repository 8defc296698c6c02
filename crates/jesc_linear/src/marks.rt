//! Marks of forms: numbers by which most forms differ.

ghost use Rattle.std.specs.Prelude.{◌≡◌};
ghost use Rattle.jesc_linear.specs.Marks as spec;

/// An odd factor that spreads the bits.
const FACTOR: u64 = 11_400_714_819_323_198_485;

/// The mark with one more part.
fn marked(mark: u64, part: &(i64, u32)) -> u64
    ensures { result ≡ spec.marked mark part.now }
{
    mark.wrapping_mul(FACTOR)
        .wrapping_add(part.1 as u64)
        .wrapping_mul(FACTOR)
        .wrapping_add_signed(part.0)
}

/// The mark of a form. Takes no memory.
pub(crate) fn mark_of(form: &[(i64, u32)]) -> u64
    ensures { result ≡ spec.mark_of form.now }
{
    let mut mark = 0;
    for part in form {
        mark = marked(mark, part);
    }
    mark
}
