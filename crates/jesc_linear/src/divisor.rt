//! Greatest common divisors.

ghost use Rattle.std.specs.Prelude.{◌≡◌, ◌≢◌, ◌≤◌, ◌^◌, pos, All, unsigned_abs};
ghost use Rattle.std.specs.Int.{IsGcd};
ghost use Rattle.jesc_linear.specs.Forms.{IsNonzero};
ghost use Rattle.jesc_linear.specs.Divisors as spec;
ghost use Rattle.jesc_linear.specs.Sums as sums;

/// The greatest common divisor of a form's coefficients, of none 1. Takes no memory.
pub(crate) fn divisor_of(form: &[(i128, u32)]) -> i128
    requires nonzero { All IsNonzero form.now }
    requires sizes { All (λ part. unsigned_abs part.0 ≤ 2 ^ 63) form.now }
    ensures { result ≡ pos (spec.divisor_of form.now) }
{
    let mut divisor = 0u64;
    for part in form {
        divisor = common_divisor(divisor, part.0.unsigned_abs() as u64);
    }
    if divisor == 0 {
        return 1;
    }
    divisor as i128
}

/// The greatest common divisor, the other number where one is 0.
fn common_divisor(first: u64, second: u64) -> u64
    ensures { IsGcd first second result }
{
    let mut greater = first;
    let mut lesser = second;
    while lesser != 0 {
        let rest = greater % lesser;
        greater = lesser;
        lesser = rest;
    }
    greater
}

/// The least multiplier that cancels, in a row that has a multiplier too, the other row's coefficient. Takes no memory.
pub(crate) fn multiplier(own: i64, other: i64) -> i64
    requires own { own ≢ pos 0 }
    requires other { other ≢ pos 0 }
    requires own_size { unsigned_abs own ≤ 2 ^ 31 }
    requires other_size { unsigned_abs other ≤ 2 ^ 31 }
    ensures exact { result ≡ pos (sums.multiplier own other) }
    ensures low { 1 ≤ unsigned_abs result }
    ensures high { unsigned_abs result ≤ 2 ^ 31 }
{
    let size = other.unsigned_abs();
    let divisor = common_divisor(own.unsigned_abs(), size);
    (size / divisor) as i64
}
