ghost use Rattle.std.specs.Prelude.{◌≡◌, ◌≤◌, ◌<◌, ◌+◌, ◌*◌, ◌^◌, ◌++◌, OnOk, OnErr, MatchOption, ℤ, length, drop};
ghost use Rattle.std.specs.Str.Parse.{digits_value};
ghost use Rattle.std.specs.Char.{digit_value};
ghost use Rattle.std.specs.Fmt.{decimal, signed_decimal};
ghost use Rattle.jesc_text.specs.Numbers.{IsNatural, IsNumber};

use crate::list::OutOfMemory;
use crate::text::Text;

/// Writes the digits of a number to the end of a buffer, and tells where they begin; one byte stays before them.
fn fill_digits(buffer: &mut [u8], n: u128) -> usize
    requires { length buffer.old ≡ 40 }
    ensures room { 0 < result }
    ensures within { result < 40 }
    ensures digits { drop result buffer.new ≡ decimal n }
{
    let mut first = 40;
    let mut rest = n;
    while rest >= 10 {
        first -= 1;
        buffer[first] = 48 + (rest % 10) as u8;
        rest /= 10;
    }
    first -= 1;
    buffer[first] = 48 + rest as u8;
    first
}

/// Appends a number in decimal: its digits, the most significant first, after a `-` where it is negative.
///
/// Answers `OutOfMemory`, and leaves the text as it was, where there is no room.
pub fn put_number(into: &mut Text, n: i128) -> Result<(), OutOfMemory>
    ensures ok { OnOk result (into.new ≡ into.old ++ signed_decimal n) }
    ensures err { OnErr result (into.new ≡ into.old) }
{
    let mut buffer = [0u8; 40];
    let first = fill_digits(&mut buffer, n.unsigned_abs());
    if n >= 0 {
        return into.append(&buffer[first..]);
    }
    buffer[first - 1] = b'-';
    into.append(&buffer[first - 1..])
}

/// The number with one digit more, where the byte is a digit and the number stays within 2^126.
fn add_digit(n: u128, byte: u8) -> Option<u128>
    requires { n ≤ 2 ^ 126 }
    ensures { MatchOption result (¬ ((digit_value byte < 10) × (n * 10 + digit_value byte ≤ 2 ^ 126))) (λ m. (digit_value byte < 10) × (m ≡ n * 10 + digit_value byte) × (m ≤ 2 ^ 126)) }
{
    if byte < b'0' {
        return None;
    }
    if byte > b'9' {
        return None;
    }
    if n > (1 << 126) / 10 {
        return None;
    }
    let more = n * 10 + (byte - b'0') as u128;
    if more > 1 << 126 {
        return None;
    }
    Some(more)
}

/// The number that digits without a leading zero spell, where it is at most 2^126.
fn read_natural(bytes: &[u8]) -> Option<u128>
    ensures { MatchOption result (¬ (IsNatural bytes.now × (digits_value 10 bytes.now ≤ 2 ^ 126))) (λ n. IsNatural bytes.now × (n ≡ digits_value 10 bytes.now) × (n ≤ 2 ^ 126)) }
{
    if bytes.is_empty() {
        return None;
    }
    if bytes.len() > 1 && bytes[0] == b'0' {
        return None;
    }
    let mut n = 0u128;
    for byte in bytes {
        match add_digit(n, *byte) {
            Some(more) => n = more,
            None => return None,
        }
    }
    Some(n)
}

/// The number that the bytes spell.
///
/// None where they are not `0`, or an optional `-` and digits without a leading zero, or where the number is
/// beyond 2^126 in size. Takes no memory.
pub fn read_number(bytes: &[u8]) -> Option<i128>
    ensures { MatchOption result ((z : ℤ) → ¬ (IsNumber bytes.now z)) (λ z. IsNumber bytes.now z) }
{
    if bytes.is_empty() {
        return None;
    }
    if bytes[0] != b'-' {
        return match read_natural(bytes) {
            Some(n) => Some(n as i128),
            None => None,
        };
    }
    match read_natural(&bytes[1..]) {
        Some(0) => None,
        Some(n) => Some(-(n as i128)),
        None => None,
    }
}
