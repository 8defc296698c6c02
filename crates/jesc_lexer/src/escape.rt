//! Unicode escapes: the first one in a file.
ghost use Rattle.std.specs.Prelude.{◌≡◌, ◌==◌, ◌&&◌, ◌||◌, not, ℕ, ◌<◌, ◌+◌, length, slice_index, MatchOption};
ghost use Rattle.jesc_lexer.specs.Characters.{is_backslash};
ghost use Rattle.jesc_lexer.specs.Lexed.{IsEscape};

/// Whether a `u` stands at the place.
fn is_u(bytes: &[u8], place: usize) -> bool
    ensures { result ≡ (slice_index bytes.now place == 117) }
{
    if place >= bytes.len() {
        return false;
    }
    bytes[place] == b'u'
}

/// Whether a backslash with a `u` behind it stands at the place.
fn starts_escape(bytes: &[u8], place: usize) -> bool
    requires { place < length bytes.now }
    ensures { result ≡ (is_backslash (slice_index bytes.now place) && (slice_index bytes.now (place + 1) == 117)) }
{
    if bytes[place] != b'\\' {
        return false;
    }
    is_u(bytes, place + 1)
}

/// Whether an even number of backslashes stands behind the byte, by what stands before it.
fn even_behind(byte: u8, even: bool) -> bool
    ensures { result ≡ (not (is_backslash byte) || not even) }
{
    byte != b'\\' || !even
}

/// The place of the first Unicode escape: of a backslash with a `u` behind it, before which an even number of
/// backslashes stands.
pub fn first_escape(bytes: &[u8]) -> Option<usize>
    ensures { MatchOption result ((i : ℕ) → ¬ (IsEscape bytes.now i)) (λ at. IsEscape bytes.now at × ((i : ℕ) → i < at → ¬ (IsEscape bytes.now i))) }
{
    let mut even = true;
    for (at, byte) in bytes.iter().enumerate() {
        if even && starts_escape(bytes, at) {
            return Some(at);
        }
        even = even_behind(*byte, even);
    }
    None
}
