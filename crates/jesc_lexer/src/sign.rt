//! Signs: the longest one that begins a text.
ghost use Rattle.std.specs.Prelude.{◌≡◌, ◌++◌, [], ◌∷◌, codes, if◌then◌else◌};
ghost use Rattle.jesc_lexer.specs.Lexemes.{sign_len, any_fit, first_fit, note_signs, double_signs, single_signs};

/// Whether these two bytes are a sign of code and annotations.
fn is_double(one: u8, two: u8) -> bool
    ensures { result ≡ any_fit double_signs (one ∷ two ∷ []) }
{
    match two {
        b'=' => matches!(
            one,
            b'=' | b'!' | b'<' | b'>' | b'+' | b'-' | b'*' | b'/' | b'%'
        ),
        b'&' => one == b'&',
        b'|' => one == b'|',
        b'+' => one == b'+',
        b'-' => one == b'-',
        _ => false,
    }
}

/// Whether this byte is a sign of code and annotations.
fn is_single(byte: u8) -> bool
    ensures { result ≡ any_fit single_signs (byte ∷ []) }
{
    match byte {
        b'+' | b'-' | b'*' | b'/' | b'%' | b'<' | b'>' | b'!' | b'=' | b'?' | b':' => true,
        b'(' | b')' | b'{' | b'}' | b'[' | b']' | b';' | b',' | b'.' | b'@' => true,
        _ => false,
    }
}

/// Whether a sign of two bytes, of code and annotations, begins the bytes.
fn begins_double(bytes: &[u8]) -> bool
    ensures { result ≡ any_fit double_signs bytes.now }
{
    match bytes {
        [one, two, ..] => is_double(*one, *two),
        _ => false,
    }
}

/// Whether a sign of one byte begins the bytes.
fn begins_single(bytes: &[u8]) -> bool
    ensures { result ≡ any_fit single_signs bytes.now }
{
    match bytes {
        [byte, ..] => is_single(*byte),
        [] => false,
    }
}

/// The length of the sign that begins the bytes and is one in annotations alone, 0 where none does.
fn note_sign_len(bytes: &[u8], note: bool) -> usize
    ensures { result ≡ first_fit (if note then note_signs else []) bytes.now }
{
    if !note {
        return 0;
    }
    if bytes.starts_with(b"<=!=>") {
        return 5;
    }
    if bytes.starts_with(b"<==>") {
        return 4;
    }
    if bytes.starts_with(b"==>") {
        return 3;
    }
    if bytes.starts_with(b"..") {
        return 2;
    }
    0
}

/// The length of `<-` where it is a sign and begins the bytes, else 0.
fn arrow_len(bytes: &[u8], arrow: bool) -> usize
    ensures { result ≡ first_fit (if arrow then codes "<-" ∷ [] else []) bytes.now }
{
    if !arrow {
        return 0;
    }
    if bytes.starts_with(b"<-") {
        return 2;
    }
    0
}

/// The length of the sign of code and annotations that begins the bytes, 0 where none does.
fn plain_sign_len(bytes: &[u8]) -> usize
    ensures { result ≡ first_fit (double_signs ++ single_signs) bytes.now }
{
    if begins_double(bytes) {
        return 2;
    }
    if begins_single(bytes) {
        return 1;
    }
    0
}

/// The length of the longest sign that begins the bytes, 0 where none does.
///
/// `note` tells that they stand in an annotation, and `arrow` that `<-` is a sign there.
pub fn sign_len(bytes: &[u8], note: bool, arrow: bool) -> usize
    ensures { result ≡ sign_len note arrow bytes.now }
{
    let of_notes = note_sign_len(bytes, note);
    if of_notes > 0 {
        return of_notes;
    }
    let of_arrow = arrow_len(bytes, arrow);
    if of_arrow > 0 {
        return of_arrow;
    }
    plain_sign_len(bytes)
}
