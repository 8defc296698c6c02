//! Which words are names.

ghost use Rattle.std.specs.Prelude.{◌≡◌};
ghost use Rattle.std.specs.List.{list_any, list_all};
ghost use Rattle.std.specs.Str.{bytes_eq};
ghost use Rattle.jesc_first.specs.Names as spec;
ghost use Rattle.jesc_first.specs.Parsing.{is_word_text, is_name_text};

/// The keywords and literals of Java that look like words, and the underscore alone.
const RESERVED: [&[u8]; 54] = [
    b"abstract",
    b"assert",
    b"boolean",
    b"break",
    b"byte",
    b"case",
    b"catch",
    b"char",
    b"class",
    b"const",
    b"continue",
    b"default",
    b"do",
    b"double",
    b"else",
    b"enum",
    b"extends",
    b"final",
    b"finally",
    b"float",
    b"for",
    b"goto",
    b"if",
    b"implements",
    b"import",
    b"instanceof",
    b"int",
    b"interface",
    b"long",
    b"native",
    b"new",
    b"package",
    b"private",
    b"protected",
    b"public",
    b"return",
    b"short",
    b"static",
    b"strictfp",
    b"super",
    b"switch",
    b"synchronized",
    b"this",
    b"throw",
    b"throws",
    b"transient",
    b"try",
    b"void",
    b"volatile",
    b"while",
    b"_",
    b"true",
    b"false",
    b"null",
];

fn is_letter(byte: u8) -> bool
    ensures { result ≡ spec.is_letter byte }
{
    matches!(byte, b'a'..=b'z' | b'A'..=b'Z' | b'_')
}

fn is_word_byte(byte: u8) -> bool
    ensures { result ≡ spec.is_word_byte byte }
{
    is_letter(byte) || matches!(byte, b'0'..=b'9')
}

fn are_word_bytes(text: &[u8]) -> bool
    ensures { result ≡ list_all spec.is_word_byte text.now }
{
    text.iter().all(|byte| is_word_byte(*byte))
}

fn is_among(text: &[u8], words: &[&[u8]]) -> bool
    ensures { result ≡ list_any (λ word. bytes_eq text.now word.now) words.now }
{
    for word in words {
        if text == *word {
            return true;
        }
    }
    false
}

fn is_reserved(text: &[u8]) -> bool
    ensures { result ≡ spec.is_reserved text.now }
{
    is_among(text, &RESERVED)
}

/// Whether a text has ASCII letters, digits and underscores, and the first is no digit.
fn is_word(text: &[u8]) -> bool
    ensures { result ≡ is_word_text text.now }
{
    match text {
        [] => false,
        [first, more @ ..] => is_letter(*first) && are_word_bytes(more),
    }
}

/// Whether a text is a name: ASCII letters, digits and underscores, the first no digit, and not reserved.
pub fn is_name(text: &[u8]) -> bool
    ensures { result ≡ is_name_text text.now }
{
    if !is_word(text) {
        return false;
    }
    !is_reserved(text)
}
