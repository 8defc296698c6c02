//! What a token is to the grammar, told by its kind and its text.

ghost use Rattle.std.specs.Prelude.{◌≡◌, Bool, ◌∷◌, [], bytes_eq, codes};
ghost use Rattle.jesc_ast.specs.Words.{is_name as is_name_text, is_one_of, reserved};
ghost use Rattle.jesc_jml_grammar.specs.Marks as spec;

use jesc_lexer::TokenKind;

/// What a token is to the grammar of expressions.
#[derive(Debug, Drop, Clone, Copy, PartialEq, Eq)]
pub enum Mark {
    Name,
    Number,
    True,
    False,
    Null,
    This,
    New,
    Super,
    InstanceOf,
    Int,
    Long,
    Boolean,
    /// Any other word that is no name.
    Keyword,
    Result,
    Old,
    Fresh,
    Forall,
    Exists,
    /// Any other word behind a backslash.
    Backslash,
    LeftParen,
    RightParen,
    LeftBracket,
    RightBracket,
    Dot,
    Comma,
    Question,
    Colon,
    Semicolon,
    Plus,
    Minus,
    Times,
    Quotient,
    Remainder,
    Less,
    LessEqual,
    Greater,
    GreaterEqual,
    Equal,
    Unequal,
    And,
    Or,
    Implies,
    Iff,
    NotIff,
    Not,
    /// Any other sign.
    Sign,
    /// A token of the other side: of an annotation in code, or of code in an annotation.
    Away,
    /// The end, which no token is.
    End,
}

/// Whether two texts are the same.
pub fn same(a: &[u8], b: &[u8]) -> bool
    ensures { result ≡ bytes_eq a.now b.now }
{
    a == b
}

// The words that are no names, by their first byte.

fn is_a_word(text: &[u8]) -> bool
    ensures { result ≡ is_one_of (codes "abstract" ∷ codes "assert" ∷ []) text.now }
{
    same(text, b"abstract") || same(text, b"assert")
}

fn is_b_word(text: &[u8]) -> bool
    ensures { result ≡ is_one_of (codes "boolean" ∷ codes "break" ∷ codes "byte" ∷ []) text.now }
{
    same(text, b"boolean") || same(text, b"break") || same(text, b"byte")
}

fn is_c_word(text: &[u8]) -> bool
    ensures { result ≡ is_one_of (codes "case" ∷ codes "catch" ∷ codes "char" ∷ codes "class" ∷ codes "const" ∷ codes "continue" ∷ []) text.now }
{
    if same(text, b"case") || same(text, b"catch") || same(text, b"char") {
        return true;
    }
    same(text, b"class") || same(text, b"const") || same(text, b"continue")
}

fn is_d_word(text: &[u8]) -> bool
    ensures { result ≡ is_one_of (codes "default" ∷ codes "do" ∷ codes "double" ∷ []) text.now }
{
    same(text, b"default") || same(text, b"do") || same(text, b"double")
}

fn is_e_word(text: &[u8]) -> bool
    ensures { result ≡ is_one_of (codes "else" ∷ codes "enum" ∷ codes "extends" ∷ []) text.now }
{
    same(text, b"else") || same(text, b"enum") || same(text, b"extends")
}

fn is_f_word(text: &[u8]) -> bool
    ensures { result ≡ is_one_of (codes "final" ∷ codes "finally" ∷ codes "float" ∷ codes "for" ∷ codes "false" ∷ []) text.now }
{
    if same(text, b"final") || same(text, b"finally") || same(text, b"float") {
        return true;
    }
    same(text, b"for") || same(text, b"false")
}

fn is_i_word(text: &[u8]) -> bool
    ensures { result ≡ is_one_of (codes "if" ∷ codes "implements" ∷ codes "import" ∷ codes "instanceof" ∷ codes "int" ∷ codes "interface" ∷ []) text.now }
{
    if same(text, b"if") || same(text, b"implements") || same(text, b"import") {
        return true;
    }
    same(text, b"instanceof") || same(text, b"int") || same(text, b"interface")
}

fn is_n_word(text: &[u8]) -> bool
    ensures { result ≡ is_one_of (codes "native" ∷ codes "new" ∷ codes "null" ∷ []) text.now }
{
    same(text, b"native") || same(text, b"new") || same(text, b"null")
}

fn is_p_word(text: &[u8]) -> bool
    ensures { result ≡ is_one_of (codes "package" ∷ codes "private" ∷ codes "protected" ∷ codes "public" ∷ []) text.now }
{
    if same(text, b"package") || same(text, b"private") || same(text, b"protected") {
        return true;
    }
    same(text, b"public")
}

fn is_s_word(text: &[u8]) -> bool
    ensures { result ≡ is_one_of (codes "short" ∷ codes "static" ∷ codes "strictfp" ∷ codes "super" ∷ codes "switch" ∷ codes "synchronized" ∷ []) text.now }
{
    if same(text, b"short") || same(text, b"static") || same(text, b"strictfp") {
        return true;
    }
    same(text, b"super") || same(text, b"switch") || same(text, b"synchronized")
}

fn is_t_word(text: &[u8]) -> bool
    ensures { result ≡ is_one_of (codes "this" ∷ codes "throw" ∷ codes "throws" ∷ codes "transient" ∷ codes "try" ∷ codes "true" ∷ []) text.now }
{
    if same(text, b"this") || same(text, b"throw") || same(text, b"throws") {
        return true;
    }
    same(text, b"transient") || same(text, b"try") || same(text, b"true")
}

fn is_v_word(text: &[u8]) -> bool
    ensures { result ≡ is_one_of (codes "void" ∷ codes "volatile" ∷ []) text.now }
{
    same(text, b"void") || same(text, b"volatile")
}

/// Whether the text is a word that is no name.
fn is_reserved(text: &[u8]) -> bool
    ensures { result ≡ is_one_of reserved text.now }
{
    match text {
        [b'a', ..] => is_a_word(text),
        [b'b', ..] => is_b_word(text),
        [b'c', ..] => is_c_word(text),
        [b'd', ..] => is_d_word(text),
        [b'e', ..] => is_e_word(text),
        [b'f', ..] => is_f_word(text),
        [b'g', ..] => same(text, b"goto"),
        [b'i', ..] => is_i_word(text),
        [b'l', ..] => same(text, b"long"),
        [b'n', ..] => is_n_word(text),
        [b'p', ..] => is_p_word(text),
        [b'r', ..] => same(text, b"return"),
        [b's', ..] => is_s_word(text),
        [b't', ..] => is_t_word(text),
        [b'v', ..] => is_v_word(text),
        [b'w', ..] => same(text, b"while"),
        [b'_', ..] => same(text, b"_"),
        _ => false,
    }
}

fn is_name(text: &[u8]) -> bool
    ensures { result ≡ is_name_text text.now }
{
    !is_reserved(text)
}

fn keyword_mark(text: &[u8]) -> Mark
    ensures { result ≡ spec.keyword_mark text.now }
{
    match text {
        [b't', ..] => {
            if same(text, b"this") {
                Mark::This
            } else if same(text, b"true") {
                Mark::True
            } else {
                Mark::Keyword
            }
        }
        [b'n', ..] => {
            if same(text, b"new") {
                Mark::New
            } else if same(text, b"null") {
                Mark::Null
            } else {
                Mark::Keyword
            }
        }
        [b'i', ..] => {
            if same(text, b"int") {
                Mark::Int
            } else if same(text, b"instanceof") {
                Mark::InstanceOf
            } else {
                Mark::Keyword
            }
        }
        [b'f', ..] if same(text, b"false") => Mark::False,
        [b's', ..] if same(text, b"super") => Mark::Super,
        [b'l', ..] if same(text, b"long") => Mark::Long,
        [b'b', ..] if same(text, b"boolean") => Mark::Boolean,
        _ => Mark::Keyword,
    }
}

fn backslash_mark(text: &[u8]) -> Mark
    ensures { result ≡ spec.backslash_mark text.now }
{
    if same(text, b"\\result") {
        return Mark::Result;
    }
    if same(text, b"\\old") {
        return Mark::Old;
    }
    if same(text, b"\\fresh") {
        return Mark::Fresh;
    }
    if same(text, b"\\forall") {
        return Mark::Forall;
    }
    if same(text, b"\\exists") {
        return Mark::Exists;
    }
    Mark::Backslash
}

fn note_sign_mark(text: &[u8]) -> Mark
    ensures { result ≡ spec.note_sign_mark text.now }
{
    if same(text, b"==>") {
        return Mark::Implies;
    }
    if same(text, b"<==>") {
        return Mark::Iff;
    }
    if same(text, b"<=!=>") {
        return Mark::NotIff;
    }
    Mark::Sign
}

/// What a sign of one byte is.
fn single_mark(byte: u8) -> Mark
    ensures { (note : Bool) → result ≡ spec.sign_mark note (byte ∷ []) }
{
    match byte {
        b'(' => Mark::LeftParen,
        b')' => Mark::RightParen,
        b'.' => Mark::Dot,
        b',' => Mark::Comma,
        b';' => Mark::Semicolon,
        b'[' => Mark::LeftBracket,
        b']' => Mark::RightBracket,
        b'+' => Mark::Plus,
        b'-' => Mark::Minus,
        b'*' => Mark::Times,
        b'/' => Mark::Quotient,
        b'%' => Mark::Remainder,
        b'<' => Mark::Less,
        b'>' => Mark::Greater,
        b'!' => Mark::Not,
        b'?' => Mark::Question,
        b':' => Mark::Colon,
        _ => Mark::Sign,
    }
}

/// What a sign of two bytes is.
fn double_mark(one: u8, two: u8) -> Mark
    ensures { (note : Bool) → result ≡ spec.sign_mark note (one ∷ two ∷ []) }
{
    match (one, two) {
        (b'<', b'=') => Mark::LessEqual,
        (b'>', b'=') => Mark::GreaterEqual,
        (b'=', b'=') => Mark::Equal,
        (b'!', b'=') => Mark::Unequal,
        (b'&', b'&') => Mark::And,
        (b'|', b'|') => Mark::Or,
        _ => Mark::Sign,
    }
}

fn sign_mark(note: bool, text: &[u8]) -> Mark
    ensures { result ≡ spec.sign_mark note text.now }
{
    match text {
        [byte] => single_mark(*byte),
        [one, two] => double_mark(*one, *two),
        _ => {
            if note {
                note_sign_mark(text)
            } else {
                Mark::Sign
            }
        }
    }
}

/// What a token of this side, kind and text is to the grammar.
pub fn mark_of(note: bool, kind: TokenKind, text: &[u8]) -> Mark
    ensures { result ≡ spec.mark_of note kind text.now }
{
    match kind {
        TokenKind::Word => {
            if is_name(text) {
                Mark::Name
            } else {
                keyword_mark(text)
            }
        }
        TokenKind::Backslash => {
            if note {
                backslash_mark(text)
            } else {
                Mark::Backslash
            }
        }
        TokenKind::Number => Mark::Number,
        TokenKind::Sign => sign_mark(note, text),
    }
}
