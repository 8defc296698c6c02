//! The words that the language leaves out.

ghost use Rattle.std.specs.Prelude.{◌≡◌, ◌∷◌, [], codes};
ghost use Rattle.jesc_ast.specs.Words.{is_one_of};
ghost use Rattle.jesc_ast.specs.LeftOut as spec;
ghost use Rattle.jesc_jml_grammar.specs.Seen.{lexeme};

use jesc_jml_grammar::cursor::Lexeme;
use jesc_jml_grammar::mark::same;
use jesc_lexer::TokenKind;

fn is_first_code_word(text: &[u8]) -> bool
    ensures { result ≡ is_one_of (codes "import" ∷ codes "enum" ∷ codes "record" ∷ codes "switch" ∷ codes "case" ∷ codes "default" ∷ codes "do" ∷ codes "finally" ∷ codes "synchronized" ∷ codes "volatile" ∷ []) text.now }
{
    if same(text, b"import") {
        return true;
    }
    if same(text, b"enum") {
        return true;
    }
    if same(text, b"record") {
        return true;
    }
    if same(text, b"switch") {
        return true;
    }
    if same(text, b"case") {
        return true;
    }
    if same(text, b"default") {
        return true;
    }
    if same(text, b"do") {
        return true;
    }
    if same(text, b"finally") {
        return true;
    }
    if same(text, b"synchronized") {
        return true;
    }
    same(text, b"volatile")
}

fn is_second_code_word(text: &[u8]) -> bool
    ensures { result ≡ is_one_of (codes "transient" ∷ codes "native" ∷ codes "strictfp" ∷ codes "char" ∷ codes "byte" ∷ codes "short" ∷ codes "float" ∷ codes "double" ∷ codes "assert" ∷ codes "var" ∷ []) text.now }
{
    if same(text, b"transient") {
        return true;
    }
    if same(text, b"native") {
        return true;
    }
    if same(text, b"strictfp") {
        return true;
    }
    if same(text, b"char") {
        return true;
    }
    if same(text, b"byte") {
        return true;
    }
    if same(text, b"short") {
        return true;
    }
    if same(text, b"float") {
        return true;
    }
    if same(text, b"double") {
        return true;
    }
    if same(text, b"assert") {
        return true;
    }
    same(text, b"var")
}

fn is_first_note_word(text: &[u8]) -> bool
    ensures { result ≡ is_one_of (codes "assume" ∷ codes "axiom" ∷ codes "nowarn" ∷ codes "diverges" ∷ codes "measured_by" ∷ codes "decreases" ∷ codes "decreasing" ∷ codes "constraint" ∷ codes "initially" ∷ codes "maps" ∷ []) text.now }
{
    if same(text, b"assume") {
        return true;
    }
    if same(text, b"axiom") {
        return true;
    }
    if same(text, b"nowarn") {
        return true;
    }
    if same(text, b"diverges") {
        return true;
    }
    if same(text, b"measured_by") {
        return true;
    }
    if same(text, b"decreases") {
        return true;
    }
    if same(text, b"decreasing") {
        return true;
    }
    if same(text, b"constraint") {
        return true;
    }
    if same(text, b"initially") {
        return true;
    }
    same(text, b"maps")
}

fn is_second_note_word(text: &[u8]) -> bool
    ensures { result ≡ is_one_of (codes "accessible" ∷ codes "callable" ∷ codes "captures" ∷ codes "forall" ∷ codes "old" ∷ codes "loop_modifies" ∷ codes "loop_assigns" ∷ codes "nullable_by_default" ∷ []) text.now }
{
    if same(text, b"accessible") {
        return true;
    }
    if same(text, b"callable") {
        return true;
    }
    if same(text, b"captures") {
        return true;
    }
    if same(text, b"forall") {
        return true;
    }
    if same(text, b"old") {
        return true;
    }
    if same(text, b"loop_modifies") {
        return true;
    }
    if same(text, b"loop_assigns") {
        return true;
    }
    same(text, b"nullable_by_default")
}

fn is_first_backslash_word(text: &[u8]) -> bool
    ensures { result ≡ is_one_of (codes "\\sum" ∷ codes "\\product" ∷ codes "\\num_of" ∷ codes "\\max" ∷ codes "\\min" ∷ codes "\\reach" ∷ []) text.now }
{
    if same(text, b"\\sum") {
        return true;
    }
    if same(text, b"\\product") {
        return true;
    }
    if same(text, b"\\num_of") {
        return true;
    }
    if same(text, b"\\max") {
        return true;
    }
    if same(text, b"\\min") {
        return true;
    }
    same(text, b"\\reach")
}

fn is_second_backslash_word(text: &[u8]) -> bool
    ensures { result ≡ is_one_of (codes "\\type" ∷ codes "\\typeof" ∷ codes "\\bigint" ∷ codes "\\real" ∷ codes "\\such_that" ∷ codes "\\not_specified" ∷ []) text.now }
{
    if same(text, b"\\type") {
        return true;
    }
    if same(text, b"\\typeof") {
        return true;
    }
    if same(text, b"\\bigint") {
        return true;
    }
    if same(text, b"\\real") {
        return true;
    }
    if same(text, b"\\such_that") {
        return true;
    }
    same(text, b"\\not_specified")
}

fn is_left_out_of_code(text: &[u8]) -> bool
    ensures { result ≡ is_one_of spec.left_out_of_code text.now }
{
    is_first_code_word(text) || is_second_code_word(text)
}

fn is_left_out_of_notes(text: &[u8]) -> bool
    ensures { result ≡ is_one_of spec.left_out_of_notes text.now }
{
    is_first_note_word(text) || is_second_note_word(text)
}

fn is_left_out_with_backslash(text: &[u8]) -> bool
    ensures { result ≡ is_one_of spec.left_out_with_backslash text.now }
{
    is_first_backslash_word(text) || is_second_backslash_word(text)
}

fn ends_redundantly(text: &[u8]) -> bool
    ensures { result ≡ spec.ends_redundantly text.now }
{
    let start = text.len().saturating_sub(12);
    same(&text[start..], b"_redundantly")
}

fn is_left_out_word(note: bool, text: &[u8]) -> bool
    ensures { result ≡ spec.is_left_out_word note text.now }
{
    if note {
        is_left_out_of_notes(text) || ends_redundantly(text)
    } else {
        is_left_out_of_code(text)
    }
}

fn is_left_out_backslash(note: bool, text: &[u8]) -> bool
    ensures { result ≡ spec.is_left_out_backslash note text.now }
{
    note && is_left_out_with_backslash(text)
}

/// Whether the token is a word that the language leaves out on the token's side.
pub fn is_left_out(x: Lexeme<'_>) -> bool
    ensures { result ≡ spec.is_left_out (lexeme x.entry) }
{
    match x.kind {
        TokenKind::Word => is_left_out_word(x.note, x.text),
        TokenKind::Backslash => is_left_out_backslash(x.note, x.text),
        TokenKind::Number | TokenKind::Sign => false,
    }
}
