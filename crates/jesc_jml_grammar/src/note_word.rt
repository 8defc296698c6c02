//! What a token is to the rules of specifications, told by its kind and its text.

ghost use Rattle.std.specs.Prelude.{◌≡◌};
ghost use Rattle.jesc_ast.specs.Words.{is_one_of};
ghost use Rattle.jesc_jml_grammar.specs.ClauseMarks as spec;

use crate::mark::same;
use jesc_lexer::TokenKind;

/// What a token is to the rules of specifications. The words are names elsewhere.
#[derive(Debug, Drop, Clone, Copy, PartialEq, Eq)]
pub enum NoteWord {
    Also,
    /// `public`, `protected` or `private`.
    Visibility,
    Behavior,
    NormalBehavior,
    ExceptionalBehavior,
    /// `requires` or `pre`.
    Requires,
    /// `ensures` or `post`.
    Ensures,
    /// `assignable`, `modifies`, `modifiable` or `assigns`.
    Assignable,
    /// `signals` or `exsures`.
    Signals,
    SignalsOnly,
    Instance,
    /// Any other modifier.
    Modifier,
    Invariant,
    Represents,
    /// `ghost` or `model`.
    Field,
    In,
    /// `\nothing`.
    Nothing,
    /// `\everything`.
    Everything,
    /// `=`.
    Equals,
    /// `<-`.
    Arrow,
    /// `..`.
    Range,
    /// Any other token, one of code, and the end.
    Other,
}

fn is_visibility(text: &[u8]) -> bool
    ensures { result ≡ is_one_of (spec.texts NoteWord.Visibility) text.now }
{
    same(text, b"public") || same(text, b"protected") || same(text, b"private")
}

fn is_assignable(text: &[u8]) -> bool
    ensures { result ≡ is_one_of (spec.texts NoteWord.Assignable) text.now }
{
    if same(text, b"assignable") || same(text, b"modifies") {
        return true;
    }
    same(text, b"modifiable") || same(text, b"assigns")
}

fn is_modifier(text: &[u8]) -> bool
    ensures { result ≡ is_one_of (spec.texts NoteWord.Modifier) text.now }
{
    if same(text, b"pure") || same(text, b"helper") || same(text, b"nullable") {
        return true;
    }
    same(text, b"non_null") || same(text, b"spec_public") || same(text, b"spec_protected")
}

fn member_word(text: &[u8]) -> NoteWord
    ensures { result ≡ spec.member_word text.now }
{
    if same(text, b"instance") {
        return NoteWord::Instance;
    }
    if is_modifier(text) {
        return NoteWord::Modifier;
    }
    if same(text, b"invariant") {
        return NoteWord::Invariant;
    }
    if same(text, b"represents") {
        return NoteWord::Represents;
    }
    if same(text, b"ghost") || same(text, b"model") {
        return NoteWord::Field;
    }
    if same(text, b"in") {
        return NoteWord::In;
    }
    NoteWord::Other
}

fn case_word(text: &[u8]) -> NoteWord
    ensures { result ≡ spec.case_word text.now }
{
    if same(text, b"also") {
        return NoteWord::Also;
    }
    if is_visibility(text) {
        return NoteWord::Visibility;
    }
    if same(text, b"behavior") || same(text, b"behaviour") {
        return NoteWord::Behavior;
    }
    if same(text, b"normal_behavior") || same(text, b"normal_behaviour") {
        return NoteWord::NormalBehavior;
    }
    if same(text, b"exceptional_behavior") || same(text, b"exceptional_behaviour") {
        return NoteWord::ExceptionalBehavior;
    }
    member_word(text)
}

fn plain_word(text: &[u8]) -> NoteWord
    ensures { result ≡ spec.plain_word text.now }
{
    if same(text, b"requires") || same(text, b"pre") {
        return NoteWord::Requires;
    }
    if same(text, b"ensures") || same(text, b"post") {
        return NoteWord::Ensures;
    }
    if is_assignable(text) {
        return NoteWord::Assignable;
    }
    if same(text, b"signals") || same(text, b"exsures") {
        return NoteWord::Signals;
    }
    if same(text, b"signals_only") {
        return NoteWord::SignalsOnly;
    }
    case_word(text)
}

fn backslash_word(text: &[u8]) -> NoteWord
    ensures { result ≡ spec.backslash_word text.now }
{
    if same(text, b"\\nothing") {
        return NoteWord::Nothing;
    }
    if same(text, b"\\everything") {
        return NoteWord::Everything;
    }
    NoteWord::Other
}

fn sign_word(text: &[u8]) -> NoteWord
    ensures { result ≡ spec.sign_word text.now }
{
    if same(text, b"=") {
        return NoteWord::Equals;
    }
    if same(text, b"<-") {
        return NoteWord::Arrow;
    }
    if same(text, b"..") {
        return NoteWord::Range;
    }
    NoteWord::Other
}

/// What a token of annotations is, of this kind and text.
pub fn word_of_kind(kind: TokenKind, text: &[u8]) -> NoteWord
    ensures { result ≡ spec.word_of_kind kind text.now }
{
    match kind {
        TokenKind::Word => plain_word(text),
        TokenKind::Backslash => backslash_word(text),
        TokenKind::Number => NoteWord::Other,
        TokenKind::Sign => sign_word(text),
    }
}

#[tactic(auto, unfolding(crate::specs::ClauseMarks::same_word))]
pub fn same_word(a: NoteWord, b: NoteWord) -> bool
    ensures { result ≡ spec.same_word a b }
{
    a == b
}

pub fn is_heading_word(word: NoteWord) -> bool
    ensures { result ≡ spec.is_heading_word word }
{
    match word {
        NoteWord::Behavior | NoteWord::NormalBehavior | NoteWord::ExceptionalBehavior => true,
        _ => false,
    }
}

/// Whether a clause may begin with the word, under a heading or, where there is none, another word.
pub fn may_begin_clause(heading: NoteWord, word: NoteWord) -> bool
    ensures { result ≡ spec.may_begin_clause heading word }
{
    match word {
        NoteWord::Ensures => !same_word(heading, NoteWord::ExceptionalBehavior),
        NoteWord::Assignable => true,
        NoteWord::Signals => !same_word(heading, NoteWord::NormalBehavior),
        NoteWord::SignalsOnly => !same_word(heading, NoteWord::NormalBehavior),
        _ => false,
    }
}

pub fn is_modifier_word(word: NoteWord) -> bool
    ensures { result ≡ spec.is_modifier_word word }
{
    match word {
        NoteWord::Visibility | NoteWord::Instance | NoteWord::Modifier => true,
        _ => false,
    }
}

/// Whether it stands between a represented field and its value.
pub fn is_represents_sign(word: NoteWord) -> bool
    ensures { result ≡ spec.is_represents_sign word }
{
    match word {
        NoteWord::Equals | NoteWord::Arrow => true,
        _ => false,
    }
}
