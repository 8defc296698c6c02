//! Steps that look at the next token itself.

ghost use Rattle.std.specs.Prelude.{◌≡◌, ◌∷◌, [], true, false, codes};
ghost use Rattle.jesc_ast.specs.Words.{is_one_of};
ghost use Rattle.jesc_ast.specs.Members as ast;
ghost use Rattle.jesc_jml_grammar.specs.Seen.{seen, lexeme, IsKept};
ghost use Rattle.jesc_jml_grammar.specs.Steps.{Reads, head};
ghost use Rattle.jesc_java_grammar.specs.Lexing as spec;
ghost use Rattle.jesc_java_grammar.specs.StatementMarks as statements;
ghost use Rattle.jesc_java_grammar.specs.FileMarks as files;
ghost use Rattle.jesc_java_grammar.specs.Views.{optional_lexeme};

use crate::marks::{
    is_assign_sign, is_code_modifier, is_invariant_text, is_note_modifier, is_step_sign,
    member_mark, statement_mark,
};
use crate::member_mark::MemberMark;
use crate::statement_mark::StatementMark;
use jesc_jml_grammar::cursor::{Cursor, Lexeme};
use jesc_jml_grammar::fault::ParseError;
use jesc_jml_grammar::mark::same;
use jesc_jml_grammar::step::is_same_side;
use jesc_lexer::TokenKind;

/// The next token with its text.
pub fn next<'a>(cursor: &Cursor<'a>) -> Option<Lexeme<'a>>
    ensures { optional_lexeme result ≡ head (seen cursor.now) }
{
    match cursor.rest {
        [] => None,
        [token, ..] => Some(Lexeme {
            kind: token.kind,
            text: &cursor.text[token.span.from as usize..token.span.to as usize],
            span: token.span,
            note: token.note,
        }),
    }
}

fn is_word_kind(kind: TokenKind) -> bool
    ensures { result ≡ spec.is_word_kind kind }
{
    match kind {
        TokenKind::Word => true,
        _ => false,
    }
}

fn is_sign_kind(kind: TokenKind) -> bool
    ensures { result ≡ spec.is_sign_kind kind }
{
    match kind {
        TokenKind::Sign => true,
        _ => false,
    }
}

fn has_word(x: Lexeme<'_>, note: bool, text: &[u8]) -> bool
    ensures { result ≡ spec.is_word text.now note (lexeme x.entry) }
{
    is_word_kind(x.kind) && is_same_side(note, x.note) && same(x.text, text)
}

fn has_sign(x: Lexeme<'_>, note: bool, text: &[u8]) -> bool
    ensures { result ≡ spec.is_sign text.now note (lexeme x.entry) }
{
    is_sign_kind(x.kind) && is_same_side(note, x.note) && same(x.text, text)
}

/// Whether the next token is this word, of the side that the cursor sees.
pub fn is_word(cursor: &Cursor<'_>, text: &[u8]) -> bool
    ensures { result ≡ spec.next_is (spec.is_word text.now cursor.now.note) (seen cursor.now) }
{
    match next(cursor) {
        None => false,
        Some(x) => has_word(x, cursor.note, text),
    }
}

/// Whether the next token is this sign, of the side that the cursor sees.
pub fn is_sign(cursor: &Cursor<'_>, text: &[u8]) -> bool
    ensures { result ≡ spec.next_is (spec.is_sign text.now cursor.now.note) (seen cursor.now) }
{
    match next(cursor) {
        None => false,
        Some(x) => has_sign(x, cursor.note, text),
    }
}

/// Takes the next token, if it is this word.
#[tactic(auto, unfolding(crate::specs::Lexing::take_if))]
pub fn take_word<'a>(cursor: &mut Cursor<'a>, text: &[u8]) -> Result<Lexeme<'a>, ParseError>
    ensures reads { Reads lexeme (spec.take_if (spec.is_word text.now cursor.old.note) (seen cursor.old)) result (seen cursor.new) }
    ensures kept { IsKept cursor.old cursor.new }
{
    if is_word(cursor, text) {
        cursor.take_one()
    } else {
        Err(cursor.refuse())
    }
}

/// Takes the next token, if it is this sign.
#[tactic(auto, unfolding(crate::specs::Lexing::take_if))]
pub fn take_sign<'a>(cursor: &mut Cursor<'a>, text: &[u8]) -> Result<Lexeme<'a>, ParseError>
    ensures reads { Reads lexeme (spec.take_if (spec.is_sign text.now cursor.old.note) (seen cursor.old)) result (seen cursor.new) }
    ensures kept { IsKept cursor.old cursor.new }
{
    if is_sign(cursor, text) {
        cursor.take_one()
    } else {
        Err(cursor.refuse())
    }
}

// ---- statements

/// What the next token is to the grammar of statements.
#[tactic(auto, unfolding(crate::specs::StatementMarks::statement_mark_at))]
pub fn peek_statement(cursor: &Cursor<'_>) -> StatementMark
    ensures { result ≡ statements.statement_mark_at (seen cursor.now) }
{
    match next(cursor) {
        None => StatementMark::Other,
        Some(x) => statement_mark(x.note, x.kind, x.text),
    }
}

fn is_assign(cursor: &Cursor<'_>) -> bool
    ensures { result ≡ spec.next_is statements.is_assign (seen cursor.now) }
{
    match next(cursor) {
        None => false,
        Some(x) => is_sign_kind(x.kind) && is_same_side(false, x.note) && is_assign_sign(x.text),
    }
}

fn is_step(cursor: &Cursor<'_>) -> bool
    ensures { result ≡ spec.next_is statements.is_step (seen cursor.now) }
{
    match next(cursor) {
        None => false,
        Some(x) => is_sign_kind(x.kind) && is_same_side(false, x.note) && is_step_sign(x.text),
    }
}

/// Whether the next token begins an invariant of a loop.
pub fn is_invariant(cursor: &Cursor<'_>) -> bool
    ensures { result ≡ spec.next_is statements.is_invariant (seen cursor.now) }
{
    match next(cursor) {
        None => false,
        Some(x) => is_word_kind(x.kind) && is_same_side(true, x.note) && is_invariant_text(x.text),
    }
}

/// Takes the next token, if it assigns.
#[tactic(auto, unfolding(crate::specs::Lexing::take_if))]
pub fn take_assign<'a>(cursor: &mut Cursor<'a>) -> Result<Lexeme<'a>, ParseError>
    ensures reads { Reads lexeme (spec.take_if statements.is_assign (seen cursor.old)) result (seen cursor.new) }
    ensures kept { IsKept cursor.old cursor.new }
{
    if is_assign(cursor) {
        cursor.take_one()
    } else {
        Err(cursor.refuse())
    }
}

/// Takes the next token, if it is `++` or `--`.
#[tactic(auto, unfolding(crate::specs::Lexing::take_if))]
pub fn take_step<'a>(cursor: &mut Cursor<'a>) -> Result<Lexeme<'a>, ParseError>
    ensures reads { Reads lexeme (spec.take_if statements.is_step (seen cursor.old)) result (seen cursor.new) }
    ensures kept { IsKept cursor.old cursor.new }
{
    if is_step(cursor) {
        cursor.take_one()
    } else {
        Err(cursor.refuse())
    }
}

/// Takes the next token, if it begins an invariant of a loop.
#[tactic(auto, unfolding(crate::specs::Lexing::take_if))]
pub fn take_invariant<'a>(cursor: &mut Cursor<'a>) -> Result<Lexeme<'a>, ParseError>
    ensures reads { Reads lexeme (spec.take_if statements.is_invariant (seen cursor.old)) result (seen cursor.new) }
    ensures kept { IsKept cursor.old cursor.new }
{
    if is_invariant(cursor) {
        cursor.take_one()
    } else {
        Err(cursor.refuse())
    }
}

// ---- classes and members

/// What the next token is to the grammar of classes and members.
#[tactic(auto, unfolding(crate::specs::FileMarks::member_mark_at))]
pub fn peek_member(cursor: &Cursor<'_>) -> MemberMark
    ensures { result ≡ files.member_mark_at (seen cursor.now) }
{
    match next(cursor) {
        None => MemberMark::Other,
        Some(x) => member_mark(x.note, x.kind, x.text),
    }
}

/// Whether a modifier comes next.
pub fn at_modifier(cursor: &Cursor<'_>) -> bool
    ensures { result ≡ files.at_modifier (seen cursor.now) }
{
    match peek_member(cursor) {
        MemberMark::Modifier | MemberMark::At => true,
        _ => false,
    }
}

fn is_code_word(x: Lexeme<'_>) -> bool
    ensures { result ≡ spec.is_word_that ast.is_code_modifier false (lexeme x.entry) }
{
    is_word_kind(x.kind) && is_same_side(false, x.note) && is_code_modifier(x.text)
}

fn is_note_word(x: Lexeme<'_>) -> bool
    ensures { result ≡ spec.is_word_that ast.is_note_modifier true (lexeme x.entry) }
{
    is_word_kind(x.kind) && is_same_side(true, x.note) && is_note_modifier(x.text)
}

fn is_modifier(cursor: &Cursor<'_>) -> bool
    ensures { result ≡ spec.next_is files.is_modifier (seen cursor.now) }
{
    match next(cursor) {
        None => false,
        Some(x) => is_code_word(x) || is_note_word(x),
    }
}

fn is_null_word(text: &[u8]) -> bool
    ensures { result ≡ is_one_of (codes "nullable" ∷ codes "non_null" ∷ []) text.now }
{
    same(text, b"nullable") || same(text, b"non_null")
}

fn is_null_modifier(x: Lexeme<'_>) -> bool
    ensures { result ≡ spec.is_word_that (is_one_of (codes "nullable" ∷ codes "non_null" ∷ [])) true (lexeme x.entry) }
{
    is_word_kind(x.kind) && is_same_side(true, x.note) && is_null_word(x.text)
}

/// Whether a modifier of a parameter comes next.
pub fn is_param_modifier(cursor: &Cursor<'_>) -> bool
    ensures { result ≡ spec.next_is files.is_param_modifier (seen cursor.now) }
{
    match next(cursor) {
        None => false,
        Some(x) => has_word(x, false, b"final") || is_null_modifier(x),
    }
}

/// Takes the next token, if it is a modifier.
#[tactic(auto, unfolding(crate::specs::Lexing::take_if))]
pub fn take_modifier<'a>(cursor: &mut Cursor<'a>) -> Result<Lexeme<'a>, ParseError>
    ensures reads { Reads lexeme (spec.take_if files.is_modifier (seen cursor.old)) result (seen cursor.new) }
    ensures kept { IsKept cursor.old cursor.new }
{
    if is_modifier(cursor) {
        cursor.take_one()
    } else {
        Err(cursor.refuse())
    }
}

/// Takes the next token, if it is a modifier of a parameter.
#[tactic(auto, unfolding(crate::specs::Lexing::take_if))]
pub fn take_param_modifier<'a>(cursor: &mut Cursor<'a>) -> Result<Lexeme<'a>, ParseError>
    ensures reads { Reads lexeme (spec.take_if files.is_param_modifier (seen cursor.old)) result (seen cursor.new) }
    ensures kept { IsKept cursor.old cursor.new }
{
    if is_param_modifier(cursor) {
        cursor.take_one()
    } else {
        Err(cursor.refuse())
    }
}
