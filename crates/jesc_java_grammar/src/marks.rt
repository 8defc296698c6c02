//! What tokens are to the grammar of statements and of members, told by their kind and text.

ghost use Rattle.std.specs.Prelude.{◌≡◌};
ghost use Rattle.jesc_ast.specs.Statements as ast;
ghost use Rattle.jesc_ast.specs.Members as ast_members;
ghost use Rattle.jesc_java_grammar.specs.StatementMarks as statements;
ghost use Rattle.jesc_java_grammar.specs.FileMarks as files;

use crate::member_mark::MemberMark;
use crate::statement_mark::StatementMark;
use jesc_jml_grammar::mark::same;
use jesc_lexer::TokenKind;

fn late_word_mark(text: &[u8]) -> StatementMark
    ensures { result ≡ statements.late_word_mark text.now }
{
    if same(text, b"break") {
        return StatementMark::Break;
    }
    if same(text, b"continue") {
        return StatementMark::Continue;
    }
    if same(text, b"try") {
        return StatementMark::Try;
    }
    if same(text, b"catch") {
        return StatementMark::Catch;
    }
    if same(text, b"final") {
        return StatementMark::Final;
    }
    StatementMark::Other
}

fn word_mark(text: &[u8]) -> StatementMark
    ensures { result ≡ statements.word_mark text.now }
{
    if same(text, b"if") {
        return StatementMark::If;
    }
    if same(text, b"else") {
        return StatementMark::Else;
    }
    if same(text, b"while") {
        return StatementMark::While;
    }
    if same(text, b"for") {
        return StatementMark::For;
    }
    if same(text, b"return") {
        return StatementMark::Return;
    }
    if same(text, b"throw") {
        return StatementMark::Throw;
    }
    late_word_mark(text)
}

pub fn is_invariant_text(text: &[u8]) -> bool
    ensures { result ≡ statements.is_invariant_text text.now }
{
    same(text, b"maintaining") || same(text, b"loop_invariant")
}

fn note_word_mark(text: &[u8]) -> StatementMark
    ensures { result ≡ statements.note_word_mark text.now }
{
    if is_invariant_text(text) {
        return StatementMark::Invariant;
    }
    if same(text, b"assert") {
        return StatementMark::Assert;
    }
    if same(text, b"set") {
        return StatementMark::Set;
    }
    if same(text, b"ghost") {
        return StatementMark::Ghost;
    }
    StatementMark::Other
}

pub fn is_assign_sign(text: &[u8]) -> bool
    ensures { result ≡ ast.is_assign_sign text.now }
{
    if same(text, b"=") || same(text, b"+=") || same(text, b"-=") {
        return true;
    }
    same(text, b"*=") || same(text, b"/=") || same(text, b"%=")
}

pub fn is_step_sign(text: &[u8]) -> bool
    ensures { result ≡ ast.is_step_sign text.now }
{
    same(text, b"++") || same(text, b"--")
}

fn sign_mark(text: &[u8]) -> StatementMark
    ensures { result ≡ statements.sign_mark text.now }
{
    if is_assign_sign(text) {
        return StatementMark::Assign;
    }
    if is_step_sign(text) {
        return StatementMark::Step;
    }
    if same(text, b"{") {
        return StatementMark::LeftBrace;
    }
    if same(text, b"}") {
        return StatementMark::RightBrace;
    }
    StatementMark::Other
}

/// What a token of this side, kind and text is to the grammar of statements.
pub fn statement_mark(note: bool, kind: TokenKind, text: &[u8]) -> StatementMark
    ensures { result ≡ statements.mark_of note kind text.now }
{
    match kind {
        TokenKind::Word => {
            if note {
                note_word_mark(text)
            } else {
                word_mark(text)
            }
        }
        TokenKind::Sign => {
            if note {
                StatementMark::Other
            } else {
                sign_mark(text)
            }
        }
        _ => StatementMark::Other,
    }
}

pub fn is_code_modifier(text: &[u8]) -> bool
    ensures { result ≡ ast_members.is_code_modifier text.now }
{
    if same(text, b"public") || same(text, b"protected") || same(text, b"private") {
        return true;
    }
    same(text, b"static") || same(text, b"final") || same(text, b"abstract")
}

fn is_late_note_modifier(text: &[u8]) -> bool
    ensures { result ≡ files.is_late_note_modifier text.now }
{
    if same(text, b"nullable") || same(text, b"non_null") || same(text, b"spec_public") {
        return true;
    }
    same(text, b"spec_protected") || same(text, b"instance")
}

pub fn is_note_modifier(text: &[u8]) -> bool
    ensures { result ≡ ast_members.is_note_modifier text.now }
{
    if same(text, b"public") || same(text, b"protected") || same(text, b"private") {
        return true;
    }
    if same(text, b"pure") || same(text, b"helper") {
        return true;
    }
    is_late_note_modifier(text)
}

fn member_word_mark(text: &[u8]) -> MemberMark
    ensures { result ≡ files.member_word_mark text.now }
{
    if is_code_modifier(text) {
        return MemberMark::Modifier;
    }
    if same(text, b"void") {
        return MemberMark::Void;
    }
    if same(text, b"class") {
        return MemberMark::Class;
    }
    if same(text, b"interface") {
        return MemberMark::Interface;
    }
    MemberMark::Other
}

fn note_member_mark(text: &[u8]) -> MemberMark
    ensures { result ≡ files.note_word_member_mark text.now }
{
    if is_note_modifier(text) {
        MemberMark::Modifier
    } else {
        MemberMark::Other
    }
}

/// What a token of this side, kind and text is to the grammar of classes and members.
pub fn member_mark(note: bool, kind: TokenKind, text: &[u8]) -> MemberMark
    ensures { result ≡ files.mark_of note kind text.now }
{
    match kind {
        TokenKind::Word => {
            if note {
                note_member_mark(text)
            } else {
                member_word_mark(text)
            }
        }
        TokenKind::Sign => {
            if !note && same(text, b"@") {
                MemberMark::At
            } else {
                MemberMark::Other
            }
        }
        _ => MemberMark::Other,
    }
}
