//! The phase of the recognizer behind a token.

ghost use Rattle.std.specs.Prelude.{◌≡◌};
ghost use Rattle.std.specs.Option.{is_some};
ghost use Rattle.jesc_first.specs.Recognizing as spec;
ghost use Rattle.jesc_first.specs.Parsing.{slot_in};
ghost use Rattle.jesc_first.specs.Seen.{lexeme};

use crate::reader::lexeme::{Lexeme, fits, is_plain_word};
use crate::reader::names::Names;
use crate::reader::phase::{Phase, Seat};
use crate::reader::reserved::is_name;
use crate::reader::sums::number;
use jesc_lexer::TokenKind;

pub fn is_word(found: &Lexeme<'_>, note: bool, text: &[u8]) -> bool
    ensures { result ≡ spec.is_word note text.now (lexeme found.now) }
{
    fits(found, TokenKind::Word, note, text)
}

pub fn is_sign(found: &Lexeme<'_>, note: bool, text: &[u8]) -> bool
    ensures { result ≡ spec.is_sign note text.now (lexeme found.now) }
{
    fits(found, TokenKind::Sign, note, text)
}

/// Whether it is a name outside annotations that is not among the names.
pub fn is_new(found: &Lexeme<'_>, names: &Names<'_>) -> bool
    ensures { result ≡ spec.is_new names.now (lexeme found.now) }
{
    if !is_plain_word(found) || !is_name(found.text) {
        return false;
    }
    names.slot_of(found.text).is_none()
}

fn is_noted(seat: Seat) -> bool
    ensures { result ≡ spec.is_noted seat }
{
    match seat {
        Seat::DemandLeft | Seat::DemandRight => true,
        Seat::PromiseLeft | Seat::PromiseRight => true,
        Seat::AssertionLeft | Seat::AssertionRight => true,
        Seat::Initial | Seat::Assigned | Seat::Returned => false,
    }
}

fn is_promise(seat: Seat) -> bool
    ensures { result ≡ spec.is_promise seat }
{
    match seat {
        Seat::PromiseLeft | Seat::PromiseRight => true,
        _ => false,
    }
}

/// Whether the name is one of the first `count` names in scope.
fn is_below(text: &[u8], scope: &Names<'_>, count: usize) -> bool
    ensures { result ≡ spec.is_below count (slot_in scope.now text.now) }
{
    match scope.slot_of(text) {
        Some(slot) => (slot as usize) < count,
        None => false,
    }
}

/// Whether the name may stand in a sum. In a specification any name may, since its parameters come behind it.
fn may_name(text: &[u8], seat: Seat, scope: &Names<'_>) -> bool
    ensures { result ≡ spec.may_name seat scope.now text.now }
{
    match seat {
        Seat::DemandLeft | Seat::DemandRight => is_name(text),
        Seat::PromiseLeft | Seat::PromiseRight => is_name(text),
        Seat::Initial => is_below(text, scope, scope.len().saturating_sub(1)),
        _ => is_below(text, scope, scope.len()),
    }
}

fn is_part_text(found: &Lexeme<'_>, seat: Seat, scope: &Names<'_>) -> bool
    ensures { result ≡ spec.is_part_text seat scope.now (lexeme found.now).text found.now.kind }
{
    match found.kind {
        TokenKind::Word => may_name(found.text, seat, scope),
        TokenKind::Number => number(found.text).is_some(),
        TokenKind::Backslash => is_promise(seat) && found.text == b"\\result".as_slice(),
        TokenKind::Sign => false,
    }
}

pub fn is_part(found: &Lexeme<'_>, seat: Seat, scope: &Names<'_>) -> bool
    ensures { result ≡ spec.is_part seat scope.now (lexeme found.now) }
{
    found.note == is_noted(seat) && is_part_text(found, seat, scope)
}

fn is_operator(found: &Lexeme<'_>, note: bool) -> bool
    ensures { result ≡ spec.is_operator note (lexeme found.now) }
{
    is_sign(found, note, b"+") || is_sign(found, note, b"-")
}

fn is_comparison(found: &Lexeme<'_>) -> bool
    ensures { result ≡ spec.is_comparison (lexeme found.now) }
{
    if is_sign(found, true, b"<") || is_sign(found, true, b"<=") {
        return true;
    }
    if is_sign(found, true, b">") || is_sign(found, true, b">=") {
        return true;
    }
    is_sign(found, true, b"==")
}

pub fn to(test: bool, phase: Phase) -> Option<Phase>
    ensures { result ≡ spec.to test phase }
{
    if test { Some(phase) } else { None }
}

/// A clause, or the heading of a method.
pub fn in_specification(found: &Lexeme<'_>, demands: bool) -> Option<Phase>
    ensures { result ≡ spec.in_specification demands (lexeme found.now) }
{
    if demands && is_word(found, true, b"requires") {
        return Some(Phase::Part(Seat::DemandLeft));
    }
    if is_word(found, true, b"ensures") {
        return Some(Phase::Part(Seat::PromiseLeft));
    }
    to(is_word(found, false, b"static"), Phase::Result)
}

/// A method with its specification, or the end of the class.
pub fn in_class(found: &Lexeme<'_>) -> Option<Phase>
    ensures { result ≡ spec.in_class (lexeme found.now) }
{
    if is_sign(found, false, b"}") {
        return Some(Phase::Classes);
    }
    in_specification(found, true)
}

/// A parameter, or the end of none.
pub fn in_parameters(found: &Lexeme<'_>) -> Option<Phase>
    ensures { result ≡ spec.in_parameters (lexeme found.now) }
{
    if is_sign(found, false, b")") {
        return Some(Phase::BodyBrace);
    }
    to(is_word(found, false, b"int"), Phase::ParameterName)
}

/// A further parameter, or the end of them.
pub fn behind_parameter(found: &Lexeme<'_>) -> Option<Phase>
    ensures { result ≡ spec.behind_parameter (lexeme found.now) }
{
    if is_sign(found, false, b",") {
        return Some(Phase::Parameter);
    }
    to(is_sign(found, false, b")"), Phase::BodyBrace)
}

/// What ends a sum.
fn behind_sum(found: &Lexeme<'_>, seat: Seat) -> Option<Phase>
    ensures { result ≡ spec.behind_sum seat (lexeme found.now) }
{
    match seat {
        Seat::DemandLeft => to(is_comparison(found), Phase::Part(Seat::DemandRight)),
        Seat::DemandRight => to(is_sign(found, true, b";"), Phase::Demands),
        Seat::PromiseLeft => to(is_comparison(found), Phase::Part(Seat::PromiseRight)),
        Seat::PromiseRight => to(is_sign(found, true, b";"), Phase::Promises),
        Seat::AssertionLeft => to(is_comparison(found), Phase::Part(Seat::AssertionRight)),
        Seat::AssertionRight => to(is_sign(found, true, b";"), Phase::Statement),
        Seat::Initial => to(is_sign(found, false, b";"), Phase::Statement),
        Seat::Assigned => to(is_sign(found, false, b";"), Phase::Statement),
        Seat::Returned => to(is_sign(found, false, b";"), Phase::Closing),
    }
}

pub fn behind_part(found: &Lexeme<'_>, seat: Seat) -> Option<Phase>
    ensures { result ≡ spec.behind_part seat (lexeme found.now) }
{
    if is_operator(found, is_noted(seat)) {
        return Some(Phase::Part(seat));
    }
    behind_sum(found, seat)
}

/// `int`, or `void` where `\result` was not told.
pub fn in_result(found: &Lexeme<'_>, told: bool) -> Option<Phase>
    ensures { result ≡ spec.in_result told (lexeme found.now) }
{
    if is_word(found, false, b"int") {
        return Some(Phase::MethodName);
    }
    to(!told && is_word(found, false, b"void"), Phase::MethodName)
}

/// The end of a body.
fn in_end(found: &Lexeme<'_>, returns: bool) -> Option<Phase>
    ensures { result ≡ spec.in_end returns (lexeme found.now) }
{
    if returns {
        to(
            is_word(found, false, b"return"),
            Phase::Part(Seat::Returned),
        )
    } else {
        to(is_sign(found, false, b"}"), Phase::Methods)
    }
}

/// A statement, or the end of the body.
pub fn in_body(found: &Lexeme<'_>, returns: bool, scope: &Names<'_>) -> Option<Phase>
    ensures { result ≡ spec.in_body returns scope.now (lexeme found.now) }
{
    if is_word(found, false, b"int") {
        return Some(Phase::LocalName);
    }
    if is_word(found, true, b"assert") {
        return Some(Phase::Part(Seat::AssertionLeft));
    }
    if is_plain_word(found) && scope.slot_of(found.text).is_some() {
        return Some(Phase::AssignedEquals);
    }
    in_end(found, returns)
}
