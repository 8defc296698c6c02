//! Names in a specification that name no parameter.
//!
//! A specification stands before the parameters, so its names can be judged only by the heading behind it.

ghost use Rattle.std.specs.Prelude.{◌≡◌, ◌<◌, ◌&&◌, not, IfOk, IfSome, OnOk, length};
ghost use Rattle.jesc_first.specs.Fronts.{Opens, Furthers, Lists, HasHeading, IsStrange, IsForeignPlace};
ghost use Rattle.jesc_first.specs.Parsing.{any_parameter_in, same_kind, is_name_text, slot_in};
ghost use Rattle.std.specs.Option.{is_some};
ghost use Rattle.jesc_lexer.specs.declared.token.TokenKind.TheVariants.{Word};
ghost use Rattle.jesc_first.specs.Reads.{ReadsText};
ghost use Rattle.jesc_first.specs.Seen.{seen, lexeme};

use crate::reader::cursor::{Cursor, Stop};
use crate::reader::header::returns_value;
use crate::reader::lexeme::{Lexeme, is_of_kind};
use crate::reader::names::Names;
use crate::reader::phase::Phase;
use crate::reader::recognizer::Recognizer;
use crate::reader::reserved::is_name;
use jesc_lexer::TokenKind;
use jesc_text::OutOfMemory;
use std::alloc::Global;

/// The beginning of a heading, up to its parameters.
fn opening(cursor: &mut Cursor<'_>) -> Result<(), Stop>
    ensures { OnOk result (Opens (seen cursor.old) (seen cursor.new)) }
{
    cursor.expect(TokenKind::Word, false, b"static")?;
    returns_value(cursor)?;
    cursor.name()?;
    cursor.expect(TokenKind::Sign, false, b"(")?;
    Ok(())
}

/// A parameter, whose name may stand before.
fn any_parameter<'a>(cursor: &mut Cursor<'a>) -> Result<&'a [u8], Stop>
    ensures shorter { IfOk result (λ name. length (seen cursor.new) < length (seen cursor.old)) }
    ensures reads { ReadsText (any_parameter_in (seen cursor.old)) result (seen cursor.new) }
{
    cursor.expect(TokenKind::Word, false, b"int")?;
    cursor.name()
}

/// Parameters behind commas, whose names go to the names.
fn further_parameters<'a>(cursor: &mut Cursor<'a>, names: &mut Names<'a>) -> Result<(), Stop>
    ensures { OnOk result (Furthers (seen cursor.old) names.old (seen cursor.new) names.new) }
{
    while cursor.expect(TokenKind::Sign, false, b",").is_ok() {
        let name = any_parameter(cursor)?;
        names.add(name)?;
    }
    Ok(())
}

/// Parameters, whose names go to the names.
fn parameters<'a>(cursor: &mut Cursor<'a>, names: &mut Names<'a>) -> Result<(), Stop>
    ensures { OnOk result (Lists (seen cursor.old) (seen cursor.new) names.new) }
{
    if cursor.begins(TokenKind::Sign, false, b")") {
        return Ok(());
    }
    let first = any_parameter(cursor)?;
    names.add(first)?;
    further_parameters(cursor, names)
}

/// The names of the parameters of the heading with which the tokens begin. One name may stand twice.
fn parameters_of<'a>(alloc: Global, cursor: &mut Cursor<'a>) -> Result<Names<'a>, Stop>
    ensures { IfOk result (λ names. HasHeading (seen cursor.old) names) }
{
    let mut names = Names::new(alloc);
    opening(cursor)?;
    parameters(cursor, &mut names)?;
    cursor.expect(TokenKind::Sign, false, b")")?;
    Ok(names)
}

/// Whether it is a name that is not among the names.
fn is_strange(found: &Lexeme<'_>, names: &Names<'_>) -> bool
    ensures { result ≡ (same_kind found.now.kind Word && is_name_text (lexeme found.now).text && not (is_some (slot_in names.now (lexeme found.now).text))) }
{
    if !is_of_kind(found, TokenKind::Word) || !is_name(found.text) {
        return false;
    }
    names.slot_of(found.text).is_none()
}

/// The first part of a sum in the specification at the cursor that is a name and not among the names.
///
/// Only what the recognizer takes is looked at.
fn strange_name<'a>(
    alloc: Global,
    cursor: &Cursor<'a>,
    names: &Names<'_>,
) -> Result<Option<Cursor<'a>>, OutOfMemory>
    ensures { IfOk result (λ found. IfSome found (λ place. IsStrange (seen cursor.now) names.now (seen place))) }
{
    let mut recognizer = Recognizer::new(alloc, Phase::Methods);
    let mut classes = Names::new(alloc);
    let mut place = cursor.again();
    while let Some((found, rest)) = place.split_first() {
        if !found.note {
            return Ok(None);
        }
        if recognizer.is_before_part() && is_strange(&found, names) {
            return Ok(Some(place));
        }
        if !recognizer.step(&found, &mut classes)? {
            return Ok(None);
        }
        place = rest;
    }
    Ok(None)
}

/// The first name in the specification at the cursor that names no parameter of the heading behind it.
pub fn foreign_name<'a>(
    alloc: Global,
    cursor: &Cursor<'a>,
) -> Result<Option<Cursor<'a>>, OutOfMemory>
    ensures { IfOk result (λ found. IfSome found (λ place. IsForeignPlace (seen cursor.now) (seen place))) }
{
    let mut heading = cursor.again();
    heading.skip_notes();
    match parameters_of(alloc, &mut heading) {
        Ok(names) => strange_name(alloc, cursor, &names),
        Err(Stop::Refused) => Ok(None),
        Err(Stop::Memory) => Err(OutOfMemory),
    }
}
