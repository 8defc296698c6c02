//! Where tokens that are no file break the first profile.

ghost use Rattle.std.specs.Prelude.{IfOk, IfSome};
ghost use Rattle.jesc_first.specs.Fronts.{IsForeignPlace, IsPlace};
ghost use Rattle.jesc_first.specs.Seen.{seen};

use crate::reader::cursor::Cursor;
use crate::reader::foreign::foreign_name;
use crate::reader::lexeme::Lexeme;
use crate::reader::names::Names;
use crate::reader::phase::Phase;
use crate::reader::recognizer::Recognizer;
use jesc_text::OutOfMemory;
use std::alloc::Global;

/// The foreign name of the specification that begins at the place, if one begins there.
fn foreign_behind<'a>(
    alloc: Global,
    recognizer: &Recognizer<'a>,
    found: &Lexeme<'a>,
    place: &Cursor<'a>,
) -> Result<Option<Cursor<'a>>, OutOfMemory>
    ensures { IfOk result (λ foreign. IfSome foreign (λ at. IsForeignPlace (seen place.now) (seen at))) }
{
    if !recognizer.is_before_method() || !found.note {
        return Ok(None);
    }
    foreign_name(alloc, place)
}

/// The first place that shows that the tokens are no file, if they are none: a foreign name in a specification, or the
/// token at which the recognizer stops, or the end. The names of classes go to the names.
pub fn place_in<'a>(
    alloc: Global,
    cursor: &Cursor<'a>,
    classes: &mut Names<'a>,
) -> Result<Cursor<'a>, OutOfMemory>
    ensures { IfOk result (λ place. IsPlace classes.old (seen cursor.now) (seen place)) }
{
    let mut recognizer = Recognizer::new(alloc, Phase::Classes);
    let mut place = cursor.again();
    while let Some((found, rest)) = place.split_first() {
        if let Some(foreign) = foreign_behind(alloc, &recognizer, &found, &place)? {
            return Ok(foreign);
        }
        if !recognizer.step(&found, classes)? {
            return Ok(place);
        }
        place = rest;
    }
    Ok(place)
}
