//! The line that names a method and its parameters.

ghost use Rattle.std.specs.Prelude.{◌≡◌, ◌≤◌, ◌<◌, [], IfOk, IfErr, None, length};
ghost use Rattle.jesc_first.specs.declared.reader.cursor.Stop.TheVariants.{Memory};
ghost use Rattle.jesc_first.specs.Parsing.{slot_in, new_name_in, parameter_in, repeated, more_parameter_in, parameters_in, result_in, heading_in};
ghost use Rattle.jesc_first.specs.Reads.{Reads, ReadsWith, ReadsNew, ReadsHeading, Keeps, Taken, in_front};
ghost use Rattle.jesc_first.specs.Seen.{seen};

use crate::reader::cursor::{Cursor, Stop};
use crate::reader::names::Names;
use jesc_lexer::TokenKind;
use jesc_text::{List, Text};
use std::alloc::Global;

/// What stands before a method's body.
#[derive(Debug, Drop)]
pub struct Header {
    pub name: Text,
    pub returns: bool,
    pub parameters: List<Text>,
}

/// A copy of a text.
pub fn text_of(alloc: Global, bytes: &[u8]) -> Result<Text, Stop>
    ensures copied { IfOk result (λ text. text ≡ bytes.now) }
    ensures memory { IfErr result (λ stop. stop ≡ Memory) }
{
    let mut text = Text::new(alloc);
    text.append(bytes)?;
    Ok(text)
}

/// Takes a name that is not among the names.
pub fn fresh_name<'a>(cursor: &mut Cursor<'a>, names: &Names<'a>) -> Result<&'a [u8], Stop>
    ensures shorter { IfOk result (λ text. length (seen cursor.new) < length (seen cursor.old)) }
    ensures fresh { IfOk result (λ name. slot_in names.now name.now ≡ None) }
    ensures reads { ReadsNew names.now (seen cursor.old) result (seen cursor.new) }
{
    let name = cursor.name()?;
    if names.slot_of(name).is_some() {
        return Err(Stop::Refused);
    }
    Ok(name)
}

/// Takes a name that is not there yet, and adds it.
pub fn new_name<'a>(
    alloc: Global,
    cursor: &mut Cursor<'a>,
    names: &mut Names<'a>,
) -> Result<Text, Stop>
    ensures keeps { Keeps names.old names.new }
    ensures shorter { IfOk result (λ text. length (seen cursor.new) < length (seen cursor.old)) }
    ensures reads { ReadsWith (new_name_in names.old (seen cursor.old)) result names.new (seen cursor.new) }
{
    let name = fresh_name(cursor, names)?;
    let text = text_of(alloc, name)?;
    names.add(name)?;
    Ok(text)
}

fn parameter<'a>(
    alloc: Global,
    cursor: &mut Cursor<'a>,
    scope: &mut Names<'a>,
) -> Result<Text, Stop>
    ensures shorter { IfOk result (λ text. length (seen cursor.new) < length (seen cursor.old)) }
    ensures reads { ReadsWith (parameter_in scope.old (seen cursor.old)) result scope.new (seen cursor.new) }
{
    cursor.expect(TokenKind::Word, false, b"int")?;
    new_name(alloc, cursor, scope)
}

/// A comma and a parameter, where a comma comes next.
fn next_parameter<'a>(
    alloc: Global,
    cursor: &mut Cursor<'a>,
    scope: &mut Names<'a>,
) -> Result<Option<Text>, Stop>
    ensures shorter { IfOk result (λ text. Taken text (seen cursor.old) (seen cursor.new)) }
    ensures reads { ReadsWith (more_parameter_in scope.old (seen cursor.old)) result scope.new (seen cursor.new) }
{
    if cursor.expect(TokenKind::Sign, false, b",").is_err() {
        return Ok(None);
    }
    let next = parameter(alloc, cursor, scope)?;
    Ok(Some(next))
}

fn more_parameters<'a>(
    alloc: Global,
    cursor: &mut Cursor<'a>,
    scope: &mut Names<'a>,
    first: Text,
) -> Result<List<Text>, Stop>
    ensures shorter { IfOk result (λ x. length (seen cursor.new) ≤ length (seen cursor.old)) }
    ensures reads { ReadsWith (in_front first (repeated more_parameter_in scope.old (seen cursor.old))) result scope.new (seen cursor.new) }
{
    let mut parameters = List::new(alloc);
    parameters.push(first)?;
    while let Some(next) = next_parameter(alloc, cursor, scope)? {
        parameters.push(next)?;
    }
    Ok(parameters)
}

fn parameters<'a>(
    alloc: Global,
    cursor: &mut Cursor<'a>,
    scope: &mut Names<'a>,
) -> Result<List<Text>, Stop>
    requires empty { scope.old ≡ [] }
    ensures shorter { IfOk result (λ x. length (seen cursor.new) ≤ length (seen cursor.old)) }
    ensures reads { ReadsWith (parameters_in (seen cursor.old)) result scope.new (seen cursor.new) }
{
    if cursor.begins(TokenKind::Sign, false, b")") {
        return Ok(List::new(alloc));
    }
    let first = parameter(alloc, cursor, scope)?;
    more_parameters(alloc, cursor, scope, first)
}

pub fn returns_value(cursor: &mut Cursor<'_>) -> Result<bool, Stop>
    ensures shorter { IfOk result (λ x. length (seen cursor.new) < length (seen cursor.old)) }
    ensures reads { Reads (result_in (seen cursor.old)) result (seen cursor.new) }
{
    if cursor.expect(TokenKind::Word, false, b"int").is_ok() {
        return Ok(true);
    }
    cursor.expect(TokenKind::Word, false, b"void")?;
    Ok(false)
}

/// A method's header up to its opening brace. Its name goes to the names of methods, and its parameters to the scope.
pub fn read_header<'a>(
    alloc: Global,
    cursor: &mut Cursor<'a>,
    methods: &mut Names<'a>,
    scope: &mut Names<'a>,
) -> Result<Header, Stop>
    requires empty { scope.old ≡ [] }
    ensures shorter { IfOk result (λ x. length (seen cursor.new) < length (seen cursor.old)) }
    ensures reads { ReadsHeading (heading_in methods.old (seen cursor.old)) result methods.new scope.new (seen cursor.new) }
{
    cursor.expect(TokenKind::Word, false, b"static")?;
    let returns = returns_value(cursor)?;
    let name = new_name(alloc, cursor, methods)?;
    cursor.expect(TokenKind::Sign, false, b"(")?;
    let parameters = parameters(alloc, cursor, scope)?;
    cursor.expect(TokenKind::Sign, false, b")")?;
    cursor.expect(TokenKind::Sign, false, b"{")?;
    Ok(Header {
        name,
        returns,
        parameters,
    })
}
