//! Methods and classes.
//!
//! The clauses before a method speak of its parameters, which stand behind them. So a method is read from its header
//! on first; then its clauses, which have to end where the header begins; and then its body.

ghost use Rattle.std.specs.Prelude.{◌≤◌, ◌<◌, IfOk, length};
ghost use Rattle.jesc_first.specs.Parsing.{clauses_in, method_in, next_method_in, methods_in, list_read, class_in, next_class_in, classes_in};
ghost use Rattle.jesc_first.specs.Reads.{Reads, ReadsWith, ReadsClauses, ReadsFile, Keeps, Taken};
ghost use Rattle.jesc_first.specs.Seen.{seen};

use crate::reader::body::{end, statements};
use crate::reader::clauses::{demands, promises};
use crate::reader::cursor::{Cursor, Stop};
use crate::reader::header::{new_name, read_header};
use crate::reader::names::Names;
use crate::tree::{Class, Clause, Condition, Method};
use jesc_lexer::TokenKind;
use jesc_text::List;
use std::alloc::Global;

/// The clauses before a header, of which no token is left over.
#[derive(Debug, Drop)]
pub struct Clauses {
    pub demands: List<Condition>,
    pub promises: List<Clause>,
}

/// The clauses from a cursor on up to a header, from which on so many tokens are left.
fn read_clauses(
    alloc: Global,
    cursor: &mut Cursor<'_>,
    left: usize,
    outcome: bool,
    scope: &Names<'_>,
) -> Result<Clauses, Stop>
    ensures reads { ReadsClauses (clauses_in outcome scope.now (seen cursor.old) left) result (seen cursor.new) }
{
    let demands = demands(alloc, cursor, scope)?;
    let promises = promises(alloc, cursor, outcome, scope)?;
    if cursor.left() != left {
        return Err(Stop::Refused);
    }
    Ok(Clauses { demands, promises })
}

fn method<'a>(
    alloc: Global,
    cursor: &mut Cursor<'a>,
    methods: &mut Names<'a>,
) -> Result<Method, Stop>
    ensures shorter { IfOk result (λ method. length (seen cursor.new) < length (seen cursor.old)) }
    ensures reads { ReadsWith (method_in methods.old (seen cursor.old)) result methods.new (seen cursor.new) }
{
    let mut before = cursor.again();
    let mut scope = Names::new(alloc);
    cursor.skip_to_static();
    let left = cursor.left();
    let header = read_header(alloc, cursor, methods, &mut scope)?;
    let clauses = read_clauses(alloc, &mut before, left, header.returns, &scope)?;
    let body = statements(alloc, cursor, &mut scope)?;
    let (value, exit) = end(alloc, cursor, header.returns, &scope)?;
    Ok(Method {
        name: header.name,
        demands: clauses.demands,
        promises: clauses.promises,
        parameters: header.parameters,
        body,
        value,
        exit,
    })
}

fn next_method<'a>(
    alloc: Global,
    cursor: &mut Cursor<'a>,
    names: &mut Names<'a>,
) -> Result<Option<Method>, Stop>
    ensures shorter { IfOk result (λ method. Taken method (seen cursor.old) (seen cursor.new)) }
    ensures reads { ReadsWith (next_method_in names.old (seen cursor.old)) result names.new (seen cursor.new) }
{
    if cursor.begins(TokenKind::Sign, false, b"}") {
        return Ok(None);
    }
    let method = method(alloc, cursor, names)?;
    Ok(Some(method))
}

fn methods(alloc: Global, cursor: &mut Cursor<'_>) -> Result<List<Method>, Stop>
    ensures shorter { IfOk result (λ methods. length (seen cursor.new) ≤ length (seen cursor.old)) }
    ensures reads { Reads (list_read (methods_in (seen cursor.old))) result (seen cursor.new) }
{
    let mut names = Names::new(alloc);
    let mut methods = List::new(alloc);
    while let Some(method) = next_method(alloc, cursor, &mut names)? {
        methods.push(method)?;
    }
    Ok(methods)
}

/// A class whose name is not there yet. Its name goes to the names.
fn class<'a>(alloc: Global, cursor: &mut Cursor<'a>, names: &mut Names<'a>) -> Result<Class, Stop>
    ensures keeps { Keeps names.old names.new }
    ensures shorter { IfOk result (λ class. length (seen cursor.new) < length (seen cursor.old)) }
    ensures reads { ReadsWith (class_in names.old (seen cursor.old)) result names.new (seen cursor.new) }
{
    cursor.expect(TokenKind::Word, false, b"class")?;
    let name = new_name(alloc, cursor, names)?;
    cursor.expect(TokenKind::Sign, false, b"{")?;
    let methods = methods(alloc, cursor)?;
    cursor.expect(TokenKind::Sign, false, b"}")?;
    Ok(Class { name, methods })
}

fn next_class<'a>(
    alloc: Global,
    cursor: &mut Cursor<'a>,
    names: &mut Names<'a>,
) -> Result<Option<Class>, Stop>
    ensures keeps { Keeps names.old names.new }
    ensures shorter { IfOk result (λ class. Taken class (seen cursor.old) (seen cursor.new)) }
    ensures reads { ReadsWith (next_class_in names.old (seen cursor.old)) result names.new (seen cursor.new) }
{
    if !cursor.begins(TokenKind::Word, false, b"class") {
        return Ok(None);
    }
    let class = class(alloc, cursor, names)?;
    Ok(Some(class))
}

fn classes<'a>(
    alloc: Global,
    cursor: &mut Cursor<'a>,
    names: &mut Names<'a>,
) -> Result<List<Class>, Stop>
    ensures keeps { Keeps names.old names.new }
    ensures reads { ReadsWith (classes_in names.old (seen cursor.old)) result names.new (seen cursor.new) }
{
    let mut classes = List::new(alloc);
    while let Some(class) = next_class(alloc, cursor, names)? {
        classes.push(class)?;
    }
    Ok(classes)
}

/// The classes that the tokens from the cursor on spell. Their names go to the names.
pub fn read_file<'a>(
    alloc: Global,
    cursor: &mut Cursor<'a>,
    names: &mut Names<'a>,
) -> Result<List<Class>, Stop>
    ensures keeps { Keeps names.old names.new }
    ensures reads { ReadsFile names.old (seen cursor.old) result names.new }
{
    let classes = classes(alloc, cursor, names)?;
    if !cursor.rest.is_empty() {
        return Err(Stop::Refused);
    }
    Ok(classes)
}
