//! The call that reads a file.

ghost use Rattle.std.specs.Prelude.{◌≡◌, ◌≤◌, IsTrue, List, length, IfOk, IfErr};
ghost use Rattle.std.specs.List.{list_all};
ghost use Rattle.jesc_lexer.specs.Spans.{AreSpans};
ghost use Rattle.jesc_ast.specs.Depth.{IsFileWithinLimits};
ghost use Rattle.jesc_ast.specs.FileTrees.{SourceUnit, file_view};
ghost use Rattle.jesc_ast.specs.Lexemes.{Lexeme as Piece, is_within, lexemes};
ghost use Rattle.jesc_ast.specs.Lines.{lines_of as lines_of_text};
ghost use Rattle.jesc_ast.specs.Members.{SpellsUnit, SpellsFile};
ghost use Rattle.jesc_jml_parser.specs.ParsedTrees.{IsTreeRefusal, IsAnswer};
ghost use Rattle.jesc_jml_grammar.specs.Reading.{turns};
ghost use Rattle.jesc_java_grammar.specs.FileReading.{whole_file};
ghost use Rattle.jesc_java_grammar.specs.GivenUnits.{IsUnitGiven};
ghost use Rattle.jesc_java_grammar.specs.UnitViews.{unit_view};

use jesc_ast::File;
use jesc_java_grammar::files::Files;
use jesc_java_grammar::lines::lines_of;
use jesc_java_grammar::make_class::Unit;
use jesc_jml_grammar::fault::ParseError;
use jesc_jml_parser::SyntaxError;
use jesc_jml_parser::parse::{DEPTH, cursor_at};
use jesc_jml_parser::refusal::error_of;
use jesc_lexer::Tokens;
use jesc_text::OutOfMemory;
use std::alloc::Global;

fn read_unit(alloc: Global, tokens: &Tokens) -> Result<Unit, ParseError>
    requires { IsTrue (list_all (is_within (length tokens.now.text)) tokens.now.list) }
    ensures { IsUnitGiven (whole_file turns 200 3 (lexemes tokens.now)) result }
{
    let mut cursor = cursor_at(tokens, 0, false);
    let files = Files { alloc, room: DEPTH };
    match files.file(&mut cursor) {
        Ok(found) => Ok(found.tree),
        Err(error) => Err(error),
    }
}

/// The file of this text that holds the unit.
fn with_lines(alloc: Global, text: &[u8], unit: Unit) -> Result<File, OutOfMemory>
    requires { length text.now ≤ 1048576 }
    ensures view { IfOk result (λ file. file_view file ≡ unit_view unit) }
    ensures lines { IfOk result (λ file. file.lines ≡ lines_of_text text.now) }
{
    let lines = lines_of(alloc, text)?;
    Ok(File {
        package: unit.package,
        classes: unit.classes,
        lines,
    })
}

/// The file that all these tokens spell, with the offsets at which the lines of its text begin.
///
/// This is the call for a whole file of annotated Java, split into tokens. Answers the error of the first token that
/// can't be taken, or of the end of the text: `Token` (S1) or, of a word that the language leaves out, `LeftOut` (S2)
/// where no file goes on with it, and `Deep` (S3) where all that do break one of the two limits. Expressions,
/// parentheses and statements in a member may nest up to 200 nodes from the member to a leaf, and up to three
/// quantifiers on the way. Answers `OutOfMemory` where there is no room for the tree.
///
/// A file is a compilation unit (JLS 7.3) of the classes, interfaces, members and statements (JLS 8, 9 and 14) that the
/// language has, with its annotations (the JML Reference Manual's chapters on specifications of types, methods and
/// statements).
pub fn parse_file(alloc: Global, tokens: &Tokens) -> Result<File, SyntaxError>
    requires spans { AreSpans (length tokens.now.text) 0 tokens.now.list }
    requires short { length tokens.now.text ≤ 1048576 }
    ensures found { IfOk result (λ file. SpellsFile tokens.now file × IsFileWithinLimits (file_view file)) }
    ensures only { (t : SourceUnit) → SpellsUnit t (lexemes tokens.now) → IsFileWithinLimits t → IsAnswer (λ file. file_view file ≡ t) result }
    ensures refused { IfErr result (λ error. IsTreeRefusal SpellsUnit IsFileWithinLimits tokens.now 0 error) }
{
    match read_unit(alloc, tokens) {
        Ok(unit) => Ok(with_lines(alloc, tokens.text.as_slice(), unit)?),
        Err(error) => Err(error_of(alloc, tokens, error)),
    }
}

/// The tokens of a text spell one file at most.
pub fn one_file()
    ensures { (t other : SourceUnit) (u : List Piece) → SpellsUnit t u → SpellsUnit other u → t ≡ other }
{}
