//! The calls that read the longest specification, and the longest member, that stand in annotations at a token.

ghost use Rattle.std.specs.Prelude.{◌≡◌, ℕ, ◌≤◌, IsTrue, List, length, IfOk, IfErr};
ghost use Rattle.std.specs.List.{list_all};
ghost use Rattle.jesc_lexer.specs.Spans.{AreSpans};
ghost use Rattle.jesc_ast.specs.Lexemes.{Lexeme as Piece, is_within};
ghost use Rattle.jesc_ast.specs.SpecTrees.{Specification, spec_view};
ghost use Rattle.jesc_ast.specs.FileTrees.{Member, member_view};
ghost use Rattle.jesc_ast.specs.Specifications.{SpellsSpec};
ghost use Rattle.jesc_ast.specs.Depth.{IsSpecWithinLimits, IsMemberWithinLimits};
ghost use Rattle.jesc_jml_grammar.specs.Reading.{turns};
ghost use Rattle.jesc_jml_parser.specs.Annotations.{SpellsAnnotation};
ghost use Rattle.jesc_jml_parser.specs.ParsedTrees.{lexemes_from, IsFoundTree, IsTreeRefusal, IsTreeAnswer};
ghost use Rattle.jesc_jml_parser.specs.laws.ClauseWhole.{spec_parser, member_parser};
ghost use Rattle.jesc_jml_parser.specs.laws.Given.{sized_tree, IsTreeGiven};

use crate::error::SyntaxError;
use crate::parse::{DEPTH, QUANTIFIERS, cursor_at, number_of};
use crate::refusal::error_of;
use jesc_ast::{MemberTree, SpecTree};
use jesc_jml_grammar::expr::expr;
use jesc_jml_grammar::fault::ParseError;
use jesc_jml_grammar::grammar::Grammar;
use jesc_lexer::Tokens;
use std::alloc::Global;

fn read_clauses(alloc: Global, tokens: &Tokens, from: u32) -> Result<(SpecTree, u32), ParseError>
    requires within { IsTrue (list_all (is_within (length tokens.now.text)) tokens.now.list) }
    requires few { length tokens.now.list ≤ 1048576 }
    requires from { from ≤ length tokens.now.list }
    ensures { IsTreeGiven spec_view sized_tree (spec_parser turns 200 3 (lexemes_from tokens.now from)) (length tokens.now.list) result }
{
    let mut cursor = cursor_at(tokens, from, true);
    let grammar = Grammar {
        alloc,
        room: DEPTH,
        quantifiers: QUANTIFIERS,
        expr,
    };
    match grammar.specification(&mut cursor) {
        Ok(found) => Ok((found.tree, number_of(tokens, cursor.rest.len()))),
        Err(error) => Err(error),
    }
}

/// The longest specification of a method at the token `from`, and the token behind it.
///
/// All its tokens stand in annotations. Tokens are taken as long as those taken begin a specification. Answers the
/// error of the first token that can't be taken where those before it spell none: `Token` (S1) or, of a word that the
/// language leaves out, `LeftOut` (S2) where no specification goes on with it, and `Deep` (S3) where all that do have
/// an expression of more than 200 nodes from the root to a leaf, or of more than three nested quantifiers. Answers
/// `OutOfMemory` where there is no room for the tree.
///
/// Specifications are those of the JML Reference Manual's chapter on method specifications that the language has.
pub fn parse_clauses(
    alloc: Global,
    tokens: &Tokens,
    from: u32,
) -> Result<(SpecTree, u32), SyntaxError>
    requires spans { AreSpans (length tokens.now.text) 0 tokens.now.list }
    requires short { length tokens.now.text ≤ 1048576 }
    requires from { from ≤ length tokens.now.list }
    ensures found { IfOk result (λ a. IsFoundTree SpellsSpec IsSpecWithinLimits tokens.now from (spec_view a.0) a.1) }
    ensures only { (t : Specification) (next : ℕ) → IsFoundTree SpellsSpec IsSpecWithinLimits tokens.now from t next → IsTreeAnswer spec_view t next result }
    ensures refused { IfErr result (λ error. IsTreeRefusal SpellsSpec IsSpecWithinLimits tokens.now from error) }
{
    match read_clauses(alloc, tokens, from) {
        Ok(found) => Ok(found),
        Err(error) => Err(error_of(alloc, tokens, error)),
    }
}

fn read_member(alloc: Global, tokens: &Tokens, from: u32) -> Result<(MemberTree, u32), ParseError>
    requires within { IsTrue (list_all (is_within (length tokens.now.text)) tokens.now.list) }
    requires few { length tokens.now.list ≤ 1048576 }
    requires from { from ≤ length tokens.now.list }
    ensures { IsTreeGiven member_view sized_tree (member_parser turns 200 3 (lexemes_from tokens.now from)) (length tokens.now.list) result }
{
    let mut cursor = cursor_at(tokens, from, true);
    let grammar = Grammar {
        alloc,
        room: DEPTH,
        quantifiers: QUANTIFIERS,
        expr,
    };
    match grammar.member_annotation(&mut cursor) {
        Ok(found) => Ok((found.tree, number_of(tokens, cursor.rest.len()))),
        Err(error) => Err(error),
    }
}

/// The longest invariant, represents clause, or ghost or model field with its `in` at the token `from`, and the token
/// behind it.
///
/// All its tokens stand in annotations. Answers the same errors as `parse_clauses`, of a member.
///
/// Such members are those of the JML Reference Manual's chapter on specifications of types that the language has.
pub fn parse_member_annotation(
    alloc: Global,
    tokens: &Tokens,
    from: u32,
) -> Result<(MemberTree, u32), SyntaxError>
    requires spans { AreSpans (length tokens.now.text) 0 tokens.now.list }
    requires short { length tokens.now.text ≤ 1048576 }
    requires from { from ≤ length tokens.now.list }
    ensures found { IfOk result (λ a. IsFoundTree SpellsAnnotation IsMemberWithinLimits tokens.now from (member_view a.0) a.1) }
    ensures only { (t : Member) (next : ℕ) → IsFoundTree SpellsAnnotation IsMemberWithinLimits tokens.now from t next → IsTreeAnswer member_view t next result }
    ensures refused { IfErr result (λ error. IsTreeRefusal SpellsAnnotation IsMemberWithinLimits tokens.now from error) }
{
    match read_member(alloc, tokens, from) {
        Ok(found) => Ok(found),
        Err(error) => Err(error_of(alloc, tokens, error)),
    }
}

/// The tokens of a text spell one specification at most.
pub fn one_specification()
    ensures { (t other : Specification) (u : List Piece) → SpellsSpec t u → SpellsSpec other u → t ≡ other }
{}

/// The tokens of a text spell one member of annotations at most.
pub fn one_member_annotation()
    ensures { (t other : Member) (u : List Piece) → SpellsAnnotation t u → SpellsAnnotation other u → t ≡ other }
{}
