//! The calls that read the longest tree at a token.

ghost use Rattle.std.specs.Prelude.{◌≡◌, ℕ, ◌-◌, ◌≤◌, IsTrue, Bool, List, length, IfOk, IfErr};
ghost use Rattle.std.specs.List.{list_all};
ghost use Rattle.jesc_lexer.specs.Spans.{AreSpans};
ghost use Rattle.jesc_ast.specs.Lexemes.{Lexeme as Piece, is_within};
ghost use Rattle.jesc_ast.specs.Trees.{Expression, view};
ghost use Rattle.jesc_ast.specs.Expressions.{SpellsExpression};
ghost use Rattle.jesc_ast.specs.Depth.{IsWithinLimits};
ghost use Rattle.jesc_jml_parser.specs.ParsedTrees.{lexemes_from, IsFoundTree, IsTreeRefusal, IsTreeAnswer};
ghost use Rattle.jesc_jml_parser.specs.laws.Given.{whole, parsed_tree, IsTreeGiven};
ghost use Rattle.jesc_jml_grammar.specs.Seen.{seen};

use crate::error::SyntaxError;
use crate::refusal::error_of;
use jesc_ast::Expr;
use jesc_jml_grammar::cursor::Cursor;
use jesc_jml_grammar::expr::expr;
use jesc_jml_grammar::fault::ParseError;
use jesc_jml_grammar::found::Start;
use jesc_lexer::Tokens;
use std::alloc::Global;

/// The greatest number of nodes on the way from a tree's root to a leaf.
pub const DEPTH: usize = 200;

/// The greatest number of quantifiers that nest.
pub const QUANTIFIERS: usize = 3;

/// The tokens from this one on, seen from code or, with `note`, from annotations.
#[tactic(auto, using(crate::proofs::Spanned::are_left_within, crate::proofs::Seen::seen_from))]
pub fn cursor_at<'a>(tokens: &'a Tokens, from: u32, note: bool) -> Cursor<'a>
    requires within { IsTrue (list_all (is_within (length tokens.now.text)) tokens.now.list) }
    requires from { from ≤ length tokens.now.list }
    ensures seen { seen result ≡ lexemes_from tokens.now from }
    ensures note { result.note ≡ note }
{
    let (_, rest) = tokens.list.as_slice().split_at(from as usize);
    Cursor {
        text: tokens.text.as_slice(),
        rest,
        note,
    }
}

/// The number of the token at which so many are left.
pub fn number_of(tokens: &Tokens, left: usize) -> u32
    requires few { length tokens.now.list ≤ 1048576 }
    ensures { result ≡ length tokens.now.list - left }
{
    tokens.list.as_slice().len().saturating_sub(left) as u32
}

fn read_expr(
    alloc: Global,
    tokens: &Tokens,
    from: u32,
    note: bool,
) -> Result<(Expr, u32), ParseError>
    requires within { IsTrue (list_all (is_within (length tokens.now.text)) tokens.now.list) }
    requires few { length tokens.now.list ≤ 1048576 }
    requires from { from ≤ length tokens.now.list }
    ensures { IsTreeGiven view parsed_tree (whole note (lexemes_from tokens.now from)) (length tokens.now.list) result }
{
    let mut cursor = cursor_at(tokens, from, note);
    match expr(alloc, &mut cursor, DEPTH, QUANTIFIERS, 1, Start::AtFirst) {
        Ok(found) => Ok((found.expr, number_of(tokens, cursor.rest.len()))),
        Err(error) => Err(error),
    }
}

/// The longest expression at the token `from`, and the token behind it.
///
/// Reads tokens of annotations where `note` is set, and else of code; a token of the other side ends the expression.
/// Tokens are taken as long as those taken begin an expression. Answers the error of the first token that can't be
/// taken where those before it spell none: `Token` (S1) or, of a word that the language leaves out, `LeftOut` (S2)
/// where no expression goes on with it, and `Deep` (S3) where all that do have more than 200 nodes from the root to a
/// leaf or more than three nested quantifiers. Answers `OutOfMemory` where there is no room for the tree.
///
/// Expressions are those of JLS 15 that the language has, and in annotations those of the JML Reference Manual's
/// chapter on expressions too.
pub fn parse_expr(
    alloc: Global,
    tokens: &Tokens,
    from: u32,
    note: bool,
) -> Result<(Expr, u32), SyntaxError>
    requires spans { AreSpans (length tokens.now.text) 0 tokens.now.list }
    requires short { length tokens.now.text ≤ 1048576 }
    requires from { from ≤ length tokens.now.list }
    ensures found { IfOk result (λ a. IsFoundTree (SpellsExpression note) IsWithinLimits tokens.now from (view a.0) a.1) }
    ensures only { (e : Expression) (next : ℕ) → IsFoundTree (SpellsExpression note) IsWithinLimits tokens.now from e next → IsTreeAnswer view e next result }
    ensures refused { IfErr result (λ error. IsTreeRefusal (SpellsExpression note) IsWithinLimits tokens.now from error) }
{
    match read_expr(alloc, tokens, from, note) {
        Ok(found) => Ok(found),
        Err(error) => Err(error_of(alloc, tokens, error)),
    }
}

/// The tokens of a text spell one expression at most.
pub fn one_expression()
    ensures { (note : Bool) (e other : Expression) (u : List Piece) → SpellsExpression note e u → SpellsExpression note other u → e ≡ other }
{}
