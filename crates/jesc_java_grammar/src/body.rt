//! Statements between braces.
//!
//! Each rule takes the parser of the statements inside as a value, so that it is proved by itself.

ghost use Rattle.std.specs.Prelude.{◌≡◌, ◌+◌, ◌<◌, ◌≤◌, false, map, max, IfOk};
ghost use Rattle.jesc_ast.specs.Trees.{statement_view, body_view};
ghost use Rattle.jesc_jml_grammar.specs.ClauseFound.{no_items, with_more};
ghost use Rattle.jesc_jml_grammar.specs.ClauseSeen.{measured};
ghost use Rattle.jesc_jml_grammar.specs.Seen.{seen, lexeme, IsKept};
ghost use Rattle.jesc_jml_grammar.specs.Steps.{Reads};
ghost use Rattle.jesc_java_grammar.specs.StatementFound as makers;
ghost use Rattle.jesc_java_grammar.specs.StatementReading as spec;
ghost use Rattle.jesc_java_grammar.specs.StatementNests.{NestsStatement, statement_within, over};

use crate::lexing::{is_sign, take_sign};
use crate::make::statement;
use crate::part::Parts;
use crate::statement_mark::Slot;
use jesc_ast::{BodyTree, Stmt, StmtNode};
use jesc_jml_grammar::cursor::{Cursor, Lexeme};
use jesc_jml_grammar::fault::{Fault, ParseError};
use jesc_jml_grammar::grammar::turns;
use jesc_jml_grammar::mark::Mark;
use jesc_jml_grammar::part::Measured;
use jesc_jml_grammar::span::join;
use jesc_jml_grammar::step::same_mark;
use jesc_text::{Boxed, List, OutOfMemory};
use std::alloc::Global;

/// The rules of statements over a parser of those inside.
#[derive(Clone, Copy)]
pub struct Statements<S> {
    pub alloc: Global,
    /// How many nodes there may be from the root of a statement or an expression inside to its deepest leaf.
    pub room: usize,
    pub statement: S,
}

fn with_statement(
    mut found: Measured<List<Stmt>>,
    next: Measured<Stmt>,
) -> Result<Measured<List<Stmt>>, OutOfMemory>
    ensures value { IfOk result (λ f. measured (map statement_view) f ≡ with_more (measured (map statement_view) found) (measured statement_view next)) }
    ensures depth { IfOk result (λ f. f.depth ≡ max found.depth next.depth) }
{
    found.tree.push(next.tree)?;
    found.depth = found.depth.max(next.depth);
    Ok(found)
}

fn make_body(found: Measured<List<Stmt>>, last: Lexeme<'_>) -> Measured<BodyTree>
    ensures { measured body_view result ≡ makers.body_of (measured (map statement_view) found) (lexeme last.entry) }
{
    Measured {
        tree: BodyTree {
            list: found.tree,
            close: last.span,
        },
        depth: found.depth,
    }
}

fn make_block(
    alloc: Global,
    first: Lexeme<'_>,
    body: Measured<BodyTree>,
) -> Result<Measured<Stmt>, OutOfMemory>
    requires { body.depth ≤ 1000 }
    ensures { IfOk result (λ f. measured statement_view f ≡ makers.block_of (lexeme first.entry) (measured body_view body)) }
{
    let span = join(first.span, body.tree.close);
    let node = StmtNode::Block(Boxed::new(alloc, body.tree)?);
    statement(alloc, span, node, body.depth + 1)
}

impl<S: Fn(Global, &mut Cursor<'_>, usize, Slot) -> Result<Measured<Stmt>, ParseError>> Statements<
    S,
> {
    /// The rules of expressions inside.
    pub fn parts(&self) -> Parts
        ensures alloc { result.alloc ≡ self.now.alloc }
        ensures room { result.room ≡ self.now.room }
    {
        Parts {
            alloc: self.alloc,
            room: self.room,
        }
    }

    /// A statement inside.
    pub fn inner(&self, cursor: &mut Cursor<'_>, slot: Slot) -> Result<Measured<Stmt>, ParseError>
        requires nests { NestsStatement self.now.room (S.pre self.now.statement) (S.post self.now.statement) }
        requires side { cursor.old.note ≡ false }
        ensures reads { Reads (measured statement_view) (statement_within self.now.room slot (seen cursor.old)) result (seen cursor.new) }
        ensures kept { IsKept cursor.old cursor.new }
        ensures bounded { IfOk result (λ f. f.depth ≤ self.now.room) }
    {
        (self.statement)(self.alloc, cursor, self.room, slot)
    }

    /// Statements up to a brace, behind others.
    #[tactic(auto, unfolding(crate::specs::StatementReading::statements), using(crate::proofs::ListTurns::until_stops, crate::proofs::ListTurns::until_goes_on, crate::proofs::ListTurns::until_ends))]
    fn statements(
        &self,
        cursor: &mut Cursor<'_>,
        first: Measured<List<Stmt>>,
    ) -> Result<Measured<List<Stmt>>, ParseError>
        requires nests { NestsStatement self.now.room (S.pre self.now.statement) (S.post self.now.statement) }
        requires side { cursor.old.note ≡ false }
        requires fits { first.depth ≤ self.now.room }
        ensures reads { Reads (measured (map statement_view)) (over spec.statements self.now.room (measured (map statement_view) first) (seen cursor.old)) result (seen cursor.new) }
        ensures kept { IsKept cursor.old cursor.new }
        ensures bounded { IfOk result (λ f. f.depth ≤ self.now.room) }
    {
        let mut found = first;
        let turns = turns();
        for _turn in 0..turns {
            if is_sign(cursor, b"}") {
                return Ok(found);
            }
            let next = self.inner(cursor, Slot::Any)?;
            found = with_statement(found, next)?;
        }
        Err(ParseError::Fault(Fault::Long))
    }

    #[tactic(auto, unfolding(crate::specs::StatementReading::body_rest))]
    fn body_rest(
        &self,
        cursor: &mut Cursor<'_>,
        first: Measured<List<Stmt>>,
    ) -> Result<Measured<BodyTree>, ParseError>
        requires nests { NestsStatement self.now.room (S.pre self.now.statement) (S.post self.now.statement) }
        requires side { cursor.old.note ≡ false }
        requires fits { first.depth ≤ self.now.room }
        ensures reads { Reads (measured body_view) (over spec.body_rest self.now.room (measured (map statement_view) first) (seen cursor.old)) result (seen cursor.new) }
        ensures kept { IsKept cursor.old cursor.new }
        ensures bounded { IfOk result (λ f. f.depth ≤ self.now.room) }
    {
        let found = self.statements(cursor, first)?;
        let last = take_sign(cursor, b"}")?;
        Ok(make_body(found, last))
    }

    fn whole_rest(&self, cursor: &mut Cursor<'_>) -> Result<Measured<BodyTree>, ParseError>
        requires nests { NestsStatement self.now.room (S.pre self.now.statement) (S.post self.now.statement) }
        requires side { cursor.old.note ≡ false }
        ensures reads { Reads (measured body_view) (over spec.body_rest self.now.room no_items (seen cursor.old)) result (seen cursor.new) }
        ensures kept { IsKept cursor.old cursor.new }
        ensures bounded { IfOk result (λ f. f.depth ≤ self.now.room) }
    {
        let none = Measured {
            tree: List::new(self.alloc),
            depth: 0,
        };
        self.body_rest(cursor, none)
    }

    /// Statements between braces.
    #[tactic(auto, unfolding(crate::specs::StatementReading::braced))]
    pub fn braced(&self, cursor: &mut Cursor<'_>) -> Result<Measured<BodyTree>, ParseError>
        requires nests { NestsStatement self.now.room (S.pre self.now.statement) (S.post self.now.statement) }
        requires side { cursor.old.note ≡ false }
        ensures reads { Reads (measured body_view) (over spec.braced self.now.room (seen cursor.old)) result (seen cursor.new) }
        ensures kept { IsKept cursor.old cursor.new }
        ensures bounded { IfOk result (λ f. f.depth ≤ self.now.room) }
    {
        take_sign(cursor, b"{")?;
        self.whole_rest(cursor)
    }

    /// A block.
    #[tactic(auto, using(crate::proofs::StatementRules::block_rule))]
    pub fn block(&self, cursor: &mut Cursor<'_>) -> Result<Measured<Stmt>, ParseError>
        requires nests { NestsStatement self.now.room (S.pre self.now.statement) (S.post self.now.statement) }
        requires room { self.now.room < 1000 }
        requires side { cursor.old.note ≡ false }
        ensures reads { Reads (measured statement_view) (over spec.block_ self.now.room (seen cursor.old)) result (seen cursor.new) }
        ensures kept { IsKept cursor.old cursor.new }
        ensures bounded { IfOk result (λ f. f.depth ≤ self.now.room + 1) }
    {
        let first = take_sign(cursor, b"{")?;
        let body = self.whole_rest(cursor)?;
        Ok(make_block(self.alloc, first, body)?)
    }

    /// The rest of a constructor's body, which begins with `super`.
    #[tactic(auto, unfolding(crate::specs::StatementReading::super_first))]
    fn super_first(&self, cursor: &mut Cursor<'_>) -> Result<Measured<BodyTree>, ParseError>
        requires nests { NestsStatement self.now.room (S.pre self.now.statement) (S.post self.now.statement) }
        requires room { self.now.room < 1000 }
        requires some { 0 < self.now.room }
        requires side { cursor.old.note ≡ false }
        ensures reads { Reads (measured body_view) (over spec.super_first self.now.room (seen cursor.old)) result (seen cursor.new) }
        ensures kept { IsKept cursor.old cursor.new }
        ensures bounded { IfOk result (λ f. f.depth ≤ self.now.room) }
    {
        let inside = Parts {
            alloc: self.alloc,
            room: self.room - 1,
        };
        let first = inside.super_statement(cursor)?;
        let none = Measured {
            tree: List::new(self.alloc),
            depth: 0,
        };
        self.body_rest(cursor, with_statement(none, first)?)
    }

    /// The body of a constructor, whose first statement may begin with `super`.
    #[tactic(auto, unfolding(crate::specs::StatementReading::constructor_body))]
    pub fn constructor_body(
        &self,
        cursor: &mut Cursor<'_>,
    ) -> Result<Measured<BodyTree>, ParseError>
        requires nests { NestsStatement self.now.room (S.pre self.now.statement) (S.post self.now.statement) }
        requires room { self.now.room < 1000 }
        requires side { cursor.old.note ≡ false }
        ensures reads { Reads (measured body_view) (over spec.constructor_body self.now.room (seen cursor.old)) result (seen cursor.new) }
        ensures kept { IsKept cursor.old cursor.new }
        ensures bounded { IfOk result (λ f. f.depth ≤ self.now.room) }
    {
        take_sign(cursor, b"{")?;
        if !same_mark(cursor.peek(), Mark::Super) {
            return self.whole_rest(cursor);
        }
        if self.room == 0 {
            return Err(cursor.too_deep());
        }
        self.super_first(cursor)
    }
}
