//! The parts of one statement: expressions inside it, targets and calls.

ghost use Rattle.std.specs.Prelude.{◌<◌, ◌≤◌, IfOk};
ghost use Rattle.jesc_jml_grammar.specs.Nests.{parsed, start_of};
ghost use Rattle.jesc_jml_grammar.specs.Seen.{seen, IsKept};
ghost use Rattle.jesc_jml_grammar.specs.Steps.{Reads};
ghost use Rattle.jesc_java_grammar.specs.StatementReading as spec;
ghost use Rattle.jesc_java_grammar.specs.Views.{part};

use jesc_ast::TypeTree;
use jesc_jml_grammar::cursor::Cursor;
use jesc_jml_grammar::expr::expr;
use jesc_jml_grammar::fault::ParseError;
use jesc_jml_grammar::found::{Found, Start};
use jesc_jml_grammar::grammar::Grammar;
use jesc_jml_grammar::mark::Mark;
use jesc_jml_grammar::step::same_mark;
use std::alloc::Global;

/// The rules of one statement.
#[derive(Clone, Copy)]
pub struct Parts {
    pub alloc: Global,
    /// How many nodes there may be from the root of an expression inside to its deepest leaf.
    pub room: usize,
}

/// How many quantifiers may nest.
pub const QUANTIFIERS: usize = 3;

impl Parts {
    /// An expression inside, whose parts bind as tightly as `least`.
    pub fn inside(
        &self,
        cursor: &mut Cursor<'_>,
        least: usize,
        start: Start<'_>,
    ) -> Result<Found, ParseError>
        requires room { self.now.room < 1000 }
        ensures reads { Reads parsed (part spec.inside self.now.room cursor.old.note least (start_of start.entry) (seen cursor.old)) result (seen cursor.new) }
        ensures kept { IsKept cursor.old cursor.new }
        ensures bounded { IfOk result (λ f. f.depth ≤ self.now.room) }
    {
        expr(self.alloc, cursor, self.room, QUANTIFIERS, least, start)
    }

    /// A whole expression inside.
    pub fn whole(&self, cursor: &mut Cursor<'_>) -> Result<Found, ParseError>
        requires room { self.now.room < 1000 }
        ensures reads { Reads parsed (part spec.whole self.now.room cursor.old.note (seen cursor.old)) result (seen cursor.new) }
        ensures kept { IsKept cursor.old cursor.new }
        ensures bounded { IfOk result (λ f. f.depth ≤ self.now.room) }
    {
        self.inside(cursor, 1, Start::AtFirst)
    }

    /// A type.
    pub fn type_inside(&self, cursor: &mut Cursor<'_>) -> Result<TypeTree, ParseError>
        ensures reads { Reads (λ t. t) (part spec.type_inside self.now.room cursor.old.note (seen cursor.old)) result (seen cursor.new) }
        ensures kept { IsKept cursor.old cursor.new }
    {
        Grammar {
            alloc: self.alloc,
            room: self.room.saturating_sub(1),
            quantifiers: QUANTIFIERS,
            expr,
        }
        .type_(cursor)
    }

    /// What goes on with an expression: names, brackets and calls.
    #[tactic(auto, unfolding(crate::specs::StatementReading::longer, jesc_jml_grammar::specs::Reading::climb))]
    pub fn longer(&self, cursor: &mut Cursor<'_>, first: Found) -> Result<Found, ParseError>
        requires room { self.now.room < 1000 }
        requires first { first.depth ≤ self.now.room }
        ensures reads { Reads parsed (part spec.longer self.now.room cursor.old.note (parsed first) (seen cursor.old)) result (seen cursor.new) }
        ensures kept { IsKept cursor.old cursor.new }
        ensures bounded { IfOk result (λ f. f.depth ≤ self.now.room) }
    {
        if self.room == 0 {
            return Err(cursor.too_deep());
        }
        Grammar {
            alloc: self.alloc,
            room: self.room - 1,
            quantifiers: QUANTIFIERS,
            expr,
        }
        .climb(cursor, 11, self.room, first)
    }

    /// The beginning in parentheses. No cast stands there, so that a bracket behind a name is that of an index.
    #[tactic(auto, unfolding(crate::specs::StatementReading::headed_group))]
    fn headed_group(&self, cursor: &mut Cursor<'_>) -> Result<Found, ParseError>
        requires room { self.now.room < 1000 }
        requires some { 2 < self.now.room }
        ensures reads { Reads parsed (part spec.headed_group self.now.room cursor.old.note (seen cursor.old)) result (seen cursor.new) }
        ensures kept { IsKept cursor.old cursor.new }
        ensures bounded { IfOk result (λ f. f.depth ≤ self.now.room) }
    {
        let first = cursor.expect(Mark::LeftParen)?;
        let inner = Grammar {
            alloc: self.alloc,
            room: self.room - 2,
            quantifiers: QUANTIFIERS,
            expr,
        };
        match cursor.peek() {
            Mark::Forall | Mark::Exists => inner.quantified(cursor, first),
            Mark::Name => {
                let x = cursor.expect(Mark::Name)?;
                inner.grouped(cursor, first, Start::BehindName(x))
            }
            _ => inner.grouped(cursor, first, Start::AtFirst),
        }
    }

    /// The beginning of what is neither a target nor a call yet, and so has a node above it.
    #[tactic(auto, unfolding(crate::specs::StatementReading::headed_first))]
    pub fn headed_first(&self, cursor: &mut Cursor<'_>) -> Result<Found, ParseError>
        requires room { self.now.room < 1000 }
        ensures reads { Reads parsed (part spec.headed_first self.now.room cursor.old.note (seen cursor.old)) result (seen cursor.new) }
        ensures kept { IsKept cursor.old cursor.new }
        ensures bounded { IfOk result (λ f. f.depth ≤ self.now.room) }
    {
        if !same_mark(cursor.peek(), Mark::LeftParen) {
            let inner = self.room.saturating_sub(1);
            return expr(self.alloc, cursor, inner, QUANTIFIERS, 13, Start::AtFirst);
        }
        if self.room <= 2 {
            return Err(cursor.too_deep());
        }
        self.headed_group(cursor)
    }

    /// What begins otherwise than with a name, and goes on.
    #[tactic(auto, unfolding(crate::specs::StatementReading::headed))]
    pub fn headed(&self, cursor: &mut Cursor<'_>) -> Result<Found, ParseError>
        requires room { self.now.room < 1000 }
        ensures reads { Reads parsed (part spec.headed self.now.room cursor.old.note (seen cursor.old)) result (seen cursor.new) }
        ensures kept { IsKept cursor.old cursor.new }
        ensures bounded { IfOk result (λ f. f.depth ≤ self.now.room) }
    {
        let first = self.headed_first(cursor)?;
        self.longer(cursor, first)
    }
}
