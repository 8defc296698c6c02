//! Branches.

ghost use Rattle.std.specs.Prelude.{◌≡◌, ◌+◌, ◌<◌, ◌≤◌, false, IfOk};
ghost use Rattle.jesc_ast.specs.Trees.{statement_view};
ghost use Rattle.jesc_jml_grammar.specs.ClauseSeen.{measured};
ghost use Rattle.jesc_jml_grammar.specs.Nests.{parsed};
ghost use Rattle.jesc_jml_grammar.specs.Seen.{seen, lexeme, IsKept};
ghost use Rattle.jesc_jml_grammar.specs.Steps.{Reads};
ghost use Rattle.jesc_java_grammar.specs.StatementReading as spec;
ghost use Rattle.jesc_java_grammar.specs.StatementNests.{NestsStatement, over};

use crate::body::Statements;
use crate::lexing::{is_word, take_word};
use crate::make_branch::{make_branch, make_branch_else};
use crate::statement_mark::Slot;
use jesc_ast::Stmt;
use jesc_jml_grammar::cursor::{Cursor, Lexeme};
use jesc_jml_grammar::fault::ParseError;
use jesc_jml_grammar::found::Found;
use jesc_jml_grammar::part::Measured;
use std::alloc::Global;

impl<S: Fn(Global, &mut Cursor<'_>, usize, Slot) -> Result<Measured<Stmt>, ParseError>> Statements<
    S,
> {
    /// The rest of an `if`, behind its first branch.
    #[tactic(auto, unfolding(crate::specs::StatementReading::branch_behind, crate::specs::StatementReading::otherwise))]
    fn branch_behind(
        &self,
        cursor: &mut Cursor<'_>,
        first: Lexeme<'_>,
        test: Found,
        then: Measured<Stmt>,
    ) -> Result<Measured<Stmt>, ParseError>
        requires nests { NestsStatement self.now.room (S.pre self.now.statement) (S.post self.now.statement) }
        requires room { self.now.room < 1000 }
        requires side { cursor.old.note ≡ false }
        requires test { test.depth ≤ self.now.room }
        requires then { then.depth ≤ self.now.room }
        ensures reads { Reads (measured statement_view) (over spec.branch_behind self.now.room (lexeme first.entry) (parsed test) (measured statement_view then) (seen cursor.old)) result (seen cursor.new) }
        ensures kept { IsKept cursor.old cursor.new }
        ensures bounded { IfOk result (λ f. f.depth ≤ self.now.room + 1) }
    {
        if !is_word(cursor, b"else") {
            return Ok(make_branch(self.alloc, first, test, then)?);
        }
        take_word(cursor, b"else")?;
        let other = self.inner(cursor, Slot::Else)?;
        Ok(make_branch_else(self.alloc, first, test, then, other)?)
    }

    /// An `if`.
    #[tactic(auto, unfolding(crate::specs::StatementReading::branch_))]
    pub fn branch(&self, cursor: &mut Cursor<'_>) -> Result<Measured<Stmt>, ParseError>
        requires nests { NestsStatement self.now.room (S.pre self.now.statement) (S.post self.now.statement) }
        requires room { self.now.room < 1000 }
        requires side { cursor.old.note ≡ false }
        ensures reads { Reads (measured statement_view) (over spec.branch_ self.now.room (seen cursor.old)) result (seen cursor.new) }
        ensures kept { IsKept cursor.old cursor.new }
        ensures bounded { IfOk result (λ f. f.depth ≤ self.now.room + 1) }
    {
        let first = take_word(cursor, b"if")?;
        let test = self.parts().condition(cursor)?;
        let then = self.inner(cursor, Slot::Then)?;
        self.branch_behind(cursor, first, test, then)
    }
}
