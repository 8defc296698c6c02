//! Clauses of a case.

ghost use Rattle.std.specs.Prelude.{◌≡◌, ◌<◌, true};
ghost use Rattle.jesc_jml_grammar.specs.Steps.{Reads};
ghost use Rattle.jesc_jml_grammar.specs.Seen.{seen, lexeme, IsKept};
ghost use Rattle.jesc_jml_grammar.specs.Nests.{Nests};
ghost use Rattle.jesc_jml_grammar.specs.ClauseReading as rules;
ghost use Rattle.jesc_ast.specs.Trees.{clause_view, optional_view};
ghost use Rattle.jesc_ast.specs.SpecTrees.{promise_view};
ghost use Rattle.jesc_jml_grammar.specs.ClauseSeen.{note_rule, measured, ended, kept_word};

use crate::cursor::{Cursor, Lexeme};
use crate::fault::ParseError;
use crate::found::{Found, Start};
use crate::grammar::Grammar;
use crate::make_spec::{make_assignable, make_classes, make_clause, make_ensures, make_signals};
use crate::mark::Mark;
use crate::note_word::NoteWord;
use crate::part::{Ended, Measured, SignalsHead};
use jesc_ast::{ClauseTree, Expr, SpecClause};
use jesc_text::List;
use std::alloc::Global;

impl<
    F: Fn(Global, &mut Cursor<'_>, usize, usize, usize, Start<'_>) -> Result<Found, ParseError>,
> Grammar<F> {
    /// A word, an expression and a semicolon.
    #[tactic(auto, unfolding(crate::specs::ClauseReading::clause_of))]
    pub fn clause_of(
        &self,
        cursor: &mut Cursor<'_>,
        word: NoteWord,
    ) -> Result<Ended<ClauseTree>, ParseError>
        requires nests { Nests self.now.room (F.pre self.now.expr) (F.post self.now.expr) }
        requires side { cursor.old.note ≡ true }
        ensures reads { Reads (ended clause_view) (note_rule rules.clause_of self.now.room self.now.quantifiers word (seen cursor.old)) result (seen cursor.new) }
        ensures kept { IsKept cursor.old cursor.new }
    {
        let x = cursor.expect_word(word)?;
        let e = self.expression(cursor)?;
        let last = cursor.expect_note(Mark::Semicolon)?;
        Ok(make_clause(self.alloc, x, e, last)?)
    }

    #[tactic(auto, unfolding(crate::specs::ClauseReading::ensures_clause))]
    fn ensures_clause(&self, cursor: &mut Cursor<'_>) -> Result<Ended<SpecClause>, ParseError>
        requires nests { Nests self.now.room (F.pre self.now.expr) (F.post self.now.expr) }
        requires side { cursor.old.note ≡ true }
        ensures reads { Reads (ended promise_view) (note_rule rules.ensures_clause self.now.room self.now.quantifiers (seen cursor.old)) result (seen cursor.new) }
        ensures kept { IsKept cursor.old cursor.new }
    {
        let c = self.clause_of(cursor, NoteWord::Ensures)?;
        Ok(make_ensures(c))
    }

    #[tactic(auto, unfolding(crate::specs::ClauseReading::assignable_clause))]
    fn assignable_clause(&self, cursor: &mut Cursor<'_>) -> Result<Ended<SpecClause>, ParseError>
        requires nests { Nests self.now.room (F.pre self.now.expr) (F.post self.now.expr) }
        requires side { cursor.old.note ≡ true }
        requires room { self.now.room < 1000 }
        ensures reads { Reads (ended promise_view) (note_rule rules.assignable_clause self.now.room self.now.quantifiers (seen cursor.old)) result (seen cursor.new) }
        ensures kept { IsKept cursor.old cursor.new }
    {
        let x = cursor.expect_word(NoteWord::Assignable)?;
        let stores = self.stores(cursor)?;
        let last = cursor.expect_note(Mark::Semicolon)?;
        Ok(make_assignable(self.alloc, x, stores, last)?)
    }

    /// A name that may be missing.
    #[tactic(auto, unfolding(crate::specs::ClauseReading::optional_name))]
    fn optional_name<'a>(&self, cursor: &mut Cursor<'a>) -> Result<Option<Lexeme<'a>>, ParseError>
        requires side { cursor.old.note ≡ true }
        ensures reads { Reads kept_word (note_rule rules.optional_name self.now.room self.now.quantifiers (seen cursor.old)) result (seen cursor.new) }
        ensures kept { IsKept cursor.old cursor.new }
    {
        if !cursor.is_at(Mark::Name) {
            return Ok(None);
        }
        let x = cursor.expect_note(Mark::Name)?;
        Ok(Some(x))
    }

    /// Before a semicolon an expression that may be missing.
    #[tactic(auto, unfolding(crate::specs::ClauseReading::optional_expression))]
    fn optional_expression(
        &self,
        cursor: &mut Cursor<'_>,
    ) -> Result<Measured<Option<Expr>>, ParseError>
        requires nests { Nests self.now.room (F.pre self.now.expr) (F.post self.now.expr) }
        requires side { cursor.old.note ≡ true }
        ensures reads { Reads (measured optional_view) (note_rule rules.optional_expression self.now.room self.now.quantifiers (seen cursor.old)) result (seen cursor.new) }
        ensures kept { IsKept cursor.old cursor.new }
    {
        if cursor.is_at(Mark::Semicolon) {
            return Ok(Measured {
                tree: None,
                depth: 0,
            });
        }
        let e = self.expression(cursor)?;
        Ok(Measured {
            tree: Some(e.expr),
            depth: e.depth,
        })
    }

    #[tactic(auto, unfolding(crate::specs::ClauseReading::signals_behind))]
    fn signals_behind(
        &self,
        cursor: &mut Cursor<'_>,
        head: SignalsHead<'_>,
    ) -> Result<Ended<SpecClause>, ParseError>
        requires nests { Nests self.now.room (F.pre self.now.expr) (F.post self.now.expr) }
        requires side { cursor.old.note ≡ true }
        ensures reads { Reads (ended promise_view) (note_rule rules.signals_behind self.now.room self.now.quantifiers (lexeme head.entry.word) (lexeme head.entry.bracket) (lexeme head.entry.class) (kept_word head.entry.name) (seen cursor.old)) result (seen cursor.new) }
        ensures kept { IsKept cursor.old cursor.new }
    {
        cursor.expect_note(Mark::RightParen)?;
        let e = self.optional_expression(cursor)?;
        let last = cursor.expect_note(Mark::Semicolon)?;
        Ok(make_signals(self.alloc, head, e, last)?)
    }

    #[tactic(auto, unfolding(crate::specs::ClauseReading::signals_clause))]
    fn signals_clause(&self, cursor: &mut Cursor<'_>) -> Result<Ended<SpecClause>, ParseError>
        requires nests { Nests self.now.room (F.pre self.now.expr) (F.post self.now.expr) }
        requires side { cursor.old.note ≡ true }
        ensures reads { Reads (ended promise_view) (note_rule rules.signals_clause self.now.room self.now.quantifiers (seen cursor.old)) result (seen cursor.new) }
        ensures kept { IsKept cursor.old cursor.new }
    {
        let word = cursor.expect_word(NoteWord::Signals)?;
        let bracket = cursor.expect_note(Mark::LeftParen)?;
        let class = cursor.expect_note(Mark::Name)?;
        let name = self.optional_name(cursor)?;
        let head = SignalsHead {
            word,
            bracket,
            class,
            name,
        };
        self.signals_behind(cursor, head)
    }

    /// The classes that a `signals_only` clause names, or none.
    #[tactic(auto, unfolding(crate::specs::ClauseReading::signaled_classes, crate::specs::ClauseReading::no_classes, crate::specs::ClauseReading::some_classes))]
    fn signaled_classes(&self, cursor: &mut Cursor<'_>) -> Result<SpecClause, ParseError>
        requires side { cursor.old.note ≡ true }
        ensures reads { Reads promise_view (note_rule rules.signaled_classes self.now.room self.now.quantifiers (seen cursor.old)) result (seen cursor.new) }
        ensures kept { IsKept cursor.old cursor.new }
    {
        if cursor.is_at_word(NoteWord::Nothing) {
            let n = cursor.expect_word(NoteWord::Nothing)?;
            return Ok(SpecClause::SignalsOnly {
                first: n.span,
                classes: List::new(self.alloc),
            });
        }
        let words = self.names(cursor)?;
        Ok(make_classes(words))
    }

    #[tactic(auto, unfolding(crate::specs::ClauseReading::signals_only_clause))]
    fn signals_only_clause(&self, cursor: &mut Cursor<'_>) -> Result<Ended<SpecClause>, ParseError>
        requires side { cursor.old.note ≡ true }
        ensures reads { Reads (ended promise_view) (note_rule rules.signals_only_clause self.now.room self.now.quantifiers (seen cursor.old)) result (seen cursor.new) }
        ensures kept { IsKept cursor.old cursor.new }
    {
        cursor.expect_word(NoteWord::SignalsOnly)?;
        let c = self.signaled_classes(cursor)?;
        let last = cursor.expect_note(Mark::Semicolon)?;
        Ok(Ended {
            tree: c,
            depth: 0,
            last: last.span,
        })
    }

    /// A clause of a case, its `requires` clauses aside.
    #[tactic(auto, unfolding(crate::specs::ClauseReading::spec_clause))]
    pub fn spec_clause(&self, cursor: &mut Cursor<'_>) -> Result<Ended<SpecClause>, ParseError>
        requires nests { Nests self.now.room (F.pre self.now.expr) (F.post self.now.expr) }
        requires side { cursor.old.note ≡ true }
        requires room { self.now.room < 1000 }
        ensures reads { Reads (ended promise_view) (note_rule rules.spec_clause self.now.room self.now.quantifiers (seen cursor.old)) result (seen cursor.new) }
        ensures kept { IsKept cursor.old cursor.new }
    {
        match cursor.peek_word() {
            NoteWord::Ensures => self.ensures_clause(cursor),
            NoteWord::Assignable => self.assignable_clause(cursor),
            NoteWord::Signals => self.signals_clause(cursor),
            NoteWord::SignalsOnly => self.signals_only_clause(cursor),
            _ => Err(cursor.refuse()),
        }
    }
}
