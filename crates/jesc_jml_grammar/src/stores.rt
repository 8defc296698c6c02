//! Lists of store references.

ghost use Rattle.std.specs.Prelude.{◌≡◌, ◌<◌, true, map, IfOk};
ghost use Rattle.jesc_jml_grammar.specs.Reading as spec;
ghost use Rattle.jesc_jml_grammar.specs.Steps.{Reads};
ghost use Rattle.jesc_jml_grammar.specs.Seen.{seen, IsKept};
ghost use Rattle.jesc_jml_grammar.specs.Nests.{Nests};
ghost use Rattle.jesc_jml_grammar.specs.ClauseReading as rules;
ghost use Rattle.jesc_jml_grammar.specs.ClauseSeen as views;
ghost use Rattle.jesc_jml_grammar.specs.ClauseSeen.{note_rule, measured};
ghost use Rattle.jesc_ast.specs.SpecTrees.{store_view, store_form};

use crate::cursor::Cursor;
use crate::fault::{Fault, ParseError};
use crate::found::{Found, Start};
use crate::grammar::{Grammar, turns};
use crate::make_spec::with_store;
use crate::make_store::store;
use crate::mark::Mark;
use crate::note_word::NoteWord;
use crate::part::Measured;
use jesc_ast::{StoreNode, StoreTree};
use jesc_text::{List, OutOfMemory, Span};
use std::alloc::Global;

impl<
    F: Fn(Global, &mut Cursor<'_>, usize, usize, usize, Start<'_>) -> Result<Found, ParseError>,
> Grammar<F> {
    #[tactic(auto, using(crate::proofs::ListTurns::until_stops, crate::proofs::ListTurns::until_goes_on, crate::proofs::ListTurns::until_ends))]
    fn more_stores(
        &self,
        cursor: &mut Cursor<'_>,
        first: Measured<List<StoreTree>>,
    ) -> Result<Measured<List<StoreTree>>, ParseError>
        requires nests { Nests self.now.room (F.pre self.now.expr) (F.post self.now.expr) }
        requires side { cursor.old.note ≡ true }
        requires room { self.now.room < 1000 }
        ensures reads { Reads (measured (map store_view)) (views.more_stores self.now.room self.now.quantifiers spec.turns (measured (map store_view) first) (seen cursor.old)) result (seen cursor.new) }
        ensures kept { IsKept cursor.old cursor.new }
    {
        let mut found = first;
        let turns = turns();
        for _turn in 0..turns {
            if !cursor.is_at(Mark::Comma) {
                return Ok(found);
            }
            cursor.expect_note(Mark::Comma)?;
            let next = self.one_store(cursor)?;
            found = with_store(found, next)?;
        }
        Err(ParseError::Fault(Fault::Long))
    }

    #[tactic(auto, unfolding(crate::specs::ClauseReading::some_stores, crate::specs::ClauseLists::separated))]
    fn some_stores(&self, cursor: &mut Cursor<'_>) -> Result<Measured<List<StoreTree>>, ParseError>
        requires nests { Nests self.now.room (F.pre self.now.expr) (F.post self.now.expr) }
        requires side { cursor.old.note ≡ true }
        requires room { self.now.room < 1000 }
        ensures reads { Reads (measured (map store_view)) (note_rule rules.some_stores self.now.room self.now.quantifiers (seen cursor.old)) result (seen cursor.new) }
        ensures kept { IsKept cursor.old cursor.new }
    {
        let first = self.one_store(cursor)?;
        let none = Measured {
            tree: List::new(self.alloc),
            depth: 0,
        };
        self.more_stores(cursor, with_store(none, first)?)
    }

    fn lone_store(
        &self,
        span: Span,
        node: StoreNode,
    ) -> Result<Measured<List<StoreTree>>, OutOfMemory>
        ensures { IfOk result (λ ts. measured (map store_view) ts ≡ views.lone_store span (store_form node)) }
    {
        let none = Measured {
            tree: List::new(self.alloc),
            depth: 0,
        };
        with_store(none, store(self.alloc, span, node, 0)?)
    }

    /// `\nothing` or `\everything`.
    #[tactic(auto, unfolding(crate::specs::ClauseReading::word_store))]
    fn word_store(
        &self,
        cursor: &mut Cursor<'_>,
        word: NoteWord,
        node: StoreNode,
    ) -> Result<Measured<List<StoreTree>>, ParseError>
        ensures reads { Reads (measured (map store_view)) (note_rule rules.word_store self.now.room self.now.quantifiers word (store_form node) (seen cursor.old)) result (seen cursor.new) }
        ensures kept { IsKept cursor.old cursor.new }
    {
        let x = cursor.expect_word(word)?;
        Ok(self.lone_store(x.span, node)?)
    }

    /// What an assignable clause names.
    #[tactic(auto, unfolding(crate::specs::ClauseReading::stores))]
    pub fn stores(&self, cursor: &mut Cursor<'_>) -> Result<Measured<List<StoreTree>>, ParseError>
        requires nests { Nests self.now.room (F.pre self.now.expr) (F.post self.now.expr) }
        requires side { cursor.old.note ≡ true }
        requires room { self.now.room < 1000 }
        ensures reads { Reads (measured (map store_view)) (note_rule rules.stores self.now.room self.now.quantifiers (seen cursor.old)) result (seen cursor.new) }
        ensures kept { IsKept cursor.old cursor.new }
    {
        match cursor.peek_word() {
            NoteWord::Nothing => self.word_store(cursor, NoteWord::Nothing, StoreNode::Nothing),
            NoteWord::Everything => {
                self.word_store(cursor, NoteWord::Everything, StoreNode::Everything)
            }
            _ => self.some_stores(cursor),
        }
    }
}
