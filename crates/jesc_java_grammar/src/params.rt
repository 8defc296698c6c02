//! Parameters, and what stands behind the name of a method or constructor up to its body.

ghost use Rattle.std.specs.Prelude.{◌≡◌, false, IfOk};
ghost use Rattle.jesc_ast.specs.Members.{param_tree};
ghost use Rattle.jesc_jml_grammar.specs.Reading.{turns as all_turns, word_of as word_kept};
ghost use Rattle.jesc_jml_grammar.specs.Seen.{seen, lexeme, IsKept};
ghost use Rattle.jesc_jml_grammar.specs.Steps.{Reads};
ghost use Rattle.jesc_java_grammar.specs.FileReading as spec;
ghost use Rattle.jesc_java_grammar.specs.FileViews as views;
ghost use Rattle.jesc_java_grammar.specs.FileViews.{signature_seen};
ghost use Rattle.jesc_java_grammar.specs.Views.{part};

use crate::files::Files;
use crate::lexing::{is_param_modifier, take_param_modifier};
use crate::make_member::Signature;
use crate::names::is_at;
use jesc_ast::{ParamTree, TypeTree, Word};
use jesc_jml_grammar::cursor::{Cursor, Lexeme};
use jesc_jml_grammar::fault::{Fault, ParseError};
use jesc_jml_grammar::grammar::turns;
use jesc_jml_grammar::lists::with_word;
use jesc_jml_grammar::make::word_of;
use jesc_jml_grammar::mark::Mark;
use jesc_text::{List, OutOfMemory};
use std::alloc::Global;

fn make_param(
    alloc: Global,
    modifiers: List<Word>,
    ty: TypeTree,
    x: Lexeme<'_>,
) -> Result<ParamTree, OutOfMemory>
    ensures { IfOk result (λ t. t ≡ param_tree modifiers ty (word_kept (lexeme x.entry))) }
{
    Ok(ParamTree {
        modifiers,
        ty,
        name: word_of(alloc, x)?,
    })
}

/// The parameters with one more.
fn with_param(mut params: List<ParamTree>, param: ParamTree) -> Result<List<ParamTree>, OutOfMemory>
    ensures { IfOk result (λ all. all ≡ spec.with_param params param) }
{
    params.push(param)?;
    Ok(params)
}

impl Files {
    #[tactic(auto, unfolding(crate::specs::FileReading::param_modifiers), using(crate::proofs::ListTurns::until_stops, crate::proofs::ListTurns::until_goes_on, crate::proofs::ListTurns::until_ends))]
    fn param_modifiers(&self, cursor: &mut Cursor<'_>) -> Result<List<Word>, ParseError>
        requires side { cursor.old.note ≡ false }
        ensures reads { Reads (λ words. words) (part spec.param_modifiers self.now.room (seen cursor.old)) result (seen cursor.new) }
        ensures kept { IsKept cursor.old cursor.new }
    {
        let mut words = List::new(self.alloc);
        let turns = turns();
        for _turn in 0..turns {
            if !is_param_modifier(cursor) {
                return Ok(words);
            }
            let x = take_param_modifier(cursor)?;
            words = with_word(self.alloc, words, x)?;
        }
        Err(ParseError::Fault(Fault::Long))
    }

    /// A parameter.
    #[tactic(auto, unfolding(crate::specs::FileReading::param))]
    fn param(&self, cursor: &mut Cursor<'_>) -> Result<ParamTree, ParseError>
        requires side { cursor.old.note ≡ false }
        ensures reads { Reads (λ t. t) (part spec.param self.now.room (seen cursor.old)) result (seen cursor.new) }
        ensures kept { IsKept cursor.old cursor.new }
    {
        let words = self.param_modifiers(cursor)?;
        let ty = self.code_type(cursor)?;
        let x = cursor.expect(Mark::Name)?;
        Ok(make_param(self.alloc, words, ty, x)?)
    }

    /// Behind a comma a parameter.
    fn further_param(&self, cursor: &mut Cursor<'_>) -> Result<ParamTree, ParseError>
        requires side { cursor.old.note ≡ false }
        ensures reads { Reads (λ t. t) (views.further_param self.now.room (seen cursor.old)) result (seen cursor.new) }
        ensures kept { IsKept cursor.old cursor.new }
    {
        cursor.expect(Mark::Comma)?;
        self.param(cursor)
    }

    #[tactic(auto, using(crate::proofs::ListTurns::until_stops, crate::proofs::ListTurns::until_goes_on, crate::proofs::ListTurns::until_ends))]
    fn more_params(
        &self,
        cursor: &mut Cursor<'_>,
        first: List<ParamTree>,
    ) -> Result<List<ParamTree>, ParseError>
        requires side { cursor.old.note ≡ false }
        ensures reads { Reads (λ params. params) (views.more_params self.now.room all_turns first (seen cursor.old)) result (seen cursor.new) }
        ensures kept { IsKept cursor.old cursor.new }
    {
        let mut params = first;
        let turns = turns();
        for _turn in 0..turns {
            if !is_at(cursor, Mark::Comma) {
                return Ok(params);
            }
            let next = self.further_param(cursor)?;
            params = with_param(params, next)?;
        }
        Err(ParseError::Fault(Fault::Long))
    }

    /// Parameters with commas between, one at least.
    #[tactic(auto, unfolding(crate::specs::FileReading::some_params, jesc_jml_grammar::specs::ClauseLists::separated))]
    fn some_params(&self, cursor: &mut Cursor<'_>) -> Result<List<ParamTree>, ParseError>
        requires side { cursor.old.note ≡ false }
        ensures reads { Reads (λ params. params) (part spec.some_params self.now.room (seen cursor.old)) result (seen cursor.new) }
        ensures kept { IsKept cursor.old cursor.new }
    {
        let param = self.param(cursor)?;
        let first = with_param(List::new(self.alloc), param)?;
        self.more_params(cursor, first)
    }

    #[tactic(auto, unfolding(crate::specs::FileReading::optional_params))]
    fn optional_params(&self, cursor: &mut Cursor<'_>) -> Result<List<ParamTree>, ParseError>
        requires side { cursor.old.note ≡ false }
        ensures reads { Reads (λ params. params) (part spec.optional_params self.now.room (seen cursor.old)) result (seen cursor.new) }
        ensures kept { IsKept cursor.old cursor.new }
    {
        if is_at(cursor, Mark::RightParen) {
            return Ok(List::new(self.alloc));
        }
        self.some_params(cursor)
    }

    /// Parameters in parentheses.
    #[tactic(auto, unfolding(crate::specs::FileReading::params))]
    fn params(&self, cursor: &mut Cursor<'_>) -> Result<List<ParamTree>, ParseError>
        requires side { cursor.old.note ≡ false }
        ensures reads { Reads (λ params. params) (part spec.params self.now.room (seen cursor.old)) result (seen cursor.new) }
        ensures kept { IsKept cursor.old cursor.new }
    {
        cursor.expect(Mark::LeftParen)?;
        let found = self.optional_params(cursor)?;
        cursor.expect(Mark::RightParen)?;
        Ok(found)
    }

    /// Parameters in parentheses, and what is thrown.
    #[tactic(auto, unfolding(crate::specs::FileReading::signature))]
    pub fn signature(&self, cursor: &mut Cursor<'_>) -> Result<Signature, ParseError>
        requires side { cursor.old.note ≡ false }
        ensures reads { Reads signature_seen (part spec.signature self.now.room (seen cursor.old)) result (seen cursor.new) }
        ensures kept { IsKept cursor.old cursor.new }
    {
        let params = self.params(cursor)?;
        let throws = self.names_after(cursor, b"throws")?;
        Ok(Signature { params, throws })
    }
}
