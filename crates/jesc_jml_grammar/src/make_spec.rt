//! Clauses, cases and specifications of their parts.

ghost use Rattle.std.specs.Prelude.{◌≡◌, map, [], IfOk};
ghost use Rattle.jesc_ast.specs.Trees.{clause_view, optional_view, clause};
ghost use Rattle.jesc_ast.specs.SpecTrees as trees;
ghost use Rattle.jesc_ast.specs.SpecTrees.{store_view, promise_view, case_view, spec_view};
ghost use Rattle.jesc_ast.specs.Specifications as specifications;
ghost use Rattle.jesc_jml_grammar.specs.Reading.{word_of as word_kept};
ghost use Rattle.jesc_jml_grammar.specs.Seen.{lexeme};
ghost use Rattle.jesc_jml_grammar.specs.Nests.{parsed};
ghost use Rattle.jesc_jml_grammar.specs.ClauseFound as spec;
ghost use Rattle.jesc_jml_grammar.specs.ClauseSeen.{measured, ended, kept_word};

use crate::cursor::Lexeme;
use crate::found::Found;
use crate::make::word_of;
use crate::part::{CaseHead, Ended, Measured, SignalsHead};
use crate::span::join;
use jesc_ast::{CaseTree, ClauseTree, Expr, SignalsTree, SpecClause, SpecTree, StoreTree, Word};
use jesc_text::{Boxed, List, OutOfMemory, Span};
use std::alloc::Global;

// ---- lists with one more

pub fn with_store(
    mut found: Measured<List<StoreTree>>,
    next: Measured<StoreTree>,
) -> Result<Measured<List<StoreTree>>, OutOfMemory>
    ensures { IfOk result (λ all. measured (map store_view) all ≡ spec.with_more (measured (map store_view) found) (measured store_view next)) }
{
    found.tree.push(next.tree)?;
    found.depth = found.depth.max(next.depth);
    Ok(found)
}

pub fn with_clause(
    mut found: Ended<List<ClauseTree>>,
    next: Ended<ClauseTree>,
) -> Result<Ended<List<ClauseTree>>, OutOfMemory>
    ensures { IfOk result (λ all. ended (map clause_view) all ≡ spec.with_ended (ended (map clause_view) found) (ended clause_view next)) }
{
    found.tree.push(next.tree)?;
    found.depth = found.depth.max(next.depth);
    found.last = next.last;
    Ok(found)
}

pub fn with_promise(
    mut found: Ended<List<SpecClause>>,
    next: Ended<SpecClause>,
) -> Result<Ended<List<SpecClause>>, OutOfMemory>
    ensures { IfOk result (λ all. ended (map promise_view) all ≡ spec.with_ended (ended (map promise_view) found) (ended promise_view next)) }
{
    found.tree.push(next.tree)?;
    found.depth = found.depth.max(next.depth);
    found.last = next.last;
    Ok(found)
}

pub fn with_case(
    mut found: Measured<List<CaseTree>>,
    next: Measured<CaseTree>,
) -> Result<Measured<List<CaseTree>>, OutOfMemory>
    ensures { IfOk result (λ all. measured (map case_view) all ≡ spec.with_more (measured (map case_view) found) (measured case_view next)) }
{
    found.tree.push(next.tree)?;
    found.depth = found.depth.max(next.depth);
    Ok(found)
}

// ---- clauses

pub fn make_clause(
    alloc: Global,
    word: Lexeme<'_>,
    e: Found,
    last: Lexeme<'_>,
) -> Result<Ended<ClauseTree>, OutOfMemory>
    ensures { IfOk result (λ c. ended clause_view c ≡ spec.ended (clause (word_kept (lexeme word.entry)) (parsed e).tree) e.depth (lexeme last.entry)) }
{
    Ok(Ended {
        tree: ClauseTree {
            word: word_of(alloc, word)?,
            e: e.expr,
        },
        depth: e.depth,
        last: last.span,
    })
}

pub fn make_ensures(c: Ended<ClauseTree>) -> Ended<SpecClause>
    ensures tree { promise_view result.tree ≡ trees.promises (clause_view c.tree) }
    ensures depth { result.depth ≡ c.depth }
    ensures last { result.last ≡ c.last }
{
    Ended {
        tree: SpecClause::Ensures(c.tree),
        depth: c.depth,
        last: c.last,
    }
}

pub fn make_assignable(
    alloc: Global,
    word: Lexeme<'_>,
    stores: Measured<List<StoreTree>>,
    last: Lexeme<'_>,
) -> Result<Ended<SpecClause>, OutOfMemory>
    ensures { IfOk result (λ c. ended promise_view c ≡ spec.ended (trees.assigns (word_kept (lexeme word.entry)) (map store_view stores.tree)) stores.depth (lexeme last.entry)) }
{
    Ok(Ended {
        tree: SpecClause::Assignable {
            word: word_of(alloc, word)?,
            stores: stores.tree,
        },
        depth: stores.depth,
        last: last.span,
    })
}

pub fn optional_word(alloc: Global, x: Option<Lexeme<'_>>) -> Result<Option<Word>, OutOfMemory>
    ensures { IfOk result (λ word. word ≡ kept_word x.entry) }
{
    match x {
        None => Ok(None),
        Some(x) => Ok(Some(word_of(alloc, x)?)),
    }
}

pub fn make_signals(
    alloc: Global,
    head: SignalsHead<'_>,
    e: Measured<Option<Expr>>,
    last: Lexeme<'_>,
) -> Result<Ended<SpecClause>, OutOfMemory>
    ensures { IfOk result (λ c. ended promise_view c ≡ spec.signals_of (lexeme head.entry.word) (lexeme head.entry.bracket) (lexeme head.entry.class) (kept_word head.entry.name) (measured optional_view e) (lexeme last.entry)) }
{
    let word = word_of(alloc, head.word)?;
    let class = word_of(alloc, head.class)?;
    let name = optional_word(alloc, head.name)?;
    let tree = SignalsTree {
        word,
        bracket: head.bracket.span,
        class,
        name,
        e: e.tree,
    };
    Ok(Ended {
        tree: SpecClause::Signals(Boxed::new(alloc, tree)?),
        depth: e.depth,
        last: last.span,
    })
}

fn first_span(words: &List<Word>) -> Span
    ensures { result ≡ specifications.first_span words.now }
{
    match words.as_slice() {
        [] => Span {
            file: 0,
            from: 0,
            to: 0,
        },
        [word, ..] => word.span,
    }
}

pub fn make_classes(words: List<Word>) -> SpecClause
    ensures { promise_view result ≡ trees.signals_only (specifications.first_span words) words }
{
    SpecClause::SignalsOnly {
        first: first_span(&words),
        classes: words,
    }
}

// ---- cases and specifications

pub fn make_case(
    alloc: Global,
    head: CaseHead<'_>,
    demands: Ended<List<ClauseTree>>,
    clauses: Ended<List<SpecClause>>,
) -> Result<Measured<CaseTree>, OutOfMemory>
    ensures { IfOk result (λ c. measured case_view c ≡ spec.case_tree head.entry.first (kept_word head.entry.visibility) (kept_word head.entry.heading) (ended (map clause_view) demands) (ended (map promise_view) clauses)) }
{
    let visibility = optional_word(alloc, head.visibility)?;
    let heading = optional_word(alloc, head.heading)?;
    Ok(Measured {
        tree: CaseTree {
            span: join(head.first, clauses.last),
            visibility,
            heading,
            demands: demands.tree,
            clauses: clauses.tree,
        },
        depth: demands.depth.max(clauses.depth),
    })
}

pub fn make_specification(also: bool, cases: Measured<List<CaseTree>>) -> Measured<SpecTree>
    ensures { measured spec_view result ≡ spec.spec_of also (measured (map case_view) cases) }
{
    Measured {
        tree: SpecTree {
            also,
            cases: cases.tree,
        },
        depth: cases.depth,
    }
}
