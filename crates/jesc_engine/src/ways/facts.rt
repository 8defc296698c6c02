ghost use Rattle.std.specs.Prelude.{◌≡◌, ℕ, ◌+◌, ◌<◌, ◌≤◌, ◌^◌, pos, [], ◌∷◌, ◌++◌, length, IfOk, OnOk, OnErr};
ghost use Rattle.jesc_linear.specs.Forms.{IsForm};
ghost use Rattle.jesc_linear.specs.Evidence.{HasEvidence};
ghost use Rattle.jesc_linear.specs.Steps.{Refutes};
ghost use Rattle.jesc_engine.specs.Ways.{with_rows, each_way, tied, operated, operation_ways, in_range, below_range, above_range};
ghost use Rattle.jesc_engine.specs.Outcomes.{Answers};
ghost use Rattle.jesc_engine.specs.Walk.{AreRows, IsBelow, answer_of};

use crate::answer::Answer;
use crate::ways::atom::Atom;
use crate::ways::rows::{at_most, minus_at_most, tie_above, tie_below};
use jesc_first::Operator;
use jesc_linear::{LinStep, Outcome, Row, check_steps, decide};
use jesc_text::{List, OutOfMemory};
use std::alloc::Global;
use std::marker::Model;

/// The most rows that are ever gathered, and the most terms, of which each parameter has one.
pub(crate) const LIMIT: u32 = (1 << 31) - 1;

/// Proved, where the checker takes these steps. It does: they are looked at once more so that nothing is Proved otherwise.
fn refutation(rows: &[Row], steps: &[LinStep]) -> Answer
    requires { Refutes steps.now rows.now }
    ensures { result ≡ Answer.Proved }
{
    if check_steps(rows, steps) {
        Answer::Proved
    } else {
        Answer::Gap
    }
}

/// What an outcome says of the rows as a way to fail.
fn answer_from(rows: &[Row], outcome: Outcome) -> Answer
    requires { HasEvidence rows.now outcome }
    ensures { result ≡ answer_of outcome }
{
    match outcome {
        Outcome::Refuted(steps) => refutation(rows, steps.as_slice()),
        Outcome::Point(_) => Answer::Open,
        Outcome::WideForms(count) => Answer::WideForms(count),
        Outcome::WidePairs(count) => Answer::WidePairs(count),
        Outcome::WideNumber(number) => Answer::WideNumber(number),
        Outcome::Gap(_, _, _, _) => Answer::Gap,
    }
}

/// The answer to the rows as the one way to fail.
#[tactic(auto, using(crate::proofs::AnswerLists::one_way))]
fn answer_to(alloc: Global, rows: &[Row]) -> Result<Answer, OutOfMemory>
    requires { AreRows rows.now }
    ensures { IfOk result (λ answer. Answers (rows.now ∷ []) answer) }
{
    let outcome = decide(alloc, rows)?;
    Ok(answer_from(rows, outcome))
}

/// Adds a row. Answers `OutOfMemory` also where there are as many as may be.
fn push_row(rows: &mut List<Row>, row: Row) -> Result<(), OutOfMemory>
    requires rows { AreRows rows.old }
    requires form { IsForm row.form }
    ensures ok { OnOk result (rows.new ≡ rows.old ++ row ∷ []) }
    ensures err { OnErr result (rows.new ≡ rows.old) }
    ensures rows { AreRows rows.new }
{
    if rows.len() >= LIMIT as usize {
        return Err(OutOfMemory);
    }
    rows.push(row)
}

/// The answer to the rows with one more, which are left as they were.
fn answer_with(alloc: Global, rows: &mut List<Row>, row: Row) -> Result<Answer, OutOfMemory>
    requires rows { AreRows rows.old }
    requires form { IsForm row.form }
    ensures answer { IfOk result (λ answer. Answers ((rows.old ++ row ∷ []) ∷ []) answer) }
    ensures same { rows.new ≡ rows.old }
{
    let kept = rows.len() as u32;
    push_row(rows, row)?;
    let answer = answer_to(alloc, rows.as_slice());
    rows.cut(kept);
    answer
}

/// The rows gathered so far, and the number of the next new term.
#[derive(Debug, Drop)]
pub(crate) struct Facts {
    rows: List<Row>,
    fresh: u32,
}

impl Model for Facts {
    ghost use Rattle.jesc_engine.specs.Ways.{Facts as Gathered};
    ghost use Rattle.jesc_engine.specs.Walk.{AreRows};

    ghost Value = { Gathered };

    ghost view = { λ facts. record { rows = facts.rows; fresh = facts.fresh } };

    ghost invariant = { λ facts. AreRows facts.rows };
}

impl Facts {
    /// No rows, where the terms below this number are taken.
    pub(crate) fn new(alloc: Global, fresh: u32) -> Facts
        ensures { result ≡ record { rows = []; fresh = fresh } }
    {
        Facts {
            rows: List::new(alloc),
            fresh,
        }
    }

    /// Adds a row. Answers `OutOfMemory` also at 2^31 - 1 rows.
    pub(crate) fn add(&mut self, row: Row) -> Result<(), OutOfMemory>
        requires { IsForm row.form }
        ensures { OnOk result (self.new ≡ with_rows self.old (row ∷ [])) }
    {
        push_row(&mut self.rows, row)
    }

    /// A new term. Answers `OutOfMemory` also at 2^31 - 1 terms.
    fn take_term(&mut self) -> Result<u32, OutOfMemory>
        ensures { IfOk result (λ term. (term ≡ self.old.fresh) × (self.new ≡ record { rows = self.old.rows; fresh = self.old.fresh + 1 })) }
    {
        let term = self.fresh;
        if term >= LIMIT {
            return Err(OutOfMemory);
        }
        self.fresh = term + 1;
        Ok(term)
    }

    /// The facts with the term in the range of `int`.
    pub(crate) fn keep_in_range(&mut self, alloc: Global, term: u32) -> Result<(), OutOfMemory>
        ensures { OnOk result (self.new ≡ with_rows self.old (in_range term)) }
    {
        self.add(at_most(alloc, term, i32::MAX as i64)?)?;
        self.add(minus_at_most(alloc, term, -(i32::MIN as i64))?)
    }

    /// The facts with a new term for an operation, tied to its parts.
    fn tie(
        &mut self,
        alloc: Global,
        x: Atom,
        operator: Operator,
        y: Atom,
    ) -> Result<u32, OutOfMemory>
        requires left { IsBelow self.old.fresh x }
        requires right { IsBelow self.old.fresh y }
        ensures { IfOk result (λ term. (term ≡ self.old.fresh) × (self.new ≡ tied self.old x operator y)) }
    {
        let term = self.take_term()?;
        self.add(tie_above(alloc, x, operator, y, term)?)?;
        self.add(tie_below(alloc, x, operator, y, term)?)?;
        Ok(term)
    }

    /// The answer to one way to fail: the facts and this row.
    pub(crate) fn way(&mut self, alloc: Global, row: Row) -> Result<Answer, OutOfMemory>
        requires { IsForm row.form }
        ensures { IfOk result (λ answer. (self.new ≡ self.old) × Answers (each_way self.old.rows (row ∷ [])) answer) }
    {
        let answer = answer_with(alloc, &mut self.rows, row)?;
        Ok(answer)
    }

    /// The answer to two ways to fail, in order: that of the first that isn't refuted.
    #[tactic(auto, using(crate::proofs::AnswerLists::either_way))]
    pub(crate) fn either_way(
        &mut self,
        alloc: Global,
        first: Row,
        second: Row,
    ) -> Result<Answer, OutOfMemory>
        requires first { IsForm first.form }
        requires second { IsForm second.form }
        ensures { IfOk result (λ answer. (self.new ≡ self.old) × Answers (each_way self.old.rows (first ∷ second ∷ [])) answer) }
    {
        match self.way(alloc, first)? {
            Answer::Proved => self.way(alloc, second),
            answer => Ok(answer),
        }
    }

    /// The answer to the two ways in which the term leaves `int`.
    fn leaves_range(&mut self, alloc: Global, term: u32) -> Result<Answer, OutOfMemory>
        ensures { IfOk result (λ answer. (self.new ≡ self.old) × Answers (each_way self.old.rows (below_range term ∷ above_range term ∷ [])) answer) }
    {
        let below = at_most(alloc, term, i32::MIN as i64 - 1)?;
        let above = minus_at_most(alloc, term, -(i32::MAX as i64) - 1)?;
        self.either_way(alloc, below, above)
    }

    /// The facts after an operation that is in range, and the atom of its value.
    pub(crate) fn operate(
        &mut self,
        alloc: Global,
        x: Atom,
        operator: Operator,
        y: Atom,
    ) -> Result<Atom, OutOfMemory>
        requires left { IsBelow self.old.fresh x }
        requires right { IsBelow self.old.fresh y }
        ensures { IfOk result (λ atom. (atom ≡ Atom.Term self.old.fresh) × (self.new ≡ operated self.old x operator y)) }
    {
        let term = self.tie(alloc, x, operator, y)?;
        self.keep_in_range(alloc, term)?;
        Ok(Atom::Term(term))
    }

    /// The same, with the answer to the operation's two ways to leave `int`.
    pub(crate) fn check_operation(
        &mut self,
        alloc: Global,
        x: Atom,
        operator: Operator,
        y: Atom,
    ) -> Result<(Atom, Answer), OutOfMemory>
        requires left { IsBelow self.old.fresh x }
        requires right { IsBelow self.old.fresh y }
        ensures { IfOk result (λ made. (made.0 ≡ Atom.Term self.old.fresh) × Answers (operation_ways self.old x operator y) made.1 × (self.new ≡ operated self.old x operator y)) }
    {
        let made = self.tie(alloc, x, operator, y)?;
        let answer = self.leaves_range(alloc, made)?;
        self.keep_in_range(alloc, made)?;
        Ok((Atom::Term(made), answer))
    }
}
