//! How many fields a core speaks of.

ghost use Rattle.std.specs.Prelude.{◌≡◌, map};
ghost use Rattle.jesc_core.specs.Trees.{term_view, terms_of, formula_view, range_view, frame_view, core_view, step_view, cores_of};
ghost use Rattle.jesc_core.specs.Fields as counts;

use crate::steps::{Core, CoreStep, CoreStepNode, Frame};
use crate::term::{CoreFormula, CoreFormulaNode, CoreRange, CoreTerm, CoreTermNode};

/// One more than the greatest number of a field in a core, and 0 where there is none. A frame counts as many fields as it
/// has formulas for fields. Takes no memory.
#[cycle(fields)]
pub fn field_count(core: &Core) -> u64
    ensures { result ≡ counts.field_count (core_view core.now) }
{
    let steps = core.steps.as_slice();
    let mut count = 0;
    for k in (0..steps.len()).rev() {
        count = of_step(&steps[k]).max(count);
    }
    count
}

#[cycle(fields)]
fn of_step(step: &CoreStep) -> u64
    ensures { result ≡ counts.fields_of_step (step_view step.now) }
{
    match step.node.get() {
        CoreStepNode::Assume(f) => of_formula(f),
        CoreStepNode::Check(check) => of_formula(&check.formula),
        CoreStepNode::Let(_, term) => of_term(term),
        CoreStepNode::Write {
            field,
            object,
            value,
        } => (*field as u64 + 1).max(of_term(object).max(of_term(value))),
        CoreStepNode::WriteElem {
            array,
            index,
            value,
        } => of_term(array).max(of_term(index).max(of_term(value))),
        CoreStepNode::New { length, .. } => of_term(length),
        CoreStepNode::Build(object) => of_term(object),
        CoreStepNode::Havoc(_, frame) => of_frame(frame),
        CoreStepNode::Branch(_, cores) => of_cores(cores.as_slice()),
        CoreStepNode::Block(core) => field_count(core),
        CoreStepNode::Keep(_) | CoreStepNode::Leave(_) | CoreStepNode::Stop => 0,
    }
}

#[cycle(fields)]
fn of_cores(cores: &[Core]) -> u64
    ensures { result ≡ counts.fields_of_cores (cores_of (map core_view cores.now)) }
{
    let mut count = 0;
    for k in (0..cores.len()).rev() {
        count = field_count(&cores[k]).max(count);
    }
    count
}

fn of_frame(frame: &Frame) -> u64
    ensures { result ≡ counts.fields_of_frame (frame_view frame.now) }
{
    let fields = frame.fields.as_slice();
    (fields.len() as u64).max(of_formulas(fields).max(of_formula(&frame.elements)))
}

fn of_formulas(formulas: &[CoreFormula]) -> u64
    ensures { result ≡ counts.fields_of_formulas (map formula_view formulas.now) }
{
    let mut count = 0;
    for k in (0..formulas.len()).rev() {
        count = of_formula(&formulas[k]).max(count);
    }
    count
}

#[cycle(fields_of_terms)]
fn of_term(term: &CoreTerm) -> u64
    ensures { result ≡ counts.fields_of_term (term_view term.now) }
{
    match term.node.get() {
        CoreTermNode::App(_, args) => of_terms(args.as_slice()),
        CoreTermNode::Field(_, field, object) => (*field as u64 + 1).max(of_term(object)),
        CoreTermNode::Elem(_, array, index) => of_term(array).max(of_term(index)),
        CoreTermNode::Built(_, object) => of_term(object),
        CoreTermNode::Choose(test, yes, no) => of_formula(test).max(of_term(yes).max(of_term(no))),
        CoreTermNode::Num(_) | CoreTermNode::Var(_) | CoreTermNode::Top(_) => 0,
    }
}

#[cycle(fields_of_terms)]
fn of_terms(terms: &[CoreTerm]) -> u64
    ensures { result ≡ counts.fields_of_terms (terms_of (map term_view terms.now)) }
{
    let mut count = 0;
    for k in (0..terms.len()).rev() {
        count = of_term(&terms[k]).max(count);
    }
    count
}

#[cycle(fields_of_terms)]
fn of_formula(formula: &CoreFormula) -> u64
    ensures { result ≡ counts.fields_of_formula (formula_view formula.now) }
{
    match formula.node.get() {
        CoreFormulaNode::True | CoreFormulaNode::False => 0,
        CoreFormulaNode::Le(a, b) | CoreFormulaNode::Eq(a, b) => of_term(a).max(of_term(b)),
        CoreFormulaNode::Not(f) => of_formula(f),
        CoreFormulaNode::And(f, g) | CoreFormulaNode::Or(f, g) => of_formula(f).max(of_formula(g)),
        CoreFormulaNode::All(range) | CoreFormulaNode::Any(range) => of_range(range),
    }
}

#[cycle(fields_of_terms)]
fn of_range(range: &CoreRange) -> u64
    ensures { result ≡ counts.fields_of_range (range_view range.now) }
{
    of_term(&range.low).max(of_term(&range.high).max(of_formula(&range.body)))
}
