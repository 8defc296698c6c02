ghost use Rattle.std.specs.Prelude.{◌≡◌, IfOk};

use crate::term::{CoreFormula, CoreFormulaNode, CoreRange, CoreTerm, CoreTermNode};
use jesc_text::{Boxed, List, OutOfMemory};
use std::alloc::Global;

impl CoreTerm {
    /// An equal term.
    #[cycle(copy_term)]
    pub fn copy(&self, alloc: Global) -> Result<CoreTerm, OutOfMemory>
        ensures { IfOk result (λ copy. copy ≡ self.now) }
    {
        let node = Boxed::new(alloc, copy_term_node(alloc, self.node.get())?)?;
        Ok(CoreTerm { node })
    }
}

impl CoreFormula {
    /// An equal formula.
    #[cycle(copy_term)]
    pub fn copy(&self, alloc: Global) -> Result<CoreFormula, OutOfMemory>
        ensures { IfOk result (λ copy. copy ≡ self.now) }
    {
        let node = Boxed::new(alloc, copy_formula_node(alloc, self.node.get())?)?;
        Ok(CoreFormula { node })
    }
}

#[cycle(copy_term)]
fn copy_term_node(alloc: Global, node: &CoreTermNode) -> Result<CoreTermNode, OutOfMemory>
    ensures { IfOk result (λ copy. copy ≡ node.now) }
{
    match node {
        CoreTermNode::Num(n) => Ok(CoreTermNode::Num(*n)),
        CoreTermNode::Var(x) => Ok(CoreTermNode::Var(*x)),
        CoreTermNode::App(symbol, args) => {
            let args = copy_terms(alloc, args)?;
            Ok(CoreTermNode::App(*symbol, args))
        }
        CoreTermNode::Field(heap, field, object) => {
            let object = object.copy(alloc)?;
            Ok(CoreTermNode::Field(*heap, *field, object))
        }
        CoreTermNode::Elem(heap, array, index) => {
            let array = array.copy(alloc)?;
            let index = index.copy(alloc)?;
            Ok(CoreTermNode::Elem(*heap, array, index))
        }
        CoreTermNode::Top(heap) => Ok(CoreTermNode::Top(*heap)),
        CoreTermNode::Built(heap, object) => {
            let object = object.copy(alloc)?;
            Ok(CoreTermNode::Built(*heap, object))
        }
        CoreTermNode::Choose(test, yes, no) => {
            let test = test.copy(alloc)?;
            let yes = yes.copy(alloc)?;
            let no = no.copy(alloc)?;
            Ok(CoreTermNode::Choose(test, yes, no))
        }
    }
}

#[cycle(copy_term)]
fn copy_formula_node(alloc: Global, node: &CoreFormulaNode) -> Result<CoreFormulaNode, OutOfMemory>
    ensures { IfOk result (λ copy. copy ≡ node.now) }
{
    match node {
        CoreFormulaNode::True => Ok(CoreFormulaNode::True),
        CoreFormulaNode::False => Ok(CoreFormulaNode::False),
        CoreFormulaNode::Le(a, b) => {
            let a = a.copy(alloc)?;
            Ok(CoreFormulaNode::Le(a, b.copy(alloc)?))
        }
        CoreFormulaNode::Eq(a, b) => {
            let a = a.copy(alloc)?;
            Ok(CoreFormulaNode::Eq(a, b.copy(alloc)?))
        }
        CoreFormulaNode::Not(f) => Ok(CoreFormulaNode::Not(f.copy(alloc)?)),
        CoreFormulaNode::And(f, g) => {
            let f = f.copy(alloc)?;
            Ok(CoreFormulaNode::And(f, g.copy(alloc)?))
        }
        CoreFormulaNode::Or(f, g) => {
            let f = f.copy(alloc)?;
            Ok(CoreFormulaNode::Or(f, g.copy(alloc)?))
        }
        CoreFormulaNode::All(range) => Ok(CoreFormulaNode::All(copy_range(alloc, range)?)),
        CoreFormulaNode::Any(range) => Ok(CoreFormulaNode::Any(copy_range(alloc, range)?)),
    }
}

#[cycle(copy_term)]
fn copy_range(alloc: Global, range: &CoreRange) -> Result<CoreRange, OutOfMemory>
    ensures { IfOk result (λ copy. copy ≡ range.now) }
{
    let low = range.low.copy(alloc)?;
    let high = range.high.copy(alloc)?;
    let body = range.body.copy(alloc)?;
    Ok(CoreRange {
        variable: range.variable,
        sort: range.sort,
        low,
        high,
        body,
    })
}

/// Equal terms, in order.
#[cycle(copy_term)]
fn copy_terms(alloc: Global, list: &List<CoreTerm>) -> Result<List<CoreTerm>, OutOfMemory>
    ensures { IfOk result (λ copy. copy ≡ list.now) }
{
    let mut copies = List::new(alloc);
    for term in list.as_slice() {
        copies.push(term.copy(alloc)?)?;
    }
    Ok(copies)
}

/// Equal formulas, in order.
pub(super) fn copy_formulas(
    alloc: Global,
    list: &List<CoreFormula>,
) -> Result<List<CoreFormula>, OutOfMemory>
    ensures { IfOk result (λ copy. copy ≡ list.now) }
{
    let mut copies = List::new(alloc);
    for formula in list.as_slice() {
        copies.push(formula.copy(alloc)?)?;
    }
    Ok(copies)
}
