ghost use Rattle.std.specs.Prelude.{◌≡◌, IfOk};

use crate::expr::{
    CallHow, TBinary, TCall, TChoose, TExpr, TField, TIndex, TInstance, TNew, TNode, TQuant, TUnary,
};
use jesc_text::{Boxed, List, OutOfMemory};
use std::alloc::Global;

impl TExpr {
    /// An equal expression.
    #[cycle(copy_expr)]
    pub fn copy(&self, alloc: Global) -> Result<TExpr, OutOfMemory>
        ensures { IfOk result (λ copy. copy ≡ self.now) }
    {
        let node = Boxed::new(alloc, copy_node(alloc, self.node.get())?)?;
        Ok(TExpr {
            start: self.start,
            at: self.at,
            dot: self.dot,
            ty: self.ty,
            node,
        })
    }
}

#[cycle(copy_expr)]
fn copy_node(alloc: Global, node: &TNode) -> Result<TNode, OutOfMemory>
    ensures { IfOk result (λ copy. copy ≡ node.now) }
{
    match node {
        TNode::Number(n) => Ok(TNode::Number(*n)),
        TNode::Truth(b) => Ok(TNode::Truth(*b)),
        TNode::Null => Ok(TNode::Null),
        TNode::This => Ok(TNode::This),
        TNode::Result => Ok(TNode::Result),
        TNode::Local(local) => Ok(TNode::Local(*local)),
        TNode::Constant(field) => Ok(TNode::Constant(*field)),
        TNode::Field(form) => {
            let base = form.get().base.copy(alloc)?;
            let field = form.get().field;
            Ok(TNode::Field(Boxed::new(alloc, TField { base, field })?))
        }
        TNode::Length(e) => Ok(TNode::Length(e.copy(alloc)?)),
        TNode::Index(form) => Ok(TNode::Index(Boxed::new(alloc, copy_index(alloc, form.get())?)?)),
        TNode::Unary(form) => {
            let e = form.get().e.copy(alloc)?;
            let op = form.get().op;
            Ok(TNode::Unary(Boxed::new(alloc, TUnary { op, e })?))
        }
        TNode::Binary(form) => Ok(TNode::Binary(Boxed::new(
            alloc,
            copy_binary(alloc, form.get())?,
        )?)),
        TNode::Choose(form) => Ok(TNode::Choose(Boxed::new(
            alloc,
            copy_choose(alloc, form.get())?,
        )?)),
        TNode::Cast(e) => Ok(TNode::Cast(e.copy(alloc)?)),
        TNode::InstanceOf(form) => {
            let e = form.get().e.copy(alloc)?;
            let ty = form.get().ty;
            Ok(TNode::InstanceOf(Boxed::new(alloc, TInstance { e, ty })?))
        }
        TNode::Call(form) => Ok(TNode::Call(Boxed::new(alloc, copy_call(alloc, form.get())?)?)),
        TNode::New(form) => {
            let args = copy_exprs(alloc, &form.get().args)?;
            let method = form.get().method;
            Ok(TNode::New(Boxed::new(alloc, TNew { method, args })?))
        }
        TNode::NewArray(e) => Ok(TNode::NewArray(e.copy(alloc)?)),
        TNode::Old(e) => Ok(TNode::Old(e.copy(alloc)?)),
        TNode::Fresh(e) => Ok(TNode::Fresh(e.copy(alloc)?)),
        TNode::Quant(form) => Ok(TNode::Quant(Boxed::new(alloc, copy_quant(alloc, form.get())?)?)),
    }
}

#[cycle(copy_expr)]
fn copy_index(alloc: Global, form: &TIndex) -> Result<TIndex, OutOfMemory>
    ensures { IfOk result (λ copy. copy ≡ form.now) }
{
    let base = form.base.copy(alloc)?;
    let index = form.index.copy(alloc)?;
    Ok(TIndex { base, index })
}

#[cycle(copy_expr)]
fn copy_binary(alloc: Global, form: &TBinary) -> Result<TBinary, OutOfMemory>
    ensures { IfOk result (λ copy. copy ≡ form.now) }
{
    let left = form.left.copy(alloc)?;
    let right = form.right.copy(alloc)?;
    Ok(TBinary {
        op: form.op,
        left,
        right,
    })
}

#[cycle(copy_expr)]
fn copy_choose(alloc: Global, form: &TChoose) -> Result<TChoose, OutOfMemory>
    ensures { IfOk result (λ copy. copy ≡ form.now) }
{
    let test = form.test.copy(alloc)?;
    let yes = form.yes.copy(alloc)?;
    let no = form.no.copy(alloc)?;
    Ok(TChoose { test, yes, no })
}

#[cycle(copy_expr)]
fn copy_call(alloc: Global, form: &TCall) -> Result<TCall, OutOfMemory>
    ensures { IfOk result (λ copy. copy ≡ form.now) }
{
    let how = match &form.how {
        CallHow::On(base) => CallHow::On(base.copy(alloc)?),
        CallHow::Super => CallHow::Super,
        CallHow::Static => CallHow::Static,
    };
    let args = copy_exprs(alloc, &form.args)?;
    Ok(TCall {
        how,
        class: form.class,
        method: form.method,
        args,
    })
}

#[cycle(copy_expr)]
fn copy_quant(alloc: Global, form: &TQuant) -> Result<TQuant, OutOfMemory>
    ensures { IfOk result (λ copy. copy ≡ form.now) }
{
    let low = form.low.copy(alloc)?;
    let high = form.high.copy(alloc)?;
    let body = form.body.copy(alloc)?;
    Ok(TQuant {
        universal: form.universal,
        variable: form.variable,
        low,
        low_strict: form.low_strict,
        high,
        high_strict: form.high_strict,
        body,
    })
}

/// Equal expressions, in order.
#[cycle(copy_expr)]
pub(super) fn copy_exprs(alloc: Global, list: &List<TExpr>) -> Result<List<TExpr>, OutOfMemory>
    ensures { IfOk result (λ copy. copy ≡ list.now) }
{
    let mut copies = List::new(alloc);
    for e in list.as_slice() {
        copies.push(e.copy(alloc)?)?;
    }
    Ok(copies)
}

/// An equal expression, where there is one.
pub(super) fn copy_optional(alloc: Global, e: &Option<TExpr>) -> Result<Option<TExpr>, OutOfMemory>
    ensures { IfOk result (λ copy. copy ≡ e.now) }
{
    match e {
        None => Ok(None),
        Some(e) => Ok(Some(e.copy(alloc)?)),
    }
}
