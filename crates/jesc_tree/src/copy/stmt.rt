ghost use Rattle.std.specs.Prelude.{◌≡◌, IfOk};

use super::expr::{copy_exprs, copy_optional};
use super::spec::copy_specs;
use crate::stmt::{
    TAssignment, TBlock, TCatch, TFor, TGhost, TIf, TLocal, TSet, TStmt, TStmtNode, TSuper, TTry,
    TWhile,
};
use jesc_text::{Boxed, List, OutOfMemory};
use std::alloc::Global;

impl TStmt {
    /// An equal statement.
    #[cycle(copy_stmt)]
    pub fn copy(&self, alloc: Global) -> Result<TStmt, OutOfMemory>
        ensures { IfOk result (λ copy. copy ≡ self.now) }
    {
        let node = Boxed::new(alloc, copy_node(alloc, self.node.get())?)?;
        Ok(TStmt { at: self.at, node })
    }
}

#[cycle(copy_stmt)]
fn copy_node(alloc: Global, node: &TStmtNode) -> Result<TStmtNode, OutOfMemory>
    ensures { IfOk result (λ copy. copy ≡ node.now) }
{
    match node {
        TStmtNode::Block(form) => {
            let list = copy_stmts(alloc, &form.get().list)?;
            let close = form.get().close;
            Ok(TStmtNode::Block(Boxed::new(alloc, TBlock { list, close })?))
        }
        TStmtNode::Local(form) => Ok(TStmtNode::Local(Boxed::new(
            alloc,
            copy_local(alloc, form.get())?,
        )?)),
        TStmtNode::Ghost(form) => Ok(TStmtNode::Ghost(Boxed::new(
            alloc,
            copy_ghost(alloc, form.get())?,
        )?)),
        TStmtNode::Assign(form) => Ok(TStmtNode::Assign(Boxed::new(
            alloc,
            copy_assignment(alloc, form.get())?,
        )?)),
        TStmtNode::Call(e) => Ok(TStmtNode::Call(e.copy(alloc)?)),
        TStmtNode::If(form) => Ok(TStmtNode::If(Boxed::new(alloc, copy_if(alloc, form.get())?)?)),
        TStmtNode::While(form) => Ok(TStmtNode::While(Boxed::new(
            alloc,
            copy_while(alloc, form.get())?,
        )?)),
        TStmtNode::For(form) => Ok(TStmtNode::For(Boxed::new(
            alloc,
            copy_for(alloc, form.get())?,
        )?)),
        TStmtNode::Return(e) => Ok(TStmtNode::Return(copy_optional(alloc, e)?)),
        TStmtNode::Throw(e) => Ok(TStmtNode::Throw(e.copy(alloc)?)),
        TStmtNode::Try(form) => Ok(TStmtNode::Try(Boxed::new(
            alloc,
            copy_try(alloc, form.get())?,
        )?)),
        TStmtNode::Break => Ok(TStmtNode::Break),
        TStmtNode::Continue => Ok(TStmtNode::Continue),
        TStmtNode::Empty => Ok(TStmtNode::Empty),
        TStmtNode::Assert(e) => Ok(TStmtNode::Assert(e.copy(alloc)?)),
        TStmtNode::Set(form) => Ok(TStmtNode::Set(Boxed::new(
            alloc,
            copy_set(alloc, form.get())?,
        )?)),
        TStmtNode::Super(form) => {
            let args = copy_exprs(alloc, &form.get().args)?;
            let method = form.get().method;
            Ok(TStmtNode::Super(Boxed::new(alloc, TSuper { method, args })?))
        }
    }
}

fn copy_local(alloc: Global, form: &TLocal) -> Result<TLocal, OutOfMemory>
    ensures { IfOk result (λ copy. copy ≡ form.now) }
{
    let value = form.value.copy(alloc)?;
    Ok(TLocal {
        local: form.local,
        ty: form.ty,
        value,
    })
}

fn copy_ghost(alloc: Global, form: &TGhost) -> Result<TGhost, OutOfMemory>
    ensures { IfOk result (λ copy. copy ≡ form.now) }
{
    let value = form.value.copy(alloc)?;
    Ok(TGhost {
        local: form.local,
        ty: form.ty,
        word: form.word,
        value,
    })
}

fn copy_assignment(alloc: Global, form: &TAssignment) -> Result<TAssignment, OutOfMemory>
    ensures { IfOk result (λ copy. copy ≡ form.now) }
{
    let target = form.target.copy(alloc)?;
    let value = copy_optional(alloc, &form.value)?;
    Ok(TAssignment {
        target,
        op: form.op,
        value,
    })
}

fn copy_set(alloc: Global, form: &TSet) -> Result<TSet, OutOfMemory>
    ensures { IfOk result (λ copy. copy ≡ form.now) }
{
    let target = form.target.copy(alloc)?;
    let value = form.value.copy(alloc)?;
    Ok(TSet {
        word: form.word,
        target,
        value,
    })
}

#[cycle(copy_stmt)]
fn copy_if(alloc: Global, form: &TIf) -> Result<TIf, OutOfMemory>
    ensures { IfOk result (λ copy. copy ≡ form.now) }
{
    let test = form.test.copy(alloc)?;
    let then = form.then.copy(alloc)?;
    let other = match &form.other {
        None => None,
        Some(other) => Some(other.copy(alloc)?),
    };
    Ok(TIf { test, then, other })
}

#[cycle(copy_stmt)]
fn copy_while(alloc: Global, form: &TWhile) -> Result<TWhile, OutOfMemory>
    ensures { IfOk result (λ copy. copy ≡ form.now) }
{
    let invariants = copy_specs(alloc, &form.invariants)?;
    let prelude = copy_stmts(alloc, &form.prelude)?;
    let test = form.test.copy(alloc)?;
    let body = form.body.copy(alloc)?;
    Ok(TWhile {
        invariants,
        prelude,
        test,
        body,
    })
}

#[cycle(copy_stmt)]
fn copy_for(alloc: Global, form: &TFor) -> Result<TFor, OutOfMemory>
    ensures { IfOk result (λ copy. copy ≡ form.now) }
{
    let invariants = copy_specs(alloc, &form.invariants)?;
    let first = copy_stmts(alloc, &form.first)?;
    let prelude = copy_stmts(alloc, &form.prelude)?;
    let test = copy_optional(alloc, &form.test)?;
    let last = copy_stmts(alloc, &form.last)?;
    let body = form.body.copy(alloc)?;
    Ok(TFor {
        invariants,
        first,
        prelude,
        test,
        last,
        body,
    })
}

#[cycle(copy_stmt)]
fn copy_try(alloc: Global, form: &TTry) -> Result<TTry, OutOfMemory>
    ensures { IfOk result (λ copy. copy ≡ form.now) }
{
    let body = form.body.copy(alloc)?;
    let mut catches = List::new(alloc);
    for catch in form.catches.as_slice() {
        catches.push(copy_catch(alloc, catch)?)?;
    }
    Ok(TTry { body, catches })
}

#[cycle(copy_stmt)]
fn copy_catch(alloc: Global, form: &TCatch) -> Result<TCatch, OutOfMemory>
    ensures { IfOk result (λ copy. copy ≡ form.now) }
{
    let body = form.body.copy(alloc)?;
    Ok(TCatch {
        class: form.class,
        local: form.local,
        body,
    })
}

/// Equal statements, in order.
#[cycle(copy_stmt)]
pub(super) fn copy_stmts(alloc: Global, list: &List<TStmt>) -> Result<List<TStmt>, OutOfMemory>
    ensures { IfOk result (λ copy. copy ≡ list.now) }
{
    let mut copies = List::new(alloc);
    for stmt in list.as_slice() {
        copies.push(stmt.copy(alloc)?)?;
    }
    Ok(copies)
}
