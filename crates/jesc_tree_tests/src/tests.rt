//! Copies of trees whose parts can be told apart.

use jesc_text::{Boxed, List, OutOfMemory, Place};
use jesc_tree::{
    BinOp, ClassId, Elem, FieldId, LocalId, TBinary, TExpr, TField, TFrame, TNode, TStore,
    TStoreNode, Ty,
};
use std::alloc::Global;
use std::test::Fail;

fn place(col: u32) -> Place {
    Place {
        file: 0,
        line: 1,
        col,
    }
}

fn tree(alloc: Global, col: u32, ty: Ty, node: TNode) -> Result<TExpr, OutOfMemory> {
    Ok(TExpr {
        start: place(1),
        at: place(col),
        dot: place(col),
        ty,
        node: Boxed::new(alloc, node)?,
    })
}

/// `this.f - x`.
fn difference(alloc: Global) -> Result<TExpr, OutOfMemory> {
    let this = tree(alloc, 1, Ty::Ref(ClassId(7)), TNode::This)?;
    let form = TField {
        base: this,
        field: FieldId(2),
    };
    let left = tree(alloc, 5, Ty::Int, TNode::Field(Boxed::new(alloc, form)?))?;
    let right = tree(alloc, 10, Ty::Int, TNode::Local(LocalId(3)))?;
    let form = TBinary {
        op: BinOp::Sub,
        left,
        right,
    };
    tree(alloc, 8, Ty::Int, TNode::Binary(Boxed::new(alloc, form)?))
}

/// The field and the local of such a difference.
fn parts(e: &TExpr) -> Option<(FieldId, LocalId)> {
    match e.node.get() {
        TNode::Binary(form) => match (form.get().left.node.get(), form.get().right.node.get()) {
            (TNode::Field(left), TNode::Local(right)) => Some((left.get().field, *right)),
            _ => None,
        },
        _ => None,
    }
}

#[test]
fn a_copied_expression_has_its_parts(rt: HostRuntime) -> Result<(), Fail> {
    let alloc = rt.alloc();
    let e = difference(alloc)?;
    let copied = e.copy(alloc)?;
    assert_eq!(rt; parts(&copied), Some((FieldId(2), LocalId(3))));
    assert_eq!(rt; copied.at, place(8));
    Ok(())
}

#[test]
fn a_copied_frame_has_its_stores(rt: HostRuntime) -> Result<(), Fail> {
    let alloc = rt.alloc();
    let array = tree(alloc, 1, Ty::Array(Elem::Int), TNode::Local(LocalId(0)))?;
    let node = Boxed::new(alloc, TStoreNode::AllElems(array))?;
    let mut stores = List::new(alloc);
    stores.push(TStore { node })?;
    let frame = TFrame {
        by: place(4),
        all: false,
        stores,
    };
    let copied = frame.copy(alloc)?;
    assert_eq!(rt; copied.stores.len(), 1);
    assert_eq!(rt; copied.by, place(4));
    Ok(())
}
