//! The printed numbers and places, and a small tree over `List` and `Boxed` with an equal copy.

ghost use Rattle.std.specs.Prelude.{◌≡◌, IfOk, OnOk, ◌++◌};

use crate::{Boxed, List, OutOfMemory, Text, place_of, put_number, read_number};
use std::alloc::Global;
use std::test::Fail;

/// A tree that reaches itself through a box and through a list.
#[derive(Drop)]
enum Tree {
    Leaf(u32),
    Named { name: Text, inner: Boxed<Tree> },
    Row(List<Tree>),
}

fn copy_text(text: &Text, alloc: Global) -> Result<Text, OutOfMemory>
    ensures { IfOk result (λ copy. copy ≡ text.now) }
{
    let mut copy = Text::new(alloc);
    copy.append(text.as_slice())?;
    Ok(copy)
}

fn copy_tree(tree: &Tree, alloc: Global) -> Result<Tree, OutOfMemory>
    ensures { IfOk result (λ copy. copy ≡ tree.now) }
{
    match tree {
        Tree::Leaf(number) => Ok(Tree::Leaf(*number)),
        Tree::Named { name, inner } => {
            let name = copy_text(name, alloc)?;
            let inner = Boxed::new(alloc, copy_tree(inner.get(), alloc)?)?;
            Ok(Tree::Named { name, inner })
        }
        Tree::Row(row) => {
            let mut copies = List::new(alloc);
            for child in row.as_slice() {
                copies.push(copy_tree(child, alloc)?)?;
            }
            Ok(Tree::Row(copies))
        }
    }
}

/// The sum of a tree's leaves, as far as it fits.
fn leaves(tree: &Tree) -> u32 {
    match tree {
        Tree::Leaf(number) => *number,
        Tree::Named { name: _, inner } => leaves(inner.get()),
        Tree::Row(row) => {
            let mut sum = 0u32;
            for child in row.as_slice() {
                sum = sum.saturating_add(leaves(child));
            }
            sum
        }
    }
}

#[test]
fn a_copied_tree_keeps_its_leaves(rt: HostRuntime) -> Result<(), Fail> {
    let alloc = rt.alloc();
    let mut row = List::new(alloc);
    row.push(Tree::Leaf(3))?;
    row.push(Tree::Leaf(4))?;
    let mut name = Text::new(alloc);
    name.append(b"root")?;
    let inner = Boxed::new(alloc, Tree::Row(row))?;
    let tree = Tree::Named { name, inner };
    let copied = copy_tree(&tree, alloc)?;
    assert_eq!(rt; leaves(&copied), 7);
    Ok(())
}

#[test]
fn places_count_bytes_and_lines(rt: HostRuntime) -> Result<(), Fail> {
    let text = b"ab\n\ncd";
    let wanted = [
        (0, 1, 1),
        (2, 1, 3),
        (3, 2, 1),
        (4, 3, 1),
        (5, 3, 2),
        (6, 3, 3),
    ];
    for (offset, line, col) in wanted {
        if offset <= 6 {
            let place = place_of(text, 7, offset);
            assert_eq!(rt; (place.file, place.line, place.col), (7, line, col));
        }
    }
    Ok(())
}

#[test]
fn numbers_are_read_and_written(rt: HostRuntime) -> Result<(), Fail> {
    let read: [(&[u8], Option<i128>); 12] = [
        (b"", None),
        (b"0", Some(0)),
        (b"-0", None),
        (b"-", None),
        (b"00", None),
        (b"07", None),
        (b"-7", Some(-7)),
        (b"2147483648", Some(2147483648)),
        (b"12a", None),
        (b"85070591730234615865843651857942052864", Some(1 << 126)),
        (
            b"-85070591730234615865843651857942052864",
            Some(-(1 << 126)),
        ),
        (b"85070591730234615865843651857942052865", None),
    ];
    for (bytes, wanted) in read {
        assert_eq!(rt; read_number(bytes), wanted);
    }
    let written: [(i128, &[u8]); 4] = [
        (0, b"0"),
        (-1, b"-1"),
        (i128::MAX, b"170141183460469231731687303715884105727"),
        (i128::MIN, b"-170141183460469231731687303715884105728"),
    ];
    for (number, wanted) in written {
        let mut text = Text::new(rt.alloc());
        text.append(b"=")?;
        put_number(&mut text, number)?;
        assert_eq!(rt; &text.as_slice()[1..], wanted);
    }
    Ok(())
}

#[test]
fn a_list_grows_and_is_cut(rt: HostRuntime) -> Result<(), Fail> {
    let mut list = List::new(rt.alloc());
    for number in 0..5u32 {
        list.push(number)?;
    }
    assert_eq!(rt; list.len(), 5);
    list.cut(2);
    assert_eq!(rt; list.as_slice(), [0, 1].as_slice());
    Ok(())
}

#[test]
fn a_text_grows_and_is_cut(rt: HostRuntime) -> Result<(), Fail> {
    let mut text = Text::new(rt.alloc());
    text.append(b"sixteen bytes ar")?;
    text.push(b'e')?;
    assert_eq!(rt; text.len(), 17);
    text.cut(2);
    text.push(b'!')?;
    assert_eq!(rt; text.as_slice(), b"si!".as_slice());
    Ok(())
}
