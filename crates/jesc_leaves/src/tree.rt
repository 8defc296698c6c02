//! Certificates that are one large tree of splits.

use crate::parts::Made;
use jesc_cert::CertKind;
use jesc_text::{List, OutOfMemory};
use std::alloc::Global;

/// How a tree is split.
#[derive(Drop, Clone, Copy)]
struct Shape {
    /// How deep the splits into halves go.
    levels: u32,
    /// How many atoms are split on at one depth.
    spread: u32,
    /// Up to so many leaves, a split has one of them on its first side, and else half of them.
    limit: u32,
    atoms: u32,
}

/// A part of the tree that is still to be written.
#[derive(Drop, Clone, Copy)]
struct Part {
    leaves: u32,
    depth: u32,
    /// The number of the part among those of its depth.
    place: u32,
    /// What is false on its branch of the last three splits, or 0 where there are fewer.
    falses: [i32; 3],
}

/// A tree whose splits halve the leaves.
pub fn tree(alloc: Global, leaves: u32, atoms: u32) -> Result<Made, OutOfMemory> {
    let levels = levels_of(leaves);
    let shape = Shape {
        levels,
        spread: (atoms / levels.max(1)).max(1),
        limit: 1,
        atoms,
    };
    split_all(alloc, shape, leaves)
}

/// A tree of chains, each split of which has a leaf on its first side. They go through all atoms.
pub fn chain(alloc: Global, leaves: u32, atoms: u32) -> Result<Made, OutOfMemory> {
    let levels = levels_of(leaves);
    let shape = Shape {
        levels,
        spread: 1,
        limit: atoms.saturating_sub(levels),
        atoms,
    };
    split_all(alloc, shape, leaves)
}

/// How often so many leaves can be halved.
fn levels_of(leaves: u32) -> u32 {
    32 - leaves.leading_zeros()
}

/// The clauses and the certificate of a tree.
fn split_all(alloc: Global, shape: Shape, leaves: u32) -> Result<Made, OutOfMemory> {
    let mut made = Made::new(alloc);
    made.add_signs(alloc, shape.atoms)?;
    let mut parts = Vec::new(alloc);
    let root = Part {
        leaves,
        depth: 0,
        place: 0,
        falses: [0; 3],
    };
    push(&mut parts, root)?;
    for _ in 0..leaves.saturating_mul(2) {
        let Some(part) = parts.pop() else {
            return Ok(made);
        };
        write_part(alloc, &mut made, &mut parts, shape, part)?;
    }
    Ok(made)
}

/// Writes the line of a part: a leaf, or a split, which leaves two further parts.
fn write_part(
    alloc: Global,
    made: &mut Made,
    parts: &mut Vec<Part>,
    shape: Shape,
    part: Part,
) -> Result<(), OutOfMemory> {
    if part.leaves <= 1 {
        return write_leaf(alloc, made, part.falses);
    }
    let atom = atom_of(shape, part);
    made.add_line(alloc, CertKind::S, &[atom as i128])?;
    let first = first_leaves(shape, part);
    let second = part.leaves.saturating_sub(first);
    push(parts, side(part, second, 1, atom))?;
    push(parts, side(part, first, 0, atom.saturating_neg()))
}

/// Pushes a part.
fn push(parts: &mut Vec<Part>, part: Part) -> Result<(), OutOfMemory> {
    match parts.push(part) {
        Ok(_) => Ok(()),
        Err(_) => Err(OutOfMemory),
    }
}

/// The literal of the atom that a part is split on.
fn atom_of(shape: Shape, part: Part) -> i32 {
    let row = part.place % shape.spread.max(1);
    let number = row.saturating_mul(shape.levels).saturating_add(part.depth);
    number.min(shape.atoms).min(0x7fff_fffe) as i32 + 1
}

/// How many leaves are on the first side of a part.
fn first_leaves(shape: Shape, part: Part) -> u32 {
    if part.leaves <= shape.limit {
        1
    } else {
        part.leaves / 2
    }
}

/// A side of a part, on which a further literal is false.
fn side(part: Part, leaves: u32, place: u32, literal: i32) -> Part {
    let [_, older, old] = part.falses;
    Part {
        leaves,
        depth: part.depth.saturating_add(1),
        place: part.place.saturating_mul(2).saturating_add(place),
        falses: [older, old, literal],
    }
}

/// Writes a leaf, and the clause of what is false there.
fn write_leaf(alloc: Global, made: &mut Made, falses: [i32; 3]) -> Result<(), OutOfMemory> {
    let number = made.clauses.clauses.len();
    let mut literals = List::new(alloc);
    for literal in falses {
        if literal != 0 {
            literals.push(literal)?;
        }
    }
    made.add_clause(alloc, literals.as_slice())?;
    made.add_line(alloc, CertKind::C, &[number as i128])
}
