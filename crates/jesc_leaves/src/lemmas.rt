//! Certificates of many lemmas, with a small tree of splits.

use crate::parts::Made;
use jesc_cert::CertKind;
use jesc_text::OutOfMemory;
use std::alloc::Global;

/// As many lemmas of congruence, over the clauses' atoms.
pub fn congruence(alloc: Global, lemmas: u32, atoms: u32) -> Result<Made, OutOfMemory> {
    let pairs = (atoms / 3).max(1);
    let mut made = Made::new(alloc);
    for pair in 0..pairs {
        add_terms(alloc, &mut made, pair)?;
        add_atoms(alloc, &mut made, pair)?;
    }
    add_congruences(alloc, &mut made, lemmas, pairs)?;
    close(alloc, &mut made)?;
    Ok(made)
}

/// As many lemmas of congruence, where all atoms but those of the first pair are further ones.
pub fn further(alloc: Global, lemmas: u32, atoms: u32) -> Result<Made, OutOfMemory> {
    let pairs = (atoms / 3).max(1);
    let mut made = Made::new(alloc);
    add_terms(alloc, &mut made, 0)?;
    add_atoms(alloc, &mut made, 0)?;
    for pair in 1..pairs {
        add_terms(alloc, &mut made, pair)?;
        add_lines(alloc, &mut made, pair)?;
    }
    add_congruences(alloc, &mut made, lemmas, pairs)?;
    close(alloc, &mut made)?;
    Ok(made)
}

/// As many lemmas of arithmetic, each of one step.
pub fn steps(alloc: Global, lemmas: u32, atoms: u32) -> Result<Made, OutOfMemory> {
    let atoms = atoms.max(1);
    let mut made = Made::new(alloc);
    made.add_signs(alloc, atoms)?;
    made.add_clause(alloc, &[1])?;
    made.add_clause(alloc, &[-1])?;
    for lemma in 0..lemmas {
        let atom = (lemma % atoms) as i128 + 1;
        made.add_line(alloc, CertKind::R, &[2, atom, -atom, 1])?;
        made.add_line(alloc, CertKind::Q, &[1, 0, 1, 1, 1, -1, 0])?;
    }
    made.add_line(alloc, CertKind::S, &[1])?;
    made.add_line(alloc, CertKind::C, &[1])?;
    made.add_line(alloc, CertKind::C, &[0])?;
    Ok(made)
}

/// Adds the terms of a pair: two constants, and the same symbol over each.
fn add_terms(alloc: Global, made: &mut Made, pair: u32) -> Result<(), OutOfMemory> {
    let first = pair.saturating_mul(4);
    let second = first.saturating_add(1);
    made.add_constant(alloc, first)?;
    made.add_constant(alloc, second)?;
    made.add_application(alloc, 0, first)?;
    made.add_application(alloc, 0, second)
}

/// Adds the atoms of a pair.
fn add_atoms(alloc: Global, made: &mut Made, pair: u32) -> Result<(), OutOfMemory> {
    let comparisons = comparisons(pair);
    for (form, bound) in &comparisons {
        made.add_atom(alloc, form.as_slice(), *bound)?;
    }
    Ok(())
}

/// Adds the atoms of a pair as lines.
fn add_lines(alloc: Global, made: &mut Made, pair: u32) -> Result<(), OutOfMemory> {
    for ([(_, first), (_, second)], bound) in comparisons(pair) {
        let numbers = [bound, 2, 1, first as i128, -1, second as i128];
        made.add_line(alloc, CertKind::T, &numbers)?;
    }
    Ok(())
}

/// The atoms of a pair: that the first constant is at most the second, that it is less, and that the symbol over the first
/// is at most the symbol over the second.
fn comparisons(pair: u32) -> [([(i64, u32); 2], i128); 3] {
    let first = pair.saturating_mul(4);
    let constants = [(1, first), (-1, first.saturating_add(1))];
    let applications = [(1, first.saturating_add(2)), (-1, first.saturating_add(3))];
    [(constants, 0), (constants, -1), (applications, 0)]
}

/// Adds as many lemmas of congruence, of one pair after the other.
fn add_congruences(
    alloc: Global,
    made: &mut Made,
    lemmas: u32,
    pairs: u32,
) -> Result<(), OutOfMemory> {
    for lemma in 0..lemmas {
        let first = (lemma % pairs.max(1)).saturating_mul(4);
        let numbers = [first as i128 + 2, first as i128 + 3];
        made.add_line(alloc, CertKind::G, &numbers)?;
    }
    Ok(())
}

/// Adds the clauses that the first pair's constants are equal and that the symbol over the first isn't at most the symbol over
/// the second, and the tree that the first lemma closes.
fn close(alloc: Global, made: &mut Made) -> Result<(), OutOfMemory> {
    made.add_clause(alloc, &[1])?;
    made.add_clause(alloc, &[-2])?;
    made.add_clause(alloc, &[-3])?;
    let lines = [
        (CertKind::S, 1),
        (CertKind::S, 2),
        (CertKind::C, 1),
        (CertKind::S, 3),
        (CertKind::C, 2),
        (CertKind::M, 0),
        (CertKind::C, 0),
    ];
    for (kind, number) in lines {
        made.add_line(alloc, kind, &[number])?;
    }
    Ok(())
}
