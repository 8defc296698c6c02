//! The lines of a certificate, one after the other.

ghost use Rattle.std.specs.Prelude.{◌≡◌, ◌↔◌, true, [], ◌∷◌, length, IfOk, MatchOption};
ghost use Rattle.jesc_cert.specs.declared.cert.CertKind.TheVariants.{C, M};
ghost use Rattle.jesc_accept.specs.Branches.{root};
ghost use Rattle.jesc_accept.specs.States.{TakesLeaf, atoms_of, branches_of, line_of};
ghost use Rattle.jesc_accept.specs.Standings.{EndsFront, IsOfTree, Stands};
ghost use Rattle.jesc_accept.specs.Verdicts.{HaveNone, IsAccepted, IsFirstBad, Judges};
ghost use Rattle.jesc_accept.specs.declared.verdict.Accept.TheVariants.{Yes};

use crate::tables::Tables;
use crate::tree::Tree;
use crate::verdict::Accept;
use jesc_cert::{Cert, CertKind, CertLine};
use jesc_clauses::Clauses;
use jesc_text::OutOfMemory;
use std::alloc::Global;

/// Where the lines of atoms and lemmas in front end.
#[derive(Drop, Clone, Copy)]
enum Front {
    /// They fit, and the line at this place is none of them, or there is no further line.
    Ends { at: usize },
    /// This line is none that fits.
    Bad { at: usize },
}

/// Whether the line is one of the tree, by its kind.
fn is_of_tree(kind: CertKind) -> bool
    ensures { (result ≡ true) ↔ IsOfTree kind }
{
    match kind {
        CertKind::S | CertKind::C | CertKind::M => true,
        CertKind::T | CertKind::G | CertKind::R | CertKind::Q => false,
    }
}

/// Takes the lines of atoms and lemmas in front, and tells where they end.
fn take_front(alloc: Global, tables: &mut Tables, lines: &[CertLine]) -> Result<Front, OutOfMemory>
    ensures { IfOk result (λ front. EndsFront tables.old lines.now tables.new front) }
{
    for n in 0..lines.len() {
        if is_of_tree(lines[n].kind) {
            return Ok(Front::Ends { at: n });
        }
        if !tables.take(alloc, &lines[n])? {
            return Ok(Front::Bad { at: n });
        }
    }
    Ok(Front::Ends { at: lines.len() })
}

/// Closes the first branch by the clause of the number, from 0, if its literals are false there. Takes no memory.
fn close_by_clause(tables: &Tables, tree: &mut Tree, number: i128) -> bool
    ensures { TakesLeaf tables.now tree.old (line_of C (number ∷ [])) tree.new result }
{
    let clauses = tables.clauses.clauses.as_slice();
    if number < 0 || number >= clauses.len() as i128 {
        return false;
    }
    if !tree.are_all_false(clauses[number as usize].as_slice()) {
        return false;
    }
    tree.close();
    true
}

/// Closes the first branch by the lemma of the number, from 0, if its literals are false there. Takes no memory.
fn close_by_lemma(tables: &Tables, tree: &mut Tree, number: i128) -> bool
    ensures { TakesLeaf tables.now tree.old (line_of M (number ∷ [])) tree.new result }
{
    let lemmas = tables.lemmas.as_slice();
    if number < 0 || number >= lemmas.len() as i128 {
        return false;
    }
    let Some(literals) = &lemmas[number as usize] else {
        return false;
    };
    if !tree.are_false(literals.as_slice()) {
        return false;
    }
    tree.close();
    true
}

/// Takes the line of a split or of a leaf, if it fits, and tells whether it does.
fn take_leaf(tables: &Tables, tree: &mut Tree, line: &CertLine) -> Result<bool, OutOfMemory>
    ensures { IfOk result (TakesLeaf tables.now tree.old line.now tree.new) }
{
    let numbers = line.numbers.as_slice();
    if numbers.len() != 1 {
        return Ok(false);
    }
    match line.kind {
        CertKind::S => tree.split(numbers[0]),
        CertKind::C => Ok(close_by_clause(tables, tree, numbers[0])),
        CertKind::M => Ok(close_by_lemma(tables, tree, numbers[0])),
        CertKind::T | CertKind::G | CertKind::R | CertKind::Q => Ok(false),
    }
}

/// The first line from this one on that isn't one of the tree that fits, or the number of lines where the tree isn't closed.
fn go_over(
    tables: &Tables,
    mut tree: Tree,
    lines: &[CertLine],
    first: usize,
) -> Result<Option<usize>, OutOfMemory>
    requires { Stands lines.now first tables.now tree }
    ensures { IfOk result (λ answer. MatchOption answer (IsAccepted tables.now.clauses.now lines.now) (IsFirstBad tables.now.clauses.now lines.now)) }
{
    for n in first..lines.len() {
        if !take_leaf(tables, &mut tree, &lines[n])? {
            return Ok(Some(n));
        }
    }
    if tree.is_closed() {
        Ok(None)
    } else {
        Ok(Some(lines.len()))
    }
}

/// The tree that is the root alone, over these atoms.
fn root_of(alloc: Global, tables: &Tables) -> Result<Tree, OutOfMemory>
    ensures { IfOk result (λ tree. branches_of tree ≡ root (length (atoms_of tables.now)) ∷ []) }
{
    Tree::new(alloc, tables.atoms.len())
}

/// The first line that doesn't fit, or the number of lines where the tree isn't closed.
fn first_bad(
    alloc: Global,
    clauses: &Clauses,
    lines: &[CertLine],
) -> Result<Option<usize>, OutOfMemory>
    ensures { IfOk result (λ answer. MatchOption answer (IsAccepted clauses.now lines.now) (IsFirstBad clauses.now lines.now)) }
{
    let mut tables = Tables::new(alloc, clauses)?;
    match take_front(alloc, &mut tables, lines)? {
        Front::Bad { at } => Ok(Some(at)),
        Front::Ends { at } => {
            if tables.due > 0 {
                return Ok(Some(at));
            }
            let tree = root_of(alloc, &tables)?;
            go_over(&tables, tree, lines, at)
        }
    }
}

/// Whether the certificate shows that the clauses have no countermodel: each line fits, and the tree is closed. Else tells the
/// first line that doesn't fit, or the number of lines where the tree isn't closed.
///
/// Answers `OutOfMemory` where there is no room for the atoms and lemmas, or where the number of a line is no `u32`.
pub fn accept(alloc: Global, clauses: &Clauses, cert: &Cert) -> Result<Accept, OutOfMemory>
    ensures judged { IfOk result (Judges clauses.now cert.now.lines) }
    ensures sound { IfOk result (λ answer. answer ≡ Yes → HaveNone clauses.now) }
{
    match first_bad(alloc, clauses, cert.lines.as_slice())? {
        None => Ok(Accept::Yes),
        Some(n) => {
            if n > u32::MAX as usize {
                return Err(OutOfMemory);
            }
            Ok(Accept::No { step: n as u32 })
        }
    }
}
