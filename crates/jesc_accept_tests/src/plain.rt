//! A plain reading of certificates: each line by its rule, with every open branch written out.

use crate::sums::{MOST_COEFFICIENT, Sum, TERMS, sum_of};
use jesc_accept::Accept;
use jesc_cert::{CertKind, CertLine};
use jesc_clauses::{Clause, Clauses, Lin, Opaque};
use std::alloc::Global;
use std::mem;

/// What a comparison says: a constant, or the literal of an atom in the table.
#[derive(Drop, Clone, Copy)]
enum Said {
    Constant(bool),
    Literal(i128),
}

/// What the lines so far have made.
#[derive(Drop)]
struct Reading<'a> {
    alloc: Global,
    terms: &'a [Opaque],
    clauses: Vec<Vec<Said>>,
    atoms: Vec<Sum>,
    lemmas: Vec<Vec<Said>>,
    /// Of the open lemma of arithmetic, the rows, the negations of its literals, and how many steps are due.
    rows: Vec<Sum>,
    negations: Vec<Said>,
    due: i128,
    /// Whether the tree has begun, and the literals that are true on each open branch, the next branch last.
    in_tree: bool,
    branches: Vec<Vec<i128>>,
}

/// Puts an item behind the others, as far as memory goes.
fn put<T: Drop>(items: &mut Vec<T>, item: T) {
    let _done = items.push(item).is_ok();
}

/// The item of the number, from 0.
fn item<T>(items: &[T], number: i128) -> Option<&T> {
    if 0 <= number && number < items.len() as i128 {
        Some(&items[number as usize])
    } else {
        None
    }
}

fn negation(said: Said) -> Said {
    match said {
        Said::Constant(truth) => Said::Constant(!truth),
        Said::Literal(literal) => Said::Literal(literal.wrapping_neg()),
    }
}

/// The literals of a clause.
fn literals_of(alloc: Global, clause: &Clause) -> Vec<Said> {
    let mut literals = Vec::new(alloc);
    for literal in clause.as_slice() {
        put(&mut literals, Said::Literal(*literal as i128));
    }
    literals
}

/// The sum of an argument.
fn argument(lin: &Lin) -> Sum {
    sum_of(lin.form.as_slice(), lin.constant)
}

/// The sum of one term.
fn single(number: i128) -> Sum {
    let mut sum = sum_of(&[], 0);
    sum.put(1, number);
    sum
}

/// Whether these are coefficients other than 0, each with its term, where terms that are there rise.
fn are_parts(terms: usize, parts: &[i128]) -> bool {
    let mut least = 0i128;
    for at in 0..parts.len() / 2 {
        let (coefficient, term) = (parts[2 * at], parts[2 * at + 1]);
        if coefficient == 0 || term < least || term >= terms.min(TERMS) as i128 {
            return false;
        }
        least = term + 1;
    }
    parts.len() % 2 == 0
}

/// The sum of a bound, a count of parts and the parts, where no number passes its limit.
fn read_sum(terms: usize, numbers: &[i128]) -> Option<Sum> {
    let [bound, count, parts @ ..] = numbers else {
        return None;
    };
    if !are_parts(terms, parts) || *count != (parts.len() / 2) as i128 {
        return None;
    }
    let mut sum = sum_of(&[], *bound);
    for at in 0..parts.len() / 2 {
        sum.put(parts[2 * at], parts[2 * at + 1]);
    }
    if sum.is_narrow() { Some(sum) } else { None }
}

/// Whether the list of this number is there, and all that it says is false where these literals are true.
fn is_leaf(lists: &[Vec<Said>], number: i128, branch: &[i128]) -> bool {
    let Some(list) = item(lists, number) else {
        return false;
    };
    for said in list {
        let is_false = match negation(*said) {
            Said::Constant(truth) => truth,
            Said::Literal(literal) => branch.contains(&literal),
        };
        if !is_false {
            return false;
        }
    }
    true
}

/// Literals and one more.
fn with(alloc: Global, branch: &[i128], literal: i128) -> Vec<i128> {
    let mut more = Vec::new(alloc);
    for one in branch {
        put(&mut more, *one);
    }
    put(&mut more, literal);
    more
}

impl<'a> Reading<'a> {
    fn new(alloc: Global, given: &'a Clauses) -> Reading<'a> {
        let mut clauses = Vec::new(alloc);
        for clause in given.clauses.as_slice() {
            put(&mut clauses, literals_of(alloc, clause));
        }
        let mut atoms = Vec::new(alloc);
        for atom in given.atoms.as_slice() {
            put(&mut atoms, sum_of(atom.form.as_slice(), atom.bound));
        }
        let mut branches = Vec::new(alloc);
        put(&mut branches, Vec::new(alloc));
        Reading {
            alloc,
            terms: given.terms.as_slice(),
            clauses,
            atoms,
            lemmas: Vec::new(alloc),
            rows: Vec::new(alloc),
            negations: Vec::new(alloc),
            due: 0,
            in_tree: false,
            branches,
        }
    }

    /// Goes over a line, and tells whether it follows its rule.
    fn follows(&mut self, line: &CertLine) -> bool {
        let numbers = line.numbers.as_slice();
        if self.due > 0 {
            return line.kind == CertKind::Q && self.step(numbers);
        }
        match line.kind {
            CertKind::T => !self.in_tree && self.atom(numbers),
            CertKind::G => !self.in_tree && self.congruence(numbers).is_some(),
            CertKind::R => !self.in_tree && self.linear(numbers).is_some(),
            CertKind::Q => false,
            CertKind::S | CertKind::C | CertKind::M => self.tree_line(line.kind, numbers),
        }
    }

    /// A further atom, in normal form.
    fn atom(&mut self, numbers: &[i128]) -> bool {
        match read_sum(self.terms.len(), numbers) {
            Some(sum) => {
                put(&mut self.atoms, sum);
                sum.is_normal()
            }
            None => false,
        }
    }

    /// What 'the first is at most the second' says, by the first atom that is its normal form.
    fn at_most(&self, x: Sum, y: Sum) -> Option<Said> {
        let mut row = x.with(1, -1, y);
        row.number = row.number.wrapping_neg();
        if row.first() == 0 {
            return Some(Said::Constant(0 <= row.number));
        }
        let mut number = 0i128;
        for atom in &self.atoms {
            number = number.wrapping_add(1);
            if row.has_normal_form(*atom) {
                return Some(Said::Literal(number));
            }
            if row.negated().has_normal_form(*atom) {
                return Some(Said::Literal(number.wrapping_neg()));
            }
        }
        None
    }

    /// Of two applications of one symbol, an argument differs, or the first is at most the second.
    fn congruence(&mut self, numbers: &[i128]) -> Option<()> {
        let [i, j] = numbers else {
            return None;
        };
        let (first, second) = (item(self.terms, *i)?, item(self.terms, *j)?);
        let (xs, ys) = (first.args.as_slice(), second.args.as_slice());
        if first.symbol != second.symbol || xs.len() != ys.len() {
            return None;
        }
        let mut lemma = Vec::new(self.alloc);
        for at in 0..xs.len() {
            let (x, y) = (argument(&xs[at]), argument(&ys[at]));
            put(&mut lemma, negation(self.at_most(x, y)?));
            put(&mut lemma, negation(self.at_most(y, x)?));
        }
        put(&mut lemma, self.at_most(single(*i), single(*j))?);
        put(&mut self.lemmas, lemma);
        Some(())
    }

    /// The row of a literal.
    fn row_of(&self, literal: i128) -> Option<Sum> {
        let number = literal.wrapping_abs().wrapping_sub(1);
        let atom = *item(&self.atoms, number)?;
        Some(if literal > 0 { atom } else { atom.negated() })
    }

    /// Not all of the literals hold, which steps are to show.
    fn linear(&mut self, numbers: &[i128]) -> Option<()> {
        let [count, literals @ .., due] = numbers else {
            return None;
        };
        if *due < 1 || *count != literals.len() as i128 {
            return None;
        }
        self.rows = Vec::new(self.alloc);
        self.negations = Vec::new(self.alloc);
        for literal in literals {
            let row = self.row_of(*literal)?;
            put(&mut self.rows, row);
            put(&mut self.negations, negation(Said::Literal(*literal)));
        }
        self.due = *due;
        Some(())
    }

    /// The row of a step: a times one row and b times another, over d.
    fn step_row(&self, numbers: &[i128]) -> Option<Sum> {
        let [a, i, b, j, d, sum @ ..] = numbers else {
            return None;
        };
        let (first, second) = (*item(&self.rows, *i)?, *item(&self.rows, *j)?);
        let row = read_sum(self.terms.len(), sum)?;
        let most = MOST_COEFFICIENT as i128;
        let in_range = 1 <= *a && *a <= most && 0 <= *b && *b <= most && 1 <= *d && *d <= 1 << 63;
        let is_right = first.with(*a, *b, second).comes_to(*d, row);
        if in_range && is_right && first.is_narrow() && second.is_narrow() {
            Some(row)
        } else {
            None
        }
    }

    /// A step of the open lemma, the last of which says that 0 is at most a negative number.
    fn step(&mut self, numbers: &[i128]) -> bool {
        let Some(row) = self.step_row(numbers) else {
            return false;
        };
        self.due = self.due.wrapping_sub(1);
        if self.due > 0 {
            put(&mut self.rows, row);
            return true;
        }
        let lemma = mem::replace(&mut self.negations, Vec::new(self.alloc));
        put(&mut self.lemmas, lemma);
        row.first() == 0 && row.number < 0
    }

    /// A split, or a leaf by a clause or a lemma.
    fn tree_line(&mut self, kind: CertKind, numbers: &[i128]) -> bool {
        self.in_tree = true;
        let ([number], Some(branch)) = (numbers, self.branches.pop()) else {
            return false;
        };
        match kind {
            CertKind::S => self.split(&branch, *number),
            CertKind::C => is_leaf(&self.clauses, *number, &branch),
            _ => is_leaf(&self.lemmas, *number, &branch),
        }
    }

    /// The tree where the atom is true follows, then the one where it is false.
    fn split(&mut self, branch: &[i128], atom: i128) -> bool {
        let is_there = 1 <= atom && atom <= self.atoms.len() as i128;
        let negation = atom.wrapping_neg();
        put(&mut self.branches, with(self.alloc, branch, negation));
        put(&mut self.branches, with(self.alloc, branch, atom));
        is_there && !branch.contains(&atom) && !branch.contains(&negation)
    }
}

/// What the rules say of a certificate.
pub fn judge(alloc: Global, clauses: &Clauses, lines: &[CertLine]) -> Accept {
    let mut reading = Reading::new(alloc, clauses);
    let mut step = 0u32;
    for line in lines {
        if !reading.follows(line) {
            return Accept::No { step };
        }
        step = step.saturating_add(1);
    }
    if reading.due == 0 && reading.branches.is_empty() {
        Accept::Yes
    } else {
        Accept::No { step }
    }
}
