//! Whether a formula is true, by its words alone.

use crate::words::Word;
use std::alloc::Global;

/// What x, y and z are, and which function f is.
#[derive(Debug, Drop, Clone, Copy)]
pub struct Point {
    pub x: i128,
    pub y: i128,
    pub z: i128,
    pub f: u32,
}

/// How many points there are: each of x, y and z is -2 to 2, and f one of three functions.
pub const POINTS: u32 = 375;

/// The point of this number.
pub fn point_at(number: u32) -> Point {
    Point {
        x: (number % 5) as i128 - 2,
        y: (number / 5 % 5) as i128 - 2,
        z: (number / 25 % 5) as i128 - 2,
        f: number / 125,
    }
}

/// What the function gives: a square, a turned number, or what a table says.
pub fn function_at(f: u32, n: i128) -> i128 {
    match f {
        0 => n.wrapping_mul(n),
        1 => 1i128.wrapping_sub(n),
        _ => match n {
            -2 => 1,
            -1 => -2,
            0 => 5,
            1 => 1,
            2 => 0,
            _ => -1,
        },
    }
}

/// What the words behind come to, the first of them last.
#[derive(Drop)]
struct Found {
    numbers: Vec<i128>,
    truths: Vec<bool>,
}

impl Found {
    /// The last number, or 0 where there is none.
    fn number(&mut self) -> i128 {
        self.numbers.pop().unwrap_or(0)
    }

    fn truth(&mut self) -> bool {
        self.truths.pop().unwrap_or(false)
    }

    fn put_number(&mut self, n: i128) {
        let _done = self.numbers.push(n).is_ok();
    }

    fn put_truth(&mut self, truth: bool) {
        let _done = self.truths.push(truth).is_ok();
    }

    /// Goes over one word of a term.
    fn step_term(&mut self, word: Word, at: Point) {
        let n = match word {
            Word::Number(n) => n,
            Word::X => at.x,
            Word::Y => at.y,
            Word::Z => at.z,
            Word::Function => function_at(at.f, self.number()),
            Word::Sum => self.number().wrapping_add(self.number()),
            Word::Product => self.number().wrapping_mul(self.number()),
            _ => return,
        };
        self.put_number(n);
    }

    /// Goes over one word of a formula.
    fn step(&mut self, word: Word, at: Point) {
        let truth = match word {
            Word::Truth(truth) => truth,
            Word::AtMost => {
                let a = self.number();
                a <= self.number()
            }
            Word::Equal => self.number() == self.number(),
            Word::Not => !self.truth(),
            Word::And => self.truth() & self.truth(),
            Word::Or => self.truth() | self.truth(),
            _ => return self.step_term(word, at),
        };
        self.put_truth(truth);
    }
}

/// Whether all formulas of these words are true at a point.
pub fn truth_at(alloc: Global, words: &[Word], at: Point) -> bool {
    let mut found = Found {
        numbers: Vec::new(alloc),
        truths: Vec::new(alloc),
    };
    for word in words.iter().rev() {
        found.step(*word, at);
    }
    found.truths.iter().all(|truth| *truth)
}
