//! A plain reading of a file of certificates, line by line.

use jesc_text::read_number;
use std::alloc::Global;

/// What a line is.
#[derive(Drop, Clone, Copy)]
enum Kind {
    Version,
    Rounds,
    Condition,
    Line,
    End,
    Other,
}

/// Whether behind so many numbers stands a count, and behind it so many times as many and so many more.
fn has_count(numbers: &[i128], before: usize, times: i128, more: i128) -> bool {
    match numbers.get(before) {
        Some(count) => {
            let behind = numbers.len().saturating_sub(before).saturating_sub(1);
            *count >= 0 && behind as i128 == count.wrapping_mul(times).wrapping_add(more)
        }
        None => false,
    }
}

/// Whether the letter and the numbers are a line of a certificate.
fn is_line(letter: &[u8], numbers: &[i128]) -> bool {
    match letter {
        b"t" => has_count(numbers, 1, 2, 0),
        b"g" => numbers.len() == 2,
        b"r" => has_count(numbers, 0, 1, 1),
        b"q" => has_count(numbers, 6, 2, 0),
        b"s" | b"c" | b"m" => numbers.len() == 1,
        _ => false,
    }
}

/// The numbers of these words, if they are all numbers.
fn numbers_of(alloc: Global, words: &[&[u8]]) -> Option<Vec<i128>> {
    let mut numbers = Vec::new(alloc);
    for word in words {
        numbers.push(read_number(word)?).ok()?;
    }
    Some(numbers)
}

/// Whether the word is a number from 0 to the most.
fn is_up_to(word: &[u8], most: i128) -> bool {
    match read_number(word) {
        Some(number) => 0 <= number && number <= most,
        None => false,
    }
}

/// What a line of these words is.
fn kind_of(alloc: Global, words: &[&[u8]]) -> Kind {
    match words {
        [b"jescert", b"1"] => Kind::Version,
        [b"rounds", rounds] if is_up_to(rounds, 5) => Kind::Rounds,
        [b"cond", name, number] if !name.is_empty() && is_up_to(number, u32::MAX as i128) => {
            Kind::Condition
        }
        [b"end"] => Kind::End,
        [letter, rest @ ..] => match numbers_of(alloc, rest) {
            Some(numbers) if is_line(letter, &numbers) => Kind::Line,
            _ => Kind::Other,
        },
        [] => Kind::Other,
    }
}

/// Whether a line may stand behind another, or be the first.
fn may_follow(last: Option<Kind>, kind: Kind) -> bool {
    match kind {
        Kind::Version => matches!(last, None),
        Kind::Rounds => matches!(last, Some(Kind::Version)),
        Kind::Line => matches!(last, Some(Kind::Condition | Kind::Line)),
        Kind::Condition | Kind::End => {
            matches!(last, Some(Kind::Rounds | Kind::Condition | Kind::Line))
        }
        Kind::Other => false,
    }
}

/// What a line is, from its words between single spaces.
fn line_kind(alloc: Global, line: &[u8]) -> Kind {
    let mut words = Vec::new(alloc);
    for word in line.split(|byte| *byte == b' ') {
        let _done = words.push(word).is_ok();
    }
    kind_of(alloc, &words)
}

/// The first line, from 1, that can't be continued, or 0 where the bytes are a file of certificates.
pub fn bad_line(alloc: Global, bytes: &[u8]) -> u32 {
    let mut last = None;
    let mut number = 1u32;
    let mut line = Vec::new(alloc);
    for byte in bytes {
        if *byte != b'\n' {
            let _done = line.push(*byte).is_ok();
            continue;
        }
        let kind = line_kind(alloc, &line);
        if !may_follow(last, kind) {
            return number;
        }
        last = Some(kind);
        number = number.saturating_add(1);
        line.clear();
    }
    let is_whole = matches!(last, Some(Kind::End)) && line.is_empty();
    if is_whole { 0 } else { number }
}
