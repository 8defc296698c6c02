//! Formulas as words, each operator before what it is over.

use jesc_text::List;
use std::alloc::Global;

/// A word of a formula.
#[derive(Debug, Drop, Clone, Copy, PartialEq, Eq)]
pub enum Word {
    Number(i128),
    X,
    Y,
    Z,
    Function,
    Sum,
    Product,
    AtMost,
    Equal,
    Not,
    And,
    Or,
    Truth(bool),
    /// None of a formula.
    Other,
}

/// The word of a text.
fn word_of(text: &str) -> Word {
    match text {
        "x" => Word::X,
        "y" => Word::Y,
        "z" => Word::Z,
        "f" => Word::Function,
        "+" => Word::Sum,
        "*" => Word::Product,
        "<=" => Word::AtMost,
        "=" => Word::Equal,
        "not" => Word::Not,
        "and" => Word::And,
        "or" => Word::Or,
        "true" => Word::Truth(true),
        "false" => Word::Truth(false),
        _ => match text.parse::<i128>() {
            Ok(n) => Word::Number(n),
            Err(_) => Word::Other,
        },
    }
}

/// The words of a text, as far as memory goes.
pub fn words_of(alloc: Global, text: &str) -> List<Word> {
    let mut words = List::new(alloc);
    for part in text.split_whitespace() {
        put(&mut words, word_of(part));
    }
    words
}

/// Puts a word behind the others, as far as memory goes.
pub fn put(words: &mut List<Word>, word: Word) {
    let _done = words.push(word).is_ok();
}

/// Whether the word is one of a formula, and none of a term.
fn is_node(word: Word) -> bool {
    match word {
        Word::AtMost | Word::Equal | Word::Not | Word::And | Word::Or | Word::Truth(_) => true,
        _ => false,
    }
}

/// The number of nodes of the formulas.
pub fn count_nodes(words: &[Word]) -> usize {
    let mut count = 0usize;
    for word in words {
        if is_node(*word) {
            count = count.saturating_add(1);
        }
    }
    count
}

/// Whether a line of a table is a row.
pub fn is_row(line: &str) -> bool {
    !line.is_empty() && !line.starts_with('#')
}
