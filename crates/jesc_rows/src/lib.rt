//! Rows of text that the tests of the parsers read, and what is found in a text, in one line.
//!
//! A table is one text, and each of its lines a row: a text, and behind ` # ` what has to be found in it. A row without
//! that is read as a whole. An empty line, and a heading that begins with `#`, is no row. In a row `¶` stands for the
//! end of a line, and `⟨3 (⟩` for three times `(`. The language has none of these signs.
#![tactic(auto)]

mod found;
mod row;

pub use found::{put_answer, put_error, put_reach};
pub use row::{
    is_row, joined, number_of, parts_of, put, put_count, put_number_word, put_text, put_times,
    put_word, said,
};
