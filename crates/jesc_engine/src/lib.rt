//! The top call: words in, a report out.
//!
//! `words` tells the names of the files, `sources` reads them, and `classes` has `jesc_first` make their classes; `stop`
//! is what may stop this. `ways` finds an answer for each check of a method, `findings` and `judge` tell what the answers
//! say, `report` makes the lines, `writing` and `complaint` write them, and `top` puts all together.
//!
//! A newcomer starts with `run` in `top`, and with `specs/Ends`, which says what it has done when it ends.
//!
//! The definitions, in reading order: `Command`, `Sources` and `Refusals` (what is read, and what is refused), `Findings`
//! and `Judged` (what the judgements say), `Report` (the text of a report), `After` and `Ends` (how the call ends).
//! `Rows`, `Ways`, `Walk`, `Spanned`, `Starts`, `Causes` and `Files` lie between these and the code.
#![tactic(auto)]

mod answer;
mod classes;
mod complaint;
mod file;
mod findings;
mod judge;
mod report;
mod sources;
mod stop;
mod top;
mod ways;
mod words;
mod writing;

pub use answer::{Answer, Finding, Judgement};
pub use top::{Status, run};
