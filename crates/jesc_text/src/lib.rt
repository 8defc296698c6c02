//! The small types that every other crate builds on: lists, boxes and texts that contracts see as what they hold,
//! places and spans in a text, and numbers in decimal.
//!
//! Start with `list` (`List`, `Text`) and `boxed`, then `place` and `number`. Of the definitions read `specs/Places`
//! (the line and the column of an offset) and `specs/Numbers` (which bytes spell a number). `specs/formers` is what lets
//! a type reach itself through a list or a box.
#![tactic(auto)]

mod boxed;
mod list;
mod number;
mod place;
mod text;

pub use boxed::Boxed;
pub use list::{List, OutOfMemory};
pub use number::{put_number, read_number};
pub use place::{Place, Span, place_of};
pub use text::Text;

#[cfg(test)]
mod tests;
