//! Expressions, and the specifications and members of annotations, read from the tokens of a text.
//!
//! A newcomer starts with `parse_expr` in `src/parse.rt`; `src/parse_notes.rt` has the same for specifications and
//! members. `src/error.rt` holds their errors, `src/refusal.rt` makes them, and `src/left_out.rt` knows the words that the
//! language leaves out. The grammar itself is the crate `jesc_jml_grammar`, and what spells a tree is defined in `jesc_ast`.
//!
//! What the calls promise is in `specs/`, in this order: `LongestAnswers` (the longest tree that lexemes begin with),
//! `Annotations` (members), `Refusals` (the places and texts of errors) and `ParsedTrees` (the answers). A reader has to
//! believe no more: `specs/laws/` and `proofs/` hold what the proofs need.
#![tactic(auto)]

pub mod error;
pub mod left_out;
pub mod parse;
pub mod parse_notes;
pub mod refusal;

pub use error::SyntaxError;
pub use parse::{one_expression, parse_expr};
pub use parse_notes::{
    one_member_annotation, one_specification, parse_clauses, parse_member_annotation,
};
