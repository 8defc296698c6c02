//! Whole files of annotated Java, read from the tokens of a text.
//!
//! All is in `src/parse.rt`, where a newcomer starts with `parse_file`. The grammar itself is the crate
//! `jesc_java_grammar`. The crate has no definitions of its own: what spells a file is in `Members` of `jesc_ast/specs`,
//! its limits in `Depth` there, and what an answer or an error tells in `ParsedTrees` and `Refusals` of
//! `jesc_jml_parser/specs`. `proofs/` holds the laws of the grammar.
#![tactic(auto)]

pub mod parse;

pub use parse::{one_file, parse_file};
