//! The grammar of statements, members and files: its rules as functions on lists of lexemes, and the code that reads by
//! them.
//!
//! Each rule is a short parser in `specs/StatementReading.antt` or `specs/FileReading.antt`, and the function of that
//! name here promises to answer what the rule does. A newcomer starts with `condition` in the first of these files and
//! with the function that equals it in `word.rt`, then takes `statement`, in the spec and in `statement.rt`, and comes to
//! `file` at last. That the rules read what the grammar spells, and nothing else, is shown in `jesc_java_parser`.
//!
//! The specs in reading order: `Lexing`, `StatementMarks` and `FileMarks` say what a token is to the grammar,
//! `StatementFound` and `StatementReading` have the rules of statements, and `FileReading` those of members, classes and
//! files. `Views`, `ClassViews`, `FileViews` and `UnitViews` say what the program's values stand for, and how the rest of
//! a list is read; `StatementSeen` has the rest of some rules of statements, `StatementNests` what a parser that is
//! passed as a value promises, and `GivenUnits` what the answer for a file is.
//!
//! The sources in reading order are the groups below.
#![tactic(auto)]

// What a token is: its mark, and the steps that look at it.
pub mod beginning;
pub mod lexing;
pub mod marks;
pub mod member_mark;
pub mod statement_mark;

// The parts of one statement: expressions, targets and calls, simple statements, what begins with a word.
pub mod form;
pub mod loop_part;
pub mod note;
pub mod part;
pub mod piece;
pub mod super_part;
pub mod target;
pub mod word;

// Statements that have others inside: bodies, branches, loops and `try`. They meet in `statement`.
pub mod attempt;
pub mod body;
pub mod branch;
pub mod loops;
pub mod roomy;
pub mod statement;

// Members, classes and whole files. They meet in `file`.
pub mod class;
pub mod field;
pub mod file;
pub mod files;
pub mod heading;
pub mod java_member;
pub mod lines;
pub mod member;
pub mod method;
pub mod names;
pub mod note_form;
pub mod params;
pub mod types;

// The trees of their parts.
pub mod make;
pub mod make_attempt;
pub mod make_branch;
pub mod make_class;
pub mod make_loop;
pub mod make_member;
pub mod make_piece;
pub mod make_statement;
