//! The grammar of expressions, specifications and members in annotations: its rules as functions on lists of lexemes,
//! and the code that reads by them.
//!
//! Each rule stands twice: as a parser on lists in `specs/`, of which it can be seen that it is the grammar, and as a
//! method of `Grammar` of the same name, whose clause `reads` says that the two give the same. A newcomer starts with
//! `specs/Steps.antt` and one rule, as `indexed_behind`, in `specs/Reading.antt` and in `longer`.
//!
//! In reading order: `cursor`, `fault`, `mark` and `step` are the tokens of a side and the steps over them, of which
//! `specs/Seen.antt`, `Marks.antt` and `Steps.antt` speak. `opening` and `binding` are what marks say in an expression
//! (`ExpressionMarks.antt`). The rules of expressions (`Found.antt`, `Reading.antt`, `Tails.antt`) are methods of
//! `grammar`, from `arguments` to `climb`. Each takes the parser of the expressions inside as a value, of which
//! `Nests.antt` says what it must give, and `expr` is that parser. `note_word` and `note_step` are the same steps over
//! the words of annotations (`ClauseMarks.antt`), and the rules of specifications and members (`ClauseLists.antt`,
//! `ClauseFound.antt`, `ClauseReading.antt`, `ClauseSeen.antt`) are the methods from `lists` to `member_annotation`.
//! What begins with `make` builds the trees. `specs/laws/` has laws on parsers for the crates above.
#![tactic(auto)]

// The tokens of a side, what they are to the grammar, and the steps over them.
pub mod cursor;
pub mod fault;
pub mod mark;
pub mod step;

// What marks say in an expression.
pub mod binding;
pub mod opening;

// The trees of expressions, of their parts.
pub mod found;
pub mod make;
pub mod make_tree;
pub mod span;

// The rules of expressions, and the parser that they make.
pub mod arguments;
pub mod call;
pub mod casts;
pub mod climb;
pub mod create;
pub mod expr;
pub mod first;
pub mod grammar;
pub mod group;
pub mod longer;
pub mod quantifier;

// The words of annotations, and the steps over them.
pub mod note_step;
pub mod note_word;

// The trees of specifications and of members in annotations, of their parts.
pub mod make_form;
pub mod make_spec;
pub mod make_store;
pub mod part;

// The rules of specifications and of members in annotations.
pub mod case;
pub mod clause;
pub mod lists;
pub mod member_annotation;
pub mod specification;
pub mod store;
pub mod stores;
