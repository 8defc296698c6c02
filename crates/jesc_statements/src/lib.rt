//! Statements: what a statement stands for, or the first rule on names and types broken in it, as definitions. There is no
//! code here yet, and nothing is proved of these definitions.
//!
//! A newcomer starts with `specs/Walking`, which has one definition for each form of statement, over `Bodies`, the member
//! whose body it is and the locals in scope, and `Targets`, what may be assigned. `Ending` says which statements can end, so
//! that what stands behind them is reached.
#![tactic(auto)]
