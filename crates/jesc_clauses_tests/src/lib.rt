//! Tests of clauses made of formulas.
//!
//! Begin with `words`, which says how a formula is written in a row of a table. `values` tells of such a row whether it is
//! true, `making` makes a formula of it, and `meeting` tells whether some numbers meet clauses. The tables stand in
//! `both_ways` and `limits`, each before its test; `times` tells how long many calls take. They stand apart from
//! `jesc_clauses`, so that its proofs are not run a second time with them.
#![tactic(auto)]

#[cfg(test)]
mod both_ways;
#[cfg(test)]
mod limits;
#[cfg(test)]
mod making;
#[cfg(test)]
mod meeting;
#[cfg(test)]
mod times;
#[cfg(test)]
mod values;
#[cfg(test)]
mod words;
