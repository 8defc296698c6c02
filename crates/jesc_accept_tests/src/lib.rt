//! Tests of the checker of certificates, and of the reader and the printer of their text.
//!
//! Begin with `problems`, sets of clauses as tables, and `certificates`, which refute them. `plain` reads a certificate by the
//! rules of its lines, over the sums of `sums`, and `worlds` looks for countermodels; `trial` holds the checker's answer
//! against both. The tests stand in `tests`, certificates with the answers to them, in `damage`, each number and each line
//! damaged, and in `texts`, files that are cut or have damaged bytes, against the plain reading of `lines`.
#![tactic(auto)]

#[cfg(test)]
mod certificates;
#[cfg(test)]
mod damage;
#[cfg(test)]
mod lines;
#[cfg(test)]
mod plain;
#[cfg(test)]
mod problems;
#[cfg(test)]
mod sums;
#[cfg(test)]
mod tests;
#[cfg(test)]
mod texts;
#[cfg(test)]
mod trial;
#[cfg(test)]
mod worlds;
