//! Tests of elimination and entailment, with values from outside: cases of rows, problems with their verdicts and certificates, and
//! facts that are pushed and popped.
//!
//! They stand here and not in those crates, since a crate with tests is proved a second time with them.
#![tactic(auto)]

#[cfg(test)]
mod answers;
#[cfg(test)]
mod case_rows;
#[cfg(test)]
mod problems;
#[cfg(test)]
mod scripts;
#[cfg(test)]
mod sums;
