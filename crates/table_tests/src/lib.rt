//! Tests of the crates of a model's tables, with values from outside: cycles of graphs, normal forms of types, and what names mean.
//! The failures of definitions are tested on whole models, beside the program.
//!
//! They stand here and not in those crates, since a crate with tests is proved a second time with them.
#![tactic(auto)]

#[cfg(test)]
mod definitions;
#[cfg(test)]
mod forms;
#[cfg(test)]
mod globals;
#[cfg(test)]
mod graphs;
#[cfg(test)]
mod meanings;
