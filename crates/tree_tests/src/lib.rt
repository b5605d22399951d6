//! Tests of models with constant sizes: models by hand, and what is constant at their nodes, written by hand too.
//!
//! They stand here and not in `sized_trees`, since a crate with tests is proved a second time with them.
#![tactic(auto)]

#[cfg(test)]
mod models;
#[cfg(test)]
mod printed;
#[cfg(test)]
mod tables;
#[cfg(test)]
mod whole;
