//! Tests of the parser of whole models, with texts from outside.
//!
//! They stand here and not in `sail_parse_def`, since a crate with tests is proved a second time with them.
#![tactic(auto)]

#[cfg(test)]
mod depths;
#[cfg(test)]
mod expressions;
#[cfg(test)]
mod models;
