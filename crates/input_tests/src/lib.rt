//! Tests of the crates that read what is outside, with values from outside: files, the command line, what is made of a seed, the tokens
//! of a model's text and their levels, and definitions that are written in parts.
//!
//! They stand here and not in those crates, since a crate with tests is proved a second time with them.
#![tactic(auto)]

#[cfg(test)]
mod files;
#[cfg(test)]
mod gathering;
#[cfg(test)]
mod levels;
#[cfg(test)]
mod seeds;
#[cfg(test)]
mod tokens;
#[cfg(test)]
mod words;
