//! Tests of obligations, of checking them, and of what is printed, with values from outside: facts that are read, the first obligation that
//! isn't closed, and certificates.
//!
//! They stand here and not in those crates, since a crate with tests is proved a second time with them.
#![tactic(auto)]

#[cfg(test)]
mod checking;
#[cfg(test)]
mod printing;
