//! Tests of flat code and of the machine that runs it, with values from outside: modules by hand that keep each rule or break it,
//! each instruction, calls and loops, and a machine of 16 bits that reads its program from memory.
//!
//! They stand here and not in those crates, since a crate with tests is proved a second time with them.
#![tactic(auto)]

#[cfg(test)]
mod calls;
#[cfg(test)]
mod interpreter;
#[cfg(test)]
mod modules;
#[cfg(test)]
mod running;
#[cfg(test)]
mod written;
