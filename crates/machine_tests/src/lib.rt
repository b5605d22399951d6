//! Tests of the crates of the machine, with values from outside: memory, images, states and runs of harts, cores, and what a module's
//! events come to.
//!
//! They stand here and not in those crates, since a crate with tests is proved a second time with them.
#![tactic(auto)]

#[cfg(test)]
mod cores;
#[cfg(test)]
mod events;
#[cfg(test)]
mod images;
#[cfg(test)]
mod memory;
#[cfg(test)]
mod schedules;
#[cfg(test)]
mod states;
