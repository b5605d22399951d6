//! Facts by the variables that they name, and the facts that count for a goal.
//!
//! `specs/Filed` has which lists the positions of facts in force stand in. `facts_for` gives of all facts those that can be connected to
//! a goal, in the time that these take.
#![tactic(auto)]

mod files;
mod gathering;
mod keys;
mod picking;

pub use files::{file, unfile};
pub use picking::facts_for;
