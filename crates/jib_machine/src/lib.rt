//! The machine that runs flat code.
#![tactic(auto)]

mod act;
mod change;
mod ended;
mod entries;
mod fitting;
mod in_place;
mod machine;
mod made;
mod opened;
mod plain;
mod step;
mod steps;
mod zeros;

pub use entries::Entries;
pub use machine::Machine;
