//! Whether the tables of a core are whole, as `specs/Cores` of `tabled_cores` has it.
#![tactic(auto)]

mod bodies;
mod cores;

pub use cores::core_tabled;
