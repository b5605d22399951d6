//! Slots of flat code by what stands in them: a place and a type. Each pair has a slot of its own, and the slots are numbered as they are asked
//! for.
//!
//! Which number a slot has stands in `specs/Slots`, and the laws of such numbers in `specs/Laws`.
#![tactic(auto)]

mod laws;
mod slots;

pub use laws::{slots_apart, slots_last, slots_typed};
pub use slots::{Place, Slot, number_slot};
