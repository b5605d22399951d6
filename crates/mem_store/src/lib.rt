//! The memory of a run: bytes from a base address on, read and written as little-endian words of 1 to
//! 16 bytes.
//!
//! A [`Memory`] is to a contract its base and the list of its bytes; `specs/Bytes` has what a word's
//! bytes are and what a write changes. [`Flat`] keeps all its bytes side by side.
#![tactic(auto)]

mod flat;
mod memory;

pub use flat::Flat;
pub use memory::Memory;
