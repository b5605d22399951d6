//! The types that the definitions of a model write, as the phase that finds shapes looks at them: their failures, and what the core
//! keeps of a function's signature.
//!
//! `specs/Zeros` has which types have a zero, `specs/Vals` the type variables of a `val`, `specs/Failures` the failures of types,
//! signatures, sides of mappings and registers, `specs/Signatures` what the core keeps of a signature, `specs/Parts` what the contracts
//! of private functions say, and `specs/Laws` what follows.
#![tactic(auto)]

mod definitions;
pub mod laws;
mod parts;
mod registers;
mod signatures;
mod vals;
mod zeros;

pub use definitions::{note_sides, note_types};
pub use laws::zeros_are_told;
pub use parts::{find_measure, is_declared};
pub use registers::note_register;
pub use signatures::{number_parameters, signature_numbers, type_names};
pub use zeros::has_zero;
