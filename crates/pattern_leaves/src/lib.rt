//! What is known around an expression, and what the leaves of patterns owe and make known: names, literals, written types, payloads, and
//! widths of the parts of a concatenation.
//!
//! `specs/Settings` has what is known around an expression and what exponents owe, `specs/Literals`, `specs/Payloads`, `specs/Widths` and
//! `specs/Annotations` the leaves.
#![tactic(auto)]

mod annotations;
mod around;
mod exponents;
mod holding;
mod literals;
mod names;
mod payloads;
mod readings;
mod widths;

pub use annotations::write_named;
pub use around::Around;
pub use exponents::{number_owed, one_condition, owe_exponents};
pub use holding::{held_in, name_value, name_var};
pub use literals::{meet_literal, wrong_pattern};
pub use names::{Bound, Held, TopLevel};
pub use payloads::{payload, payload_readings};
pub use readings::{type_in, written_in};
pub use widths::{cut_conditions, cut_widths, first_sum, rest_of};
