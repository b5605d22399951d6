//! What an instruction of flat code computes: what it reads and writes, the parts of values, the builtins on values, and
//! which values belong to types.
//!
//! What sources are stands in `specs/Sources`, what an operation came to and what a write did in `specs/Results`.
#![tactic(auto)]

mod changes;
mod operands;
mod parts;
mod reading;
mod results;
mod rows;
mod typing;
mod words;
mod working;

pub use changes::{changed_field, changed_item, taken};
pub use reading::{copied, lent, push_values, put_register, put_slot, value_of, write};
pub use results::{Made, operate};
pub use typing::{belongs, zero_within};
