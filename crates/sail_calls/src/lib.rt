//! Laws of clauses, of functions and of mappings, and of all calls of a model.
#![tactic(auto)]

mod arm_laws;
mod call_laws;

pub use arm_laws::{arms_are_sound, clauses_count, clauses_follow};
pub use call_laws::calls_follow;
