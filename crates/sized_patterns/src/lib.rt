//! Laws of the types that values carry in patterns: each function's contract is one, and it does nothing.
#![tactic(auto)]

mod laws;

pub use laws::parts_stay_sized;
