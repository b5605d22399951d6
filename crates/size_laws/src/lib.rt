//! Laws of types whose sizes are constants: each function's contract is one, and it does nothing.
#![tactic(auto)]

mod laws;

pub use laws::{opening_keeps_sizes, opening_tells_sizes, parts_keep_sizes, sizes_are_said};
