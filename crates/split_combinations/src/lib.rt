//! Which variables that a body opens are split, and the combinations of their numbers that count at a place, as `size_splits` defines them.
#![tactic(auto)]

mod combinations;
mod splitting;

pub use combinations::counted;
pub use splitting::splits;
