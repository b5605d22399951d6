//! Whether the facts that stand imply a goal, where facts are pushed and popped between goals.
#![tactic(auto)]

mod alternatives;
mod answering;
mod entail;
mod kept;
mod level;
mod scratch;

pub use entail::Entail;
pub use kept::Kept;
pub use scratch::Scratch;
