//! Definitions that lack a part: a `val` without a body, a body without types, a measure without its function,
//! an overload with a member that can't be one; and parameters of the union `exception`.
//!
//! `specs/Wanting` has the failures of each definition.
#![tactic(auto)]

mod typed;
mod wanting;

pub use typed::is_typed;
pub use wanting::note_wanting;
