//! What each name of a value means in a text, and what calls of it can enter.
//!
//! `specs/Meanings` has what each name means, `specs/Held` what maps hold on the way.
#![tactic(auto)]

mod entered;
mod firsts;
mod meanings;
mod values;

pub use meanings::find_names;
