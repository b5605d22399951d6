//! Operators on truths, loops and ways that meet, each beside its run: it ends well where its parts do.
#![tactic(auto)]

mod laws;

pub use laws::{counting_is_fine, joins_are_fine, loops_are_fine, truths_are_fine};
