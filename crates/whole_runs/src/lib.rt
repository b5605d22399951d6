//! Laws of openings, of events and of whole runs: in an accepted model nothing gets stuck under the checked meaning.
#![tactic(auto)]

mod event_laws;
mod opening_laws;
mod run_laws;

pub use event_laws::models_are_never_stuck;
pub use opening_laws::{initials_are_sound, lets_end_well, names_are_told, openings_are_sound};
pub use run_laws::models_run_safely;
