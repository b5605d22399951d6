//! The code of functions: a tick, the measure, the body, and where exceptions, failed matches and failed measures go. So of top-level lets and initial
//! values.
#![tactic(auto)]

mod functions;
mod openings;

pub use functions::{active_measure, put_called, put_event, put_mapping, slot_types};
pub use lowered_nodes::Walk;
pub use openings::{LetName, put_name, put_value};
