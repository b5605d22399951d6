//! The body that is found of a definition means what its clauses mean, and gives values of the shape of its result.
//!
//! `FunctionIs` and `MeasureIs` of `shape_meanings` say it, over each world that the setting describes: where calls mean the same
//! in the core and in the text and keep shapes, so do the bodies over them; and so do calls over their bodies (`specs/Calls`).
#![tactic(auto)]

mod laws;

pub use laws::{
    bodies_are_right, callees_keep_calls, calls_are_entered_alike, directions_are_right,
    functions_stand, numbers_mean_nothing, sides_are_right, widths_are_given,
};
