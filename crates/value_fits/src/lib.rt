//! What has to be true for a value of some indices to be of a type.
//!
//! `specs/Fitting` has the conditions, what comes into force for them, and how a walk owes them.
#![tactic(auto)]

mod conditions;
mod fitted;
mod lent;
mod opening;
mod owing;
mod pairs;
mod places;
mod premises;
mod wanted;
mod within;

pub use conditions::{implies, number_fits, truth_fits};
pub use fitted::Fitted;
pub use owing::{owe_fit, owe_fit_earlier};
pub use places::{placed, placed_among};
pub use wanted::Wanted;
pub use within::{fits, item_fits};
