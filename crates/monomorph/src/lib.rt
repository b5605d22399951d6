//! Instances: what a model is worked out for, with sizes that are constants.
//!
//! `specs/Refusals` has the sizes that are refused, `specs/Found` what is found, `specs/Reading` what a body leads to under an instance,
//! `specs/Lasts` what comes last, `specs/Instances` the list; `specs/Steps` says of the steps of a walk what `specs/Reading` does of its notes.
#![tactic(auto)]

mod bodies;
mod calls;
mod error;
mod found;
mod growing;
mod inside;
mod lasts;
mod refusals;
mod registers;

pub use calls::instance_of;
pub use error::MonoError;
pub use found::{Found, copy_instance, same_instance};
pub use growing::{all_found, instances, listed};
pub use inside::Inside;
pub use lasts::Model;
pub use size_notes::{own_indices, reading_of};
pub use split_combinations::counted;
