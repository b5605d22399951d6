//! Obligations: what has to be true for no run of a model to get stuck, and how it is printed.
//!
//! `specs/Owed` has the obligation of a goal under the facts in force: of these those connected to the goal (`specs/Connected`), and
//! those that close it (`specs/Closing`, over `specs/Naming`: which variables are numbers). `specs/Texts` has certificates, points and limits as they are printed.
#![tactic(auto)]

mod closing;
mod connected;
mod naming;
mod obligation;
mod owing;
mod texts;

pub use obligation::Obligation;
pub use owing::owed;
pub use texts::{push_certificates, push_limit, push_point};
