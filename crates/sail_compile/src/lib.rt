//! From the texts of a model to what is accepted, or the first refusal.
//!
//! [`read_models`] takes the phases in their order: tokens, the grammar, gathering, tables, shapes, obligations and instances. Its contract speaks of the
//! definitions in `specs/`, which join those of the crates below. An [`Engine`] is whatever compiles texts so and makes of a model what takes its steps;
//! [`Jib`] is the program's: it lowers the model to flat code and makes the machine of it.
#![tactic(auto)]

mod checking;
mod compiled;
mod flat_code;
mod laws;
mod models;
mod refusals;
mod shape_refusals;
mod variables;
mod zeros;

pub use compiled::{Compiled, Engine, Running};
pub use flat_code::Jib;
pub use laws::obligations_of_accepted_texts_hold;
pub use models::{Accepted, ModelError, read_models};
pub use refusals::outside;
