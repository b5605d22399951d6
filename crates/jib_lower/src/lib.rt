//! Lowering: the module of flat code of a model with constant sizes.
//!
//! `specs/Lowered` tells what is made of a model, once it has no mappings and its arms are flat: the functions of directions that are asked, in an order;
//! behind them of the i-th instance the function 2i, which calls enter, and the function 2i + 1, which events enter; and those of top-level lets and initial
//! values; each with the code of the definition (`lowered_pieces`) under the numbering of its own slots.
#![tactic(auto)]

mod crossings;
mod cycles;
mod directions;
mod entering;
mod error;
mod fitting;
mod functions;
mod instances;
mod laws;
mod leads;
mod lowering;
mod openings;
mod order;
mod plain;
mod reads;
mod turned;
mod turns;
mod types;
mod way_types;

pub use error::LowerError;
pub use laws::modules_are_valid;
pub use lowering::{Lowered, lower};
