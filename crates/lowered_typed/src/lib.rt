//! Whether the code of nodes has its types, decided from the cases that are said of them.
//!
//! What is decided stands in `lowered_validity` (`specs/Typing`): `is_typed` is that of a node, and `put_types` lists the types that its value may have.
//! It is decided in three steps (`specs/Judged`): whether a kind has as many parts as it takes, what is asked of the kind by its cases, and what of its
//! parts.
#![tactic(auto)]

mod arms;
mod calls;
mod cases;
mod counts;
mod ends;
mod heads;
mod kinds;
mod nodes;
mod replaced;
mod signs;
mod spots;
mod structs;
mod types;
mod works;

pub use arms::{is_arm_typed, name_type};
pub use nodes::{is_result_typed, is_typed};
pub use signs::{Called, Judge, Signs};
pub use types::put_types;
