//! Patterns: what each looks at, the names that it binds with their shapes, and its failures.
//!
//! What is found of each form stands in `shape_rules`' `specs/Patterns`; `specs/Pieces` says what lists of parts are.
#![tactic(auto)]

mod callees;
mod groups;
mod leaves;
mod looking;
mod nodes;
mod parameters;
mod shapes;
mod typed;

pub use callees::takes_unit;
pub use groups::look_each;
pub use looking::{look, look_one};
pub use parameters::look_parameters;
pub use shape_widths::{Matched, backwards_of, forwards_of, overlap_at, which_side};
pub use shapes::{note_shape, see_as};
pub use typed::{has_typ, wanted_by, written_shape, written_typ};
