//! What calls of builtins owe over the numbers of their arguments, and what their results are.
#![tactic(auto)]

mod goals;
mod kinds;
mod numbers;
mod table;

pub use goals::owed;
pub use kinds::{Outcome, Product, RowType};
pub use table::row_type;
