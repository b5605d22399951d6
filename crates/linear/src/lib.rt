//! Linear constraints as rows of integers, in numbers of at most 2^127 - 1 in size.
#![tactic(auto)]

mod choice;
mod choosing;
mod counting;
mod listing;
mod numbers;
mod problem;
mod row;
mod variables;

pub use choice::Choice;
pub use choosing::choose;
pub use counting::count;
pub use listing::{cases, list};
pub use numbers::Number;
pub use problem::{LinearError, Problem};
pub use row::{
    Row, coefficient, combination, copy_row, divisor_of, have_same_coefficients, is_constant,
    is_multiple, quotient_row, reduced, same_rows,
};
pub use variables::{list_variables, push_variables};
