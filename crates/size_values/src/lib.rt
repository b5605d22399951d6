//! The sizes in types and values where some variables are known, and types whose sizes are constants.
//!
//! `specs/Numbers` has numbers and conditions of which some variables are known, `specs/Sizes` the widths and lengths in types and
//! values and the variables in them, `specs/Hanging` the arguments of named types on which these hang, `specs/Sized` types whose sizes are
//! constants.
#![tactic(auto)]

mod conditions;
mod constants;
mod hanging;
mod listed;
mod numbers;
mod sized;
mod sizes;
mod sizing;
mod small;
mod values;
mod variables;

pub use conditions::{may_hold, truth_of};
pub use constants::{Constant, Picked, copy_constant, copy_constants};
pub use numbers::{
    constant_number, constant_under, first_free, index_under, indices_under, names_variable,
    value_of,
};
pub use sized::{Sized, copy_all_sized, copy_sized, same_all, same_numbers, same_sized};
pub use sizes::{
    Size, bound_before, copy_sizes, fields_of, is_one_open, named_typ_sizes, typ_sizes,
};
pub use sizing::{hangs_on, named_numbers, reading_sized, readings_sized, typ_sized, value_sized};
pub use values::{only_open, reading_names, reading_sizes, typ_names, value_names, value_sizes};
pub use variables::Variables;
