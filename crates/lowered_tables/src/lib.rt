//! The table of a module's types: each type with constant sizes that a model's nodes make or take, by its number.
#![tactic(auto)]

mod tables;

pub use tables::{Table, TableError, TypeList, add_all, add_type, new_list, table_of};
