//! The tables of a gathered model: what each name is, with types in normal form.
//!
//! `specs/Refused` has why a text has no tables, `specs/Tabled` what its tables hold.
#![tactic(auto)]

mod building;
mod depths;
mod entries;
mod inside;
mod model_tables;
mod nesting;
mod overloads;
mod positions;
mod signatures;

pub use building::tables;
pub use model_tables::Tables;
