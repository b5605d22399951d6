//! Models, words and images' names, and what is written for them: texts alone, which the tests of `sail_run` read. `answers` there says how a row is
//! written.
#![tactic(auto)]

pub mod checks_rows;
pub mod choices_rows;
pub mod example_rows;
pub mod facts_rows;
pub mod instances_rows;
pub mod mapping_rows;
pub mod members_rows;
pub mod patterns_rows;
pub mod riscv_rows;
pub mod shapes_rows;
pub mod shipped_models;
pub mod shipped_rv64;
pub mod stops_rows;
pub mod tables_rows;
pub mod tutorial_rows;
pub mod words_rows;
