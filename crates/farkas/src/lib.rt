//! Certificates of rows that can't all be true, found by elimination and checked row by row.
#![tactic(auto)]

mod certificate;
mod checking;
mod elimination;
mod keeping;
mod laws;
mod points;
mod problems;
mod pruning;
mod refuting;
mod verdict;

pub use certificate::{Case, Cert, Step};
pub use keeping::{Starts, starts_with};
pub use laws::{
    a_valid_certificate_proves, a_valid_certificate_refutes, an_open_point_makes_the_rows_true,
};
pub use points::Point;
pub use problems::{check_cert, discharge};
pub use verdict::{FarkasError, Verdict, check_cases, eliminate_cases, eliminate_starts};
