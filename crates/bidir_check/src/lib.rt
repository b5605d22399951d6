//! Whether the obligations of a model hold: a certificate for each, or the first that isn't closed.
//!
//! `specs/Checking` has what checking gives, `specs/Certification` what a model with certificates keeps to, and `specs/laws/Holding` that
//! its obligations hold. `specs/Printed` has what is printed of it.
#![tactic(auto)]

mod certified;
mod checking;
mod error;
mod laws;
mod settling;
mod standing;

pub use certified::Certified;
pub use checking::{check, check_with};
pub use error::CheckError;
pub use laws::obligations_with_certificates_hold;
