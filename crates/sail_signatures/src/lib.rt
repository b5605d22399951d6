//! What the types of functions and mappings are, in normal form: by a `val`, or by a body that has its types; and where
//! the parts of each stand in the text.
//!
//! `specs/Signatures` has what each signature is and why there is none, `specs/Parts` the positions of `val`s, bodies and
//! measures, `specs/Starts` the types of the entry points.
#![tactic(auto)]

mod bodies;
mod named;
mod parts;
mod reading;
mod signature;
mod starts;

pub use named::{find_variables, read_signature};
pub use parts::{Callables, Parts, callable_name, find_callables};
pub use reading::{read_typ, read_val};
pub use signature::Signature;
pub use starts::{is_reset, is_step};
