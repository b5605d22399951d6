//! Cores whose tables are whole: each node of what is found has a case, and each call a lead, under each combination of numbers that counts there.
//!
//! `specs/Notes` says what is tested of a note, `specs/Signed` of parameters, `specs/Bodies` of bodies that are read together, `specs/Cores` of a
//! core.
#![tactic(auto)]

mod calls;
mod made;
mod signed;
mod sizes;
mod small;

pub use calls::call_tested;
pub use made::made_tested;
pub use signed::parameters_signed;
pub use sizes::type_given;
pub use small::both;
