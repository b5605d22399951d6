//! Plain expressions decide: what is found of one neither says No nor throws.
//!
//! Only guards and clauses say No, and arms hand it on no further. So a core that has none but in arms, and no `throw`, ends with a
//! value, with what is returned, or stops; and what is found of a plain expression is such a core.
#![tactic(auto)]

mod laws;

pub use laws::{decided_cores_end, plain_cores_decide};
