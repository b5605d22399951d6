//! What each name means where it stands, and the failures of patterns and of the parts of expressions.
//!
//! The local names in scope stand in `specs/Locals`, what can be named how in `specs/Known`, the failures of patterns in
//! `specs/Patterns`, of expressions in `specs/Uses` and of clauses in `specs/Clauses`; `used_names` finds those of expressions and clauses.
#![tactic(auto)]

mod around;
mod failures;
mod locals;
mod names;
mod patterns;
mod uses;

pub use around::{Allowed, Around};
pub use failures::{note_all, push_clashes, push_type, push_unless};
pub use locals::{Binding, Locals};
pub use names::{Global, Names};
pub use patterns::{enter_parameters, enter_pattern};
pub use uses::{
    push_annotation, push_asked, push_field, push_field_clashes, push_leaving,
    push_missing_measure, push_struct,
};
