//! The code of nodes of the core under constant sizes.
//!
//! `put_node` puts the code of a node that is lowered here, and what comes behind its value: just the definition in `lowered_pieces`
//! (`specs/Lowering`) under any numbering that begins with the slots that are there.
#![tactic(auto)]

mod arms;
mod bindings;
mod branches;
mod calls;
mod leaves;
mod loops;
mod mappings;
mod operands;
mod paths;
mod stops;
mod walk;
mod writes;

pub use mappings::put_optional;
pub use walk::{Walk, put_node};
