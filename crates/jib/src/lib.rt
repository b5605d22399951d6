//! Flat code over typed slots: a module of functions, what their runs come to, and the check of its rules.
//!
//! What an instruction and a run do stands in `specs/Jib`, what the openings come to in `specs/Openings`, and the rules of a
//! valid module in `specs/Valid`.
#![tactic(auto)]

mod checked;
mod code;
mod instructions;
mod labels;
mod laws;
mod operands;
mod purity;
mod sorts;
mod types;
mod typing;
mod validity;

pub use checked::Checked;
pub use code::{Call, Function, Instruction, Literal, Module, Opening, Operation, Source, Target};
pub use labels::label_place;
pub use laws::{constants_belong, declared_before_use, one_run};
pub use operands::{alike, operation_right};
pub use sorts::{comparable, has_state};
pub use types::{Sort, ValueType};
pub use typing::{literal, payload_typ, sort_at};
pub use validity::{are_typs, validate};
