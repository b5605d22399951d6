//! The tree of a model's text: definitions, expressions, patterns and types, as they are written,
//! each with its place.
#![tactic(auto)]

pub mod build;
mod definitions;
mod expressions;
mod name;
mod names;
mod patterns;
mod places;
mod plain;
mod types;
mod words;

pub use definitions::{
    Def, FunctionClause, MappingClause, Member, Overloaded, Param, Quantifier, Side, Sides,
};
pub use expressions::{Case, Exp, FieldValue, Index, LExp, Range, Stmt, Suffix, Target};
pub use name::{Literal, Name};
pub use names::{names_of, push_names};
pub use patterns::{Joined, Pat};
pub use types::TyExp;
pub use words::{
    Arrow, Asking, Brackets, Choosing, Direction, Extent, Leaving, Looping, TypeOperator,
    TypePrefix,
};
