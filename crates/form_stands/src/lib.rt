//! What is found of an expression stands by the rules of shapes.
//!
//! A law a form, by the form's rule, and then all of them: where the tables find no failure in an expression's names, and shapes none
//! in it, its core has the shape that is found, in each world in which what it names is there.
#![tactic(auto)]

mod laws;

pub use laws::expressions_stand;
