//! What is found of a pattern binds the names that are found, by the rules of shapes.
//!
//! A law a form, by the form's rule, and then all of them: where the tables find no failure in a pattern's names, and shapes none in
//! it, its core binds those names in each world in which what it names is there.
#![tactic(auto)]

mod laws;

pub use laws::patterns_stand;
