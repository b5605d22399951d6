//! Tests of the crates of values and types, with values from outside: words and texts, types under arguments, the builtins and
//! their table of types, which values have a shape, and shapes that leave parts open.
//!
//! They stand here and not in those crates, since a crate with tests is proved a second time with them.
#![tactic(auto)]

#[cfg(test)]
mod arguments;
#[cfg(test)]
mod conditions;
#[cfg(test)]
mod fits;
#[cfg(test)]
mod joins;
#[cfg(test)]
mod named;
#[cfg(test)]
mod rows;
#[cfg(test)]
mod small;
#[cfg(test)]
mod types;
#[cfg(test)]
mod words;
#[cfg(test)]
mod written;
