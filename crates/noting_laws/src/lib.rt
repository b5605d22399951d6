//! A law of what a node notes: the numbers that its value gives.
//!
//! `specs/Noting` has the law.
#![tactic(auto)]

ghost use Rattle.noting_laws.specs.Noting.{NumbersAreNoted};

/// Where a value has the indices that name a variable, the variable's integer is noted behind it. It does nothing.
pub fn numbers_are_noted()
    ensures { NumbersAreNoted }
{}
