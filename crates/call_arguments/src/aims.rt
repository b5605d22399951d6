//! What is wanted of an expression.
ghost use Rattle.std.specs.Prelude.{◌≡◌, IfOk};
ghost use Rattle.std.specs.Option.{option_copied};
ghost use Rattle.call_arguments.specs.Aims as aims;
ghost use Rattle.call_arguments.specs.declared.aims.Aim.TheVariants as Aims;

use std::alloc::{AllocError, Global};
use value_indices::{Reading, copy_reading};

/// What is wanted of an expression.
pub enum Aim {
    /// Nothing.
    Free,
    /// A type, where the form around it owes what the expression itself doesn't.
    Given(Reading),
    /// A type, of a part of a tuple.
    PartOf(Reading),
    /// A type, where the expression owes it at its own place.
    Due(Reading),
}

impl Drop for Aim {
    fn drop(self) {
        match self {
            Aim::Free => {}
            Aim::Given(_) => {}
            Aim::PartOf(_) => {}
            Aim::Due(_) => {}
        }
    }
}

/// Whether this is no type.
pub fn is_hole(reading: &Reading) -> bool
    ensures { result ≡ aims.is_hole reading.now }
{
    match reading {
        Reading::Hole => true,
        _ => false,
    }
}

impl Aim {
    /// This type, where the form around it owes what the expression itself doesn't; nothing where it is no type.
    pub fn given(reading: Reading) -> Aim
        ensures { result ≡ aims.aimed Aims.Given reading }
    {
        if is_hole(&reading) {
            Aim::Free
        } else {
            Aim::Given(reading)
        }
    }

    /// This type, of a part of a tuple; nothing where it is no type.
    pub fn part_of(reading: Reading) -> Aim
        ensures { result ≡ aims.aimed Aims.PartOf reading }
    {
        if is_hole(&reading) {
            Aim::Free
        } else {
            Aim::PartOf(reading)
        }
    }

    /// This type, where the expression owes it at its own place; nothing where it is no type.
    pub fn due(reading: Reading) -> Aim
        ensures { result ≡ aims.aimed Aims.Due reading }
    {
        if is_hole(&reading) {
            Aim::Free
        } else {
            Aim::Due(reading)
        }
    }

    /// What is wanted of the last expression of a block, and of the body of a `let` or `var`, where this is wanted of the whole. It
    /// fails where memory is wanting.
    pub fn inner(&self, alloc: Global) -> Result<Aim, AllocError>
        ensures { IfOk result (λ made. made ≡ aims.inner_aim self.now) }
    {
        match self {
            Aim::Free => Ok(Aim::Free),
            Aim::Given(reading) => Ok(Aim::Due(copy_reading(alloc, reading)?)),
            Aim::PartOf(reading) => Ok(Aim::PartOf(copy_reading(alloc, reading)?)),
            Aim::Due(reading) => Ok(Aim::Due(copy_reading(alloc, reading)?)),
        }
    }

    /// What is wanted of the branches of an `if`, `match` or `try`, where this is wanted of the whole. It fails where memory is wanting.
    pub fn branch(&self, alloc: Global) -> Result<Aim, AllocError>
        ensures { IfOk result (λ made. made ≡ aims.branch_aim self.now) }
    {
        match self {
            Aim::Free => Ok(Aim::Free),
            Aim::Given(reading) => Ok(Aim::Due(copy_reading(alloc, reading)?)),
            Aim::PartOf(reading) => Ok(Aim::Due(copy_reading(alloc, reading)?)),
            Aim::Due(reading) => Ok(Aim::Due(copy_reading(alloc, reading)?)),
        }
    }

    /// The type that is wanted; none where nothing is.
    pub fn wanted(&self) -> Option<&Reading>
        ensures { option_copied result ≡ aims.wanted self.now }
    {
        match self {
            Aim::Free => None,
            Aim::Given(reading) => Some(reading),
            Aim::PartOf(reading) => Some(reading),
            Aim::Due(reading) => Some(reading),
        }
    }
}
