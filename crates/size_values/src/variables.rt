//! What the variables of a number are.
ghost use Rattle.std.specs.Prelude.{◌≡◌, IfOk};
ghost use Rattle.size_values.specs.Numbers as spec;

use crate::constants::{Constant, Picked, copy_constant};
use std::alloc::{AllocError, Global};

/// What the variables of a number are.
#[derive(Clone, Copy)]
pub enum Variables<'a> {
    /// Those of a walk: these numbers, in order, where nothing is known of those past their end; before them the numbers that are taken.
    Known(&'a [Option<i128>], &'a [Picked]),
    /// Those of a walk: all are known but this one.
    AllBut(u32),
    /// Those of a walk: all before this one are known.
    Before(u32),
    /// Those of a type: its arguments; 0 for one past their end.
    Arguments(&'a [Constant]),
}

/// The number of a variable where these are known, in order.
fn number_at(numbers: &[Option<i128>], variable: u32) -> Option<i128>
    ensures { result ≡ spec.known_of numbers.now variable }
{
    match numbers.get(variable as usize) {
        Some(number) => *number,
        None => None,
    }
}

/// The number of a variable where some are known, and these are taken.
#[tactic(auto, using(crate::proofs::Picks::end_of_picks))]
fn known_number(numbers: &[Option<i128>], picked: &[Picked], variable: u32) -> Option<i128>
    ensures { result ≡ spec.with_picked (spec.known_of numbers.now) picked.now variable }
{
    for pick in picked {
        if pick.variable == variable {
            return Some(pick.number);
        }
    }
    number_at(numbers, variable)
}

impl Variables<'_> {
    /// The number of a variable, where it is constant.
    pub fn number(&self, variable: u32) -> Option<i128>
        ensures { result ≡ spec.number_in (spec.meant self.now variable) }
    {
        match self {
            Variables::Known(numbers, picked) => known_number(numbers, picked, variable),
            Variables::AllBut(open) => if *open == variable { None } else { Some(0) },
            Variables::Before(end) => if variable < *end { Some(0) } else { None },
            Variables::Arguments(arguments) => match arguments.get(variable as usize) {
                Some(Constant::Number(number)) => Some(*number),
                Some(_) => None,
                None => Some(0),
            },
        }
    }

    /// What a variable is. It fails where memory is wanting.
    pub fn constant(&self, alloc: Global, variable: u32) -> Result<Constant, AllocError>
        ensures { IfOk result (λ made. made ≡ spec.meant self.now variable) }
    {
        match self {
            Variables::Arguments(arguments) => match arguments.get(variable as usize) {
                Some(argument) => copy_constant(alloc, argument),
                None => Ok(Constant::Number(0)),
            },
            _ => match self.number(variable) {
                Some(number) => Ok(Constant::Number(number)),
                None => Ok(Constant::Open(variable)),
            },
        }
    }
}
