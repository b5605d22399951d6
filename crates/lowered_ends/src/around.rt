//! What is around a function.
ghost use Rattle.std.specs.Prelude.{◌≡◌, slice_get, slice_index_or, IfOk};
ghost use Rattle.lowered_pieces.specs.Nodes.{function_in};
ghost use Rattle.lowered_pieces.specs.Tables.{leads_to};
ghost use Rattle.lowered_ends.specs.Around.{answer_in, called_number};

use lowered_steps::further;
use size_values::{Sized, copy_sized};
use sized_nodes::{Lead, SizedInstance};
use std::alloc::{AllocError, Global};

/// What is around a function: the instances, behind so many functions of directions, the types of what it is called with, and the openings of the names of
/// top-level lets.
#[derive(Clone, Copy)]
pub struct Around<'a> {
    /// The instances.
    pub instances: &'a [SizedInstance],
    /// The types of what it is called with.
    pub given: &'a [Sized],
    /// For each name of a top-level let the opening that gives its value.
    pub openings: &'a [u32],
    /// How many functions stand before those of instances.
    pub before: u32,
}

impl Around<'_> {
    /// The type of the result of the instance at a place; that of what doesn't exist where there is none. It fails where memory is wanting.
    pub fn answer(&self, alloc: Global, instance: usize) -> Result<Sized, AllocError>
        ensures { IfOk result (λ answer. answer ≡ answer_in (slice_get self.now.instances.now instance)) }
    {
        match self.instances.get(instance) {
            Some(found) => match &found.signature {
                Some(signature) => match signature.result.cases.as_slice() {
                    [only] => copy_sized(alloc, &only.gives),
                    _ => Ok(Sized::Never),
                },
                None => Ok(Sized::Never),
            },
            None => Ok(Sized::Never),
        }
    }

    /// The opening that gives the value of a name; the first where there is no such name.
    pub fn opening(&self, name: u32) -> u32
        ensures { result ≡ slice_index_or self.now.openings.now name 0 }
    {
        match self.openings.get(name as usize) {
            Some(opening) => *opening,
            None => 0,
        }
    }
}

/// The function of the instance at a place; the first where there is none.
fn function_at(around: &Around<'_>, instance: usize) -> u32
    ensures { result ≡ function_in (slice_get around.now.instances.now instance) }
{
    match around.instances.get(instance) {
        Some(found) => found.instance.function,
        None => 0,
    }
}

/// Whether calls all lead to instances of one function.
pub fn lead_to(around: &Around<'_>, function: u32, leads: &[Lead]) -> bool
    ensures { result ≡ leads_to (λ p. function_in (slice_get around.now.instances.now p)) function leads.now }
{
    match leads {
        [] => true,
        [first, rest @ ..] => {
            function_at(around, first.instance) == function && lead_to(around, function, rest)
        }
    }
}

/// The function that calls of the instance at a place enter, behind so many others. It fails where there are 2^32 functions or more.
pub fn called_function(before: u32, instance: usize) -> Result<u32, AllocError>
    ensures { IfOk result (λ number. number ≡ called_number before instance) }
{
    match u32::try_from(instance) {
        Ok(place) => further(before, further(place, place)?),
        Err(_) => Err(AllocError),
    }
}
