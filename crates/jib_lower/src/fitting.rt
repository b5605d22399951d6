//! Numbers of the cycles of functions that fit the cycles of a model and the calls of its instances.
ghost use Rattle.std.specs.Prelude.{◌≡◌, length, true, IfErr, IfOk, IsFalse, IsTrue};
ghost use Rattle.jib_lower.specs.Crossings.{turns_of as turns_in};
ghost use Rattle.jib_lower.specs.Cycles.{NumbersFit, all_there};
ghost use Rattle.jib_lower.specs.Errors.{OrMemory};
ghost use Rattle.jib_lower.specs.Left.{EntriesLeft};

use crate::crossings::turns_of;
use crate::cycles::{are_fitting, are_there, cycle_numbers, instances_fall};
use crate::error::LowerError;
use crate::turns::turns_fall;
use sail_base::Items;
use sail_core::{CoreModel, Function};
use sized_nodes::{NodeSizes, SizedCore, SizedInstance};
use std::alloc::Global;

/// Whether these numbers fit the cycles of functions and the calls of instances, also through the directions to which these lead.
fn are_numbers(
    functions: &[Function],
    instances: &[SizedInstance],
    mappings: &[Items<NodeSizes>],
    turns: &[Items<u32>],
    numbers: &[u32],
) -> bool
    ensures is { IsTrue result → NumbersFit functions.now instances.now mappings.now turns.now numbers.now }
    ensures no { IsFalse result → NumbersFit functions.now instances.now mappings.now turns.now numbers.now → ⊥ }
{
    let fit = are_fitting(functions, numbers);
    let fall = instances_fall(numbers, instances, instances);
    if fit {
        if fall {
            turns_fall(numbers, instances, mappings, turns, instances)
        } else {
            false
        }
    } else {
        false
    }
}

/// Numbers that fit a model, the functions of whose instances are there. It fails where there are none, and where memory is wanting.
fn numbers_there(
    alloc: Global,
    core: &CoreModel,
    sized: &SizedCore,
) -> Result<Items<u32>, LowerError>
    requires there { all_there (length core.now.functions) sized.now.instances ≡ true }
    ensures fit { IfOk result (λ numbers. NumbersFit core.now.functions sized.now.instances sized.now.mappings (turns_in core.now) numbers) }
    ensures left { IfErr result (OrMemory (EntriesLeft core.now sized.now)) }
{
    let functions = core.functions.as_slice();
    let instances = sized.instances.as_slice();
    let mappings = sized.mappings.as_slice();
    let found = turns_of(alloc, core)?;
    let turns = found.as_slice();
    let numbers = cycle_numbers(alloc, functions, instances, mappings, turns)?;
    let fit = are_numbers(functions, instances, mappings, turns, numbers.as_slice());
    if fit {
        Ok(numbers)
    } else {
        Err(LowerError::NotThere)
    }
}

/// Numbers that fit a model. It fails where the function of an instance isn't there, where no numbers fit, and where memory is wanting.
pub fn fitting_numbers(
    alloc: Global,
    core: &CoreModel,
    sized: &SizedCore,
) -> Result<Items<u32>, LowerError>
    ensures fit { IfOk result (λ numbers. NumbersFit core.now.functions sized.now.instances sized.now.mappings (turns_in core.now) numbers) }
    ensures left { IfErr result (OrMemory (EntriesLeft core.now sized.now)) }
{
    let there = are_there(core.functions.len(), sized.instances.as_slice());
    if there {
        numbers_there(alloc, core, sized)
    } else {
        Err(LowerError::NotThere)
    }
}
