ghost use Rattle.std.specs.Prelude.{◌≡◌, ℕ, ◌+◌, ◌^◌, ◌<◌, true, false, ◌&&◌, ◌||◌, if◌then◌else◌, length, slice_index_or, IfErr, IfOk, OnOk, None, Some, is_none};
ghost use Rattle.std.specs.List.{zip};
ghost use Rattle.sail_syntax.specs.Places.{definition_place};
ghost use Rattle.scattered.specs.Openings.{role, stays, next_number};
ghost use Rattle.scattered.specs.Gathered.{belongs_to};
ghost use Rattle.scattered.specs.Refused.{failure, is_end, is_ended, parts_failure, IsRefusal};
ghost use Rattle.scattered.specs.Latest.{IsWithin, AreWithin};
ghost use Rattle.scattered.specs.declared.error.ScatterError.TheVariants as error;

use crate::error::ScatterError;
use sail_base::Place;
use sail_syntax::{Def, Name};
use std::alloc::{AllocError, Global};

/// Refuses the first definition that fails, where each belongs to the opening with this number.
pub(crate) fn check(
    alloc: Global,
    definitions: &[Def],
    openings: &[Option<usize>],
) -> Result<(), ScatterError>
    requires aligned { length openings.now ≡ length definitions.now }
    requires within { AreWithin (length definitions.now) openings.now }
    ensures passed { OnOk result (parts_failure (zip definitions.now openings.now) ≡ None) }
    ensures failed { IfErr result (IsRefusal (parts_failure (zip definitions.now openings.now))) }
{
    let ended = find_ended(alloc, definitions, openings)?;
    let mut number = 0;
    for (index, definition) in definitions.iter().enumerate() {
        let is_ended = ended.get(number).copied().unwrap_or(false);
        match check_definition(definition, openings[index], is_ended) {
            Ok(()) => {}
            Err(error) => return Err(error),
        }
        number = next_number(definition, number);
    }
    Ok(())
}

/// For each number, whether its definition has an `end`. The one error is want of memory.
fn find_ended(
    alloc: Global,
    definitions: &[Def],
    openings: &[Option<usize>],
) -> Result<Vec<bool>, AllocError>
    requires aligned { length openings.now ≡ length definitions.now }
    requires within { AreWithin (length definitions.now) openings.now }
    ensures { IfOk result (λ ended. (number : ℕ)
        → slice_index_or ended.items number false ≡ is_ended (zip definitions.now openings.now) number) }
{
    let mut ended = vec![in alloc; false; definitions.len()]?;
    for (index, definition) in definitions.iter().enumerate() {
        mark_end(definition, openings[index], &mut ended);
    }
    Ok(ended)
}

/// Where a definition is an `end`, marks the opening that it ends.
fn mark_end(definition: &Def, opening: Option<usize>, ended: &mut Vec<bool>)
    requires { IsWithin (length ended.old.items) opening }
    ensures count { length ended.new.items ≡ length ended.old.items }
    ensures marks { (number : ℕ) → slice_index_or ended.new.items number false
        ≡ (slice_index_or ended.old.items number false || (is_end (role definition.now) && belongs_to number (definition.now, opening))) }
{
    if let Def::End(_, _) = definition {
        if let Some(number) = opening {
            ended[number] = true;
        }
    }
}

/// The number of the next definition of the gathered text.
fn next_number(definition: &Def, number: usize) -> usize
    requires { number + 1 < 2 ^ 64 }
    ensures { result ≡ next_number (role definition.now) number }
{
    if stays(definition) {
        number + 1
    } else {
        number
    }
}

/// Whether a definition has a place of its own in the gathered text.
fn stays(definition: &Def) -> bool
    ensures { result ≡ stays (role definition.now) }
{
    match definition {
        Def::UnionClause(_, _, _) => false,
        Def::FunctionClause(_, _) => false,
        Def::MappingClause(_, _, _) => false,
        Def::End(_, _) => false,
        _ => true,
    }
}

/// Refuses a clause and an `end` without an opening, and an opening that hasn't ended.
fn check_definition(
    definition: &Def,
    opening: Option<usize>,
    ended: bool,
) -> Result<(), ScatterError>
    ensures passed { OnOk result (failure (role definition.now) (definition_place definition.now) opening ended ≡ None) }
    ensures failed { IfErr result (IsRefusal (failure (role definition.now) (definition_place definition.now) opening ended)) }
{
    match definition {
        Def::ScatteredUnion(place, name, _) => check_opening(*place, name, ended),
        Def::ScatteredFunction(place, name) => check_opening(*place, name, ended),
        Def::ScatteredMapping(place, name) => check_opening(*place, name, ended),
        Def::UnionClause(place, name, _) => check_part(*place, name, opening),
        Def::FunctionClause(name, clause) => check_part(clause.place, name, opening),
        Def::MappingClause(place, name, _) => check_part(*place, name, opening),
        Def::End(place, name) => check_part(*place, name, opening),
        _ => Ok(()),
    }
}

fn check_opening(place: Place, name: &Name, ended: bool) -> Result<(), ScatterError>
    ensures passed { OnOk result (ended ≡ true) }
    ensures failed { IfErr result (IsRefusal (if ended then None else Some (error.Unended place name.now.text))) }
{
    if ended {
        Ok(())
    } else {
        Err(ScatterError::Unended(place, name.text.clone()?))
    }
}

fn check_part(place: Place, name: &Name, opening: Option<usize>) -> Result<(), ScatterError>
    ensures passed { OnOk result (is_none opening ≡ false) }
    ensures failed { IfErr result (IsRefusal (if is_none opening then Some (error.NoOpening place name.now.text) else None)) }
{
    match opening {
        Some(_) => Ok(()),
        None => Err(ScatterError::NoOpening(place, name.text.clone()?)),
    }
}
