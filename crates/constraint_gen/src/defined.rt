//! The definitions of a model in the order of the text.
ghost use Rattle.std.specs.Prelude.{◌≡◌, ◌≤◌, ◌++◌, ◌+◌, ◌∷◌, [], IfOk, OnOk, Some, drop, length, slice_get};
ghost use Rattle.sail_core.specs.declared.model.CoreModel.{CoreModel as Model};
ghost use Rattle.sail_core.specs.declared.model.Direction.{Direction as ADirection};
ghost use Rattle.pattern_leaves.specs.Settings.{Around as Settings};
ghost use Rattle.constraint_gen.specs.Models as models;
ghost use Rattle.constraint_gen.specs.Defined as spec;

use crate::order::sorted;
use sail_base::{Items, Place};
use sail_core::{CoreModel, Direction, Function, Opening};
use std::alloc::{AllocError, Global};

/// A definition that owes, by its place in a list of the model.
#[derive(Clone, Copy)]
pub enum Defined {
    /// A function.
    Function(usize),
    /// A function's measure.
    Measure(usize),
    /// A mapping, by its directions, forwards and backwards.
    Mapping(usize, usize),
    /// A direction without the other one, which no model that was resolved has.
    Half(usize),
    /// A top-level `let` or an initial value.
    Opening(usize),
}

/// A definition, and where it stands.
#[derive(Clone, Copy)]
pub struct Placed {
    /// Where it stands in the text.
    pub place: Place,
    /// Which one it is.
    pub defined: Defined,
}

/// Puts a definition. The one error is want of memory.
fn put(list: &mut Items<Placed>, place: Place, defined: Defined) -> Result<(), AllocError>
    ensures { (core : Model) (around : Settings) → OnOk result (spec.definitions_of core around list.new
        ≡ spec.definitions_of core around list.old ++ models.definition place (spec.walk_of core around defined) ∷ []) }
{
    list.push(Placed { place, defined })
}

/// Puts the measure of the function at a place, if it has one. The one error is want of memory.
fn put_measure(list: &mut Items<Placed>, function: &Function, at: usize) -> Result<(), AllocError>
    ensures { (core : Model) (around : Settings) → slice_get core.functions at ≡ Some function.now
        → OnOk result (spec.definitions_of core around list.new
        ≡ spec.definitions_of core around list.old ++ models.measure_definition around function.now function.now.measure) }
{
    match &function.measure {
        None => Ok(()),
        Some(measure) => put(list, measure.place, Defined::Measure(at)),
    }
}

/// Puts the function at a place, and its measure behind it. The one error is want of memory.
fn put_function(list: &mut Items<Placed>, function: &Function, at: usize) -> Result<(), AllocError>
    ensures { (core : Model) (around : Settings) → slice_get core.functions at ≡ Some function.now
        → OnOk result (spec.definitions_of core around list.new
        ≡ spec.definitions_of core around list.old ++ models.function_listed around function.now) }
{
    put(list, function.place, Defined::Function(at))?;
    put_measure(list, function, at)
}

/// Puts functions, each with its measure behind it. The one error is want of memory.
fn put_functions(list: &mut Items<Placed>, functions: &[Function]) -> Result<(), AllocError>
    ensures { (core : Model) (around : Settings) → core.functions ≡ functions.now → OnOk result (spec.definitions_of core around list.new
        ≡ spec.definitions_of core around list.old ++ models.function_definitions around functions.now) }
{
    for at in 0..functions.len() {
        put_function(list, &functions[at], at)?;
    }
    Ok(())
}

/// Puts the mapping of the directions at a place and behind it. The one error is want of memory.
fn put_mapping(
    list: &mut Items<Placed>,
    forwards: &Direction,
    at: usize,
    behind: usize,
) -> Result<(), AllocError>
    ensures { (core : Model) (around : Settings) (backwards : ADirection) → slice_get core.directions at ≡ Some forwards.now
        → slice_get core.directions behind ≡ Some backwards → OnOk result (spec.definitions_of core around list.new
        ≡ spec.definitions_of core around list.old ++ models.mapping_listed around forwards.now backwards) }
{
    put(list, forwards.place, Defined::Mapping(at, behind))
}

/// Puts the direction at a place, if one is left there. The one error is want of memory.
fn put_half(list: &mut Items<Placed>, directions: &[Direction], at: usize) -> Result<(), AllocError>
    requires within { at ≤ length directions.now }
    requires last { length directions.now ≤ at + 1 }
    ensures { (core : Model) (around : Settings) → core.directions ≡ directions.now → OnOk result (spec.definitions_of core around list.new
        ≡ spec.definitions_of core around list.old ++ models.half_listed (drop at directions.now)) }
{
    if at == directions.len() {
        return Ok(());
    }
    let direction = &directions[at];
    put(list, direction.place, Defined::Half(at))
}

/// Puts mappings. The one error is want of memory.
fn put_mappings(list: &mut Items<Placed>, directions: &[Direction]) -> Result<(), AllocError>
    ensures { (core : Model) (around : Settings) → core.directions ≡ directions.now → OnOk result (spec.definitions_of core around list.new
        ≡ spec.definitions_of core around list.old ++ models.mapping_definitions around directions.now) }
{
    let pairs = directions.len() / 2;
    for pair in 0..pairs {
        let at = 2 * pair;
        let behind = at + 1;
        let forwards = &directions[at];
        put_mapping(list, forwards, at, behind)?;
    }
    put_half(list, directions, 2 * pairs)
}

/// Puts the top-level `let` or initial value at a place. The one error is want of memory.
fn put_opening(list: &mut Items<Placed>, opening: &Opening, at: usize) -> Result<(), AllocError>
    ensures { (core : Model) (around : Settings) → slice_get core.openings at ≡ Some opening.now
        → OnOk result (spec.definitions_of core around list.new
        ≡ spec.definitions_of core around list.old ++ models.opening_listed (models.around_opening core at) opening.now) }
{
    put(list, opening.place, Defined::Opening(at))
}

/// Puts top-level lets and initial values. The one error is want of memory.
fn put_openings(list: &mut Items<Placed>, openings: &[Opening]) -> Result<(), AllocError>
    ensures { (core : Model) (around : Settings) → core.openings ≡ openings.now → OnOk result (spec.definitions_of core around list.new
        ≡ spec.definitions_of core around list.old ++ models.opening_definitions (models.around_with core []) openings.now) }
{
    for at in 0..openings.len() {
        put_opening(list, &openings[at], at)?;
    }
    Ok(())
}

/// The definitions of a model in the order in which they are listed. It fails where memory is wanting.
fn listed(alloc: Global, core: &CoreModel) -> Result<Items<Placed>, AllocError>
    ensures { (around : Settings) → IfOk result (λ list. spec.definitions_of core.now around list ≡ models.listed core.now around) }
{
    let mut list = Items::new(alloc);
    put_functions(&mut list, core.functions.as_slice())?;
    put_mappings(&mut list, core.directions.as_slice())?;
    put_openings(&mut list, core.openings.as_slice())?;
    Ok(list)
}

/// The definitions of a model in the order of the text. It fails where memory is wanting.
pub fn in_order(alloc: Global, core: &CoreModel) -> Result<Items<Placed>, AllocError>
    ensures { (around : Settings) → IfOk result (λ list. spec.definitions_of core.now around list ≡ models.definitions_under core.now around) }
{
    let list = listed(alloc, core)?;
    sorted(alloc, list.as_slice())
}
