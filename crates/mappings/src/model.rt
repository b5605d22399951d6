//! The definitions of a model.
ghost use Rattle.std.specs.Prelude.{◌≡◌, true, map, IfOk};
ghost use Rattle.sail_core.specs.declared.fragments.Fragment.TheVariants as fragment;
ghost use Rattle.sail_core.specs.Fragments.{model_in};
ghost use Rattle.sail_core.specs.Meaning.{option_typ};
ghost use Rattle.sail_core.specs.Start.{model_meaning};
ghost use Rattle.mappings.specs.Rewriting as freed;

use crate::nodes::{free_core, free_measure};
use crate::patterns::free_arm;
use sail_base::Items;
use sail_core::{Core, CoreModel, Direction, Function, Kind, Opening, OpeningKind};
use sail_types::Typ;
use std::alloc::{AllocError, Global};
use type_arguments::copy_typ;

fn free_function(alloc: Global, function: Function) -> Result<Function, AllocError>
    ensures { IfOk result (λ made. made ≡ freed.free_function function) }
{
    let Function {
        place,
        name,
        variables,
        type_variables,
        constraint,
        parameters,
        result,
        is_declared,
        numbers,
        cycle,
        measure,
        body,
        entry,
        last,
    } = function;
    let measure = free_measure(alloc, measure)?;
    let body = free_core(alloc, body)?;
    Ok(Function {
        place,
        name,
        variables,
        type_variables,
        constraint,
        parameters,
        result,
        is_declared,
        numbers,
        cycle,
        measure,
        body,
        entry,
        last,
    })
}

fn free_functions(alloc: Global, functions: Items<Function>) -> Result<Items<Function>, AllocError>
    ensures { IfOk result (λ made. made ≡ map freed.free_function functions) }
{
    let mut made = Items::new(alloc);
    for function in functions.into_vec() {
        made.push(free_function(alloc, function)?)?;
    }
    Ok(made)
}

/// `option(T)`
fn option_of(alloc: Global, typ: Typ) -> Result<Typ, AllocError>
    ensures { IfOk result (λ made. made ≡ option_typ typ) }
{
    let mut arguments = Items::new(alloc);
    arguments.push(typ)?;
    Ok(Typ::Named(0, Items::new(alloc), arguments))
}

fn free_direction(alloc: Global, direction: Direction) -> Result<Direction, AllocError>
    ensures { IfOk result (λ made. made ≡ freed.free_direction direction) }
{
    let Direction {
        place,
        name,
        parameter,
        result,
        body,
    } = direction;
    let kind = Kind::Optional(copy_typ(alloc, &result)?);
    let clauses = free_core(alloc, body)?;
    let body = Core::over(alloc, place, u32::MAX, kind, clauses)?;
    let result = option_of(alloc, result)?;
    Ok(Direction {
        place,
        name,
        parameter,
        result,
        body,
    })
}

fn free_directions(
    alloc: Global,
    directions: Items<Direction>,
) -> Result<Items<Direction>, AllocError>
    ensures { IfOk result (λ made. made ≡ map freed.free_direction directions) }
{
    let mut made = Items::new(alloc);
    for direction in directions.into_vec() {
        made.push(free_direction(alloc, direction)?)?;
    }
    Ok(made)
}

fn free_opening_kind(alloc: Global, kind: OpeningKind) -> Result<OpeningKind, AllocError>
    ensures { IfOk result (λ made. made ≡ freed.free_opening_kind kind) }
{
    match kind {
        OpeningKind::Let(arm) => Ok(OpeningKind::Let(free_arm(alloc, arm)?)),
        OpeningKind::Register(register) => Ok(OpeningKind::Register(register)),
    }
}

fn free_opening(alloc: Global, opening: Opening) -> Result<Opening, AllocError>
    ensures { IfOk result (λ made. made ≡ freed.free_opening opening) }
{
    let Opening { place, kind, value } = opening;
    let kind = free_opening_kind(alloc, kind)?;
    let value = free_core(alloc, value)?;
    Ok(Opening { place, kind, value })
}

fn free_openings(alloc: Global, openings: Items<Opening>) -> Result<Items<Opening>, AllocError>
    ensures { IfOk result (λ made. made ≡ map freed.free_opening openings) }
{
    let mut made = Items::new(alloc);
    for opening in openings.into_vec() {
        made.push(free_opening(alloc, opening)?)?;
    }
    Ok(made)
}

/// The model without mappings: each direction is a function that gives an option, and calls and patterns ask it. What is resolved
/// means the same then, and no mapping is left. It fails where memory is wanting.
pub fn rewrite(alloc: Global, model: CoreModel) -> Result<CoreModel, AllocError>
    ensures rewritten { IfOk result (λ free. free ≡ freed.without_mappings model) }
    ensures means { IfOk result (λ free. model_in fragment.Resolved model ≡ true → model_meaning free ≡ model_meaning model) }
    ensures map_free { IfOk result (λ free. model_in fragment.MapFree free ≡ true) }
{
    let CoreModel {
        types,
        exception,
        registers,
        register_texts,
        functions,
        directions,
        openings,
        reset,
        step,
    } = model;
    let functions = free_functions(alloc, functions)?;
    let directions = free_directions(alloc, directions)?;
    let openings = free_openings(alloc, openings)?;
    Ok(CoreModel {
        types,
        exception,
        registers,
        register_texts,
        functions,
        directions,
        openings,
        reset,
        step,
    })
}
