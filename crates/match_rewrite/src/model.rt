//! The definitions of a model.
ghost use Rattle.std.specs.Prelude.{◌≡◌, true, map, IfOk};
ghost use Rattle.sail_core.specs.declared.fragments.Fragment.TheVariants as fragment;
ghost use Rattle.sail_core.specs.Fragments.{model_in};
ghost use Rattle.sail_core.specs.Start.{model_meaning};
ghost use Rattle.match_rewrite.specs.Rewriting as flat;

use crate::arms::flat_arm;
use crate::nodes::{flat_core, flat_measure};
use sail_base::Items;
use sail_core::{CoreModel, Direction, Function, Opening, OpeningKind};
use std::alloc::{AllocError, Global};

fn flat_function(alloc: Global, function: Function) -> Result<Function, AllocError>
    ensures { IfOk result (λ made. made ≡ flat.flat_function function) }
{
    let Function {
        place,
        name,
        variables,
        type_variables,
        constraint,
        parameters,
        result,
        is_declared,
        numbers,
        cycle,
        measure,
        body,
        entry,
        last,
    } = function;
    let measure = flat_measure(alloc, measure)?;
    let body = flat_core(alloc, body)?;
    Ok(Function {
        place,
        name,
        variables,
        type_variables,
        constraint,
        parameters,
        result,
        is_declared,
        numbers,
        cycle,
        measure,
        body,
        entry,
        last,
    })
}

fn flat_functions(alloc: Global, functions: Items<Function>) -> Result<Items<Function>, AllocError>
    ensures { IfOk result (λ made. made ≡ map flat.flat_function functions) }
{
    let mut made = Items::new(alloc);
    for function in functions.into_vec() {
        made.push(flat_function(alloc, function)?)?;
    }
    Ok(made)
}

fn flat_direction(alloc: Global, direction: Direction) -> Result<Direction, AllocError>
    ensures { IfOk result (λ made. made ≡ flat.flat_direction direction) }
{
    let Direction {
        place,
        name,
        parameter,
        result,
        body,
    } = direction;
    let body = flat_core(alloc, body)?;
    Ok(Direction {
        place,
        name,
        parameter,
        result,
        body,
    })
}

fn flat_directions(
    alloc: Global,
    directions: Items<Direction>,
) -> Result<Items<Direction>, AllocError>
    ensures { IfOk result (λ made. made ≡ map flat.flat_direction directions) }
{
    let mut made = Items::new(alloc);
    for direction in directions.into_vec() {
        made.push(flat_direction(alloc, direction)?)?;
    }
    Ok(made)
}

fn flat_opening_kind(alloc: Global, kind: OpeningKind) -> Result<OpeningKind, AllocError>
    ensures { IfOk result (λ made. made ≡ flat.flat_opening_kind kind) }
{
    match kind {
        OpeningKind::Let(arm) => Ok(OpeningKind::Let(flat_arm(alloc, arm)?)),
        OpeningKind::Register(register) => Ok(OpeningKind::Register(register)),
    }
}

fn flat_opening(alloc: Global, opening: Opening) -> Result<Opening, AllocError>
    ensures { IfOk result (λ made. made ≡ flat.flat_opening opening) }
{
    let Opening { place, kind, value } = opening;
    let kind = flat_opening_kind(alloc, kind)?;
    let value = flat_core(alloc, value)?;
    Ok(Opening { place, kind, value })
}

fn flat_openings(alloc: Global, openings: Items<Opening>) -> Result<Items<Opening>, AllocError>
    ensures { IfOk result (λ made. made ≡ map flat.flat_opening openings) }
{
    let mut made = Items::new(alloc);
    for opening in openings.into_vec() {
        made.push(flat_opening(alloc, opening)?)?;
    }
    Ok(made)
}

/// The model with flat arms: each pattern becomes steps, which look at one value each. It means the same, and where it has no
/// mappings, it is flat. It fails where memory is wanting, or where an arm would have 2^32 values in hand.
pub fn rewrite(alloc: Global, model: CoreModel) -> Result<CoreModel, AllocError>
    ensures rewritten { IfOk result (λ made. made ≡ flat.with_flat_arms model) }
    ensures means { IfOk result (λ made. model_meaning made ≡ model_meaning model) }
    ensures flat { IfOk result (λ made. model_in fragment.MapFree model ≡ true → model_in fragment.Flat made ≡ true) }
{
    let CoreModel {
        types,
        exception,
        registers,
        register_texts,
        functions,
        directions,
        openings,
        reset,
        step,
    } = model;
    let functions = flat_functions(alloc, functions)?;
    let directions = flat_directions(alloc, directions)?;
    let openings = flat_openings(alloc, openings)?;
    Ok(CoreModel {
        types,
        exception,
        registers,
        register_texts,
        functions,
        directions,
        openings,
        reset,
        step,
    })
}
