//! What names of top-level lets are elsewhere.
ghost use Rattle.std.specs.Prelude.{◌≡◌, IfOk, Some, map, slice_get};
ghost use Rattle.std.specs.List.{list_all};
ghost use Rattle.pattern_leaves.specs.Settings.{around_of};
ghost use Rattle.constraint_gen.specs.Defined.{AreNames, first_names as first_names_of};
ghost use Rattle.constraint_gen.specs.Models as models;

use crate::openings::walk_let;
use pattern_leaves::{Around, Bound, Held, TopLevel};
use sail_base::{Items, Place, Text};
use sail_core::{Arm, Core, CoreModel, Opening, OpeningKind};
use sail_types::Index;
use std::alloc::{AllocError, Global};
use value_indices::{Indices, Reading, Walking, copy_indices, copy_reading};
use wide_types::{is_below, is_con_below, widened};

/// The names of the top-level lets of a model.
#[derive(Drop)]
pub struct TopLevels {
    /// What they are, in order.
    pub names: Items<TopLevel>,
    /// For each top-level `let` and initial value, how many of them stand before it.
    pub counts: Items<usize>,
}

/// Whether an argument names no variable.
fn is_index_constant(index: &Index) -> bool
    ensures { result ≡ models.index_constant index.now }
{
    match index {
        Index::Number(number) => is_below(0, number),
        Index::Truth(con) => is_con_below(0, con),
    }
}

/// Whether each of several arguments names no variable.
fn are_indices_constant(indices: &[Index]) -> bool
    ensures { result ≡ list_all models.index_constant indices.now }
{
    for index in indices {
        if !is_index_constant(index) {
            return false;
        }
    }
    true
}

/// Whether no part of indices names a variable.
#[cycle(constant)]
fn is_constant(indices: &Indices) -> bool
    ensures { result ≡ models.is_constant indices.now }
{
    match indices {
        Indices::Truth(con) => is_con_below(0, con),
        Indices::Bits(width) => is_below(0, width),
        Indices::Integer(number) => is_below(0, number),
        Indices::List(item) => is_reading_constant(item.get()),
        Indices::Vector(length, item) => is_below(0, length) && is_reading_constant(item.get()),
        Indices::Tuple(parts) => are_constant(parts.as_slice()),
        Indices::Named(_, indices, readings) => {
            are_indices_constant(indices.as_slice()) && are_readings_constant(readings.as_slice())
        }
        _ => true,
    }
}

/// Whether no part of several indices names a variable.
#[cycle(constant)]
fn are_constant(parts: &[Indices]) -> bool
    ensures { result ≡ list_all (λ b. b) (map models.is_constant parts.now) }
{
    for part in parts {
        if !is_constant(part) {
            return false;
        }
    }
    true
}

/// Whether no part of a type under what its variables stand for names a variable.
#[cycle(constant)]
fn is_reading_constant(reading: &Reading) -> bool
    ensures { result ≡ models.is_reading_constant reading.now }
{
    match reading {
        Reading::Of(_, indices, readings) => {
            are_indices_constant(indices.as_slice()) && are_readings_constant(readings.as_slice())
        }
        Reading::Widened(indices) => is_constant(indices.get()),
        Reading::Parts(parts) => are_readings_constant(parts.as_slice()),
        Reading::Hole => true,
    }
}

/// The same of several.
#[cycle(constant)]
fn are_readings_constant(readings: &[Reading]) -> bool
    ensures { result ≡ list_all (λ b. b) (map models.is_reading_constant readings.now) }
{
    for reading in readings {
        if !is_reading_constant(reading) {
            return false;
        }
    }
    true
}

/// A name of a value that was bound with a written type, if there is one. It fails where memory is wanting.
fn read_as(
    alloc: Global,
    name: &Text,
    written: &Option<Reading>,
    indices: &Indices,
) -> Result<TopLevel, AllocError>
    ensures { IfOk result (λ made. made ≡ models.read_as name.now written.now indices.now) }
{
    if is_constant(indices) {
        return Ok(TopLevel::Known(copy_indices(alloc, indices)?));
    }
    let reading = match written {
        Some(reading) => copy_reading(alloc, reading)?,
        None => widened(alloc, indices)?,
    };
    Ok(TopLevel::Read(name.clone()?, reading))
}

/// What a name that was bound is elsewhere. It fails where memory is wanting.
fn top_level(alloc: Global, bound: &Bound) -> Result<TopLevel, AllocError>
    ensures { IfOk result (λ made. made ≡ models.top_level bound.now) }
{
    match &bound.held {
        Held::Value(indices) => read_as(alloc, &bound.name, &bound.written, indices),
        Held::Var(reading) => {
            let reading = copy_reading(alloc, reading)?;
            Ok(TopLevel::Read(bound.name.clone()?, reading))
        }
    }
}

/// What the names are that a top-level `let` of this arm binds. It fails where memory is wanting, and where variables are too many.
fn let_names(
    alloc: Global,
    around: &Around<'_>,
    place: Place,
    arm: &Arm,
    value: &Core,
) -> Result<Items<TopLevel>, AllocError>
    ensures { IfOk result (λ made. made ≡ models.let_names (around_of around.now) place arm.now value.now) }
{
    let mut walking = Walking::new(alloc, 0);
    let found = walk_let(alloc, &mut walking, around, place, arm, value)?;
    let mut made = Items::new(alloc);
    for bound in found.as_slice() {
        made.push(top_level(alloc, bound)?)?;
    }
    Ok(made)
}

/// What the names are that a top-level `let` binds; an initial value binds none. It fails where memory is wanting, and where variables
/// are too many.
fn names_of(
    alloc: Global,
    around: &Around<'_>,
    opening: &Opening,
) -> Result<Items<TopLevel>, AllocError>
    ensures { IfOk result (λ made. made ≡ models.names_of (around_of around.now) opening.now opening.now.kind) }
{
    match &opening.kind {
        OpeningKind::Let(arm) => let_names(alloc, around, opening.place, arm, &opening.value),
        OpeningKind::Register(_) => Ok(Items::new(alloc)),
    }
}

/// What is known around the definitions of a model, where top-level lets bound these names.
pub fn around_model<'a>(core: &'a CoreModel, lets: &'a [TopLevel]) -> Around<'a>
    ensures { around_of result ≡ models.around_with core.now lets.now }
{
    Around {
        types: &core.types,
        exception: core.exception,
        registers: core.registers.as_slice(),
        functions: core.functions.as_slice(),
        directions: core.directions.as_slice(),
        lets,
        numbers: &[],
        answer: None,
    }
}

/// The names of a model's top-level lets. It fails where memory is wanting, and where variables are too many.
pub fn top_levels(alloc: Global, core: &CoreModel) -> Result<TopLevels, AllocError>
    ensures { IfOk result (λ lets. AreNames core.now lets) }
{
    let mut names = Items::new(alloc);
    let mut counts = Items::new(alloc);
    for opening in core.openings.as_slice() {
        let count = names.len();
        counts.push(count)?;
        let around = around_model(core, names.as_slice());
        let more = names_of(alloc, &around, opening)?;
        names.append(more)?;
    }
    Ok(TopLevels { names, counts })
}

/// So many of these names, from the first on.
fn names_before(names: &[TopLevel], count: usize) -> &[TopLevel]
    ensures { result.now ≡ first_names_of names.now (Some count) }
{
    if count < names.len() {
        &names[..count]
    } else {
        names
    }
}

/// The names that stand before the top-level `let` or initial value at a place; all where there is no such one.
fn first_names<'a>(names: &'a [TopLevel], counts: &[usize], at: usize) -> &'a [TopLevel]
    ensures { result.now ≡ first_names_of names.now (slice_get counts.now at) }
{
    match counts.get(at) {
        None => names,
        Some(count) => names_before(names, *count),
    }
}

/// What is known around the top-level `let` or initial value at a place.
pub fn around_opening<'a>(core: &'a CoreModel, lets: &'a TopLevels, at: usize) -> Around<'a>
    requires { AreNames core.now lets.now }
    ensures { around_of result ≡ models.around_opening core.now at }
{
    let names = first_names(lets.names.as_slice(), lets.counts.as_slice(), at);
    around_model(core, names)
}
