//! What has to be true for a value of some indices to be of a type.
ghost use Rattle.std.specs.Prelude.{◌≡◌, slice_get, IfOk};
ghost use Rattle.sail_types.specs.declared.types.Typ.{out-Typ};
ghost use Rattle.sail_types.specs.Readings.{read_indices as read_indices_of};
ghost use Rattle.sail_types.specs.Named.{fields as fields_at, field_types};
ghost use Rattle.value_indices.specs.declared.indices.Indices.{out-Indices};
ghost use Rattle.value_indices.specs.declared.indices.Reading.TheVariants as R;
ghost use Rattle.value_fits.specs.Lent.{reading_of};
ghost use Rattle.value_fits.specs.Fitting as fitting;

use crate::conditions::{
    any_integer_fits, indices_fit, number_is, number_under, one, range_under, truth_under,
};
use crate::fitted::Fitted;
use crate::lent::{Named, behind, each_under};
use crate::opening::Opened;
use crate::pairs::{ended, pair_count};
use crate::places::placed;
use crate::premises::under_premise;
use crate::wanted::Wanted;
use sail_types::{Con, Field, Index, Typ, Types, deepest, read_con, read_indices};
use std::alloc::{AllocError, Global};
use value_indices::{Indices, Reading};

/// What has to be true for a value of these indices to be of this type, with variables from this number on. It fails where memory
/// is wanting, and where variables are too many.
pub fn fits(
    alloc: Global,
    types: &Types,
    value: &Indices,
    wanted: &Wanted<'_>,
    next: u32,
) -> Result<Fitted, AllocError>
    ensures { IfOk result (λ made. made ≡ fitting.fits types.now value.now (reading_of wanted.now) next) }
{
    fits_within(alloc, types, deepest(), value, wanted, next)
}

/// What has to be true for each item of this type to be of that one, with variables from this number on. It fails where memory is
/// wanting, and where variables are too many.
pub fn item_fits(
    alloc: Global,
    types: &Types,
    item: &Reading,
    wanted: &Wanted<'_>,
    next: u32,
) -> Result<Fitted, AllocError>
    ensures { IfOk result (λ made. made ≡ fitting.item_fits (fitting.fits types.now) item.now (reading_of wanted.now) next) }
{
    item_within(alloc, types, deepest(), item, wanted, next)
}

/// What has to be true, through types inside types to this depth.
#[cycle(fits)]
#[tactic(auto, using(crate::proofs::Depths::below))]
fn fits_within(
    alloc: Global,
    types: &Types,
    depth: usize,
    value: &Indices,
    wanted: &Wanted<'_>,
    next: u32,
) -> Result<Fitted, AllocError>
    ensures { IfOk result (λ made. made ≡ fitting.fits_within types.now depth value.now (reading_of wanted.now) next) }
{
    if depth == 0 {
        return Fitted::never(alloc, next);
    }
    value_fits(alloc, types, depth - 1, value, wanted, next)
}

/// What has to be true, the types inside to this depth.
#[cycle(fits)]
fn value_fits(
    alloc: Global,
    types: &Types,
    depth: usize,
    value: &Indices,
    wanted: &Wanted<'_>,
    next: u32,
) -> Result<Fitted, AllocError>
    ensures { IfOk result (λ made. made
        ≡ fitting.value_fits types.now (fitting.fits_within types.now depth) (out-Indices value.now) value.now (reading_of wanted.now) next) }
{
    match (value, wanted) {
        (Indices::Never, _) => Ok(Fitted::nothing(alloc, next)),
        (_, Wanted::Of(typ, indices, readings)) => typ_fits(
            alloc, types, depth, value, typ, indices, readings, next,
        ),
        (_, Wanted::Widened(wanted)) => widened_fits(alloc, types, depth, value, wanted, next),
        (Indices::Tuple(values), Wanted::Parts(parts)) => parts_fit(
            alloc,
            types,
            depth,
            values.as_slice(),
            parts,
            next,
        ),
        (_, Wanted::Parts(_)) => Fitted::never(alloc, next),
        (_, Wanted::Hole) => Ok(Fitted::nothing(alloc, next)),
    }
}

/// A value and a written type.
#[cycle(fits)]
fn typ_fits(
    alloc: Global,
    types: &Types,
    depth: usize,
    value: &Indices,
    typ: &Typ,
    indices: &[Index],
    readings: &[Reading],
    next: u32,
) -> Result<Fitted, AllocError>
    ensures { IfOk result (λ made. made
        ≡ fitting.typ_fits types.now (fitting.fits_within types.now depth) (out-Typ typ.now) indices.now readings.now value.now next) }
{
    match (typ, value) {
        (Typ::Variable(position), _) => variable_fits(
            alloc, types, depth, value, *position, readings, next,
        ),
        (Typ::Exists(_, condition, inside), _) => bound_fits(
            alloc,
            types,
            depth,
            value,
            condition,
            inside.get(),
            indices,
            readings,
            next,
        ),
        (Typ::Named(place, arguments, parts), _) => named_form(
            alloc,
            types,
            depth,
            value,
            *place,
            arguments.as_slice(),
            parts.as_slice(),
            indices,
            readings,
            next,
        ),
        (Typ::Unit, Indices::Unit) => Ok(Fitted::nothing(alloc, next)),
        (Typ::Bool, Indices::Truth(_)) => Ok(Fitted::nothing(alloc, next)),
        (Typ::Truth(wanted), Indices::Truth(truth)) => {
            truth_under(alloc, truth, wanted, indices, next)
        }
        (Typ::Bit, Indices::Bit) => Ok(Fitted::nothing(alloc, next)),
        (Typ::Bits(wanted), Indices::Bits(width)) => {
            number_under(alloc, width, wanted, indices, next)
        }
        (Typ::Int(wanted), Indices::Integer(number)) => {
            number_under(alloc, number, wanted, indices, next)
        }
        (Typ::Range(low, high), Indices::Integer(number)) => {
            range_under(alloc, number, low, high, indices, next)
        }
        (Typ::String, Indices::String) => Ok(Fitted::nothing(alloc, next)),
        (Typ::List(wanted), Indices::List(item)) => {
            let wanted = Wanted::Of(wanted.get(), indices, readings);
            item_within(alloc, types, depth, item.get(), &wanted, next)
        }
        (Typ::Vector(wanted, item_wanted), Indices::Vector(length, item)) => {
            let length = number_under(alloc, length, wanted, indices, next)?;
            let wanted = Wanted::Of(item_wanted.get(), indices, readings);
            let item = item_within(alloc, types, depth, item.get(), &wanted, next)?;
            length.also(item)
        }
        (Typ::Tuple(parts), Indices::Tuple(values)) => types_fit(
            alloc,
            types,
            depth,
            values.as_slice(),
            parts.as_slice(),
            indices,
            readings,
            next,
        ),
        _ => Fitted::never(alloc, next),
    }
}

/// Two Type variables of the function around them.
fn same_variable(alloc: Global, one: u32, other: u32, next: u32) -> Result<Fitted, AllocError>
    ensures { IfOk result (λ made. made ≡ fitting.same_variable one other next) }
{
    if one == other {
        Ok(Fitted::nothing(alloc, next))
    } else {
        Fitted::never(alloc, next)
    }
}

/// A value and a Type variable of the function around it.
fn own_variable(
    alloc: Global,
    position: u32,
    value: &Indices,
    next: u32,
) -> Result<Fitted, AllocError>
    ensures { IfOk result (λ made. made ≡ fitting.own_variable position (out-Indices value.now) next) }
{
    match value {
        Indices::Variable(own) => same_variable(alloc, position, *own, next),
        _ => Fitted::never(alloc, next),
    }
}

/// A value and a Type variable: what it stands for, or that of the function around it.
#[cycle(fits)]
fn variable_fits(
    alloc: Global,
    types: &Types,
    depth: usize,
    value: &Indices,
    position: u32,
    readings: &[Reading],
    next: u32,
) -> Result<Fitted, AllocError>
    ensures { IfOk result (λ made. made
        ≡ fitting.variable_fits (fitting.fits_within types.now depth) value.now position (slice_get readings.now position) next) }
{
    match readings.get(position as usize) {
        None => own_variable(alloc, position, value, next),
        Some(reading) => fits_within(alloc, types, depth, value, &Wanted::lent(reading), next),
    }
}

/// A value and `{'n, C. T}`: it has a number at the place of 'n.
#[cycle(fits)]
fn bound_fits(
    alloc: Global,
    types: &Types,
    depth: usize,
    value: &Indices,
    condition: &Con,
    inside: &Typ,
    indices: &[Index],
    readings: &[Reading],
    next: u32,
) -> Result<Fitted, AllocError>
    ensures { IfOk result (λ made. made
        ≡ fitting.bound_fits (fitting.fits_within types.now depth) value.now condition.now inside.now indices.now readings.now
        (fitting.placed inside.now 0 value.now) next) }
{
    match placed(alloc, inside, 0, value)? {
        None => Fitted::never(alloc, next),
        Some(own) => match &own {
            Index::Truth(_) => Fitted::never(alloc, next),
            Index::Number(_) => {
                let indices = behind(alloc, own, indices)?;
                bound_by(
                    alloc,
                    types,
                    depth,
                    value,
                    condition,
                    inside,
                    indices.as_slice(),
                    readings,
                    next,
                )
            }
        },
    }
}

/// A value and `C. T` where 'n stands for the number at its place: this makes C true, and then the value is of T.
#[cycle(fits)]
fn bound_by(
    alloc: Global,
    types: &Types,
    depth: usize,
    value: &Indices,
    condition: &Con,
    inside: &Typ,
    indices: &[Index],
    readings: &[Reading],
    next: u32,
) -> Result<Fitted, AllocError>
    ensures { IfOk result (λ made. made
        ≡ fitting.bound_by (fitting.fits_within types.now depth) value.now condition.now inside.now indices.now readings.now next) }
{
    let condition = read_con(alloc, condition, indices)?;
    let said = Fitted::says(alloc, one(alloc, condition)?, next);
    let wanted = Wanted::Of(inside, indices, readings);
    let made = fits_within(alloc, types, depth, value, &wanted, next)?;
    said.also(made)
}

/// A value and a named type, whose arguments are read first.
#[cycle(fits)]
fn named_form(
    alloc: Global,
    types: &Types,
    depth: usize,
    value: &Indices,
    place: u32,
    arguments: &[Index],
    parts: &[Typ],
    indices: &[Index],
    readings: &[Reading],
    next: u32,
) -> Result<Fitted, AllocError>
    ensures { IfOk result (λ made. made
        ≡ fitting.named_form types.now (fitting.fits_within types.now depth) place (read_indices_of indices.now arguments.now)
        (fitting.each_under indices.now readings.now parts.now) (out-Indices value.now) next) }
{
    let Some(arguments) = read_indices(alloc, arguments, indices)? else {
        return Fitted::never(alloc, next);
    };
    let parts = each_under(alloc, parts, indices, readings)?;
    let wanted = Named {
        place,
        indices: arguments.as_slice(),
        readings: parts.as_slice(),
    };
    match value {
        Indices::Named(own, indices, readings) => {
            let value = Named {
                place: *own,
                indices: indices.as_slice(),
                readings: readings.as_slice(),
            };
            same_named(alloc, types, depth, &value, &wanted, next)
        }
        _ => Fitted::never(alloc, next),
    }
}

/// A value of a named type and a named type.
#[cycle(fits)]
fn same_named(
    alloc: Global,
    types: &Types,
    depth: usize,
    value: &Named<'_>,
    wanted: &Named<'_>,
    next: u32,
) -> Result<Fitted, AllocError>
    ensures { IfOk result (λ made. made
        ≡ fitting.same_named types.now (fitting.fits_within types.now depth) wanted.now.place value.now.place value.now.indices.now
        value.now.readings.now wanted.now.indices.now wanted.now.readings.now next) }
{
    if wanted.place == value.place {
        named_fits(alloc, types, depth, value, wanted, next)
    } else {
        Fitted::never(alloc, next)
    }
}

/// A value of a named type and the same one: a struct by its fields, then its Int and Bool arguments, then its Type arguments.
#[cycle(fits)]
fn named_fits(
    alloc: Global,
    types: &Types,
    depth: usize,
    value: &Named<'_>,
    wanted: &Named<'_>,
    next: u32,
) -> Result<Fitted, AllocError>
    ensures { IfOk result (λ made. made
        ≡ fitting.named_fits types.now (fitting.fits_within types.now depth) wanted.now.place value.now.indices.now
        value.now.readings.now wanted.now.indices.now wanted.now.readings.now next) }
{
    let fields = own_fields_fit(alloc, types, depth, value, wanted, next)?;
    let conditions = indices_fit(alloc, value.indices, wanted.indices)?;
    let numbers = Fitted::says(alloc, conditions, fields.next);
    let arguments = arguments_fit(
        alloc,
        types,
        depth,
        value.readings,
        wanted.readings,
        fields.next,
    )?;
    fields.also(numbers.also(arguments)?)
}

/// The fields of a value and of a struct; no condition where the type is none.
#[cycle(fits)]
fn own_fields_fit(
    alloc: Global,
    types: &Types,
    depth: usize,
    value: &Named<'_>,
    wanted: &Named<'_>,
    next: u32,
) -> Result<Fitted, AllocError>
    ensures { IfOk result (λ made. made
        ≡ fitting.fields_fit (fitting.fits_within types.now depth) (fitting.types_of_fields (fields_at types.now wanted.now.place))
        value.now.indices.now value.now.readings.now wanted.now.indices.now wanted.now.readings.now next) }
{
    match types.fields(wanted.place) {
        None => Ok(Fitted::nothing(alloc, next)),
        Some(fields) => fields_fit(alloc, types, depth, fields, value, wanted, next),
    }
}

/// Fields, each opened at that moment.
#[cycle(fits)]
#[tactic(auto, using(crate::proofs::EachPair::joined_nothing))]
fn fields_fit(
    alloc: Global,
    types: &Types,
    depth: usize,
    fields: &[Field],
    value: &Named<'_>,
    wanted: &Named<'_>,
    next: u32,
) -> Result<Fitted, AllocError>
    ensures { IfOk result (λ made. made
        ≡ fitting.fields_fit (fitting.fits_within types.now depth) (field_types fields.now) value.now.indices.now value.now.readings.now
        wanted.now.indices.now wanted.now.readings.now next) }
{
    let mut made = Fitted::nothing(alloc, next);
    for field in fields {
        let more = field_fits(alloc, types, depth, &field.typ, value, wanted, made.next)?;
        made = made.also(more)?;
    }
    Ok(made)
}

/// A field, opened at that moment; what is known of it comes into force.
#[cycle(fits)]
fn field_fits(
    alloc: Global,
    types: &Types,
    depth: usize,
    typ: &Typ,
    value: &Named<'_>,
    wanted: &Named<'_>,
    next: u32,
) -> Result<Fitted, AllocError>
    ensures { IfOk result (λ made. made
        ≡ fitting.field_fits (fitting.fits_within types.now depth) (R.Of typ.now value.now.indices.now value.now.readings.now)
        (R.Of typ.now wanted.now.indices.now wanted.now.readings.now) next) }
{
    let Opened { value, facts, next } = Opened::of_type(
        alloc,
        typ,
        value.indices,
        value.readings,
        next,
    )?;
    let wanted = Wanted::Of(typ, wanted.indices, wanted.readings);
    let made = fits_within(alloc, types, depth, &value, &wanted, next)?;
    Fitted::known(alloc, facts, next).also(made)
}

/// Type arguments, which fit both ways; what is false where there are more of either.
#[cycle(fits)]
#[tactic(auto, using(crate::proofs::EachPair::pairs_ended))]
fn arguments_fit(
    alloc: Global,
    types: &Types,
    depth: usize,
    values: &[Reading],
    wanted: &[Reading],
    next: u32,
) -> Result<Fitted, AllocError>
    ensures { IfOk result (λ made. made ≡ fitting.arguments_fit (fitting.fits_within types.now depth) values.now wanted.now next) }
{
    let count = pair_count(values.len(), wanted.len());
    let mut made = Fitted::nothing(alloc, next);
    for index in 0..count {
        let more = argument_fits(
            alloc,
            types,
            depth,
            &values[index],
            &wanted[index],
            made.next,
        )?;
        made = made.also(more)?;
    }
    ended(alloc, made, values.len() == wanted.len())
}

/// A Type argument, which fits both ways, the value's first.
#[cycle(fits)]
fn argument_fits(
    alloc: Global,
    types: &Types,
    depth: usize,
    value: &Reading,
    wanted: &Reading,
    next: u32,
) -> Result<Fitted, AllocError>
    ensures { IfOk result (λ made. made ≡ fitting.argument_fits (fitting.fits_within types.now depth) value.now wanted.now next) }
{
    let there = item_within(alloc, types, depth, value, &Wanted::lent(wanted), next)?;
    let back = item_within(
        alloc,
        types,
        depth,
        wanted,
        &Wanted::lent(value),
        there.next,
    )?;
    there.also(back)
}

/// What an item has to satisfy: what is known of it is a premise.
#[cycle(fits)]
fn item_within(
    alloc: Global,
    types: &Types,
    depth: usize,
    item: &Reading,
    wanted: &Wanted<'_>,
    next: u32,
) -> Result<Fitted, AllocError>
    ensures { IfOk result (λ made. made ≡ fitting.item_fits (fitting.fits_within types.now depth) item.now (reading_of wanted.now) next) }
{
    let Opened { value, facts, next } = Opened::of(alloc, item, next)?;
    let made = fits_within(alloc, types, depth, &value, wanted, next)?;
    under_premise(alloc, facts, made)
}

/// Parts and types that are read already.
#[cycle(fits)]
#[tactic(auto, using(crate::proofs::EachPair::pairs_ended))]
fn parts_fit(
    alloc: Global,
    types: &Types,
    depth: usize,
    values: &[Indices],
    wanted: &[Reading],
    next: u32,
) -> Result<Fitted, AllocError>
    ensures { IfOk result (λ made. made ≡ fitting.each_pair (fitting.fits_within types.now depth) values.now wanted.now next) }
{
    let count = pair_count(values.len(), wanted.len());
    let mut made = Fitted::nothing(alloc, next);
    for index in 0..count {
        let part = Wanted::lent(&wanted[index]);
        let more = fits_within(alloc, types, depth, &values[index], &part, made.next)?;
        made = made.also(more)?;
    }
    ended(alloc, made, values.len() == wanted.len())
}

/// Parts and written types.
#[cycle(fits)]
#[tactic(auto, using(crate::proofs::EachPair::pairs_ended))]
fn types_fit(
    alloc: Global,
    types: &Types,
    depth: usize,
    values: &[Indices],
    wanted: &[Typ],
    indices: &[Index],
    readings: &[Reading],
    next: u32,
) -> Result<Fitted, AllocError>
    ensures { IfOk result (λ made. made
        ≡ fitting.each_pair (fitting.typed_fits (fitting.fits_within types.now depth) indices.now readings.now) values.now wanted.now next) }
{
    let count = pair_count(values.len(), wanted.len());
    let mut made = Fitted::nothing(alloc, next);
    for index in 0..count {
        let part = Wanted::Of(&wanted[index], indices, readings);
        let more = fits_within(alloc, types, depth, &values[index], &part, made.next)?;
        made = made.also(more)?;
    }
    ended(alloc, made, values.len() == wanted.len())
}

/// Parts and the widened types of others.
#[cycle(fits)]
#[tactic(auto, using(crate::proofs::EachPair::pairs_ended))]
fn each_widened_fits(
    alloc: Global,
    types: &Types,
    depth: usize,
    values: &[Indices],
    wanted: &[Indices],
    next: u32,
) -> Result<Fitted, AllocError>
    ensures { IfOk result (λ made. made
        ≡ fitting.each_pair (fitting.widened_part (fitting.fits_within types.now depth)) values.now wanted.now next) }
{
    let count = pair_count(values.len(), wanted.len());
    let mut made = Fitted::nothing(alloc, next);
    for index in 0..count {
        let part = Wanted::Widened(&wanted[index]);
        let more = fits_within(alloc, types, depth, &values[index], &part, made.next)?;
        made = made.also(more)?;
    }
    ended(alloc, made, values.len() == wanted.len())
}

/// A value and the widened type of another.
#[cycle(fits)]
fn widened_fits(
    alloc: Global,
    types: &Types,
    depth: usize,
    value: &Indices,
    wanted: &Indices,
    next: u32,
) -> Result<Fitted, AllocError>
    ensures { IfOk result (λ made. made
        ≡ fitting.widened_fits types.now (fitting.fits_within types.now depth) (out-Indices wanted.now) (out-Indices value.now) next) }
{
    match (wanted, value) {
        (Indices::Unit, Indices::Unit) => Ok(Fitted::nothing(alloc, next)),
        (Indices::Truth(_), Indices::Truth(_)) => Ok(Fitted::nothing(alloc, next)),
        (Indices::Bit, Indices::Bit) => Ok(Fitted::nothing(alloc, next)),
        (Indices::Bits(wanted), Indices::Bits(width)) => number_is(alloc, width, wanted, next),
        (Indices::Integer(_), Indices::Integer(number)) => any_integer_fits(alloc, number, next),
        (Indices::String, Indices::String) => Ok(Fitted::nothing(alloc, next)),
        (Indices::List(wanted), Indices::List(item)) => {
            let wanted = Wanted::lent(wanted.get());
            item_within(alloc, types, depth, item.get(), &wanted, next)
        }
        (Indices::Vector(wanted, item_wanted), Indices::Vector(length, item)) => {
            let length = number_is(alloc, length, wanted, next)?;
            let wanted = Wanted::lent(item_wanted.get());
            let item = item_within(alloc, types, depth, item.get(), &wanted, next)?;
            length.also(item)
        }
        (Indices::Tuple(wanted), Indices::Tuple(values)) => each_widened_fits(
            alloc,
            types,
            depth,
            values.as_slice(),
            wanted.as_slice(),
            next,
        ),
        (
            Indices::Named(place, indices, readings),
            Indices::Named(own, own_indices, own_readings),
        ) => {
            let wanted = Named {
                place: *place,
                indices: indices.as_slice(),
                readings: readings.as_slice(),
            };
            let value = Named {
                place: *own,
                indices: own_indices.as_slice(),
                readings: own_readings.as_slice(),
            };
            same_named(alloc, types, depth, &value, &wanted, next)
        }
        (Indices::Variable(position), Indices::Variable(own)) => {
            same_variable(alloc, *own, *position, next)
        }
        _ => Fitted::never(alloc, next),
    }
}
