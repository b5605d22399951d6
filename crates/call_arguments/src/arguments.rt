//! What the arguments of a call owe.
ghost use Rattle.std.specs.Prelude.{◌≡◌, ◌&&◌, IfOk, OnOk, if◌then◌else◌, length, map, nat_eq};
ghost use Rattle.sail_types.specs.declared.numbers.Con.{out-Con};
ghost use Rattle.value_fits.specs.Fitting as fitting;
ghost use Rattle.value_fits.specs.Lent.{reading_of};
ghost use Rattle.value_indices.specs.declared.indices.Indices.{out-Indices};
ghost use Rattle.value_indices.specs.declared.indices.Reading.TheVariants as R;
ghost use Rattle.call_arguments.specs.Callees.{is_closed as is_closed_of};
ghost use Rattle.call_arguments.specs.Placing as places;

use crate::closed::is_closed;
use crate::counts::{least_of_three, least_of_two};
use crate::holes::types_without_holes;
use crate::places::{number_placed, place_within, truth_placed};
use sail_base::Items;
use sail_types::{Con, Index, Num, Typ, Types, read_con};
use std::alloc::{AllocError, Global};
use value_fits::{Fitted, Wanted, fits, item_fits};
use value_indices::{Function, Indices, Reading};

/// What has to be true for a vector to be of a parameter's type: its length, unless that gives the number of a variable, and its items.
fn vector_placed(
    alloc: Global,
    types: &Types,
    wanted: &Num,
    item: &Wanted<'_>,
    indices: &[Index],
    known: &mut Items<u32>,
    length: &Num,
    own: &Reading,
    next: u32,
) -> Result<Fitted, AllocError>
    ensures fitted { IfOk result (λ made. made
        ≡ places.Placing.fitted (places.vector_placed (fitting.fits types.now) indices.now wanted.now (reading_of item.now) known.old length.now
        own.now next)) }
    ensures placed { OnOk result (known.new
        ≡ places.Placing.placed (places.vector_placed (fitting.fits types.now) indices.now wanted.now (reading_of item.now) known.old length.now
        own.now next)) }
{
    let length = number_placed(alloc, indices, wanted, known, length, next)?;
    let items = item_fits(alloc, types, own, item, next)?;
    length.also(items)
}

/// What has to be true for an argument to be of its parameter's type, as a whole: no place in it is left out that gives a number.
fn whole_fits(
    alloc: Global,
    types: &Types,
    typ: &Typ,
    indices: &[Index],
    readings: &[Reading],
    known: &mut Items<u32>,
    value: &Indices,
    next: u32,
) -> Result<Fitted, AllocError>
    ensures fitted { IfOk result (λ made. made ≡ places.Placing.fitted (places.whole_placed (fitting.fits types.now) indices.now readings.now
        typ.now known.old value.now next)) }
    ensures placed { OnOk result (known.new ≡ places.Placing.placed (places.whole_placed (fitting.fits types.now) indices.now readings.now
        typ.now known.old value.now next)) }
{
    place_within(alloc, typ, value, indices.len(), known)?;
    let wanted = Wanted::Of(typ, indices, readings);
    fits(alloc, types, value, &wanted, next)
}

/// What has to be true for an argument to be of its parameter's type, an integer, unless it gives the number of a variable.
fn int_fits(
    alloc: Global,
    types: &Types,
    typ: &Typ,
    wanted: &Num,
    indices: &[Index],
    readings: &[Reading],
    known: &mut Items<u32>,
    value: &Indices,
    next: u32,
) -> Result<Fitted, AllocError>
    ensures fitted { IfOk result (λ made. made ≡ places.Placing.fitted (places.int_placed indices.now wanted.now known.old next
        (places.whole_placed (fitting.fits types.now) indices.now readings.now typ.now known.old value.now next) (out-Indices value.now))) }
    ensures placed { OnOk result (known.new ≡ places.Placing.placed (places.int_placed indices.now wanted.now known.old next
        (places.whole_placed (fitting.fits types.now) indices.now readings.now typ.now known.old value.now next) (out-Indices value.now))) }
{
    match value {
        Indices::Integer(number) => number_placed(alloc, indices, wanted, known, number, next),
        _ => whole_fits(alloc, types, typ, indices, readings, known, value, next),
    }
}

/// The same of bits, unless their width gives the number of a variable.
fn bits_fits(
    alloc: Global,
    types: &Types,
    typ: &Typ,
    wanted: &Num,
    indices: &[Index],
    readings: &[Reading],
    known: &mut Items<u32>,
    value: &Indices,
    next: u32,
) -> Result<Fitted, AllocError>
    ensures fitted { IfOk result (λ made. made ≡ places.Placing.fitted (places.bits_placed indices.now wanted.now known.old next
        (places.whole_placed (fitting.fits types.now) indices.now readings.now typ.now known.old value.now next) (out-Indices value.now))) }
    ensures placed { OnOk result (known.new ≡ places.Placing.placed (places.bits_placed indices.now wanted.now known.old next
        (places.whole_placed (fitting.fits types.now) indices.now readings.now typ.now known.old value.now next) (out-Indices value.now))) }
{
    match value {
        Indices::Bits(width) => number_placed(alloc, indices, wanted, known, width, next),
        _ => whole_fits(alloc, types, typ, indices, readings, known, value, next),
    }
}

/// The same of a Bool, unless it gives the truth of a variable.
fn bool_fits(
    alloc: Global,
    types: &Types,
    typ: &Typ,
    wanted: &Con,
    indices: &[Index],
    readings: &[Reading],
    known: &mut Items<u32>,
    value: &Indices,
    next: u32,
) -> Result<Fitted, AllocError>
    ensures fitted { IfOk result (λ made. made ≡ places.Placing.fitted (places.bool_placed indices.now wanted.now known.old next
        (places.whole_placed (fitting.fits types.now) indices.now readings.now typ.now known.old value.now next) (out-Indices value.now))) }
    ensures placed { OnOk result (known.new ≡ places.Placing.placed (places.bool_placed indices.now wanted.now known.old next
        (places.whole_placed (fitting.fits types.now) indices.now readings.now typ.now known.old value.now next) (out-Indices value.now))) }
{
    match value {
        Indices::Truth(truth) => truth_placed(alloc, indices, wanted, known, truth, next),
        _ => whole_fits(alloc, types, typ, indices, readings, known, value, next),
    }
}

/// The same of a vector, but for its length where that gives the number of a variable.
fn items_fit(
    alloc: Global,
    types: &Types,
    typ: &Typ,
    wanted: &Num,
    item: &Typ,
    indices: &[Index],
    readings: &[Reading],
    known: &mut Items<u32>,
    value: &Indices,
    next: u32,
) -> Result<Fitted, AllocError>
    ensures fitted { IfOk result (λ made. made ≡ places.Placing.fitted (places.items_placed (fitting.fits types.now) indices.now wanted.now
        (R.Of item.now indices.now readings.now) known.old next
        (places.whole_placed (fitting.fits types.now) indices.now readings.now typ.now known.old value.now next) (out-Indices value.now))) }
    ensures placed { OnOk result (known.new ≡ places.Placing.placed (places.items_placed (fitting.fits types.now) indices.now wanted.now
        (R.Of item.now indices.now readings.now) known.old next
        (places.whole_placed (fitting.fits types.now) indices.now readings.now typ.now known.old value.now next) (out-Indices value.now))) }
{
    match value {
        Indices::Vector(length, own) => {
            let item = Wanted::Of(item, indices, readings);
            vector_placed(
                alloc,
                types,
                wanted,
                &item,
                indices,
                known,
                length,
                own.get(),
                next,
            )
        }
        _ => whole_fits(alloc, types, typ, indices, readings, known, value, next),
    }
}

/// What has to be true for an argument to be of its parameter's type, where the callee's variables stand for these, but at the places
/// that give them their numbers; with variables of the walk from this number on. It fails where memory is wanting, and where variables
/// are too many.
#[cycle(places)]
fn parameter_fits(
    alloc: Global,
    types: &Types,
    typ: &Typ,
    indices: &[Index],
    readings: &[Reading],
    known: &mut Items<u32>,
    value: &Indices,
    next: u32,
) -> Result<Fitted, AllocError>
    ensures fitted { IfOk result (λ made. made
        ≡ places.Placing.fitted (places.parameter_fits (fitting.fits types.now) indices.now readings.now typ.now known.old value.now next)) }
    ensures placed { OnOk result (known.new
        ≡ places.Placing.placed (places.parameter_fits (fitting.fits types.now) indices.now readings.now typ.now known.old value.now next)) }
{
    match typ {
        Typ::Int(wanted) => int_fits(
            alloc, types, typ, wanted, indices, readings, known, value, next,
        ),
        Typ::Bits(wanted) => bits_fits(
            alloc, types, typ, wanted, indices, readings, known, value, next,
        ),
        Typ::Truth(wanted) => bool_fits(
            alloc, types, typ, wanted, indices, readings, known, value, next,
        ),
        Typ::Vector(wanted, item) => items_fit(
            alloc,
            types,
            typ,
            wanted,
            item.get(),
            indices,
            readings,
            known,
            value,
            next,
        ),
        Typ::Tuple(parts) => match value {
            Indices::Tuple(values) => tuple_fits(
                alloc,
                types,
                typ,
                parts.as_slice(),
                indices,
                readings,
                known,
                value,
                values.as_slice(),
                next,
            ),
            _ => whole_fits(alloc, types, typ, indices, readings, known, value, next),
        },
        _ => whole_fits(alloc, types, typ, indices, readings, known, value, next),
    }
}

/// The same of a tuple, part by part where it has as many parts as its type.
#[cycle(places)]
fn tuple_fits(
    alloc: Global,
    types: &Types,
    typ: &Typ,
    parts: &[Typ],
    indices: &[Index],
    readings: &[Reading],
    known: &mut Items<u32>,
    value: &Indices,
    values: &[Indices],
    next: u32,
) -> Result<Fitted, AllocError>
    ensures fitted { IfOk result (λ made. made
        ≡ places.Placing.fitted (if nat_eq (length parts.now) (length values.now)
        then places.each_placing (map (places.parameter_fits (fitting.fits types.now) indices.now readings.now) parts.now) values.now known.old next
        else places.whole_placed (fitting.fits types.now) indices.now readings.now typ.now known.old value.now next)) }
    ensures placed { OnOk result (known.new
        ≡ places.Placing.placed (if nat_eq (length parts.now) (length values.now)
        then places.each_placing (map (places.parameter_fits (fitting.fits types.now) indices.now readings.now) parts.now) values.now known.old next
        else places.whole_placed (fitting.fits types.now) indices.now readings.now typ.now known.old value.now next)) }
{
    if parts.len() == values.len() {
        each_fits(alloc, types, parts, indices, readings, known, values, next)
    } else {
        whole_fits(alloc, types, typ, indices, readings, known, value, next)
    }
}

/// The same of the parts of a tuple.
#[cycle(places)]
fn each_fits(
    alloc: Global,
    types: &Types,
    parts: &[Typ],
    indices: &[Index],
    readings: &[Reading],
    known: &mut Items<u32>,
    values: &[Indices],
    next: u32,
) -> Result<Fitted, AllocError>
    ensures fitted { IfOk result (λ made. made
        ≡ places.Placing.fitted (places.each_placing (map (places.parameter_fits (fitting.fits types.now) indices.now readings.now) parts.now)
        values.now known.old next)) }
    ensures placed { OnOk result (known.new
        ≡ places.Placing.placed (places.each_placing (map (places.parameter_fits (fitting.fits types.now) indices.now readings.now) parts.now)
        values.now known.old next)) }
{
    let count = least_of_two(parts.len(), values.len());
    let mut made = Fitted::nothing(alloc, next);
    for index in 0..count {
        let more = parameter_fits(
            alloc,
            types,
            &parts[index],
            indices,
            readings,
            known,
            &values[index],
            made.next,
        )?;
        made = made.also(more)?;
    }
    Ok(made)
}

/// Whether what an argument owes is owed further in. It fails where binders are too many.
fn is_owed_within(is_nested: bool, typ: &Typ) -> Result<bool, AllocError>
    ensures { IfOk result (λ is. is ≡ is_nested && is_closed_of typ.now) }
{
    if is_nested { is_closed(typ) } else { Ok(false) }
}

/// The same of an argument, nothing where it owes that further in.
fn argument_fits(
    alloc: Global,
    types: &Types,
    is_nested: bool,
    typ: &Typ,
    indices: &[Index],
    readings: &[Reading],
    known: &mut Items<u32>,
    value: &Indices,
    next: u32,
) -> Result<Fitted, AllocError>
    ensures fitted { IfOk result (λ made. made
        ≡ places.Placing.fitted (places.argument_fits (fitting.fits types.now) indices.now readings.now is_nested typ.now known.old value.now next)) }
    ensures placed { OnOk result (known.new
        ≡ places.Placing.placed (places.argument_fits (fitting.fits types.now) indices.now readings.now is_nested typ.now known.old value.now next)) }
{
    if is_owed_within(is_nested, typ)? {
        return Ok(Fitted::nothing(alloc, next));
    }
    parameter_fits(alloc, types, typ, indices, readings, known, value, next)
}

/// The same of all arguments, in order.
fn arguments_fit(
    alloc: Global,
    types: &Types,
    nested: &[bool],
    parameters: &[Typ],
    indices: &[Index],
    readings: &[Reading],
    known: &mut Items<u32>,
    values: &[Indices],
    next: u32,
) -> Result<Fitted, AllocError>
    ensures { IfOk result (λ made. made
        ≡ places.Placing.fitted (places.arguments_fit (fitting.fits types.now) indices.now readings.now nested.now parameters.now values.now
        known.old next)) }
{
    let count = least_of_three(nested.len(), parameters.len(), values.len());
    let mut made = Fitted::nothing(alloc, next);
    for index in 0..count {
        let more = argument_fits(
            alloc,
            types,
            nested[index],
            &parameters[index],
            indices,
            readings,
            known,
            &values[index],
            made.next,
        )?;
        made = made.also(more)?;
    }
    Ok(made)
}

/// Whether a constraint is `true`.
fn is_trivial(con: &Con) -> bool
    ensures { result ≡ places.is_trivial_form (out-Con con.now) }
{
    match con {
        Con::Truth(truth) => *truth,
        _ => false,
    }
}

/// A callee's constraint where its variables stand for these arguments; none where it is `true`. It fails where memory is wanting.
fn constraint_of(
    alloc: Global,
    indices: &[Index],
    con: &Con,
) -> Result<Items<Option<Con>>, AllocError>
    ensures { IfOk result (λ made. made ≡ places.constraint_of indices.now con.now) }
{
    let mut made = Items::new(alloc);
    if is_trivial(con) {
        return Ok(made);
    }
    made.push(read_con(alloc, con, indices)?)?;
    Ok(made)
}

/// That each argument is of its parameter's type, where the function's variables stand for these, unless it owes that further in, and the
/// constraint. It fails where memory is wanting, and where variables are too many.
fn arguments_owe(
    alloc: Global,
    types: &Types,
    function: &Function,
    indices: &[Index],
    readings: &[Reading],
    nested: &[bool],
    arguments: &[Indices],
    next: u32,
) -> Result<Fitted, AllocError>
    ensures { IfOk result (λ made. made
        ≡ places.arguments_owe (fitting.fits types.now) function.now indices.now readings.now nested.now arguments.now next) }
{
    let mut known = Items::new(alloc);
    let fitted = arguments_fit(
        alloc,
        types,
        nested,
        function.parameters.as_slice(),
        indices,
        readings,
        &mut known,
        arguments,
        next,
    )?;
    let conditions = constraint_of(alloc, indices, &function.constraint)?;
    let constraint = Fitted::says(alloc, conditions, fitted.next);
    fitted.also(constraint)
}

/// Whether there are as many arguments as parameters.
fn are_as_many(nested: &[bool], parameters: &[Typ], arguments: &[Indices]) -> bool
    ensures { result ≡ places.are_as_many nested.now parameters.now arguments.now }
{
    nested.len() == parameters.len() && arguments.len() == parameters.len()
}

/// The same; what is false where there are more arguments than parameters, or fewer.
fn conditions_of(
    alloc: Global,
    types: &Types,
    function: &Function,
    indices: &[Index],
    readings: &[Reading],
    nested: &[bool],
    arguments: &[Indices],
    next: u32,
) -> Result<Fitted, AllocError>
    ensures { IfOk result (λ made. made
        ≡ places.conditions_of (fitting.fits types.now) function.now indices.now readings.now nested.now arguments.now next) }
{
    if are_as_many(nested, function.parameters.as_slice(), arguments) {
        arguments_owe(
            alloc, types, function, indices, readings, nested, arguments, next,
        )
    } else {
        Fitted::never(alloc, next)
    }
}

/// What a call of a function owes: that each argument is of its parameter's type, where the function's variables stand for these, unless
/// it owes that further in, and the constraint; of a hole in what a Type variable stands for is only what never ends. Variables of the walk
/// are counted from this number on. It fails where memory is wanting, and where variables are too many.
pub fn call_conditions(
    alloc: Global,
    types: &Types,
    function: &Function,
    indices: &[Index],
    readings: &[Reading],
    nested: &[bool],
    arguments: &[Indices],
    next: u32,
) -> Result<Fitted, AllocError>
    ensures { IfOk result (λ made. made
        ≡ places.call_conditions (fitting.fits types.now) function.now indices.now readings.now nested.now arguments.now next) }
{
    let owed = types_without_holes(alloc, readings)?;
    conditions_of(
        alloc,
        types,
        function,
        indices,
        owed.as_slice(),
        nested,
        arguments,
        next,
    )
}
