//! Types with numbers and truths opened, under what their variables stand for.
ghost use Rattle.std.specs.Prelude.{◌≡◌, ◌∷◌, map, slice_get, unwrap_or, option_copied, IfOk, OnOk};
ghost use Rattle.sail_types.specs.Sums as sums;
ghost use Rattle.sail_types.specs.declared.numbers.Index.TheVariants as N;
ghost use Rattle.value_indices.specs.Opening as opening;
ghost use Rattle.value_indices.specs.Walking as walk;
ghost use Rattle.value_indices.specs.declared.indices.Indices.TheVariants as I;
ghost use Rattle.value_indices.specs.declared.indices.Reading.TheVariants as R;

use crate::copies::copy_readings;
use crate::indices::{Indices, Naming, Reading};
use crate::opening::{
    bits_of, integer_between, integer_of, number_or_fresh, read_each_or_fresh, truth_or_fresh,
    vector_of,
};
use crate::walking::Walking;
use sail_base::{Boxed, Items, Text};
use sail_types::{Con, Index, Num, Typ, read_con, read_number};
use std::alloc::{AllocError, Global};
use type_arguments::{copy_indices as copy_arguments, copy_typ};

/// `bool(C)`
#[tactic(auto, using(crate::proofs::Walks::walks), unfolding(crate::specs::Opening::truth_opened))]
pub fn open_truth(
    alloc: Global,
    walked: &mut Walking,
    indices: &[Index],
    con: &Con,
) -> Result<Indices, AllocError>
    ensures value { IfOk result (λ made. made ≡ walk.got (opening.truth_opened indices.now con.now) (walk.seen walked.old)) }
    ensures walked { OnOk result (walk.seen walked.new ≡ walk.run (opening.truth_opened indices.now con.now) (walk.seen walked.old)) }
{
    let truth = read_con(alloc, con, indices)?;
    Ok(Indices::Truth(truth_or_fresh(walked, truth)?))
}

/// `bits(t)`
#[tactic(auto, using(crate::proofs::Walks::walks), unfolding(crate::specs::Opening::bits_opened))]
pub fn open_bits(
    alloc: Global,
    walked: &mut Walking,
    indices: &[Index],
    width: &Num,
) -> Result<Indices, AllocError>
    ensures value { IfOk result (λ made. made ≡ walk.got (opening.bits_opened indices.now width.now) (walk.seen walked.old)) }
    ensures walked { OnOk result (walk.seen walked.new ≡ walk.run (opening.bits_opened indices.now width.now) (walk.seen walked.old)) }
{
    let width = read_number(alloc, width, indices)?;
    let width = number_or_fresh(alloc, walked, width)?;
    bits_of(alloc, walked, width)
}

/// `int(t)`
#[tactic(auto, using(crate::proofs::Walks::walks), unfolding(crate::specs::Opening::integer_opened))]
pub fn open_integer(
    alloc: Global,
    walked: &mut Walking,
    indices: &[Index],
    tells: bool,
    number: &Num,
) -> Result<Indices, AllocError>
    ensures value { IfOk result (λ made. made ≡ walk.got (opening.integer_opened indices.now tells number.now) (walk.seen walked.old)) }
    ensures walked { OnOk result (walk.seen walked.new ≡ walk.run (opening.integer_opened indices.now tells number.now) (walk.seen walked.old)) }
{
    let number = read_number(alloc, number, indices)?;
    let number = number_or_fresh(alloc, walked, number)?;
    integer_of(alloc, walked, tells, number)
}

/// `range(t, u)`
#[tactic(auto, using(crate::proofs::Walks::walks), unfolding(crate::specs::Opening::range_opened))]
pub fn open_range(
    alloc: Global,
    walked: &mut Walking,
    indices: &[Index],
    naming: &Naming,
    low: &Num,
    high: &Num,
) -> Result<Indices, AllocError>
    ensures value { IfOk result (λ made. made ≡ walk.got (opening.range_opened indices.now naming.now low.now high.now) (walk.seen walked.old)) }
    ensures walked { OnOk result (walk.seen walked.new ≡ walk.run (opening.range_opened indices.now naming.now low.now high.now) (walk.seen walked.old)) }
{
    let low = read_number(alloc, low, indices)?;
    let high = read_number(alloc, high, indices)?;
    integer_between(alloc, walked, naming, low, high)
}

/// A type under these.
pub fn reading_of(
    alloc: Global,
    typ: &Typ,
    indices: &[Index],
    readings: &[Reading],
) -> Result<Reading, AllocError>
    ensures { IfOk result (λ made. made ≡ R.Of typ.now indices.now readings.now) }
{
    let typ = copy_typ(alloc, typ)?;
    let indices = copy_arguments(alloc, indices)?;
    Ok(Reading::Of(typ, indices, copy_readings(alloc, readings)?))
}

/// Types under these.
pub fn readings_of(
    alloc: Global,
    types: &[Typ],
    indices: &[Index],
    readings: &[Reading],
) -> Result<Items<Reading>, AllocError>
    ensures { IfOk result (λ made. made ≡ map (λ t. R.Of t indices.now readings.now) types.now) }
{
    let mut made = Items::new(alloc);
    for typ in types {
        made.push(reading_of(alloc, typ, indices, readings)?)?;
    }
    Ok(made)
}

/// `list(T)`
pub fn open_list(
    alloc: Global,
    indices: &[Index],
    readings: &[Reading],
    item: &Typ,
) -> Result<Indices, AllocError>
    ensures { IfOk result (λ made. made ≡ I.List (R.Of item.now indices.now readings.now)) }
{
    let item = reading_of(alloc, item, indices, readings)?;
    Ok(Indices::List(Boxed::new(alloc, item)?))
}

/// `vector(t, T)`
#[tactic(auto, using(crate::proofs::Walks::walks), unfolding(crate::specs::Opening::vector_opened))]
pub fn open_vector(
    alloc: Global,
    walked: &mut Walking,
    indices: &[Index],
    readings: &[Reading],
    length: &Num,
    item: &Typ,
) -> Result<Indices, AllocError>
    ensures value { IfOk result (λ made. made
        ≡ walk.got (opening.vector_opened indices.now readings.now length.now item.now) (walk.seen walked.old)) }
    ensures walked { OnOk result (walk.seen walked.new
        ≡ walk.run (opening.vector_opened indices.now readings.now length.now item.now) (walk.seen walked.old)) }
{
    let length = read_number(alloc, length, indices)?;
    let length = number_or_fresh(alloc, walked, length)?;
    let item = reading_of(alloc, item, indices, readings)?;
    vector_of(alloc, walked, item, length)
}

/// A named type at its arguments.
#[tactic(auto, using(crate::proofs::Walks::walks), unfolding(crate::specs::Opening::named_opened))]
pub fn open_named(
    alloc: Global,
    walked: &mut Walking,
    indices: &[Index],
    place: u32,
    arguments: &[Index],
    readings: Items<Reading>,
) -> Result<Indices, AllocError>
    ensures value { IfOk result (λ made. made ≡ walk.got (opening.named_opened indices.now place arguments.now readings) (walk.seen walked.old)) }
    ensures walked { OnOk result (walk.seen walked.new ≡ walk.run (opening.named_opened indices.now place arguments.now readings) (walk.seen walked.old)) }
{
    let arguments = read_each_or_fresh(alloc, walked, indices, arguments)?;
    Ok(Indices::Named(place, arguments, readings))
}

/// A variable for what stands nearest, before what the other variables stand for.
fn with_variable(
    alloc: Global,
    variable: u32,
    indices: &[Index],
) -> Result<Items<Index>, AllocError>
    ensures { IfOk result (λ made. made ≡ N.Number (sums.variable variable) ∷ indices.now) }
{
    let mut inside = Items::new(alloc);
    inside.push(Index::Number(Num::variable(alloc, variable)?))?;
    inside.append(copy_arguments(alloc, indices)?)?;
    Ok(inside)
}

/// What variables stand for inside `{'n, C. ..}`.
#[tactic(auto, using(crate::proofs::Walks::walks), unfolding(crate::specs::Opening::bound_inside))]
pub fn bind_inside(
    alloc: Global,
    walked: &mut Walking,
    name: &Text,
    con: &Con,
    indices: &[Index],
) -> Result<Items<Index>, AllocError>
    ensures value { IfOk result (λ made. made ≡ walk.got (opening.bound_inside name.now con.now indices.now) (walk.seen walked.old)) }
    ensures walked { OnOk result (walk.seen walked.new ≡ walk.run (opening.bound_inside name.now con.now indices.now) (walk.seen walked.old)) }
{
    let variable = walked.fresh_named(name.clone()?)?;
    let inside = with_variable(alloc, variable, indices)?;
    let holds = read_con(alloc, con, inside.as_slice())?;
    walked.assume_if(holds)?;
    Ok(inside)
}

/// What a Type variable stands for, if anything does.
pub fn reading_at(readings: &[Reading], position: u32) -> Option<&Reading>
    ensures { option_copied result ≡ slice_get readings.now position }
{
    readings.get(position as usize)
}

/// The identifiers for which the part of a tuple at a position is opened: none, where there are none for it.
pub fn part_naming<'a>(naming: &'a Naming, position: usize, unnamed: &'a Naming) -> &'a Naming
    ensures { result.now ≡ unwrap_or (slice_get (opening.namings_of naming.now) position) unnamed.now }
{
    match naming {
        Naming::Parts(parts) => match parts.get(position) {
            None => unnamed,
            Some(part) => part,
        },
        _ => unnamed,
    }
}
