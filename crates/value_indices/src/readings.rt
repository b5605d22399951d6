//! Types opened: the indices of a value of a type, and the facts on them.
ghost use Rattle.std.specs.Prelude.{◌≡◌, false, IfOk, OnOk};
ghost use Rattle.value_indices.specs.Opening as opening;
ghost use Rattle.value_indices.specs.Walking as walk;
ghost use Rattle.value_indices.specs.declared.indices.Reading.TheVariants as R;

use crate::copies::{copy_indices, copy_reading};
use crate::forms::{
    bind_inside, open_bits, open_integer, open_list, open_named, open_range, open_truth,
    open_vector, part_naming, reading_at, readings_of,
};
use crate::indices::{Indices, Naming, Reading};
use crate::opening::{any_integer, any_truth, bits_of, vector_of};
use crate::walking::Walking;
use sail_base::Items;
use sail_types::{Index, Typ, copy_num};
use std::alloc::{AllocError, Global};

/// What is known of a value of a type under what its variables stand for, whether or not `int(t)` tells bounds there, and for the
/// identifiers for which it is opened. It fails where memory is wanting, and where variables are too many.
#[cycle(open)]
#[tactic(auto, using(crate::proofs::Openings::readings, crate::proofs::Walks::walks, crate::proofs::Weights::weights))]
pub fn open_reading(
    alloc: Global,
    walked: &mut Walking,
    reading: &Reading,
    tells: bool,
    naming: &Naming,
) -> Result<Indices, AllocError>
    ensures value { IfOk result (λ made. made ≡ walk.got (opening.opening reading.now tells naming.now) (walk.seen walked.old)) }
    ensures walked { OnOk result (walk.seen walked.new ≡ walk.run (opening.opening reading.now tells naming.now) (walk.seen walked.old)) }
{
    match reading {
        Reading::Of(typ, indices, readings) => open_typ(
            alloc,
            walked,
            typ,
            indices.as_slice(),
            readings.as_slice(),
            tells,
            naming,
        ),
        Reading::Widened(indices) => open_widened(alloc, walked, indices.get(), naming),
        Reading::Parts(parts) => {
            let parts = open_readings(alloc, walked, parts.as_slice(), tells, naming)?;
            Ok(Indices::Tuple(parts))
        }
        Reading::Hole => Ok(Indices::Never),
    }
}

/// The same of a type under what its variables stand for.
#[cycle(open)]
#[tactic(auto, using(crate::proofs::Openings::types, crate::proofs::Walks::walks, crate::proofs::Weights::weights))]
fn open_typ(
    alloc: Global,
    walked: &mut Walking,
    typ: &Typ,
    indices: &[Index],
    readings: &[Reading],
    tells: bool,
    naming: &Naming,
) -> Result<Indices, AllocError>
    ensures value { IfOk result (λ made. made
        ≡ walk.got (opening.typ_opened (opening.with_openings readings.now) typ.now indices.now tells naming.now) (walk.seen walked.old)) }
    ensures walked { OnOk result (walk.seen walked.new
        ≡ walk.run (opening.typ_opened (opening.with_openings readings.now) typ.now indices.now tells naming.now) (walk.seen walked.old)) }
{
    match typ {
        Typ::Unit => Ok(Indices::Unit),
        Typ::Bool => any_truth(walked, naming),
        Typ::Truth(con) => open_truth(alloc, walked, indices, con),
        Typ::Bit => Ok(Indices::Bit),
        Typ::Bits(width) => open_bits(alloc, walked, indices, width),
        Typ::Int(number) => open_integer(alloc, walked, indices, tells, number),
        Typ::Range(low, high) => open_range(alloc, walked, indices, naming, low, high),
        Typ::String => Ok(Indices::String),
        Typ::List(item) => open_list(alloc, indices, readings, item.get()),
        Typ::Vector(length, item) => {
            open_vector(alloc, walked, indices, readings, length, item.get())
        }
        Typ::Tuple(parts) => {
            let parts = parts.as_slice();
            let parts = open_types(alloc, walked, parts, indices, readings, tells, naming)?;
            Ok(Indices::Tuple(parts))
        }
        Typ::Named(place, arguments, types) => {
            let types = readings_of(alloc, types.as_slice(), indices, readings)?;
            open_named(alloc, walked, indices, *place, arguments.as_slice(), types)
        }
        Typ::Variable(position) => match reading_at(readings, *position) {
            None => Ok(Indices::Variable(*position)),
            Some(reading) => open_reading(alloc, walked, reading, tells, naming),
        },
        Typ::Exists(name, con, part) => {
            let inside = bind_inside(alloc, walked, name, con, indices)?;
            let inside = inside.as_slice();
            open_typ(alloc, walked, part.get(), inside, readings, true, naming)
        }
    }
}

/// The same of the parts of a tuple, each for its own identifiers.
#[cycle(open)]
#[tactic(auto, unfolding(crate::specs::Opening::types_opened))]
fn open_types(
    alloc: Global,
    walked: &mut Walking,
    types: &[Typ],
    indices: &[Index],
    readings: &[Reading],
    tells: bool,
    naming: &Naming,
) -> Result<Items<Indices>, AllocError>
    ensures value { IfOk result (λ made. made
        ≡ walk.got (opening.types_opened (opening.with_openings readings.now) types.now indices.now tells naming.now) (walk.seen walked.old)) }
    ensures walked { OnOk result (walk.seen walked.new
        ≡ walk.run (opening.types_opened (opening.with_openings readings.now) types.now indices.now tells naming.now) (walk.seen walked.old)) }
{
    let unnamed = Naming::Unnamed;
    let mut made = Items::new(alloc);
    let mut at = 0;
    for typ in types {
        let name = part_naming(naming, at, &unnamed);
        made.push(open_typ(alloc, walked, typ, indices, readings, tells, name)?)?;
        at += 1;
    }
    Ok(made)
}

/// The same of the parts of a tuple of readings.
#[cycle(open)]
#[tactic(auto, unfolding(crate::specs::Opening::readings_opened))]
fn open_readings(
    alloc: Global,
    walked: &mut Walking,
    readings: &[Reading],
    tells: bool,
    naming: &Naming,
) -> Result<Items<Indices>, AllocError>
    ensures value { IfOk result (λ made. made
        ≡ walk.got (opening.readings_opened readings.now tells naming.now) (walk.seen walked.old)) }
    ensures walked { OnOk result (walk.seen walked.new
        ≡ walk.run (opening.readings_opened readings.now tells naming.now) (walk.seen walked.old)) }
{
    let unnamed = Naming::Unnamed;
    let mut made = Items::new(alloc);
    let mut at = 0;
    for reading in readings {
        let name = part_naming(naming, at, &unnamed);
        made.push(open_reading(alloc, walked, reading, tells, name)?)?;
        at += 1;
    }
    Ok(made)
}

/// The same of the widened type of such a value.
#[cycle(widen)]
#[tactic(auto, using(crate::proofs::Openings::wides, crate::proofs::Walks::walks))]
fn open_widened(
    alloc: Global,
    walked: &mut Walking,
    indices: &Indices,
    naming: &Naming,
) -> Result<Indices, AllocError>
    ensures value { IfOk result (λ made. made ≡ walk.got (opening.wide_opening indices.now false naming.now) (walk.seen walked.old)) }
    ensures walked { OnOk result (walk.seen walked.new ≡ walk.run (opening.wide_opening indices.now false naming.now) (walk.seen walked.old)) }
{
    match indices {
        Indices::Truth(_) => any_truth(walked, naming),
        Indices::Bits(width) => bits_of(alloc, walked, copy_num(alloc, width)?),
        Indices::Integer(_) => any_integer(alloc, walked, naming),
        Indices::Vector(length, item) => {
            let item = copy_reading(alloc, item.get())?;
            vector_of(alloc, walked, item, copy_num(alloc, length)?)
        }
        Indices::Tuple(parts) => {
            let parts = open_each(alloc, walked, parts.as_slice(), naming)?;
            Ok(Indices::Tuple(parts))
        }
        _ => copy_indices(alloc, indices),
    }
}

/// The same of the parts of a tuple.
#[cycle(widen)]
#[tactic(auto, unfolding(crate::specs::Opening::each_opened))]
fn open_each(
    alloc: Global,
    walked: &mut Walking,
    parts: &[Indices],
    naming: &Naming,
) -> Result<Items<Indices>, AllocError>
    ensures value { IfOk result (λ made. made ≡ walk.got (opening.each_opened parts.now naming.now) (walk.seen walked.old)) }
    ensures walked { OnOk result (walk.seen walked.new ≡ walk.run (opening.each_opened parts.now naming.now) (walk.seen walked.old)) }
{
    let unnamed = Naming::Unnamed;
    let mut made = Items::new(alloc);
    let mut at = 0;
    for part in parts {
        let name = part_naming(naming, at, &unnamed);
        made.push(open_widened(alloc, walked, part, name)?)?;
        at += 1;
    }
    Ok(made)
}

/// What is known of a value of a type, where nothing tells more. It fails where memory is wanting, and where variables are too many.
#[tactic(auto, using(crate::proofs::Walks::walks), unfolding(crate::specs::Opening::opened))]
pub fn opened(alloc: Global, walked: &mut Walking, reading: &Reading) -> Result<Indices, AllocError>
    ensures value { IfOk result (λ made. made ≡ walk.got (opening.opened reading.now) (walk.seen walked.old)) }
    ensures walked { OnOk result (walk.seen walked.new ≡ walk.run (opening.opened reading.now) (walk.seen walked.old)) }
{
    open_reading(alloc, walked, reading, false, &Naming::Unnamed)
}

/// What is known of a value of a type under what its variables stand for, where nothing tells more. It fails where memory is wanting,
/// and where variables are too many.
#[tactic(auto, using(crate::proofs::Openings::reading_of), unfolding(crate::specs::Opening::opened))]
pub fn opened_type(
    alloc: Global,
    walked: &mut Walking,
    typ: &Typ,
    indices: &[Index],
    readings: &[Reading],
) -> Result<Indices, AllocError>
    ensures value { IfOk result (λ made. made
        ≡ walk.got (opening.opened (R.Of typ.now indices.now readings.now)) (walk.seen walked.old)) }
    ensures walked { OnOk result (walk.seen walked.new
        ≡ walk.run (opening.opened (R.Of typ.now indices.now readings.now)) (walk.seen walked.old)) }
{
    open_typ(
        alloc,
        walked,
        typ,
        indices,
        readings,
        false,
        &Naming::Unnamed,
    )
}

/// What is known of a value of a type that is opened for a name. It fails where memory is wanting, and where variables are too many.
#[tactic(auto, using(crate::proofs::Walks::walks), unfolding(crate::specs::Opening::opened_for))]
pub fn opened_for(
    alloc: Global,
    walked: &mut Walking,
    naming: &Naming,
    reading: &Reading,
) -> Result<Indices, AllocError>
    ensures value { IfOk result (λ made. made ≡ walk.got (opening.opened_for naming.now reading.now) (walk.seen walked.old)) }
    ensures walked { OnOk result (walk.seen walked.new ≡ walk.run (opening.opened_for naming.now reading.now) (walk.seen walked.old)) }
{
    open_reading(alloc, walked, reading, false, naming)
}
