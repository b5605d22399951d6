//! The ends of values: what is wanted of them, their sizes, and values that there are none of.
ghost use Rattle.std.specs.Prelude.{◌≡◌, IfOk, OnOk};
ghost use Rattle.pattern_leaves.specs.Settings.{around_of};
ghost use Rattle.value_fits.specs.Fitting as fitting;
ghost use Rattle.value_fits.specs.Lent.{reading_of};
ghost use Rattle.value_indices.specs.Walking as walk;
ghost use Rattle.call_notes.specs.Ends as ends;

use call_arguments::Aim;
use pattern_leaves::Around;
use sail_base::Place;
use sail_types::{Num, Types, copy_num};
use std::alloc::{AllocError, Global};
use value_fits::{Fitted, Wanted, fits, owe_fit};
use value_indices::{Indices, Made, Reading, Walking, copy_indices, copy_reading, opened};

/// Owes that a value is of a type, at a place. It fails where memory is wanting, and where variables are too many.
#[tactic(auto, using(value_fits::proofs::Owed::owed))]
pub fn owe_value(
    alloc: Global,
    walking: &mut Walking,
    types: &Types,
    place: Place,
    value: &Indices,
    wanted: &Wanted<'_>,
) -> Result<(), AllocError>
    ensures { OnOk result (walk.seen walking.new
        ≡ walk.run (fitting.owe_fit place (fitting.fits types.now value.now (reading_of wanted.now))) (walk.seen walking.old)) }
{
    let made = fits(alloc, types, value, wanted, walking.next())?;
    owe_fit(alloc, walking, place, made)
}

/// What has to be true for a value to be of a type, unless that is owed further in. It fails where memory is wanting, and where
/// variables are too many.
pub fn fits_unless(
    alloc: Global,
    around: &Around<'_>,
    is_owed: bool,
    value: &Indices,
    wanted: &Wanted<'_>,
    next: u32,
) -> Result<Fitted, AllocError>
    ensures { IfOk result (λ made. made ≡ ends.fits_unless is_owed (around_of around.now) value.now (reading_of wanted.now) next) }
{
    if is_owed {
        return Ok(Fitted::nothing(alloc, next));
    }
    fits(alloc, around.types, value, wanted, next)
}

/// Owes that a value is of a type, at a place, unless that is owed further in. It fails where memory is wanting, and where variables
/// are too many.
#[tactic(auto, using(value_fits::proofs::Owed::owed))]
pub fn owe_unless(
    alloc: Global,
    walking: &mut Walking,
    around: &Around<'_>,
    place: Place,
    is_owed: bool,
    value: &Indices,
    wanted: &Wanted<'_>,
) -> Result<(), AllocError>
    ensures { OnOk result (walk.seen walking.new
        ≡ walk.run (fitting.owe_fit place (ends.fits_unless is_owed (around_of around.now) value.now (reading_of wanted.now))) (walk.seen
        walking.old)) }
{
    let made = fits_unless(alloc, around, is_owed, value, wanted, walking.next())?;
    owe_fit(alloc, walking, place, made)
}

/// The end of an expression of which a type may be wanted: it is owed there where it is due. It fails where memory is wanting, and where
/// variables are too many.
#[tactic(auto, using(value_indices::proofs::Walks::walks))]
pub fn settled(
    alloc: Global,
    walking: &mut Walking,
    around: &Around<'_>,
    place: Place,
    aim: &Aim,
    value: Indices,
) -> Result<Indices, AllocError>
    ensures value { IfOk result (λ made. made ≡ walk.got (ends.settled (around_of around.now) place aim.now value) (walk.seen walking.old)) }
    ensures walked { OnOk result (walk.seen walking.new
        ≡ walk.run (ends.settled (around_of around.now) place aim.now value) (walk.seen walking.old)) }
{
    match aim {
        Aim::Free => Ok(value),
        Aim::Given(_) => Ok(value),
        Aim::PartOf(_) => Ok(value),
        Aim::Due(reading) => {
            let wanted = Wanted::lent(reading);
            owe_value(alloc, walking, around.types, place, &value, &wanted)?;
            Ok(value)
        }
    }
}

/// Notes the sizes of a value of a type, at a place. It fails where memory is wanting.
pub fn note_type(
    alloc: Global,
    walking: &mut Walking,
    place: Place,
    reading: &Reading,
) -> Result<(), AllocError>
    ensures { OnOk result (walk.seen walking.new ≡ walk.run (ends.sized_by place reading.now) (walk.seen walking.old)) }
{
    let reading = copy_reading(alloc, reading)?;
    walking.note_sizes(place, Made::ByType(reading))
}

/// Notes the sizes of a value of these indices, at a place. It fails where memory is wanting.
pub fn note_value(
    alloc: Global,
    walking: &mut Walking,
    place: Place,
    value: &Indices,
) -> Result<(), AllocError>
    ensures { OnOk result (walk.seen walking.new ≡ walk.run (ends.sized place value.now) (walk.seen walking.old)) }
{
    let value = copy_indices(alloc, value)?;
    walking.note_sizes(place, Made::ByIndices(value))
}

/// A value of a type at a place, opened; its sizes are noted before. It fails where memory is wanting, and where variables are too many.
#[tactic(auto, using(value_indices::proofs::Walks::walks))]
pub fn opened_at(
    alloc: Global,
    walking: &mut Walking,
    place: Place,
    reading: &Reading,
) -> Result<Indices, AllocError>
    ensures value { IfOk result (λ made. made ≡ walk.got (ends.opened_at place reading.now) (walk.seen walking.old)) }
    ensures walked { OnOk result (walk.seen walking.new ≡ walk.run (ends.opened_at place reading.now) (walk.seen walking.old)) }
{
    note_type(alloc, walking, place, reading)?;
    opened(alloc, walking, reading)
}

/// Owes what is false, of a part that no model that was resolved has there: there is no such value. It fails where memory is wanting.
#[tactic(auto, using(value_indices::proofs::Walks::walks))]
pub fn wrong_value(
    alloc: Global,
    walking: &mut Walking,
    place: Place,
) -> Result<Indices, AllocError>
    ensures value { IfOk result (λ made. made ≡ walk.got (ends.wrong_value place) (walk.seen walking.old)) }
    ensures walked { OnOk result (walk.seen walking.new ≡ walk.run (ends.wrong_value place) (walk.seen walking.old)) }
{
    walking.wrong(alloc, place)?;
    Ok(Indices::Never)
}

/// Whether there is no such value, since it never ends normally.
pub fn is_never(value: &Indices) -> bool
    ensures { result ≡ ends.is_never value.now }
{
    match value {
        Indices::Never => true,
        _ => false,
    }
}

/// Whether there is no value for one of these.
pub fn any_never(values: &[Indices]) -> bool
    ensures { result ≡ ends.any_never values.now }
{
    for value in values {
        if is_never(value) {
            return true;
        }
    }
    false
}

/// An integer's number; none of what never ends normally, and of what is no integer, which owes what is false. It fails where memory is
/// wanting.
#[tactic(auto, using(value_indices::proofs::Walks::walks))]
pub fn integer_number(
    alloc: Global,
    walking: &mut Walking,
    place: Place,
    value: &Indices,
) -> Result<Option<Num>, AllocError>
    ensures value { IfOk result (λ made. made ≡ walk.got (ends.integer_number place value.now) (walk.seen walking.old)) }
    ensures walked { OnOk result (walk.seen walking.new ≡ walk.run (ends.integer_number place value.now) (walk.seen walking.old)) }
{
    match value {
        Indices::Integer(number) => Ok(Some(copy_num(alloc, number)?)),
        Indices::Never => Ok(None),
        _ => {
            walking.wrong(alloc, place)?;
            Ok(None)
        }
    }
}
