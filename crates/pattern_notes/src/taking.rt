//! Payloads and items, opened for the names at which they are matched.
ghost use Rattle.std.specs.Prelude.{◌≡◌, IfOk, OnOk, map, slice_get};
ghost use Rattle.std.specs.Option.{option_copied};
ghost use Rattle.value_indices.specs.Walking as walk;
ghost use Rattle.pattern_notes.specs.Patterns as patterns;

use crate::looks::naming_of;
use sail_base::{Items, Place};
use sail_core::Pattern;
use sail_types::Typ;
use std::alloc::{AllocError, Global};
use value_indices::{Indices, Made, Naming, Reading, Walking, copy_reading, opened_for};

/// The type of a part, as what a Type variable stands for. The one error is want of memory.
fn part_type(alloc: Global, reading: &Reading) -> Result<Reading, AllocError>
    ensures { IfOk result (λ made. made ≡ patterns.part_type reading.now) }
{
    let mut readings = Items::new(alloc);
    readings.push(copy_reading(alloc, reading)?)?;
    Ok(Reading::Of(Typ::Variable(0), Items::new(alloc), readings))
}

/// A value of a type, taken out and opened for a name. The one error is want of memory.
pub(crate) fn take_out(
    alloc: Global,
    place: Place,
    naming: &Naming,
    reading: &Reading,
    walking: &mut Walking,
) -> Result<Indices, AllocError>
    ensures taken { IfOk result (λ taken. taken ≡ walk.got (patterns.taken_out place naming.now reading.now) (walk.seen walking.old)) }
    ensures walked { OnOk result (walk.seen walking.new ≡ walk.run (patterns.taken_out place naming.now reading.now) (walk.seen walking.old)) }
{
    let made = Made::ByType(part_type(alloc, reading)?);
    walking.note_sizes(place, made)?;
    opened_for(alloc, walking, naming, reading)
}

/// Values of these types, each taken out for the pattern that it is matched with. The one error is want of memory.
pub(crate) fn take_all(
    alloc: Global,
    place: Place,
    parts: &[Pattern],
    readings: &[Reading],
    walking: &mut Walking,
) -> Result<Items<Indices>, AllocError>
    ensures taken { IfOk result (λ taken. taken
        ≡ walk.got (patterns.all_taken place (patterns.named_readings (map patterns.look parts.now) readings.now)) (walk.seen walking.old)) }
    ensures walked { OnOk result (walk.seen walking.new
        ≡ walk.run (patterns.all_taken place (patterns.named_readings (map patterns.look parts.now) readings.now)) (walk.seen walking.old)) }
{
    let mut taken = Items::new(alloc);
    for (index, part) in parts.iter().enumerate() {
        match reading_at(readings, index) {
            Some(reading) => {
                let naming = naming_of(alloc, part)?;
                taken.push(take_out(alloc, place, &naming, reading, walking)?)?;
            }
            None => return Ok(taken),
        }
    }
    Ok(taken)
}

/// The type at an index; none past the end.
fn reading_at(readings: &[Reading], index: usize) -> Option<&Reading>
    ensures { option_copied result ≡ slice_get readings.now index }
{
    readings.get(index)
}
