//! Types that are written at patterns, and sides of mappings.
ghost use Rattle.std.specs.Prelude.{◌≡◌, IfOk, OnOk, map};
ghost use Rattle.value_fits.specs.Fitting as fitting;
ghost use Rattle.value_fits.specs.Lent.{reading_of};
ghost use Rattle.value_indices.specs.declared.indices.Naming.{out-Naming};
ghost use Rattle.value_indices.specs.Walking as walk;
ghost use Rattle.pattern_notes.specs.Patterns as patterns;
ghost use Rattle.pattern_leaves.specs.Annotations as annotations;
ghost use Rattle.pattern_leaves.specs.Settings as settings;

use crate::looks::naming_of;
use pattern_leaves::{Around, Bound, owe_exponents, write_named, written_in};
use sail_base::{Boxed, Items, Place};
use sail_core::{Direction, Pattern, Written};
use sail_types::Types;
use std::alloc::{AllocError, Global};
use type_arguments::copy_typ;
use value_fits::{Wanted, fits, owe_fit_earlier};
use value_indices::{Indices, Reading, Walking};

/// Owes what a written type's exponents owe, and that a value is of the type, under what was remembered last, unless that is owed
/// already. The one error is want of memory, also of numbers for variables.
pub(crate) fn owe_annotation(
    alloc: Global,
    place: Place,
    written: &Written,
    around: &Around<'_>,
    is_owed: bool,
    indices: &Indices,
    walking: &mut Walking,
) -> Result<(), AllocError>
    ensures { OnOk result (walk.seen walking.new
        ≡ walk.run (patterns.written_owed (settings.around_of around.now) place written.now is_owed indices.now (walk.remembered_last
        (walk.seen walking.old))) (walk.seen walking.old)) }
{
    owe_exponents(alloc, around, written.numbers.as_slice(), walking)?;
    owe_written(alloc, place, written, around, is_owed, indices, walking)
}

/// Owes that a value is of a written type, under what was remembered last, unless that is owed already. The one error is want of memory,
/// also of numbers for variables.
fn owe_written(
    alloc: Global,
    place: Place,
    written: &Written,
    around: &Around<'_>,
    is_owed: bool,
    indices: &Indices,
    walking: &mut Walking,
) -> Result<(), AllocError>
    ensures { OnOk result (walk.seen walking.new
        ≡ walk.run (patterns.annotation_owed (settings.around_of around.now) place is_owed indices.now
        (settings.written_in (settings.around_of around.now) written.now) (walk.remembered_last (walk.seen walking.old))) (walk.seen walking.old)) }
{
    if is_owed {
        return Ok(());
    }
    let wanted = Wanted::Of(&written.typ, around.numbers, &[]);
    owe_type(alloc, place, around.types, indices, &wanted, walking)
}

/// Owes that a value is one that a direction takes, under what was remembered last. The one error is want of memory, also of numbers
/// for variables.
pub(crate) fn owe_parameter(
    alloc: Global,
    place: Place,
    direction: &Direction,
    around: &Around<'_>,
    indices: &Indices,
    walking: &mut Walking,
) -> Result<(), AllocError>
    ensures { OnOk result (walk.seen walking.new
        ≡ walk.run (patterns.parameter_owed (settings.around_of around.now) place direction.now indices.now (walk.remembered_last
        (walk.seen walking.old))) (walk.seen walking.old)) }
{
    let wanted = Wanted::Of(&direction.parameter, &[], &[]);
    owe_type(alloc, place, around.types, indices, &wanted, walking)
}

/// Owes that a value is of a type, under what was remembered last. The one error is want of memory, also of numbers for variables.
fn owe_type(
    alloc: Global,
    place: Place,
    types: &Types,
    indices: &Indices,
    wanted: &Wanted<'_>,
    walking: &mut Walking,
) -> Result<(), AllocError>
    ensures { OnOk result (walk.seen walking.new
        ≡ walk.run (fitting.owe_fit_under (walk.remembered_last (walk.seen walking.old)) place
        (fitting.fits types.now indices.now (reading_of wanted.now))) (walk.seen walking.old)) }
{
    let made = fits(alloc, types, indices, wanted, walking.next())?;
    owe_fit_earlier(alloc, walking, place, made)
}

/// The type that a direction gives. It fails where memory is wanting.
pub(crate) fn result_of(alloc: Global, direction: &Direction) -> Result<Reading, AllocError>
    ensures { IfOk result (λ made. made ≡ patterns.result_of direction.now) }
{
    let given = copy_typ(alloc, &direction.result)?;
    Ok(Reading::Of(given, Items::new(alloc), Items::new(alloc)))
}

/// The option that a direction gives, once it is a function. It fails where memory is wanting.
pub(crate) fn option_of(alloc: Global, direction: &Direction) -> Result<Reading, AllocError>
    ensures { IfOk result (λ made. made ≡ patterns.option_of direction.now) }
{
    let mut types = Items::new(alloc);
    types.push(result_of(alloc, direction)?)?;
    let option = Indices::Named(0, Items::new(alloc), types);
    Ok(Reading::Widened(Boxed::new(alloc, option)?))
}

/// The names of a pattern with a type, of which that for its whole value has the type written at it. It fails where memory is wanting.
pub(crate) fn write_types(
    alloc: Global,
    around: &Around<'_>,
    written: &Written,
    part: &Pattern,
    found: Items<Bound>,
) -> Result<Items<Bound>, AllocError>
    ensures { IfOk result (λ made. made
        ≡ map (annotations.written_at (out-Naming (patterns.Look.naming (patterns.look part.now)))
        (settings.written_in (settings.around_of around.now) written.now)) found) }
{
    let naming = naming_of(alloc, part)?;
    let reading = written_in(alloc, around, written)?;
    write_named(alloc, &naming, &reading, found)
}
