//! Types that are written at values, and ways out: what is wanted of their one part, and what is made of its value.
ghost use Rattle.std.specs.Prelude.{◌≡◌, [], ◌∷◌, IfOk, OnOk};
ghost use Rattle.std.specs.Option.{option_copied};
ghost use Rattle.value_indices.specs.Walking as walk;
ghost use Rattle.pattern_leaves.specs.Settings as settings;
ghost use Rattle.pattern_leaves.specs.Settings.{around_of};
ghost use Rattle.expression_steps.specs.Coded as coded;
ghost use Rattle.expression_steps.specs.Expressions as spec;
ghost use Rattle.expression_steps.specs.Expressions.{part};
ghost use Rattle.expression_steps.specs.Making as making;
ghost use Rattle.expression_steps.specs.Parts.{Part};

use crate::aims::{copy_aim, one_aim, option_indices, thrown_type};
use crate::ends::owe_cast;
use crate::knowing::{is_nested, place_of};
use call_notes::{Aim, node_ended, part_owed, wrong_value};
use expression_forms::truth_of;
use pattern_leaves::{Around, written_in};
use sail_base::{Items, Place};
use sail_core::{Core, Kind, Written};
use std::alloc::{AllocError, Global};
use value_fits::Wanted;
use value_indices::{Indices, Reading, Walking, copy_indices, copy_reading};

/// Whether a kind is one of one part that is walked first.
pub(crate) fn is_single(kind: &Kind) -> bool
    ensures { result ≡ making.is_single kind.now }
{
    match kind {
        Kind::Cast(_) => true,
        Kind::Return => true,
        Kind::Throw => true,
        Kind::Exit => true,
        Kind::Assert(_) => true,
        Kind::Optional(_) => true,
        _ => false,
    }
}

/// One of one part alone.
#[tactic(auto, using(crate::proofs::Counted::one_is, crate::proofs::Counted::none_is))]
fn one_or_none(count: usize) -> usize
    ensures { result ≡ making.one_or_none count }
{
    if count == 1 { 1 } else { 0 }
}

/// How many of so many parts of a kind of one part are walked; none of another one.
pub(crate) fn single_count(kind: &Kind, count: usize) -> usize
    ensures { result ≡ making.single_count kind.now count }
{
    if is_single(kind) {
        one_or_none(count)
    } else {
        0
    }
}

/// What is wanted of an expression at which a type may be written. It fails where memory is wanting.
pub(crate) fn cast_aim(
    alloc: Global,
    around: &Around<'_>,
    written: &Option<Written>,
    aim: &Aim,
) -> Result<Aim, AllocError>
    ensures { IfOk result (λ made. made ≡ making.cast_aim (around_of around.now) written.now aim.now) }
{
    match written {
        None => copy_aim(alloc, aim),
        Some(written) => Ok(Aim::given(written_in(alloc, around, written)?)),
    }
}

/// What is wanted of what a function gives. It fails where memory is wanting.
pub(crate) fn answer_aims(alloc: Global, answer: Option<&Reading>) -> Result<Items<Aim>, AllocError>
    ensures { IfOk result (λ made. made ≡ making.answer_aims (option_copied answer.entry)) }
{
    match answer {
        None => Ok(Items::new(alloc)),
        Some(reading) => one_aim(alloc, Aim::given(copy_reading(alloc, reading)?)),
    }
}

/// How many of so many parts of a `return` are walked.
pub(crate) fn answer_count(answer: Option<&Reading>, count: usize) -> usize
    ensures { result ≡ making.answer_count (option_copied answer.entry) count }
{
    match answer {
        None => 0,
        Some(_) => one_or_none(count),
    }
}

/// `e : T`: it owes once, and keeps what is known of e, as the node of a number makes it, which is noted. It fails where memory is wanting,
/// and where variables are too many.
#[tactic(auto, using(value_indices::proofs::Walks::walks))]
fn written_ended(
    alloc: Global,
    walking: &mut Walking,
    around: &Around<'_>,
    place: Place,
    number: u32,
    written: &Written,
    is_nested: bool,
    value: &Indices,
) -> Result<Indices, AllocError>
    ensures value { IfOk result (λ made. made ≡ walk.got (spec.written_ended (around_of around.now) place number written.now is_nested value.now)
        (walk.seen walking.old)) }
    ensures walked { OnOk result (walk.seen walking.new ≡ walk.run (spec.written_ended (around_of around.now) place number written.now is_nested
        value.now) (walk.seen walking.old)) }
{
    owe_cast(alloc, walking, around, place, written, is_nested, value)?;
    let made = copy_indices(alloc, value)?;
    node_ended(alloc, walking, number, std::slice::from_ref(value), made)
}

/// The same where a type may be written. It fails where memory is wanting, and where variables are too many.
#[tactic(auto, using(value_indices::proofs::Walks::walks))]
fn cast_made(
    alloc: Global,
    walking: &mut Walking,
    around: &Around<'_>,
    place: Place,
    number: u32,
    written: &Option<Written>,
    core: &Core,
    value: &Indices,
) -> Result<Indices, AllocError>
    ensures value { IfOk result (λ made. made ≡ walk.got (making.cast_made (around_of around.now) place number written.now (part core.now)
        value.now) (walk.seen walking.old)) }
    ensures walked { OnOk result (walk.seen walking.new ≡ walk.run (making.cast_made (around_of around.now) place number written.now
        (part core.now) value.now) (walk.seen walking.old)) }
{
    match written {
        None => copy_indices(alloc, value),
        Some(written) => written_ended(
            alloc,
            walking,
            around,
            place,
            number,
            written,
            is_nested(core),
            value,
        ),
    }
}

/// `return e`: it never ends normally. It fails where memory is wanting, and where variables are too many.
#[tactic(auto, using(value_indices::proofs::Walks::walks))]
fn answer_made(
    alloc: Global,
    walking: &mut Walking,
    around: &Around<'_>,
    place: Place,
    core: &Core,
    value: &Indices,
) -> Result<Indices, AllocError>
    ensures value { IfOk result (λ made. made ≡ walk.got (making.answer_made (around_of around.now) place (settings.Around.answer (around_of
        around.now)) (part core.now) value.now) (walk.seen walking.old)) }
    ensures walked { OnOk result (walk.seen walking.new ≡ walk.run (making.answer_made (around_of around.now) place (settings.Around.answer
        (around_of around.now)) (part core.now) value.now) (walk.seen walking.old)) }
{
    match around.answer {
        None => wrong_value(alloc, walking, place),
        Some(reading) => {
            let wanted = Wanted::lent(reading);
            part_owed(
                alloc,
                walking,
                around,
                is_nested(core),
                place,
                value,
                &wanted,
            )?;
            Ok(Indices::Never)
        }
    }
}

/// `throw e`: it never ends normally, and what is thrown is of the model's exception. It fails where memory is wanting, and where variables
/// are too many.
#[tactic(auto, using(value_indices::proofs::Walks::walks))]
fn thrown_made(
    alloc: Global,
    walking: &mut Walking,
    around: &Around<'_>,
    place: Place,
    core: &Core,
    value: &Indices,
) -> Result<Indices, AllocError>
    ensures value { IfOk result (λ made. made ≡ walk.got (spec.thrown_owed (around_of around.now) place (Part.is_nested (part core.now))
        (settings.Around.exception (around_of around.now)) value.now) (walk.seen walking.old)) }
    ensures walked { OnOk result (walk.seen walking.new ≡ walk.run (spec.thrown_owed (around_of around.now) place (Part.is_nested
        (part core.now)) (settings.Around.exception (around_of around.now)) value.now) (walk.seen walking.old)) }
{
    match around.exception {
        None => wrong_value(alloc, walking, place),
        Some(union) => {
            let thrown = thrown_type(alloc, union)?;
            let wanted = Wanted::lent(&thrown);
            part_owed(
                alloc,
                walking,
                around,
                is_nested(core),
                place,
                value,
                &wanted,
            )?;
            Ok(Indices::Never)
        }
    }
}

/// A condition that is asserted: what is no truth owes what is false. It fails where memory is wanting.
#[tactic(auto, using(value_indices::proofs::Walks::walks))]
fn asserted(
    alloc: Global,
    walking: &mut Walking,
    place: Place,
    value: &Indices,
) -> Result<Indices, AllocError>
    ensures value { IfOk result (λ made. made ≡ walk.got (spec.asserted place value.now) (walk.seen walking.old)) }
    ensures walked { OnOk result (walk.seen walking.new ≡ walk.run (spec.asserted place value.now) (walk.seen walking.old)) }
{
    truth_of(alloc, walking, place, value)?;
    Ok(Indices::Unit)
}

/// What a kind of one part makes of its value. It fails where memory is wanting, and where variables are too many.
#[tactic(auto, using(value_indices::proofs::Walks::walks))]
fn part_made(
    alloc: Global,
    walking: &mut Walking,
    around: &Around<'_>,
    place: Place,
    number: u32,
    kind: &Kind,
    core: &Core,
    value: &Indices,
) -> Result<Indices, AllocError>
    ensures value { IfOk result (λ made. made ≡ walk.got (making.part_made (around_of around.now) place number kind.now (part core.now) value.now)
        (walk.seen walking.old)) }
    ensures walked { OnOk result (walk.seen walking.new ≡ walk.run (making.part_made (around_of around.now) place number kind.now (part core.now) value.now)
        (walk.seen walking.old)) }
{
    match kind {
        Kind::Cast(written) => cast_made(
            alloc, walking, around, place, number, written, core, value,
        ),
        Kind::Return => answer_made(alloc, walking, around, place, core, value),
        Kind::Throw => thrown_made(alloc, walking, around, place, core, value),
        Kind::Exit => Ok(Indices::Never),
        Kind::Assert(_) => asserted(alloc, walking, place_of(core), value),
        Kind::Optional(typ) => option_indices(alloc, typ),
        _ => wrong_value(alloc, walking, place),
    }
}

/// The same of one value alone. It fails where memory is wanting, and where variables are too many.
fn value_made(
    alloc: Global,
    walking: &mut Walking,
    around: &Around<'_>,
    place: Place,
    number: u32,
    kind: &Kind,
    core: &Core,
    values: &[Indices],
) -> Result<Indices, AllocError>
    ensures value { IfOk result (λ made. made ≡ walk.got (making.one_made (around_of around.now) place number kind.now (part core.now ∷ []) values.now)
        (walk.seen walking.old)) }
    ensures walked { OnOk result (walk.seen walking.new ≡ walk.run (making.one_made (around_of around.now) place number kind.now (part core.now ∷ [])
        values.now) (walk.seen walking.old)) }
{
    match values {
        [value] => part_made(alloc, walking, around, place, number, kind, core, value),
        _ => wrong_value(alloc, walking, place),
    }
}

/// The same of one part and its value alone. It fails where memory is wanting, and where variables are too many.
pub(crate) fn one_made(
    alloc: Global,
    walking: &mut Walking,
    around: &Around<'_>,
    place: Place,
    number: u32,
    kind: &Kind,
    parts: &[Core],
    values: &[Indices],
) -> Result<Indices, AllocError>
    ensures value { IfOk result (λ made. made ≡ walk.got (making.one_made (around_of around.now) place number kind.now (coded.each_part parts.now)
        values.now) (walk.seen walking.old)) }
    ensures walked { OnOk result (walk.seen walking.new ≡ walk.run (making.one_made (around_of around.now) place number kind.now (coded.each_part parts.now)
        values.now) (walk.seen walking.old)) }
{
    match parts {
        [core] => value_made(alloc, walking, around, place, number, kind, core, values),
        _ => wrong_value(alloc, walking, place),
    }
}
