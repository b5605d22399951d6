//! The types of parameters, each read at its pattern before it is opened, and the types that are written there.
ghost use Rattle.std.specs.Prelude.{◌≡◌, IfOk, OnOk, min};
ghost use Rattle.value_indices.specs.Walking as walk;
ghost use Rattle.pattern_leaves.specs.Settings.{around_of};
ghost use Rattle.constraint_gen.specs.Functions.{arm_of};
ghost use Rattle.size_notes.specs.Bodies as spec;

use crate::behind::{patterns_of, push_arm};
use crate::written::WrittenSize;
use constraint_gen::{bare_arm, lesser, naming_of, reading_of};
use pattern_leaves::Around;
use sail_base::Items;
use sail_core::{Arm, Pattern};
use sail_types::{Index, Typ};
use std::alloc::{AllocError, Global};
use value_indices::{Made, Walking, copy_reading, open_reading};

/// The type of a parameter, at its pattern, and then it is opened. It fails where memory is wanting, and where variables are too many.
#[tactic(auto, using(value_indices::proofs::Walks::walks))]
fn read_parameter(
    alloc: Global,
    walking: &mut Walking,
    numbers: &[Index],
    pattern: &Pattern,
    typ: &Typ,
) -> Result<(), AllocError>
    ensures { OnOk result (walk.seen walking.new ≡ walk.run (spec.parameter_read numbers.now pattern.now typ.now) (walk.seen walking.old)) }
{
    let reading = reading_of(alloc, typ, numbers)?;
    let made = Made::ByType(copy_reading(alloc, &reading)?);
    walking.note_sizes(pattern.place, made)?;
    let naming = naming_of(alloc, pattern)?;
    open_reading(alloc, walking, &reading, true, &naming)?;
    Ok(())
}

/// The types of parameters, each at its pattern. It fails where memory is wanting, and where variables are too many.
fn read_parameters(
    alloc: Global,
    walking: &mut Walking,
    numbers: &[Index],
    patterns: &[Pattern],
    types: &[Typ],
) -> Result<(), AllocError>
    ensures { OnOk result (walk.seen walking.new ≡ walk.run (spec.parameters_read numbers.now patterns.now types.now) (walk.seen walking.old)) }
{
    let count = lesser(patterns.len(), types.len());
    for at in 0..count {
        let pattern = &patterns[at];
        let typ = &types[at];
        read_parameter(alloc, walking, numbers, pattern, typ)?;
    }
    Ok(())
}

/// Sizes that are written, each at its place. It fails where memory is wanting.
fn read_sizes(walking: &mut Walking, sizes: Items<WrittenSize>) -> Result<(), AllocError>
    ensures { OnOk result (walk.seen walking.new ≡ walk.run (spec.sizes_read sizes) (walk.seen walking.old)) }
{
    for size in sizes.into_vec() {
        let (place, size) = size.into_parts();
        walking.note_sizes(place, Made::ByIndices(size))?;
    }
    Ok(())
}

/// The types of the parameters of an arm, then those that are written at them. It fails where memory is wanting, and where variables are
/// too many.
#[tactic(auto, using(value_indices::proofs::Walks::walks))]
fn read_arm(
    alloc: Global,
    walking: &mut Walking,
    around: &Around<'_>,
    types: &[Typ],
    arm: &Arm,
) -> Result<(), AllocError>
    ensures { OnOk result (walk.seen walking.new ≡ walk.run (spec.arm_read (around_of around.now) types.now arm.now) (walk.seen walking.old)) }
{
    read_parameters(alloc, walking, around.numbers, patterns_of(arm), types)?;
    let mut sizes = Items::new(alloc);
    push_arm(alloc, &mut sizes, around.numbers, arm)?;
    read_sizes(walking, sizes)
}

/// The same of an arm as it is walked: of what no `val` declares without the types that are written at it. It fails where memory is
/// wanting, and where variables are too many.
fn read_walked(
    alloc: Global,
    walking: &mut Walking,
    around: &Around<'_>,
    types: &[Typ],
    is_declared: bool,
    arm: &Arm,
) -> Result<(), AllocError>
    ensures { OnOk result (walk.seen walking.new ≡ walk.run (spec.arm_read (around_of around.now) types.now (arm_of is_declared arm.now))
        (walk.seen walking.old)) }
{
    if is_declared {
        return read_arm(alloc, walking, around, types, arm);
    }
    match bare_arm(alloc, arm)? {
        None => read_arm(alloc, walking, around, types, arm),
        Some(bare) => read_arm(alloc, walking, around, types, &bare),
    }
}

/// The same, of which nothing but the notes stays. It fails where memory is wanting, and where variables are too many.
#[tactic(auto, using(crate::proofs::Walked::run_beforehand))]
pub fn read_beforehand(
    alloc: Global,
    walking: &mut Walking,
    around: &Around<'_>,
    types: &[Typ],
    is_declared: bool,
    arm: &Arm,
) -> Result<(), AllocError>
    ensures { OnOk result (walk.seen walking.new
        ≡ walk.run (spec.beforehand (spec.arm_read (around_of around.now) types.now (arm_of is_declared arm.now))) (walk.seen walking.old)) }
{
    let next = walking.next();
    walking.remember()?;
    read_walked(alloc, walking, around, types, is_declared, arm)?;
    walking.restore()?;
    walking.count_from(next);
    Ok(())
}
