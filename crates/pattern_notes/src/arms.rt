//! The walk over an arm.
ghost use Rattle.std.specs.Prelude.{◌≡◌, IfOk, OnOk};
ghost use Rattle.std.specs.Option.{option_copied};
ghost use Rattle.value_indices.specs.Walking as walk;
ghost use Rattle.pattern_notes.specs.Patterns as patterns;
ghost use Rattle.pattern_leaves.specs.Settings as settings;

use crate::looks::only_written;
use crate::matching::Matching;
use crate::parts::match_pattern;
use crate::several::match_parts;
use pattern_leaves::{Around, Bound, wrong_pattern};
use sail_base::{Items, Place};
use sail_core::{Arm, Pattern, Written};
use std::alloc::{AllocError, Global};
use value_indices::{Indices, Walking};

/// The patterns of an arm; of a flat one none.
fn nested(arm: &Arm) -> &[Pattern]
    ensures { result.now ≡ patterns.nested arm.now }
{
    match arm {
        Arm::Nested(parts) => parts.as_slice(),
        Arm::Flat(_, _) => &[],
    }
}

/// What an arm makes known of the values that it looks at: what its patterns owe and make known is written down, and the names that
/// they bind are given, in order. A flat arm owes what is false. The one error is want of memory, also of numbers for variables.
pub fn match_arm(
    alloc: Global,
    place: Place,
    arm: &Arm,
    around: &Around<'_>,
    how: Matching,
    values: &[Indices],
    walking: &mut Walking,
) -> Result<Items<Bound>, AllocError>
    ensures found { IfOk result (λ found. found
        ≡ walk.got (patterns.arm_match place arm.now (settings.around_of around.now) how values.now) (walk.seen walking.old)) }
    ensures walked { OnOk result (walk.seen walking.new
        ≡ walk.run (patterns.arm_match place arm.now (settings.around_of around.now) how values.now) (walk.seen walking.old)) }
{
    match arm {
        Arm::Nested(parts) => {
            match_parts(alloc, place, parts.as_slice(), around, how, values, walking)
        }
        Arm::Flat(_, _) => wrong_pattern(alloc, place, walking),
    }
}

/// The same of an arm of one pattern, which is matched as it is said; of another one what is false is owed. The one error is want of
/// memory, also of numbers for variables.
pub fn match_one(
    alloc: Global,
    place: Place,
    arm: &Arm,
    around: &Around<'_>,
    how: Matching,
    indices: &Indices,
    walking: &mut Walking,
) -> Result<Items<Bound>, AllocError>
    ensures found { IfOk result (λ found. found
        ≡ walk.got (patterns.one_match place (patterns.looks arm.now) (settings.around_of around.now) how indices.now) (walk.seen walking.old)) }
    ensures walked { OnOk result (walk.seen walking.new
        ≡ walk.run (patterns.one_match place (patterns.looks arm.now) (settings.around_of around.now) how indices.now) (walk.seen walking.old)) }
{
    match nested(arm) {
        [part] => match_pattern(alloc, part, around, how, indices, walking),
        _ => wrong_pattern(alloc, place, walking),
    }
}

/// The type that is written at the one pattern of an arm; none where there is no such type.
pub fn arm_written(arm: &Arm) -> Option<&Written>
    ensures { option_copied result ≡ patterns.arm_written arm.now }
{
    only_written(nested(arm))
}
