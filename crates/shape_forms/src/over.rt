//! A form of one shape over its parts.
ghost use Rattle.std.specs.Prelude.{◌≡◌, IfOk, OnOk};
ghost use Rattle.shape_rules.specs.Findings.{first_failure};
ghost use Rattle.shape_calls.specs.Made.{made_of};
ghost use Rattle.shape_forms.specs.Over.{over_found};

use sail_base::{Items, Place};
use sail_core::{Core, Kind};
use sail_types::Shape;
use shape_calls::{Made, over, settled};
use shape_rules::First;
use std::alloc::{AllocError, Global};

/// A form of this shape over its parts, where a shape is wanted (`Never`, where none is): notes where it isn't the wanted one. The one
/// error is want of memory.
#[tactic(auto, unfolding(crate::specs::Over::over_found))]
pub fn settle_over(
    alloc: Global,
    place: Place,
    want: &Shape,
    shape: Shape,
    kind: Kind,
    parts: Items<Core>,
    first: &mut First,
) -> Result<Made, AllocError>
    ensures made { IfOk result (λ made. made ≡ made_of (over_found place want.now shape kind parts)) }
    ensures failures { OnOk result (first.new.error
        ≡ first_failure first.old.error (over_found place want.now shape kind parts).faults) }
{
    settled(alloc, place, want, shape, over(place, kind, parts), first)
}
