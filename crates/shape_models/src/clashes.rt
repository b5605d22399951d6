ghost use Rattle.std.specs.Prelude.{◌≡◌, OnOk};
ghost use Rattle.shape_rules.specs.Findings.{first_failure};
ghost use Rattle.shape_models.specs.Overloads.{clash_of, clashes_with, overload_faults};
ghost use Rattle.shape_models.specs.Models.{candidates};

use sail_base::Place;
use shape_joins::overlap;
use shape_rules::{Candidate, First, ShapeError};
use std::alloc::{AllocError, Global};

/// A member of an overload.
#[derive(Drop)]
pub struct Added {
    /// The member.
    pub member: Candidate,
    /// The definition that adds it; none of a builtin's.
    pub place: Option<Place>,
}

/// Notes that a member which a definition adds clashes with an older one.
fn note_clash(
    alloc: Global,
    older: &Candidate,
    member: &Candidate,
    place: Option<Place>,
    first: &mut First,
) -> Result<(), AllocError>
    ensures { OnOk result (first.new.error ≡ first_failure first.old.error (clash_of older.now member.now place)) }
{
    if let Some(place) = place {
        if overlap(alloc, older.params.as_slice(), member.params.as_slice())? {
            first.note(ShapeError::Overlap {
                place,
                first: older.name.clone()?,
                second: member.name.clone()?,
            });
        }
    }
    Ok(())
}

/// Notes the clashes of a member with older ones.
#[tactic(auto, using(shape_rules::proofs::Firsts::first_failure_append))]
fn note_clashes_with(
    alloc: Global,
    before: &[Added],
    added: &Added,
    first: &mut First,
) -> Result<(), AllocError>
    ensures { OnOk result (first.new.error ≡ first_failure first.old.error (clashes_with (candidates before.now) added.now)) }
{
    for older in before {
        note_clash(alloc, &older.member, &added.member, added.place, first)?;
    }
    Ok(())
}

/// Notes the members of an overload that clash, each at the later of their definitions (M13). The one error is want of memory.
#[tactic(auto, using(shape_rules::proofs::Firsts::first_failure_append))]
pub fn note_clashes(alloc: Global, members: &[Added], first: &mut First) -> Result<(), AllocError>
    ensures { OnOk result (first.new.error ≡ first_failure first.old.error (overload_faults members.now)) }
{
    for (at, added) in members.iter().enumerate() {
        note_clashes_with(alloc, &members[..at], added, first)?;
    }
    Ok(())
}
