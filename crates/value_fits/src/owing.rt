//! What has to be true, as a step of a walk.
ghost use Rattle.std.specs.Prelude.{◌≡◌, OnOk};
ghost use Rattle.value_indices.specs.Walking as walk;
ghost use Rattle.value_fits.specs.Fitting as fitting;

use crate::fitted::Fitted;
use sail_base::Place;
use std::alloc::{AllocError, Global};
use value_indices::Walking;

/// Owes what has to be true at a place, under what is in force; what comes into force for it stays so. It fails where memory is
/// wanting.
#[tactic(auto, using(crate::proofs::Owed::owed_made))]
pub fn owe_fit(
    alloc: Global,
    walking: &mut Walking,
    place: Place,
    made: Fitted,
) -> Result<(), AllocError>
    ensures { OnOk result (walk.seen walking.new ≡ walk.run (fitting.owe_made place made) (walk.seen walking.old)) }
{
    let Fitted {
        conditions,
        facts,
        next,
    } = made;
    walking.count_from(next);
    walking.assume_facts(facts)?;
    walking.owe(alloc, place, conditions)
}

/// Owes what has to be true at a place, under what was remembered last; what comes into force for it stays so. It fails where memory
/// is wanting.
#[tactic(auto, using(crate::proofs::Owed::owed_recalled))]
pub fn owe_fit_earlier(
    alloc: Global,
    walking: &mut Walking,
    place: Place,
    made: Fitted,
) -> Result<(), AllocError>
    ensures { OnOk result (walk.seen walking.new
        ≡ walk.run (fitting.owe_made_under (walk.remembered_last (walk.seen walking.old)) place made) (walk.seen walking.old)) }
{
    let Fitted {
        conditions,
        facts,
        next,
    } = made;
    let recent = facts.len();
    walking.count_from(next);
    walking.assume_facts(facts)?;
    walking.owe_recalled(alloc, place, recent, conditions)
}
