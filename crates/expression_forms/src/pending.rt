//! What an assignment of a new value still owes.
ghost use Rattle.std.specs.Prelude.{◌≡◌, [], IfOk, OnOk, map};
ghost use Rattle.value_fits.specs.Fitting.{says};
ghost use Rattle.value_indices.specs.Walking as walk;
ghost use Rattle.value_indices.specs.declared.indices.Indices.TheVariants as I;
ghost use Rattle.pattern_leaves.specs.Settings as settings;
ghost use Rattle.pattern_leaves.specs.Settings.{around_of};
ghost use Rattle.call_notes.specs.Ends.{fits_unless as fits_unless_of};
ghost use Rattle.expression_forms.specs.Spots as spots;
ghost use Rattle.expression_forms.specs.Ways.{part_fits};

use crate::ways::Reached;
use call_notes::fits_unless;
use pattern_leaves::Around;
use sail_base::{Items, Place};
use std::alloc::{AllocError, Global};
use value_fits::{Fitted, Wanted, owe_fit};
use value_indices::{Indices, Reading, Walking, copy_indices, copy_reading};

/// What a new value still owes at the assignment's place.
pub enum Left {
    /// Nothing.
    Nothing,
    /// That it is of this type, unless it owes that itself.
    Value(bool, Indices, Reading),
    /// That there is such a part, and that it is of the part's type, unless it owes that itself.
    Part(Reached, bool, Indices),
    /// What several owe, one behind another.
    Each(Items<Left>),
}

impl Drop for Left {
    #[cycle(left_drop)]
    fn drop(self) {
        match self {
            Left::Nothing => {}
            Left::Value(_, _, _) => {}
            Left::Part(_, _, _) => {}
            Left::Each(_) => {}
        }
    }
}

/// A new value, written.
pub struct Wrote {
    /// What it still owes.
    pub left: Left,
    /// What the assignment gives.
    pub answer: Indices,
}

impl Drop for Wrote {
    fn drop(self) {
        let Wrote { left: _, answer: _ } = self;
    }
}

impl Left {
    /// What has to be true for that, where variables are counted from a number on. It fails where memory is wanting, and where
    /// variables are too many.
    #[cycle(left_fits)]
    pub(crate) fn fits(
        &self,
        alloc: Global,
        around: &Around<'_>,
        next: u32,
    ) -> Result<Fitted, AllocError>
        ensures { IfOk result (λ made. made ≡ spots.left_of (around_of around.now) self.now next) }
    {
        match self {
            Left::Nothing => Ok(Fitted::nothing(alloc, next)),
            Left::Value(is_nested, value, reading) => {
                let wanted = Wanted::lent(reading);
                fits_unless(alloc, around, *is_nested, value, &wanted, next)
            }
            Left::Part(reached, is_nested, value) => {
                reached.fits(alloc, around, *is_nested, value, next)
            }
            Left::Each(lefts) => fits_each(alloc, around, lefts.as_slice(), next),
        }
    }
}

/// What has to be true for several, one behind another, where variables are counted from a number on. It fails where memory is wanting,
/// and where variables are too many.
#[cycle(left_fits)]
fn fits_each(
    alloc: Global,
    around: &Around<'_>,
    lefts: &[Left],
    next: u32,
) -> Result<Fitted, AllocError>
    ensures { IfOk result (λ made. made ≡ spots.each_left (map (spots.left_of (around_of around.now)) lefts.now) next) }
{
    let mut made = Fitted::nothing(alloc, next);
    for left in lefts {
        let more = left.fits(alloc, around, made.next)?;
        made = made.also(more)?;
    }
    Ok(made)
}

impl Wrote {
    /// Nothing is left to owe.
    pub(crate) fn gives(answer: Indices) -> Wrote
        ensures { (around : settings.Around) → spots.wrote_of around result ≡ spots.wrote (says []) answer }
    {
        Wrote {
            left: Left::Nothing,
            answer,
        }
    }

    /// A value of this type is left to owe, unless it owes that itself. It fails where memory is wanting.
    pub(crate) fn of_value(
        alloc: Global,
        is_nested: bool,
        value: &Indices,
        reading: &Reading,
    ) -> Result<Wrote, AllocError>
        ensures { IfOk result (λ made. (around : settings.Around)
            → spots.wrote_of around made ≡ spots.wrote (fits_unless_of is_nested around value.now reading.now) I.Unit) }
    {
        let value = copy_indices(alloc, value)?;
        let reading = copy_reading(alloc, reading)?;
        Ok(Wrote {
            left: Left::Value(is_nested, value, reading),
            answer: Indices::Unit,
        })
    }

    /// A new value of a part is left to owe, unless it owes that itself. It fails where memory is wanting.
    pub(crate) fn of_part(
        alloc: Global,
        reached: &Reached,
        is_nested: bool,
        value: &Indices,
        answer: Indices,
    ) -> Result<Wrote, AllocError>
        ensures { IfOk result (λ made. (around : settings.Around)
            → spots.wrote_of around made ≡ spots.wrote (part_fits around reached.now is_nested value.now) answer) }
    {
        let reached = reached.copy(alloc)?;
        let value = copy_indices(alloc, value)?;
        Ok(Wrote {
            left: Left::Part(reached, is_nested, value),
            answer,
        })
    }

    /// What is left to owe.
    pub(crate) fn into_left(self) -> Left
        ensures { (around : settings.Around) → spots.left_of around result ≡ spots.Wrote.left (spots.wrote_of around self) }
    {
        let Wrote { left, answer: _ } = self;
        left
    }

    /// The values of a tuple, written, of which these are left to owe; this is given where there are none. It takes no memory.
    pub(crate) fn of_each(lefts: Items<Left>, answer: Indices) -> Wrote
        ensures { (around : settings.Around) → spots.wrote_of around result ≡ spots.all_wrote (map (spots.left_of around) lefts) answer }
    {
        if lefts.is_empty() {
            return Wrote::gives(answer);
        }
        Wrote {
            left: Left::Each(lefts),
            answer: Indices::Unit,
        }
    }

    /// Owes what is left, at a place, and gives what the assignment gives. It fails where memory is wanting, and where variables are
    /// too many.
    #[tactic(auto, using(value_indices::proofs::Walks::walks, value_fits::proofs::Owed::owed))]
    pub(crate) fn owe(
        self,
        alloc: Global,
        walking: &mut Walking,
        around: &Around<'_>,
        place: Place,
    ) -> Result<Indices, AllocError>
        ensures value { IfOk result (λ made. made
            ≡ walk.got (spots.owed_answer place (spots.wrote_of (around_of around.now) self)) (walk.seen walking.old)) }
        ensures walked { OnOk result (walk.seen walking.new
            ≡ walk.run (spots.owed_answer place (spots.wrote_of (around_of around.now) self)) (walk.seen walking.old)) }
    {
        let Wrote { left, answer } = self;
        let made = left.fits(alloc, around, walking.next())?;
        owe_fit(alloc, walking, place, made)?;
        Ok(answer)
    }
}
