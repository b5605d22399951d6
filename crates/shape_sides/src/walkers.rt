//! What the functions of the walk over a side are given.
ghost use Rattle.std.specs.Prelude.{◌≡◌, ◌<◌, IfOk, OnOk};
ghost use Rattle.sail_syntax.specs.declared.patterns.Pat.{size-Pat as the_size};
ghost use Rattle.shape_rules.specs.Around.{setting_of};
ghost use Rattle.shape_rules.specs.Findings.{first_failure};
ghost use Rattle.shape_rules.specs.Sides.{read_side};
ghost use Rattle.shape_calls.specs.Made.{made_of};
ghost use Rattle.shape_sides.specs.Walkers.{Elaborates};

use sail_syntax::Pat;
use sail_types::Shape;
use shape_calls::Made;
use shape_rules::{Around, First, Locals};
use std::alloc::{AllocError, Global};

/// The side that is walked over, and a function for the sides inside it.
#[derive(Clone, Copy)]
pub(crate) struct Walker<'w, F> {
    /// What allocates.
    pub(crate) alloc: Global,
    /// The side.
    pub(crate) whole: &'w Pat,
    /// The function.
    pub(crate) part: F,
}

impl<
    'w,
    F: Fn(Global, &Pat, &Around<'_>, &Locals, &Shape, &mut First) -> Result<Made, AllocError>,
> Walker<'w, F> {
    /// The shape and the core of a side inside the whole.
    pub(crate) fn elaborate(
        &self,
        side: &Pat,
        around: &Around<'_>,
        locals: &Locals,
        want: &Shape,
        first: &mut First,
    ) -> Result<Made, AllocError>
        requires parts { Elaborates (the_size self.now.whole.now) (F.pre self.now.part) (F.post self.now.part) }
        requires inside { the_size side.now < the_size self.now.whole.now }
        ensures made { IfOk result (λ made. made ≡ made_of ((read_side side.now).elaborate (setting_of around.now) locals.now want.now)) }
        ensures failures { OnOk result (first.new.error ≡ first_failure first.old.error
            ((read_side side.now).elaborate (setting_of around.now) locals.now want.now).faults) }
    {
        (self.part)(self.alloc, side, around, locals, want, first)
    }
}
