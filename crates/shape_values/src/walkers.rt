//! What the functions of the walk over expressions are given.
ghost use Rattle.std.specs.Prelude.{◌≡◌, ◌<◌, IfOk, OnOk};
ghost use Rattle.sail_syntax.specs.declared.expressions.Exp.{size-Exp as the_size};
ghost use Rattle.shape_rules.specs.Around.{setting_of};
ghost use Rattle.shape_rules.specs.Expressions.{elaborate as elaborated};
ghost use Rattle.shape_rules.specs.Findings.{first_failure};
ghost use Rattle.shape_calls.specs.Made.{made_of};
ghost use Rattle.shape_values.specs.Walkers.{Elaborates};

use sail_syntax::Exp;
use sail_types::Shape;
use shape_calls::Made;
use shape_rules::{Around, First, Locals};
use std::alloc::{AllocError, Global};

/// The expression that is walked over, and a function for the expressions inside it.
#[derive(Clone, Copy)]
pub struct Walker<'w, F> {
    /// What allocates.
    pub alloc: Global,
    /// The expression.
    pub whole: &'w Exp,
    /// The function.
    pub part: F,
}

impl<
    'w,
    F: Fn(Global, &Exp, &Around<'_>, &mut Locals, &Shape, &mut First) -> Result<Made, AllocError>,
> Walker<'w, F> {
    /// The shape and the core of an expression inside the whole. The one error is want of memory.
    pub fn elaborate(
        &self,
        expression: &Exp,
        around: &Around<'_>,
        locals: &mut Locals,
        want: &Shape,
        first: &mut First,
    ) -> Result<Made, AllocError>
        requires parts { Elaborates (the_size self.now.whole.now) (F.pre self.now.part) (F.post self.now.part) }
        requires inside { the_size expression.now < the_size self.now.whole.now }
        ensures made { IfOk result (λ made. made ≡ made_of (elaborated expression.now (setting_of around.now) locals.old want.now)) }
        ensures failures { OnOk result (first.new.error ≡ first_failure first.old.error
            (elaborated expression.now (setting_of around.now) locals.old want.now).faults) }
        ensures locals { OnOk result (locals.new ≡ locals.old) }
    {
        (self.part)(self.alloc, expression, around, locals, want, first)
    }
}
