//! Struct literals, and structs with other fields.
ghost use Rattle.std.specs.Prelude.{◌≡◌, ◌<◌, map, IfOk, OnOk};
ghost use Rattle.shape_rules.specs.Around.{setting_of};
ghost use Rattle.shape_rules.specs.Findings.{first_failure};
ghost use Rattle.shape_rules.specs.Values as values;
ghost use Rattle.shape_rules.specs.Expressions.{part};
ghost use Rattle.shape_calls.specs.Made.{made_of};
ghost use Rattle.shape_forms.specs.Structs.{values as values_of};
ghost use Rattle.shape_walks.specs.Trees.{field_value};
ghost use Rattle.shape_walks.specs.Walks.{each_taken, each_faults};
ghost use Rattle.sail_syntax.specs.declared.expressions.FieldValue.{size-FieldValue as field_size};
ghost use Rattle.sail_syntax.specs.declared.expressions.Exp.{size-Exp as the_size};
ghost use denote.Param.Weighed.{most};
ghost use Rattle.shape_values.specs.Walkers.{Elaborates};

use crate::walkers::Walker;
use crate::walks::push_one;
use sail_base::Place;
use sail_syntax::{Exp, FieldValue, Name};
use sail_types::Shape;
use shape_calls::{Made, unknown};
use shape_forms::{StructPlan, WithPlan, finish_struct, finish_with, plan_struct, plan_with};
use shape_rules::{Around, First, Locals};
use shape_walks::{Walk, place_of};
use std::alloc::{AllocError, Global};

/// The values of fields, as parts more of a walk.
#[tactic(auto, using(shape_rules::proofs::Firsts::first_failure_append))]
fn push_fields<
    F: Fn(Global, &Exp, &Around<'_>, &mut Locals, &Shape, &mut First) -> Result<Made, AllocError>,
>(
    walker: &Walker<'_, F>,
    fields: &[FieldValue],
    around: &Around<'_>,
    locals: &mut Locals,
    mut walk: Walk,
    first: &mut First,
) -> Result<Walk, AllocError>
    requires parts { Elaborates (the_size walker.now.whole.now) (F.pre walker.now.part) (F.post walker.now.part) }
    requires fields { most field_size fields.now < the_size walker.now.whole.now }
    ensures walk { IfOk result (λ next. next ≡ each_taken (values_of fields.now) (setting_of around.now) locals.old walk) }
    ensures failures { OnOk result (first.new.error ≡ first_failure first.old.error
        (each_faults (values_of fields.now) (setting_of around.now) locals.old walk)) }
    ensures locals { OnOk result (locals.new ≡ locals.old) }
{
    for field in fields {
        walk = push_one(walker, field.value.get(), around, locals, walk, first)?;
    }
    Ok(walk)
}

/// `struct S { f = e }`. The one error is want of memory.
#[tactic(auto, using(crate::proofs::Fields::planned, crate::proofs::Fields::planned_faults, crate::proofs::Fields::unplanned, shape_rules::proofs::Firsts::first_failure_append))]
pub fn struct_found<
    F: Fn(Global, &Exp, &Around<'_>, &mut Locals, &Shape, &mut First) -> Result<Made, AllocError>,
>(
    walker: &Walker<'_, F>,
    place: Place,
    name: &Option<Name>,
    fields: &[FieldValue],
    around: &Around<'_>,
    locals: &mut Locals,
    want: &Shape,
    first: &mut First,
) -> Result<Made, AllocError>
    requires parts { Elaborates (the_size walker.now.whole.now) (F.pre walker.now.part) (F.post walker.now.part) }
    requires fields { most field_size fields.now < the_size walker.now.whole.now }
    ensures made { IfOk result (λ made. made
        ≡ made_of (values.struct_found place name.now (map field_value fields.now) (setting_of around.now) locals.old want.now)) }
    ensures failures { OnOk result (first.new.error ≡ first_failure first.old.error
        (values.struct_found place name.now (map field_value fields.now) (setting_of around.now) locals.old want.now).faults) }
    ensures locals { OnOk result (locals.new ≡ locals.old) }
{
    let alloc = walker.alloc;
    let Some(plan) = plan_struct(alloc, place, around, name, fields, first)? else {
        return Ok(unknown(alloc, place));
    };
    let StructPlan { at, places, walk } = plan;
    let walk = push_fields(walker, fields, around, locals, walk, first)?;
    finish_struct(alloc, place, at, places, walk, want, first)
}

/// `{ e with f = e }`. The one error is want of memory.
#[tactic(auto, using(shape_forms::proofs::Structured::with_is, shape_rules::proofs::Firsts::first_failure_append))]
pub fn with_found<
    F: Fn(Global, &Exp, &Around<'_>, &mut Locals, &Shape, &mut First) -> Result<Made, AllocError>,
>(
    walker: &Walker<'_, F>,
    place: Place,
    base: &Exp,
    fields: &[FieldValue],
    around: &Around<'_>,
    locals: &mut Locals,
    want: &Shape,
    first: &mut First,
) -> Result<Made, AllocError>
    requires parts { Elaborates (the_size walker.now.whole.now) (F.pre walker.now.part) (F.post walker.now.part) }
    requires base { the_size base.now < the_size walker.now.whole.now }
    requires fields { most field_size fields.now < the_size walker.now.whole.now }
    ensures made { IfOk result (λ made. made
        ≡ made_of (values.with_found place (part base.now) (map field_value fields.now) (setting_of around.now) locals.old want.now)) }
    ensures failures { OnOk result (first.new.error ≡ first_failure first.old.error
        (values.with_found place (part base.now) (map field_value fields.now) (setting_of around.now) locals.old want.now).faults) }
    ensures locals { OnOk result (locals.new ≡ locals.old) }
{
    let alloc = walker.alloc;
    let made = walker.elaborate(base, around, locals, &Shape::Never, first)?;
    let at_base = place_of(base);
    let plan = plan_with(alloc, at_base, around, &made.shape, fields, first)?;
    let WithPlan {
        fields: found,
        walk,
    } = plan;
    let walk = push_fields(walker, fields, around, locals, walk, first)?;
    finish_with(alloc, place, made, found, walk, want, first)
}
