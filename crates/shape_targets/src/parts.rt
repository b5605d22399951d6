//! Parts of values, and updates.
ghost use Rattle.std.specs.Prelude.{◌≡◌, ◌<◌, ◌++◌, map, option_map, IfOk, OnOk};
ghost use Rattle.shape_rules.specs.Around.{setting_of};
ghost use Rattle.shape_rules.specs.Expressions.{part};
ghost use Rattle.shape_rules.specs.Findings.{first_failure};
ghost use Rattle.shape_rules.specs.Targets as target;
ghost use Rattle.shape_rules.specs.Values as spec;
ghost use Rattle.shape_calls.specs.Made.{made_of};
ghost use Rattle.shape_walks.specs.Trees.{suffix_part, index_part};
ghost use Rattle.sail_syntax.specs.declared.expressions.Index.{size-Index as index_size};
ghost use Rattle.sail_syntax.specs.declared.expressions.Suffix.{size-Suffix as suffix_size};
ghost use Rattle.sail_syntax.specs.declared.expressions.Exp.{size-Exp as the_size};
ghost use denote.Param.Weighed.{most};
ghost use Rattle.shape_values.specs.Walkers.{Elaborates, size_if};

use sail_base::{Boxed, Items, Place};
use sail_core::{Core, Kind, Suffix as Step};
use sail_syntax::{Exp, Index, Suffix};
use sail_types::Shape;
use shape_calls::{Made, note_base, shape_inside};
use shape_forms::{finish_update, led, led_index, push_step, settle_over};
use shape_rules::{Around, First, Locals};
use shape_values::Walker;
use shape_walks::{last_place, place_of, suffix_place};
use std::alloc::{AllocError, Global};

/// `a.f[i]`, whose first token stands at this place. The one error is want of memory.
#[tactic(auto, using(shape_rules::proofs::Firsts::first_failure_append), unfolding(shape_forms::specs::Over::over_found))]
pub fn part_found<
    F: Fn(Global, &Exp, &Around<'_>, &mut Locals, &Shape, &mut First) -> Result<Made, AllocError>,
>(
    walker: &Walker<'_, F>,
    place: Place,
    base: &Exp,
    suffixes: &[Suffix],
    around: &Around<'_>,
    locals: &mut Locals,
    want: &Shape,
    first: &mut First,
) -> Result<Made, AllocError>
    requires parts { Elaborates (the_size walker.now.whole.now) (F.pre walker.now.part) (F.post walker.now.part) }
    requires base { the_size base.now < the_size walker.now.whole.now }
    requires suffixes { most suffix_size suffixes.now < the_size walker.now.whole.now }
    ensures made { IfOk result (λ made. made
        ≡ made_of (spec.part_found place (part base.now) (map suffix_part suffixes.now) (setting_of around.now) locals.old want.now)) }
    ensures failures { OnOk result (first.new.error ≡ first_failure first.old.error
        (spec.part_found place (part base.now) (map suffix_part suffixes.now) (setting_of around.now) locals.old want.now).faults) }
    ensures locals { OnOk result (locals.new ≡ locals.old) }
{
    let alloc = walker.alloc;
    let mut parts = Items::new(alloc);
    let made = walker.elaborate(base, around, locals, &Shape::Never, first)?;
    let shape = made.into_shape(&mut parts)?;
    let mut steps = Items::new(alloc);
    let shape = walked(
        walker,
        suffixes,
        place,
        place_of(base),
        shape,
        around,
        locals,
        &mut steps,
        &mut parts,
        first,
    )?;
    let last = last_place(place, suffixes);
    settle_over(alloc, last, want, shape, Kind::Part(steps), parts, first)
}

/// Suffixes behind a base that stands here and has this shape, where the whole begins at `first_place`: the shape of what is there.
/// They go behind other suffixes, and the indexes in them behind other cores. The one error is want of memory.
#[tactic(auto, using(shape_rules::proofs::Firsts::first_failure_append))]
pub(crate) fn walked<
    F: Fn(Global, &Exp, &Around<'_>, &mut Locals, &Shape, &mut First) -> Result<Made, AllocError>,
>(
    walker: &Walker<'_, F>,
    suffixes: &[Suffix],
    first_place: Place,
    mut base: Place,
    mut shape: Shape,
    around: &Around<'_>,
    locals: &mut Locals,
    steps: &mut Items<Step>,
    cores: &mut Items<Core>,
    first: &mut First,
) -> Result<Shape, AllocError>
    requires parts { Elaborates (the_size walker.now.whole.now) (F.pre walker.now.part) (F.post walker.now.part) }
    requires suffixes { most suffix_size suffixes.now < the_size walker.now.whole.now }
    ensures shape { IfOk result (λ made. made ≡ (target.walked (map suffix_part suffixes.now)
        (setting_of around.now) locals.old first_place base shape).shape) }
    ensures steps { OnOk result (steps.new ≡ steps.old ++ (target.walked (map suffix_part suffixes.now)
        (setting_of around.now) locals.old first_place base shape).suffixes) }
    ensures cores { OnOk result (cores.new ≡ cores.old ++ (target.walked (map suffix_part suffixes.now)
        (setting_of around.now) locals.old first_place base shape).parts) }
    ensures failures { OnOk result (first.new.error ≡ first_failure first.old.error
        (target.walked (map suffix_part suffixes.now) (setting_of around.now) locals.old first_place base shape).faults) }
    ensures locals { OnOk result (locals.new ≡ locals.old) }
{
    let alloc = walker.alloc;
    for suffix in suffixes {
        let place = suffix_place(first_place, suffix);
        let inside = led(alloc, suffix, &shape, around)?;
        note_base(base, &shape, &inside, first);
        push_step(place, &inside, steps)?;
        push_indexes(walker, suffix, around, locals, cores, first)?;
        base = place;
        shape = shape_inside(inside);
    }
    Ok(shape)
}

/// The indexes of a suffix. The one error is want of memory.
#[tactic(auto, using(shape_rules::proofs::Firsts::first_failure_append))]
fn push_indexes<
    F: Fn(Global, &Exp, &Around<'_>, &mut Locals, &Shape, &mut First) -> Result<Made, AllocError>,
>(
    walker: &Walker<'_, F>,
    suffix: &Suffix,
    around: &Around<'_>,
    locals: &mut Locals,
    cores: &mut Items<Core>,
    first: &mut First,
) -> Result<(), AllocError>
    requires parts { Elaborates (the_size walker.now.whole.now) (F.pre walker.now.part) (F.post walker.now.part) }
    requires suffix { suffix_size suffix.now < the_size walker.now.whole.now }
    ensures cores { OnOk result (cores.new ≡ cores.old ++ target.cores_of (target.suffix_found (suffix_part suffix.now) (setting_of around.now) locals.old)) }
    ensures failures { OnOk result (first.new.error ≡ first_failure first.old.error
        (target.faults_of (target.suffix_found (suffix_part suffix.now) (setting_of around.now) locals.old))) }
    ensures locals { OnOk result (locals.new ≡ locals.old) }
{
    match suffix {
        Suffix::Field(_) => Ok(()),
        Suffix::At(_, index) => push_ends(walker, index, around, locals, cores, first),
    }
}

/// An index, or both ends of a slice. The one error is want of memory.
#[tactic(auto, using(shape_rules::proofs::Firsts::first_failure_append))]
fn push_ends<
    F: Fn(Global, &Exp, &Around<'_>, &mut Locals, &Shape, &mut First) -> Result<Made, AllocError>,
>(
    walker: &Walker<'_, F>,
    index: &Index,
    around: &Around<'_>,
    locals: &mut Locals,
    cores: &mut Items<Core>,
    first: &mut First,
) -> Result<(), AllocError>
    requires parts { Elaborates (the_size walker.now.whole.now) (F.pre walker.now.part) (F.post walker.now.part) }
    requires index { index_size index.now < the_size walker.now.whole.now }
    ensures cores { OnOk result (cores.new ≡ cores.old ++ target.cores_of (spec.ends_found (index_part index.now) (setting_of around.now) locals.old)) }
    ensures failures { OnOk result (first.new.error ≡ first_failure first.old.error
        (target.faults_of (spec.ends_found (index_part index.now) (setting_of around.now) locals.old))) }
    ensures locals { OnOk result (locals.new ≡ locals.old) }
{
    let made = walker.elaborate(index.first.get(), around, locals, &Shape::Int, first)?;
    made.into_shape(cores)?;
    push_end(walker, &index.last, around, locals, cores, first)
}

/// The lower end of a slice. The one error is want of memory.
#[tactic(auto, using(shape_rules::proofs::Firsts::first_failure_append))]
fn push_end<
    F: Fn(Global, &Exp, &Around<'_>, &mut Locals, &Shape, &mut First) -> Result<Made, AllocError>,
>(
    walker: &Walker<'_, F>,
    end: &Option<Boxed<Exp>>,
    around: &Around<'_>,
    locals: &mut Locals,
    cores: &mut Items<Core>,
    first: &mut First,
) -> Result<(), AllocError>
    requires parts { Elaborates (the_size walker.now.whole.now) (F.pre walker.now.part) (F.post walker.now.part) }
    requires end { size_if end.now < the_size walker.now.whole.now }
    ensures cores { OnOk result (cores.new ≡ cores.old ++ target.cores_of (target.index_found (option_map part end.now) (setting_of around.now) locals.old)) }
    ensures failures { OnOk result (first.new.error ≡ first_failure first.old.error
        (target.faults_of (target.index_found (option_map part end.now) (setting_of around.now) locals.old))) }
    ensures locals { OnOk result (locals.new ≡ locals.old) }
{
    match end {
        None => Ok(()),
        Some(end) => {
            let made = walker.elaborate(end.get(), around, locals, &Shape::Int, first)?;
            made.into_shape(cores)?;
            Ok(())
        }
    }
}

/// `[v with i = e]` or `[v with h .. l = e]`. The one error is want of memory.
#[tactic(auto, using(shape_rules::proofs::Firsts::first_failure_append), unfolding(shape_forms::specs::Over::over_found))]
pub fn update_found<
    F: Fn(Global, &Exp, &Around<'_>, &mut Locals, &Shape, &mut First) -> Result<Made, AllocError>,
>(
    walker: &Walker<'_, F>,
    place: Place,
    base: &Exp,
    index: &Index,
    value: &Exp,
    around: &Around<'_>,
    locals: &mut Locals,
    want: &Shape,
    first: &mut First,
) -> Result<Made, AllocError>
    requires parts { Elaborates (the_size walker.now.whole.now) (F.pre walker.now.part) (F.post walker.now.part) }
    requires base { the_size base.now < the_size walker.now.whole.now }
    requires index { index_size index.now < the_size walker.now.whole.now }
    requires value { the_size value.now < the_size walker.now.whole.now }
    ensures made { IfOk result (λ made. made
        ≡ made_of (spec.update_found place (part base.now) (index_part index.now) (part value.now) (setting_of around.now) locals.old want.now)) }
    ensures failures { OnOk result (first.new.error ≡ first_failure first.old.error
        (spec.update_found place (part base.now) (index_part index.now) (part value.now) (setting_of around.now) locals.old want.now).faults) }
    ensures locals { OnOk result (locals.new ≡ locals.old) }
{
    let alloc = walker.alloc;
    let mut cores = Items::new(alloc);
    let made = walker.elaborate(base, around, locals, &Shape::Never, first)?;
    let shape = made.into_shape(&mut cores)?;
    let inside = led_index(alloc, index, &shape)?;
    note_base(place_of(base), &shape, &inside, first);
    push_ends(walker, index, around, locals, &mut cores, first)?;
    let wanted = shape_inside(inside);
    let made = walker.elaborate(value, around, locals, &wanted, first)?;
    let found = made.into_shape(&mut cores)?;
    finish_update(alloc, place, index, shape, &found, cores, want, first)
}
