//! `foreach`, `while` and `repeat`.
ghost use Rattle.std.specs.Prelude.{◌≡◌, ◌<◌, ◌∷◌, ◌++◌, [], IfOk, OnOk, option_map};
ghost use Rattle.shape_rules.specs.Around.{setting_of};
ghost use Rattle.shape_rules.specs.Findings.{first_failure};
ghost use Rattle.shape_rules.specs.Statements as spec;
ghost use Rattle.shape_rules.specs.Expressions.{part};
ghost use Rattle.shape_calls.specs.Made.{made_of};
ghost use Rattle.shape_walks.specs.Trees.{range_part};
ghost use Rattle.shape_forms.specs.Steps.{range_cores, range_faults};
ghost use Rattle.sail_syntax.specs.declared.expressions.Range.{size-Range as range_size};
ghost use Rattle.sail_syntax.specs.declared.expressions.Exp.{size-Exp as the_size};
ghost use Rattle.shape_values.specs.Walkers.{Elaborates, size_if};

use sail_base::{Boxed, Items, Place};
use sail_core::{Core, Kind, Literal};
use sail_syntax::{Exp, Looping, Name, Range};
use sail_types::Shape;
use shape_calls::{Made, leaf, missing};
use shape_forms::{counting, enter_counter, settle_over};
use shape_rules::{Around, First, Locals};
use shape_values::{Walker, push_part};
use std::alloc::{AllocError, Global};

/// `foreach (x from a to b by s) e`, which is `()`. The one error is want of memory.
#[tactic(auto, using(shape_forms::proofs::Left::left_one, shape_rules::proofs::Firsts::first_failure_append), unfolding(shape_forms::specs::Over::over_found))]
pub fn foreach<
    F: Fn(Global, &Exp, &Around<'_>, &mut Locals, &Shape, &mut First) -> Result<Made, AllocError>,
>(
    walker: &Walker<'_, F>,
    place: Place,
    name: &Name,
    range: &Range,
    body: &Exp,
    around: &Around<'_>,
    locals: &mut Locals,
    want: &Shape,
    first: &mut First,
) -> Result<Made, AllocError>
    requires parts { Elaborates (the_size walker.now.whole.now) (F.pre walker.now.part) (F.post walker.now.part) }
    requires range { range_size range.now < the_size walker.now.whole.now }
    requires body { the_size body.now < the_size walker.now.whole.now }
    ensures made { IfOk result (λ made. made ≡ made_of
        (spec.foreach_found place name.now (range_part range.now) (part body.now) (setting_of around.now) locals.old want.now)) }
    ensures failures { OnOk result (first.new.error ≡ first_failure first.old.error
        (spec.foreach_found place name.now (range_part range.now) (part body.now) (setting_of around.now) locals.old want.now).faults) }
    ensures locals { OnOk result (locals.new ≡ locals.old) }
{
    let alloc = walker.alloc;
    let mut parts = Items::new(alloc);
    push_range(walker, place, range, around, locals, &mut parts, first)?;
    let outside = locals.len();
    enter_counter(name, locals)?;
    push_part(
        walker,
        body,
        around,
        locals,
        &Shape::Unit,
        &mut parts,
        first,
    )?;
    locals.leave(outside)?;
    let kind = Kind::Foreach(name.text.clone()?, counting(range.direction));
    settle_over(alloc, place, want, Shape::Unit, kind, parts, first)
}

/// The first and the last number of a `foreach`, and its steps.
#[tactic(auto, using(shape_rules::proofs::Firsts::first_failure_append))]
fn push_range<
    F: Fn(Global, &Exp, &Around<'_>, &mut Locals, &Shape, &mut First) -> Result<Made, AllocError>,
>(
    walker: &Walker<'_, F>,
    place: Place,
    range: &Range,
    around: &Around<'_>,
    locals: &mut Locals,
    parts: &mut Items<Core>,
    first: &mut First,
) -> Result<(), AllocError>
    requires parts { Elaborates (the_size walker.now.whole.now) (F.pre walker.now.part) (F.post walker.now.part) }
    requires range { range_size range.now < the_size walker.now.whole.now }
    ensures parts { OnOk result (parts.new ≡ parts.old ++ range_cores place (range_part range.now) (setting_of around.now) locals.old) }
    ensures failures { OnOk result (first.new.error ≡ first_failure first.old.error
        (range_faults place (range_part range.now) (setting_of around.now) locals.old)) }
    ensures locals { OnOk result (locals.new ≡ locals.old) }
{
    push_part(
        walker,
        range.from.get(),
        around,
        locals,
        &Shape::Int,
        parts,
        first,
    )?;
    push_part(
        walker,
        range.to.get(),
        around,
        locals,
        &Shape::Int,
        parts,
        first,
    )?;
    push_steps(walker, place, &range.by, around, locals, parts, first)
}

/// The steps of a `foreach`: 1, where none are written.
#[tactic(auto, using(shape_rules::proofs::Firsts::first_failure_append))]
fn push_steps<
    F: Fn(Global, &Exp, &Around<'_>, &mut Locals, &Shape, &mut First) -> Result<Made, AllocError>,
>(
    walker: &Walker<'_, F>,
    place: Place,
    by: &Option<Boxed<Exp>>,
    around: &Around<'_>,
    locals: &mut Locals,
    parts: &mut Items<Core>,
    first: &mut First,
) -> Result<(), AllocError>
    requires parts { Elaborates (the_size walker.now.whole.now) (F.pre walker.now.part) (F.post walker.now.part) }
    requires by { size_if by.now < the_size walker.now.whole.now }
    ensures parts { OnOk result (parts.new
        ≡ parts.old ++ (spec.by_found place (option_map part by.now) (setting_of around.now) locals.old).core ∷ []) }
    ensures failures { OnOk result (first.new.error ≡ first_failure first.old.error
        (spec.by_found place (option_map part by.now) (setting_of around.now) locals.old).faults) }
    ensures locals { OnOk result (locals.new ≡ locals.old) }
{
    let alloc = walker.alloc;
    match by {
        Some(by) => {
            push_part(walker, by.get(), around, locals, &Shape::Int, parts, first)?;
            Ok(())
        }
        None => parts.push(leaf(alloc, place, Kind::Constant(Literal::Integer(1)))),
    }
}

/// `while m c do e` or `repeat m e until c`, which is `()`. The one error is want of memory.
#[tactic(auto, using(shape_rules::proofs::Firsts::first_failure_append), unfolding(shape_forms::specs::Over::over_found))]
pub fn looped<
    F: Fn(Global, &Exp, &Around<'_>, &mut Locals, &Shape, &mut First) -> Result<Made, AllocError>,
>(
    walker: &Walker<'_, F>,
    place: Place,
    looping: Looping,
    measure: &Option<Boxed<Exp>>,
    condition: &Exp,
    body: &Exp,
    around: &Around<'_>,
    locals: &mut Locals,
    want: &Shape,
    first: &mut First,
) -> Result<Made, AllocError>
    requires parts { Elaborates (the_size walker.now.whole.now) (F.pre walker.now.part) (F.post walker.now.part) }
    requires measure { size_if measure.now < the_size walker.now.whole.now }
    requires condition { the_size condition.now < the_size walker.now.whole.now }
    requires body { the_size body.now < the_size walker.now.whole.now }
    ensures made { IfOk result (λ made. made ≡ made_of (spec.loop_found place looping (option_map part measure.now) (part condition.now)
        (part body.now) (setting_of around.now) locals.old want.now)) }
    ensures failures { OnOk result (first.new.error ≡ first_failure first.old.error (spec.loop_found place looping
        (option_map part measure.now) (part condition.now) (part body.now) (setting_of around.now) locals.old want.now).faults) }
    ensures locals { OnOk result (locals.new ≡ locals.old) }
{
    let alloc = walker.alloc;
    let mut parts = Items::new(alloc);
    push_measure(walker, place, measure, around, locals, &mut parts, first)?;
    match looping {
        Looping::While => {
            push_part(
                walker,
                condition,
                around,
                locals,
                &Shape::Bool,
                &mut parts,
                first,
            )?;
            push_part(
                walker,
                body,
                around,
                locals,
                &Shape::Unit,
                &mut parts,
                first,
            )?;
            settle_over(alloc, place, want, Shape::Unit, Kind::While, parts, first)
        }
        Looping::Repeat => {
            push_part(
                walker,
                body,
                around,
                locals,
                &Shape::Unit,
                &mut parts,
                first,
            )?;
            push_part(
                walker,
                condition,
                around,
                locals,
                &Shape::Bool,
                &mut parts,
                first,
            )?;
            settle_over(alloc, place, want, Shape::Unit, Kind::Repeat, parts, first)
        }
    }
}

/// The measure of a loop, a plain expression.
#[tactic(auto, using(shape_rules::proofs::Firsts::first_failure_append))]
fn push_measure<
    F: Fn(Global, &Exp, &Around<'_>, &mut Locals, &Shape, &mut First) -> Result<Made, AllocError>,
>(
    walker: &Walker<'_, F>,
    place: Place,
    measure: &Option<Boxed<Exp>>,
    around: &Around<'_>,
    locals: &mut Locals,
    parts: &mut Items<Core>,
    first: &mut First,
) -> Result<(), AllocError>
    requires parts { Elaborates (the_size walker.now.whole.now) (F.pre walker.now.part) (F.post walker.now.part) }
    requires measure { size_if measure.now < the_size walker.now.whole.now }
    ensures parts { OnOk result (parts.new
        ≡ parts.old ++ (spec.measure_found place (option_map part measure.now) (setting_of around.now) locals.old).core ∷ []) }
    ensures failures { OnOk result (first.new.error ≡ first_failure first.old.error
        (spec.measure_found place (option_map part measure.now) (setting_of around.now) locals.old).faults) }
    ensures locals { OnOk result (locals.new ≡ locals.old) }
{
    let alloc = walker.alloc;
    match measure {
        Some(measure) => {
            let plain = around.plainly();
            push_part(
                walker,
                measure.get(),
                &plain,
                locals,
                &Shape::Int,
                parts,
                first,
            )?;
            Ok(())
        }
        None => parts.push(missing(alloc, place)),
    }
}
