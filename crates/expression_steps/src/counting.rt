//! Turns of a `foreach`.
ghost use Rattle.std.specs.Prelude.{◌≡◌, IfOk, OnOk};
ghost use Rattle.value_indices.specs.Walking as walk;
ghost use Rattle.expression_steps.specs.Statements as statement_spec;

use crate::aims::one_name;
use crate::ends::{owe_counted, owe_step};
use pattern_leaves::{Bound, name_value};
use sail_base::{Items, Place, Text};
use sail_core::Counting;
use sail_types::{Num, copy_num};
use std::alloc::{AllocError, Global};
use value_indices::{Indices, Walking};

/// From a number to another, by a third.
#[derive(Drop)]
pub struct Bounds {
    /// Where it begins.
    pub from: Num,
    /// Where it ends.
    pub to: Num,
    /// The step.
    pub by: Num,
}

/// The bounds that three numbers are; none of others. It fails where memory is wanting.
pub fn bounds_of(alloc: Global, numbers: Option<Items<Num>>) -> Result<Option<Bounds>, AllocError>
    ensures { IfOk result (λ made. made ≡ statement_spec.bounds_of numbers) }
{
    match numbers {
        None => Ok(None),
        Some(numbers) => match numbers.as_slice() {
            [from, to, by] => Ok(Some(Bounds {
                from: copy_num(alloc, from)?,
                to: copy_num(alloc, to)?,
                by: copy_num(alloc, by)?,
            })),
            _ => Ok(None),
        },
    }
}

/// The name of a turn's variable, which is between the bounds. It fails where memory is wanting, and where variables are too many.
#[tactic(auto, using(value_indices::proofs::Walks::walks))]
fn name_turn(
    alloc: Global,
    walking: &mut Walking,
    name: &Text,
    way: Counting,
    bounds: &Bounds,
    variable: u32,
) -> Result<Items<Bound>, AllocError>
    ensures value { IfOk result (λ made. made ≡ walk.got (statement_spec.turn_named name.now way bounds.now.from bounds.now.to variable)
        (walk.seen walking.old)) }
    ensures walked { OnOk result (walk.seen walking.new ≡ walk.run (statement_spec.turn_named name.now way bounds.now.from bounds.now.to variable)
        (walk.seen walking.old)) }
{
    let number = Num::variable(alloc, variable)?;
    let from = copy_num(alloc, &bounds.from)?;
    let to = copy_num(alloc, &bounds.to)?;
    owe_counted(alloc, walking, way, from, &number, to)?;
    let value = Indices::Integer(number);
    one_name(alloc, name_value(alloc, name, &value)?)
}

/// Begins a turn: what the step owes; what is in force is remembered, and the turn's variable has its name. It fails where memory is
/// wanting, and where variables are too many.
#[tactic(auto, using(value_indices::proofs::Walks::walks))]
pub fn begin_turn(
    alloc: Global,
    walking: &mut Walking,
    place: Place,
    name: &Text,
    way: Counting,
    bounds: &Bounds,
) -> Result<Items<Bound>, AllocError>
    ensures value { IfOk result (λ made. made ≡ walk.got (statement_spec.turn_begun name.now way bounds.now.from bounds.now.to)
        (walk.remembering (walk.run (statement_spec.step_owed place bounds.now.by) (walk.seen walking.old)))) }
    ensures walked { OnOk result (walk.seen walking.new ≡ walk.run (statement_spec.turn_begun name.now way bounds.now.from bounds.now.to)
        (walk.remembering (walk.run (statement_spec.step_owed place bounds.now.by) (walk.seen walking.old)))) }
{
    owe_step(alloc, walking, place, copy_num(alloc, &bounds.by)?)?;
    walking.remember()?;
    let variable = walking.fresh_named(name.clone()?)?;
    name_turn(alloc, walking, name, way, bounds, variable)
}
