//! What targets are, once their indexes and arguments have been walked.
ghost use Rattle.std.specs.Prelude.{◌≡◌, ◌+◌, ◌<◌, ◌^◌, length, List, map, IfOk, OnOk};
ghost use Rattle.sail_core.specs.declared.targets.TargetKind.TheVariants as T;
ghost use Rattle.sail_core.specs.declared.tree.Core.{Core};
ghost use Rattle.value_indices.specs.Walking as walk;
ghost use Rattle.pattern_leaves.specs.Settings as settings;
ghost use Rattle.pattern_leaves.specs.Settings.{around_of};
ghost use Rattle.expression_forms.specs.Spots.{call_spot, spot_of};
ghost use Rattle.expression_forms.specs.Scopes.{scope_of};
ghost use Rattle.expression_steps.specs.Calls as call_spec;
ghost use Rattle.expression_steps.specs.Coded as coded;
ghost use Rattle.expression_steps.specs.Targets as target_spec;

use crate::ends::no_spot;
use crate::knowing::nestings;
use crate::slices::behind;
use expression_forms::{Reached, Scope, Spot, look_up};
use pattern_leaves::Around;
use sail_base::{Items, Place, Text};
use sail_core::{Caller, Core, Suffix, Target};
use std::alloc::{AllocError, Global};
use value_indices::{Indices, Walking};

/// A `var`. It fails where memory is wanting, and where variables are too many.
#[tactic(auto, using(value_indices::proofs::Walks::walks))]
pub fn spot_name(
    alloc: Global,
    walking: &mut Walking,
    around: &Around<'_>,
    scope: &Scope<'_>,
    place: Place,
    number: u32,
    name: &Text,
    targets: &[Target],
    parts: &[Core],
    at: usize,
) -> Result<Option<(Spot, usize)>, AllocError>
    ensures value { IfOk result (λ made. coded.spotted_in (around_of around.now) parts.now made ≡ walk.got (target_spec.kind_spot place number (T.Variable
        name.now) (map target_spec.spotting targets.now) (around_of around.now) (scope_of scope.now) (coded.left_behind parts.now at))
        (walk.seen walking.old)) }
    ensures walked { OnOk result (walk.seen walking.new ≡ walk.run (target_spec.kind_spot place number (T.Variable name.now) (map target_spec.spotting
        targets.now) (around_of around.now) (scope_of scope.now) (coded.left_behind parts.now at)) (walk.seen walking.old)) }
{
    match targets {
        [] => {
            let spot = Spot::held(alloc, place, number, name, look_up(name.as_str(), scope))?;
            Ok(Some((spot, at)))
        }
        _ => no_spot(alloc, walking, place),
    }
}

/// A register. It fails where memory is wanting, and where variables are too many.
#[tactic(auto, using(value_indices::proofs::Walks::walks))]
pub fn spot_register(
    alloc: Global,
    walking: &mut Walking,
    around: &Around<'_>,
    scope: &Scope<'_>,
    place: Place,
    number: u32,
    register: u32,
    targets: &[Target],
    parts: &[Core],
    at: usize,
) -> Result<Option<(Spot, usize)>, AllocError>
    ensures value { IfOk result (λ made. coded.spotted_in (around_of around.now) parts.now made ≡ walk.got (target_spec.kind_spot place number (T.Register
        register) (map target_spec.spotting targets.now) (around_of around.now) (scope_of scope.now) (coded.left_behind parts.now at))
        (walk.seen walking.old)) }
    ensures walked { OnOk result (walk.seen walking.new ≡ walk.run (target_spec.kind_spot place number (T.Register register) (map target_spec.spotting
        targets.now) (around_of around.now) (scope_of scope.now) (coded.left_behind parts.now at)) (walk.seen walking.old)) }
{
    match targets {
        [] => {
            let spot = Spot::register(
                alloc,
                place,
                number,
                around.registers.get(register as usize),
            )?;
            Ok(Some((spot, at)))
        }
        _ => no_spot(alloc, walking, place),
    }
}

/// The part of a target that its last suffix reaches, by the base and what it holds. It fails where memory is wanting.
pub fn part_found(
    alloc: Global,
    number: u32,
    suffix: &Suffix,
    base: Spot,
    held: Indices,
    found: Option<(Option<Reached>, usize)>,
) -> Result<Option<(Spot, usize)>, AllocError>
    ensures { IfOk result (λ made. (around : settings.Around) (parts : List Core) → coded.spotted_in around parts made
        ≡ target_spec.part_spotted around number suffix.now (spot_of around base) held (coded.taken_in parts found)) }
{
    match found {
        None => Ok(None),
        Some((reached, at)) => {
            let spot = Spot::part(alloc, suffix.place, number, suffix.way, base, held, reached)?;
            Ok(Some((spot, at)))
        }
    }
}

/// A tuple of targets.
pub fn tuple_found(
    place: Place,
    number: u32,
    found: Option<(Items<Spot>, usize)>,
) -> Option<(Spot, usize)>
    ensures { (around : settings.Around) (parts : List Core) → coded.spotted_in around parts result
        ≡ target_spec.tuple_spotted place number (coded.spotted_all_in around parts found) }
{
    match found {
        None => None,
        Some((spots, at)) => Some((Spot::Tuple(place, number, spots), at)),
    }
}

/// A call, by its arguments, which stand where so many parts have been taken. It fails where memory is wanting.
pub fn call_found(
    alloc: Global,
    place: Place,
    number: u32,
    reader: Option<Caller>,
    writer: Caller,
    arguments: &[Core],
    values: Items<Indices>,
    at: usize,
) -> Result<Option<(Spot, usize)>, AllocError>
    requires { at + length arguments.now < 2 ^ 64 }
    ensures { IfOk result (λ made. (around : settings.Around) (parts : List Core) → coded.spotted_in around parts made
        ≡ target_spec.spotted (call_spot around place number reader writer (call_spec.nestings (coded.each_part arguments.now)) values)
        (coded.left_behind parts (at + length arguments.now))) }
{
    let nested = nestings(alloc, arguments)?;
    let spot = Spot::Call(place, number, reader, writer, nested, values);
    Ok(Some((spot, behind(at, arguments.len()))))
}
