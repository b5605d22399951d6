//! Kinds that have no parts.
ghost use Rattle.std.specs.Prelude.{◌≡◌, IfOk, OnOk};
ghost use Rattle.value_indices.specs.Walking as walk;
ghost use Rattle.pattern_leaves.specs.Settings.{around_of, held_in};
ghost use Rattle.expression_forms.specs.Names as names;
ghost use Rattle.expression_forms.specs.Scopes.{scope_of};
ghost use Rattle.expression_steps.specs.Coded as coded;
ghost use Rattle.expression_steps.specs.Expressions as spec;

use call_notes::wrong_value;
use expression_forms::{
    Scope, constraint, literal_indices, look_up, read_local, read_register, read_top_level,
    read_variable, size,
};
use pattern_leaves::Around;
use sail_base::{Place, Text};
use sail_core::{Core, Kind};
use std::alloc::{AllocError, Global};
use value_indices::{Indices, Walking};

/// The name of a `let`, as the node of a number reads it. It fails where memory is wanting.
#[tactic(auto, using(value_indices::proofs::Walks::walks))]
fn local(
    alloc: Global,
    walking: &mut Walking,
    scope: &Scope<'_>,
    place: Place,
    number: u32,
    name: &Text,
) -> Result<Indices, AllocError>
    ensures value { IfOk result (λ made. made
        ≡ walk.got (names.local_walk place number (held_in name.now (scope_of scope.now))) (walk.seen walking.old)) }
    ensures walked { OnOk result (walk.seen walking.new
        ≡ walk.run (names.local_walk place number (held_in name.now (scope_of scope.now))) (walk.seen walking.old)) }
{
    read_local(alloc, walking, place, number, look_up(name.as_str(), scope))
}

/// The name of a `var`, as the node of a number reads it. It fails where memory is wanting, and where variables are too many.
#[tactic(auto, using(value_indices::proofs::Walks::walks))]
fn variable(
    alloc: Global,
    walking: &mut Walking,
    scope: &Scope<'_>,
    place: Place,
    number: u32,
    name: &Text,
) -> Result<Indices, AllocError>
    ensures value { IfOk result (λ made. made
        ≡ walk.got (names.variable_walk place number name.now (held_in name.now (scope_of scope.now))) (walk.seen walking.old)) }
    ensures walked { OnOk result (walk.seen walking.new
        ≡ walk.run (names.variable_walk place number name.now (held_in name.now (scope_of scope.now))) (walk.seen walking.old)) }
{
    read_variable(
        alloc,
        walking,
        place,
        number,
        name,
        look_up(name.as_str(), scope),
    )
}

/// A kind that has no parts. It fails where memory is wanting, and where variables are too many.
#[tactic(auto, using(value_indices::proofs::Walks::walks))]
pub(crate) fn leaf(
    alloc: Global,
    walking: &mut Walking,
    around: &Around<'_>,
    scope: &Scope<'_>,
    place: Place,
    number: u32,
    kind: &Kind,
    parts: &[Core],
) -> Result<Indices, AllocError>
    ensures value { IfOk result (λ made. made ≡ walk.got (spec.leaf_walk place number kind.now (coded.each_part parts.now) (around_of around.now)
        (scope_of scope.now)) (walk.seen walking.old)) }
    ensures walked { OnOk result (walk.seen walking.new ≡ walk.run (spec.leaf_walk place number kind.now (coded.each_part parts.now) (around_of around.now)
        (scope_of scope.now)) (walk.seen walking.old)) }
{
    if !parts.is_empty() {
        return wrong_value(alloc, walking, place);
    }
    match kind {
        Kind::Constant(literal) => Ok(literal_indices(alloc, literal)),
        Kind::Local(name) => local(alloc, walking, scope, place, number, name),
        Kind::Variable(name) => variable(alloc, walking, scope, place, number, name),
        Kind::TopLevel(index) => {
            read_top_level(
                alloc,
                walking,
                around.types,
                place,
                number,
                around.lets.get(*index as usize),
            )
        }
        Kind::Register(index) => {
            read_register(
                alloc,
                walking,
                place,
                number,
                around.registers.get(*index as usize),
            )
        }
        Kind::SizeOf(typ, numbers) => {
            size(alloc, walking, around, place, typ, numbers.as_slice())
        }
        Kind::Constraint(condition, numbers) => {
            constraint(alloc, walking, around, place, condition, numbers.as_slice())
        }
        _ => wrong_value(alloc, walking, place),
    }
}
