//! Kinds whose parts are walked from left to right, each with what is wanted of it from the start.
ghost use Rattle.std.specs.Prelude.{◌≡◌, IfOk, OnOk};
ghost use Rattle.value_indices.specs.Walking as walk;
ghost use Rattle.pattern_leaves.specs.Settings.{around_of};
ghost use Rattle.expression_forms.specs.Scopes.{scope_of};
ghost use Rattle.expression_steps.specs.Coded as coded;
ghost use Rattle.expression_steps.specs.Making as making;

use crate::aims::{one_aim, thrown_aim, tuple_aims};
use crate::calls::{call_aims, call_count, call_made};
use crate::consing::{cons_aims, cons_ended, two_or_none};
use crate::ends::tuple_of;
use crate::leaves::leaf;
use crate::leaving::{answer_aims, answer_count, cast_aim, is_single, one_made, single_count};
use crate::structs::{struct_aims, struct_count, struct_made};
use call_notes::Aim;
use expression_forms::Scope;
use pattern_leaves::Around;
use sail_base::{Items, Place};
use sail_core::{Core, Kind};
use std::alloc::{AllocError, Global};
use value_indices::{Indices, Walking};

/// What is wanted of so many parts. It fails where memory is wanting, and where binders are too many.
pub fn made_aims(
    alloc: Global,
    around: &Around<'_>,
    kind: &Kind,
    count: usize,
    aim: &Aim,
) -> Result<Items<Aim>, AllocError>
    ensures { IfOk result (λ made. made ≡ making.made_aims (around_of around.now) kind.now count aim.now) }
{
    match kind {
        Kind::Call(callee) => call_aims(alloc, around, *callee, count, aim),
        Kind::Cast(written) => one_aim(alloc, cast_aim(alloc, around, written, aim)?),
        Kind::Tuple => tuple_aims(alloc, aim),
        Kind::Cons(_) => cons_aims(alloc, aim),
        Kind::Struct(named, fields) => struct_aims(alloc, around, *named, fields.as_slice()),
        Kind::Return => answer_aims(alloc, around.answer),
        Kind::Throw => one_aim(alloc, thrown_aim(alloc, around.exception)?),
        _ => Ok(Items::new(alloc)),
    }
}

/// How many of so many parts are walked. It fails where memory is wanting.
pub fn made_count(
    alloc: Global,
    around: &Around<'_>,
    kind: &Kind,
    count: usize,
) -> Result<usize, AllocError>
    ensures { IfOk result (λ made. made ≡ making.made_count (around_of around.now) kind.now count) }
{
    match kind {
        Kind::Call(callee) => Ok(call_count(around, *callee, count)),
        Kind::Tuple => Ok(count),
        Kind::Cons(_) => Ok(two_or_none(count)),
        Kind::Struct(named, fields) => struct_count(alloc, around, *named, fields.as_slice()),
        Kind::Return => Ok(answer_count(around.answer, count)),
        _ => Ok(single_count(kind, count)),
    }
}

/// What is made of the value of one part, where a kind has one; what a kind gives that has none. It fails where memory is wanting, and where
/// variables are too many.
fn single_end(
    alloc: Global,
    walking: &mut Walking,
    around: &Around<'_>,
    scope: &Scope<'_>,
    place: Place,
    number: u32,
    kind: &Kind,
    parts: &[Core],
    values: &[Indices],
) -> Result<Indices, AllocError>
    ensures value { IfOk result (λ made. made ≡ walk.got (making.single_end (around_of around.now) (scope_of scope.now) place number kind.now
        (coded.each_part parts.now) values.now) (walk.seen walking.old)) }
    ensures walked { OnOk result (walk.seen walking.new ≡ walk.run (making.single_end (around_of around.now) (scope_of scope.now) place number kind.now
        (coded.each_part parts.now) values.now) (walk.seen walking.old)) }
{
    if is_single(kind) {
        one_made(alloc, walking, around, place, number, kind, parts, values)
    } else {
        leaf(alloc, walking, around, scope, place, number, kind, parts)
    }
}

/// What is made of the values of the parts that are walked. It fails where memory is wanting, and where variables are too many.
#[tactic(auto, using(value_indices::proofs::Walks::walks))]
pub fn made_end(
    alloc: Global,
    walking: &mut Walking,
    around: &Around<'_>,
    scope: &Scope<'_>,
    place: Place,
    number: u32,
    kind: &Kind,
    parts: &[Core],
    aim: &Aim,
    values: Items<Indices>,
) -> Result<Indices, AllocError>
    ensures value { IfOk result (λ made. made ≡ walk.got (making.made_end (around_of around.now) (scope_of scope.now) place number kind.now
        (coded.each_part parts.now) aim.now values) (walk.seen walking.old)) }
    ensures walked { OnOk result (walk.seen walking.new ≡ walk.run (making.made_end (around_of around.now) (scope_of scope.now) place number kind.now
        (coded.each_part parts.now) aim.now values) (walk.seen walking.old)) }
{
    match kind {
        Kind::Call(callee) => {
            call_made(
                alloc,
                walking,
                around,
                place,
                number,
                *callee,
                parts,
                aim,
                values.as_slice(),
            )
        }
        Kind::Tuple => tuple_of(alloc, walking, number, values),
        Kind::Cons(shape) => {
            cons_ended(
                alloc,
                walking,
                around,
                shape,
                place,
                number,
                aim,
                parts,
                values.as_slice(),
            )
        }
        Kind::Struct(named, fields) => {
            struct_made(
                alloc,
                walking,
                around,
                number,
                *named,
                fields.as_slice(),
                parts,
                values.as_slice(),
            )
        }
        _ => single_end(
            alloc,
            walking,
            around,
            scope,
            place,
            number,
            kind,
            parts,
            values.as_slice(),
        ),
    }
}
