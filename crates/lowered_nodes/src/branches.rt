//! Branches of truths.
ghost use Rattle.std.specs.Prelude.{◌≡◌, true, OnOk};
ghost use Rattle.sail_types.specs.declared.shapes.Shape.TheVariants as shape;
ghost use Rattle.sail_core.specs.declared.tree.Kind.TheVariants as kind;
ghost use Rattle.lowered_pieces.specs.Emitted.{Emits};
ghost use Rattle.lowered_pieces.specs.Places.{Naming};
ghost use Rattle.lowered_nodes.specs.Walk as spec;

use crate::arms::put_inside;
use crate::operands::put_held;
use crate::walk::{Walk, put_node};
use lowered_pieces::Coding;
use lowered_slots::Place;
use lowered_steps::{Making, Stand, Tail, end_arm, further, put_made, put_nothing, put_tail};
use sail_core::Core;
use std::alloc::AllocError;

/// The second branch of an `if`; none is `()`. It fails where memory is wanting.
#[cycle(lowering)]
fn put_second<'x>(
    walk: &'x Walk<'x>,
    coding: &mut Coding,
    stand: &'x Stand<'x>,
    tail: &'x Tail<'x>,
    second: &'x [Core],
) -> Result<(), AllocError>
    requires { (name : Naming) → spec.second_ok walk.now name second.now ≡ true }
    ensures { OnOk result (spec.Puts coding.old coding.new walk.now stand.now tail.now
        (λ name. spec.second_for walk.now name second.now)) }
{
    match second {
        [] => put_nothing(walk.alloc, coding, walk.setting, &*stand, &*tail),
        [second, ..] => put_inside(&*walk, coding, &*stand, &*tail, second),
    }
}

/// Both branches of an `if`; none is `()`. It fails where memory is wanting.
#[cycle(lowering)]
pub fn put_if<'x>(
    walk: &'x Walk<'x>,
    coding: &mut Coding,
    stand: &'x Stand<'x>,
    tail: &'x Tail<'x>,
    test: &'x Core,
    first: &'x Core,
    second: &'x [Core],
) -> Result<(), AllocError>
    requires { (name : Naming) → spec.if_ok walk.now name test.now first.now second.now ≡ true }
    ensures { OnOk result (spec.Puts coding.old coding.new walk.now stand.now tail.now
        (λ name. spec.if_for walk.now name test.now first.now second.now)) }
{
    let label = coding.take_labels(2)?;
    let end = further(label, 1)?;
    put_held(&*walk, coding, &*stand, &*test)?;
    coding.put_jump_if(Place::Temp(stand.temp), walk.setting.truth, label)?;
    put_second(&*walk, coding, &*stand, &*tail, &*second)?;
    end_arm(coding, end, label)?;
    put_inside(&*walk, coding, &*stand, &*tail, &*first)?;
    coding.put_label(end)
}

/// Where ways met: the value in hand is that of the node. It fails where memory is wanting.
pub fn put_again<'x>(
    walk: &'x Walk<'x>,
    coding: &mut Coding,
    stand: &'x Stand<'x>,
    tail: &'x Tail<'x>,
    number: u32,
) -> Result<(), AllocError>
    ensures { OnOk result (Emits coding.old coding.new (λ name first. spec.again_for walk.now name stand.now tail.now number first)
        (λ name. spec.again_labels walk.now name tail.now number)) }
{
    put_made(
        walk.alloc,
        coding,
        walk.setting,
        &*stand,
        &*tail,
        number,
        1,
        1,
        &Making::Again,
    )
}

/// An `if` with one branch, or with two whose ways meet. It fails where memory is wanting.
#[cycle(lowering)]
pub fn put_branches<'x>(
    walk: &'x Walk<'x>,
    coding: &mut Coding,
    stand: &'x Stand<'x>,
    tail: &'x Tail<'x>,
    node: &'x Core,
) -> Result<(), AllocError>
    requires { (name : Naming) → spec.as_ok walk.now name (kind.If shape.Unit) node.now ≡ true }
    ensures { OnOk result (spec.Puts coding.old coding.new walk.now stand.now tail.now
        (λ name. spec.as_for walk.now name (kind.If shape.Unit) node.now)) }
{
    match node.parts.as_slice() {
        [test, first, second @ ..] => match second {
            [] => put_if(&*walk, coding, &*stand, &*tail, test, first, second),
            [_] => {
                let number = node.number;
                let meets = Tail::Meets(walk.setting.cases(number, 1), &*stand);
                put_if(&*walk, coding, &*stand, &meets, test, first, second)?;
                put_again(&*walk, coding, &*stand, &*tail, number)
            }
            _ => Ok(()),
        },
        _ => Ok(()),
    }
}

/// `&`: the second truth is looked at where the first is so. It fails where memory is wanting.
#[cycle(lowering)]
pub fn put_and<'x>(
    walk: &'x Walk<'x>,
    coding: &mut Coding,
    stand: &'x Stand<'x>,
    tail: &'x Tail<'x>,
    node: &'x Core,
) -> Result<(), AllocError>
    requires { (name : Naming) → spec.as_ok walk.now name kind.And node.now ≡ true }
    ensures { OnOk result (spec.Puts coding.old coding.new walk.now stand.now tail.now
        (λ name. spec.as_for walk.now name kind.And node.now)) }
{
    match node.parts.as_slice() {
        [first, second] => {
            let label = coding.take_labels(2)?;
            let end = further(label, 1)?;
            put_held(&*walk, coding, &*stand, first)?;
            coding.put_jump_if(Place::Temp(stand.temp), walk.setting.truth, label)?;
            end_arm(coding, end, label)?;
            put_inside(&*walk, coding, &*stand, &Tail::Stays, second)?;
            coding.put_label(end)?;
            let truths = walk.setting.truths;
            put_tail(walk.alloc, coding, walk.setting, &*tail, truths)
        }
        _ => Ok(()),
    }
}

/// `|`: the second truth is looked at where the first is not so. It fails where memory is wanting.
#[cycle(lowering)]
pub fn put_or<'x>(
    walk: &'x Walk<'x>,
    coding: &mut Coding,
    stand: &'x Stand<'x>,
    tail: &'x Tail<'x>,
    node: &'x Core,
) -> Result<(), AllocError>
    requires { (name : Naming) → spec.as_ok walk.now name kind.Or node.now ≡ true }
    ensures { OnOk result (spec.Puts coding.old coding.new walk.now stand.now tail.now
        (λ name. spec.as_for walk.now name kind.Or node.now)) }
{
    match node.parts.as_slice() {
        [first, second] => {
            let label = coding.take_labels(1)?;
            put_held(&*walk, coding, &*stand, first)?;
            coding.put_jump_if(Place::Temp(stand.temp), walk.setting.truth, label)?;
            put_inside(&*walk, coding, &*stand, &Tail::Stays, second)?;
            coding.put_label(label)?;
            let truths = walk.setting.truths;
            put_tail(walk.alloc, coding, walk.setting, &*tail, truths)
        }
        _ => Ok(()),
    }
}

/// A guard; what is not so goes on at the label for No. It fails where memory is wanting.
#[cycle(lowering)]
pub fn put_when<'x>(
    walk: &'x Walk<'x>,
    coding: &mut Coding,
    stand: &'x Stand<'x>,
    tail: &'x Tail<'x>,
    node: &'x Core,
) -> Result<(), AllocError>
    requires { (name : Naming) → spec.as_ok walk.now name kind.When node.now ≡ true }
    ensures { OnOk result (spec.Puts coding.old coding.new walk.now stand.now tail.now
        (λ name. spec.as_for walk.now name kind.When node.now)) }
{
    match node.parts.as_slice() {
        [test, behind] => {
            let label = coding.take_labels(1)?;
            put_held(&*walk, coding, &*stand, test)?;
            coding.put_jump_if(Place::Temp(stand.temp), walk.setting.truth, label)?;
            coding.put_goto(stand.on_no)?;
            coding.put_label(label)?;
            put_node(&*walk, coding, &*stand, &*tail, behind)
        }
        _ => Ok(()),
    }
}
