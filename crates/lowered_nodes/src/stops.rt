//! What ends a run or a function: what is returned or thrown, exits, and assertions.
ghost use Rattle.std.specs.Prelude.{◌≡◌, true, IfOk, OnOk};
ghost use Rattle.model_state.specs.declared.cause.Cause.TheVariants.{Assertion};
ghost use Rattle.sail_core.specs.declared.tree.Kind.TheVariants as kind;
ghost use Rattle.lowered_pieces.specs.Places.{Naming};
ghost use Rattle.lowered_nodes.specs.Walk as spec;

use crate::operands::put_held;
use crate::walk::{Walk, put_node};
use lowered_pieces::Coding;
use lowered_slots::Place;
use lowered_steps::{Stand, Tail, put_nothing};
use model_state::Cause;
use sail_base::{Place as TextPlace, Text};
use sail_core::Core;
use std::alloc::{AllocError, Global};

/// What the function gives. It fails where memory is wanting.
#[cycle(lowering)]
pub fn put_return<'x>(
    walk: &'x Walk<'x>,
    coding: &mut Coding,
    stand: &'x Stand<'x>,
    tail: &'x Tail<'x>,
    node: &'x Core,
) -> Result<(), AllocError>
    requires { (name : Naming) → spec.as_ok walk.now name kind.Return node.now ≡ true }
    ensures { OnOk result (spec.Puts coding.old coding.new walk.now stand.now tail.now
        (λ name. spec.as_for walk.now name kind.Return node.now)) }
{
    match node.parts.as_slice() {
        [value] => put_node(&*walk, coding, &*stand, &Tail::Returns(&*stand), value),
        _ => Ok(()),
    }
}

/// What is thrown. It fails where memory is wanting.
#[cycle(lowering)]
pub fn put_throw<'x>(
    walk: &'x Walk<'x>,
    coding: &mut Coding,
    stand: &'x Stand<'x>,
    tail: &'x Tail<'x>,
    node: &'x Core,
) -> Result<(), AllocError>
    requires { (name : Naming) → spec.as_ok walk.now name kind.Throw node.now ≡ true }
    ensures { OnOk result (spec.Puts coding.old coding.new walk.now stand.now tail.now
        (λ name. spec.as_for walk.now name kind.Throw node.now)) }
{
    match node.parts.as_slice() {
        [value] => put_node(&*walk, coding, &*stand, &Tail::Throws(&*stand), value),
        _ => Ok(()),
    }
}

/// The run ends. It fails where memory is wanting.
#[cycle(lowering)]
pub fn put_exit<'x>(
    walk: &'x Walk<'x>,
    coding: &mut Coding,
    stand: &'x Stand<'x>,
    tail: &'x Tail<'x>,
    node: &'x Core,
) -> Result<(), AllocError>
    requires { (name : Naming) → spec.as_ok walk.now name kind.Exit node.now ≡ true }
    ensures { OnOk result (spec.Puts coding.old coding.new walk.now stand.now tail.now
        (λ name. spec.as_for walk.now name kind.Exit node.now)) }
{
    match node.parts.as_slice() {
        [value] => {
            put_held(&*walk, coding, &*stand, value)?;
            coding.put_stop(Cause::Exit(node.place))
        }
        _ => Ok(()),
    }
}

/// The run stops where a truth is not so. It fails where memory is wanting.
#[cycle(lowering)]
pub fn put_assert<'x>(
    walk: &'x Walk<'x>,
    coding: &mut Coding,
    stand: &'x Stand<'x>,
    tail: &'x Tail<'x>,
    text: &'x Option<Text>,
    node: &'x Core,
) -> Result<(), AllocError>
    requires { (name : Naming) → spec.as_ok walk.now name (kind.Assert text.now) node.now ≡ true }
    ensures { OnOk result (spec.Puts coding.old coding.new walk.now stand.now tail.now
        (λ name. spec.as_for walk.now name (kind.Assert text.now) node.now)) }
{
    match node.parts.as_slice() {
        [value] => {
            let label = coding.take_labels(1)?;
            put_held(&*walk, coding, &*stand, value)?;
            coding.put_jump_if(Place::Temp(stand.temp), walk.setting.truth, label)?;
            let cause = assertion(walk.alloc, node.place, &*text)?;
            coding.put_stop(cause)?;
            coding.put_label(label)?;
            put_nothing(walk.alloc, coding, walk.setting, &*stand, &*tail)
        }
        _ => Ok(()),
    }
}

/// What an assertion stops with. It fails where memory is wanting.
fn assertion(alloc: Global, place: TextPlace, text: &Option<Text>) -> Result<Cause, AllocError>
    ensures { IfOk result (λ cause. cause ≡ Assertion place text.now) }
{
    match text {
        Some(text) => Ok(Cause::Assertion(place, Some(Text::new(alloc, text.as_str())?))),
        None => Ok(Cause::Assertion(place, None)),
    }
}
