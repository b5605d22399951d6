//! What is bound, for what comes behind: rests of blocks.
ghost use Rattle.std.specs.Prelude.{◌≡◌, [], true, None, OnOk};
ghost use Rattle.sail_core.specs.declared.tree.Kind.TheVariants as kind;
ghost use Rattle.lowered_pieces.specs.Places.{Naming};
ghost use Rattle.lowered_nodes.specs.Walk as spec;

use crate::arms::put_arm;
use crate::operands::put_held;
use crate::walk::{Walk, put_node};
use lowered_ends::node_ends;
use lowered_pieces::Coding;
use lowered_slots::Place;
use lowered_steps::{
    Matched, Named, Scope, Stand, Tail, count_names, end_arm, further, put_nothing,
};
use model_state::Cause;
use sail_base::{Items, Place as TextPlace, Text};
use sail_core::{Arm, Core, Giver, Statement};
use std::alloc::AllocError;

/// A value in hand is matched by one arm, for what comes behind; the run stops where it doesn't match. It fails where memory is wanting.
#[cycle(lowering)]
pub fn put_let<'x>(
    walk: &'x Walk<'x>,
    coding: &mut Coding,
    stand: &'x Stand<'x>,
    tail: &'x Tail<'x>,
    giver: Giver,
    place: TextPlace,
    value: &'x Core,
    arm: &'x Arm,
    number: u32,
    statements: &'x [Statement],
    parts: &'x [Core],
) -> Result<(), AllocError>
    requires { (name : Naming) → spec.bound_ok walk.now name value.now statements.now parts.now ≡ true }
    ensures { OnOk result (spec.Puts coding.old coding.new walk.now stand.now tail.now
        (λ name. spec.let_for walk.now name giver place value.now arm.now number statements.now parts.now)) }
{
    put_held(&*walk, coding, &*stand, &*value)?;
    let ends = node_ends(walk.alloc, walk.setting, walk.around, &*value)?;
    let matched = Matched::InHand(&ends);
    let label = coding.take_labels(2)?;
    let end = further(label, 1)?;
    let failing = Stand {
        on_no: label,
        ..*stand
    };
    put_arm(
        &*walk,
        coding,
        &failing,
        &*tail,
        giver,
        &matched,
        &*arm,
        number,
        &*statements,
        &*parts,
    )?;
    end_arm(coding, end, label)?;
    coding.put_stop(Cause::MatchFailure(place))?;
    coding.put_label(end)
}

/// A value is bound to a name in a place of its own, for what comes behind. It fails where memory is wanting.
#[cycle(lowering)]
pub fn put_bind<'x>(
    walk: &'x Walk<'x>,
    coding: &mut Coding,
    stand: &'x Stand<'x>,
    tail: &'x Tail<'x>,
    name: &'x Text,
    value: &'x Core,
    number: u32,
    statements: &'x [Statement],
    parts: &'x [Core],
) -> Result<(), AllocError>
    requires { (name : Naming) → spec.bound_ok walk.now name value.now statements.now parts.now ≡ true }
    ensures { OnOk result (spec.Puts coding.old coding.new walk.now stand.now tail.now
        (λ naming. spec.bind_for walk.now naming name.now value.now number statements.now parts.now)) }
{
    let binds = Tail::Binds(&*name, &*stand);
    put_node(&*walk, coding, &*stand, &binds, &*value)?;
    let mut names = Items::new(walk.alloc);
    names.push(Named {
        name: &*name,
        place: Place::Local(count_names(stand.scope)?),
    })?;
    let scope = Scope::Inside(names.as_slice(), stand.scope);
    let inner = Stand {
        scope: &scope,
        ..*stand
    };
    put_block(
        &*walk,
        coding,
        &inner,
        &*tail,
        number,
        &*statements,
        &*parts,
    )
}

/// The value of a block, where there is one; none is `()`. It fails where memory is wanting.
#[cycle(lowering)]
fn put_last<'x>(
    walk: &'x Walk<'x>,
    coding: &mut Coding,
    stand: &'x Stand<'x>,
    tail: &'x Tail<'x>,
    number: u32,
    parts: &'x [Core],
) -> Result<(), AllocError>
    requires { (name : Naming) → spec.block_ok walk.now name [] parts.now ≡ true }
    ensures { OnOk result (spec.Puts coding.old coding.new walk.now stand.now tail.now (λ name. spec.block_for walk.now name number [] parts.now)) }
{
    match parts {
        [] => put_nothing(walk.alloc, coding, walk.setting, &*stand, &*tail),
        [value] => put_node(&*walk, coding, &*stand, &*tail, value),
        _ => Ok(()),
    }
}

/// A statement of the block of a number, and the rest behind it. It fails where memory is wanting.
#[cycle(lowering)]
fn put_statement<'x>(
    walk: &'x Walk<'x>,
    coding: &mut Coding,
    stand: &'x Stand<'x>,
    tail: &'x Tail<'x>,
    number: u32,
    statement: &'x Statement,
    rest: &'x [Statement],
    first: &'x Core,
    others: &'x [Core],
) -> Result<(), AllocError>
    requires { (name : Naming) → spec.statement_ok walk.now name statement.now rest.now first.now others.now ≡ true }
    ensures { OnOk result (spec.Puts coding.old coding.new walk.now stand.now tail.now
        (λ name. spec.statement_for walk.now name number statement.now rest.now first.now others.now)) }
{
    match statement {
        Statement::Evaluate => {
            put_held(&*walk, coding, &*stand, &*first)?;
            put_block(&*walk, coding, &*stand, &*tail, number, &*rest, &*others)
        }
        Statement::Declare(name, _) => {
            put_bind(
                &*walk, coding, &*stand, &*tail, name, &*first, number, &*rest, &*others,
            )
        }
        Statement::Define(place, arm) => put_let(
            &*walk,
            coding,
            &*stand,
            &*tail,
            Giver::Arm(number, rest.len()),
            *place,
            &*first,
            arm,
            number,
            &*rest,
            &*others,
        ),
    }
}

/// The rest of the block of a number. It fails where memory is wanting.
#[cycle(lowering)]
pub fn put_block<'x>(
    walk: &'x Walk<'x>,
    coding: &mut Coding,
    stand: &'x Stand<'x>,
    tail: &'x Tail<'x>,
    number: u32,
    statements: &'x [Statement],
    parts: &'x [Core],
) -> Result<(), AllocError>
    requires { (name : Naming) → spec.block_ok walk.now name statements.now parts.now ≡ true }
    ensures { OnOk result (spec.Puts coding.old coding.new walk.now stand.now tail.now
        (λ name. spec.block_for walk.now name number statements.now parts.now)) }
{
    match statements {
        [] => put_last(&*walk, coding, &*stand, &*tail, number, &*parts),
        [statement, rest @ ..] => match parts {
            [] => Ok(()),
            [first, others @ ..] => {
                put_statement(
                    &*walk, coding, &*stand, &*tail, number, statement, rest, first, others,
                )
            }
        },
    }
}

/// A block. It fails where memory is wanting.
#[cycle(lowering)]
pub fn put_statements<'x>(
    walk: &'x Walk<'x>,
    coding: &mut Coding,
    stand: &'x Stand<'x>,
    tail: &'x Tail<'x>,
    statements: &'x Items<Statement>,
    node: &'x Core,
) -> Result<(), AllocError>
    requires { (name : Naming) → spec.as_ok walk.now name (kind.Block statements.now) node.now ≡ true }
    ensures { OnOk result (spec.Puts coding.old coding.new walk.now stand.now tail.now
        (λ name. spec.as_for walk.now name (kind.Block statements.now) node.now)) }
{
    put_block(
        &*walk,
        coding,
        &*stand,
        &*tail,
        node.number,
        statements.as_slice(),
        node.parts.as_slice(),
    )
}

/// A `let` in one other part. It fails where memory is wanting.
#[cycle(lowering)]
pub fn put_let_in<'x>(
    walk: &'x Walk<'x>,
    coding: &mut Coding,
    stand: &'x Stand<'x>,
    tail: &'x Tail<'x>,
    arm: &'x Arm,
    node: &'x Core,
) -> Result<(), AllocError>
    requires { (name : Naming) → spec.as_ok walk.now name (kind.Let arm.now) node.now ≡ true }
    ensures { OnOk result (spec.Puts coding.old coding.new walk.now stand.now tail.now
        (λ name. spec.as_for walk.now name (kind.Let arm.now) node.now)) }
{
    match node.parts.as_slice() {
        [] => Ok(()),
        [value, rest @ ..] => match rest {
            [_] => put_let(
                &*walk,
                coding,
                &*stand,
                &*tail,
                Giver::Arm(node.number, 0),
                node.place,
                value,
                &*arm,
                node.number,
                &[],
                rest,
            ),
            _ => Ok(()),
        },
    }
}

/// A `var` in one other part. It fails where memory is wanting.
#[cycle(lowering)]
pub fn put_var_in<'x>(
    walk: &'x Walk<'x>,
    coding: &mut Coding,
    stand: &'x Stand<'x>,
    tail: &'x Tail<'x>,
    name: &'x Text,
    node: &'x Core,
) -> Result<(), AllocError>
    requires { (naming : Naming) → spec.as_ok walk.now naming (kind.Var name.now None) node.now ≡ true }
    ensures { OnOk result (spec.Puts coding.old coding.new walk.now stand.now tail.now
        (λ naming. spec.as_for walk.now naming (kind.Var name.now None) node.now)) }
{
    match node.parts.as_slice() {
        [] => Ok(()),
        [value, rest @ ..] => match rest {
            [_] => put_bind(
                &*walk,
                coding,
                &*stand,
                &*tail,
                &*name,
                value,
                node.number,
                &[],
                rest,
            ),
            _ => Ok(()),
        },
    }
}
