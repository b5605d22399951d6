//! The walk over statements, blocks, and what binds names.
ghost use Rattle.std.specs.Prelude.{◌≡◌, [], ◌++◌, IfOk, OnOk};
ghost use Rattle.value_indices.specs.Walking as walk;
ghost use Rattle.pattern_leaves.specs.Settings.{around_of};
ghost use Rattle.expression_forms.specs.Scopes.{newest, scope_of};
ghost use Rattle.expression_steps.specs.Coded as coded;
ghost use Rattle.expression_steps.specs.Expressions.{part};
ghost use Rattle.expression_steps.specs.Parts.{Part};
ghost use Rattle.expression_steps.specs.Parts as part_spec;
ghost use Rattle.expression_steps.specs.Statements as statement_spec;
ghost use Rattle.expression_notes.specs.Claims.{claiming_if, claims_in, statement_walk, unclaimed_times};

use crate::branches::walk_branches;
use crate::expressions::walk_expression;
use crate::parts::walk_truth;
use call_notes::{Aim, settled, wrong_value};
use expression_forms::Scope;
use expression_steps::{
    Binding, begin_binding, binding_of, claim_behind, end_binding, is_nested, left_at, wrong_state,
};
use pattern_leaves::{Around, Bound};
use sail_base::{Items, Place};
use sail_core::{Core, Giver, Kind, Statement};
use sail_types::Con;
use std::alloc::{AllocError, Global};
use value_indices::{Indices, Walking};

/// A statement: the condition, if there is one, that is in force in the rest of its block. It fails where memory is wanting, and where
/// variables are too many.
#[cycle(walk)]
#[tactic(auto, using(value_indices::proofs::Walks::walks))]
fn walk_state(
    alloc: Global,
    walking: &mut Walking,
    around: &Around<'_>,
    scope: &Scope<'_>,
    core: &Core,
) -> Result<Option<Con>, AllocError>
    ensures value { IfOk result (λ made. made ≡ walk.got (Part.state (part core.now) (around_of around.now) (scope_of scope.now))
        (walk.seen walking.old)) }
    ensures walked { OnOk result (walk.seen walking.new ≡ walk.run (Part.state (part core.now) (around_of around.now) (scope_of scope.now))
        (walk.seen walking.old)) }
{
    let parts = core.parts.as_slice();
    match &core.kind {
        Kind::If(shape) => {
            let free = Aim::Free;
            let met = walk_branches(
                alloc,
                walking,
                around,
                scope,
                core.place,
                core.number,
                shape,
                parts,
                &free,
            )?;
            claim_behind(alloc, walking, core.place, parts, met)
        }
        Kind::Assert(_) => match parts {
            [] => wrong_state(alloc, walking, core.place),
            [condition] => walk_truth(alloc, walking, around, scope, condition),
            _ => wrong_state(alloc, walking, core.place),
        },
        _ => {
            walk_expression(alloc, walking, around, scope, core, &Aim::Free)?;
            Ok(None)
        }
    }
}

/// The names that are bound to the value of an expression. It fails where memory is wanting, and where variables are too many.
#[cycle(walk)]
#[tactic(auto, using(value_indices::proofs::Walks::walks))]
fn walk_bound(
    alloc: Global,
    walking: &mut Walking,
    around: &Around<'_>,
    scope: &Scope<'_>,
    giver: Giver,
    binding: &Binding<'_>,
    core: &Core,
) -> Result<Items<Bound>, AllocError>
    ensures value { IfOk result (λ made. made ≡ walk.got (coded.names_bound giver binding.now (part core.now) (around_of around.now)
        (scope_of scope.now)) (walk.seen walking.old)) }
    ensures walked { OnOk result (walk.seen walking.new ≡ walk.run (coded.names_bound giver binding.now (part core.now) (around_of around.now)
        (scope_of scope.now)) (walk.seen walking.old)) }
{
    let aim = begin_binding(alloc, walking, around, binding)?;
    let value = walk_expression(alloc, walking, around, scope, core, &aim)?;
    let nested = is_nested(core);
    end_binding(alloc, walking, around, giver, binding, nested, &value)
}

/// `let p = a in b` and `var x : T = a in b`, by both parts. It fails where memory is wanting, and where variables are too many.
#[cycle(walk)]
#[tactic(auto, using(value_indices::proofs::Walks::walks))]
pub(crate) fn walk_in(
    alloc: Global,
    walking: &mut Walking,
    around: &Around<'_>,
    scope: &Scope<'_>,
    place: Place,
    giver: Giver,
    binding: &Binding<'_>,
    parts: &[Core],
    aim: &Aim,
) -> Result<Indices, AllocError>
    ensures value { IfOk result (λ made. made ≡ walk.got (part_spec.two place (λ a b. coded.bound_walk giver binding.now a b (around_of around.now)
        (scope_of scope.now) aim.now) (coded.each_part parts.now)) (walk.seen walking.old)) }
    ensures walked { OnOk result (walk.seen walking.new ≡ walk.run (part_spec.two place (λ a b. coded.bound_walk giver binding.now a b
        (around_of around.now) (scope_of scope.now) aim.now) (coded.each_part parts.now)) (walk.seen walking.old)) }
{
    match parts {
        [core, body] => {
            let found = walk_bound(alloc, walking, around, scope, giver, binding, core)?;
            let inside = (&*scope).with(found.as_slice());
            let aim = aim.inner(alloc)?;
            walk_expression(alloc, walking, around, &inside, body, &aim)
        }
        _ => wrong_value(alloc, walking, place),
    }
}

/// A statement of a block: the names that it binds, and the condition that it claims. It fails where memory is wanting, and where variables
/// are too many.
#[cycle(walk)]
#[tactic(auto, using(value_indices::proofs::Walks::walks))]
fn walk_statement(
    alloc: Global,
    walking: &mut Walking,
    around: &Around<'_>,
    scope: &Scope<'_>,
    giver: Giver,
    statement: &Statement,
    core: &Core,
) -> Result<(Items<Bound>, Option<Con>), AllocError>
    ensures value { IfOk result (λ made. made ≡ walk.got (statement_walk giver statement.now (part core.now) (around_of around.now)
        (scope_of scope.now)) (walk.seen walking.old)) }
    ensures walked { OnOk result (walk.seen walking.new ≡ walk.run (statement_walk giver statement.now (part core.now) (around_of around.now)
        (scope_of scope.now)) (walk.seen walking.old)) }
{
    match binding_of(statement) {
        None => {
            let condition = walk_state(alloc, walking, around, scope, core)?;
            Ok((Items::new(alloc), condition))
        }
        Some(binding) => {
            let found = walk_bound(alloc, walking, around, scope, giver, &binding, core)?;
            Ok((found, None))
        }
    }
}

/// Claims a condition, if there is one: how many claims that is. It fails where memory is wanting.
fn claim_if(walking: &mut Walking, condition: Option<Con>) -> Result<usize, AllocError>
    ensures value { IfOk result (λ made. made ≡ claims_in condition) }
    ensures walked { OnOk result (walk.seen walking.new ≡ claiming_if condition (walk.seen walking.old)) }
{
    match condition {
        None => Ok(0),
        Some(condition) => {
            walking.claim(condition)?;
            Ok(1)
        }
    }
}

/// Names that a statement binds, as a group behind those of the statements before it, where there are some. It fails where memory is wanting.
fn bring_in(groups: &mut Items<Items<Bound>>, found: Items<Bound>) -> Result<(), AllocError>
    ensures { OnOk result (newest groups.new ≡ found ++ newest groups.old) }
{
    if found.is_empty() {
        return Ok(());
    }
    groups.push(found)?;
    Ok(())
}

/// The value of a block behind its statements: of the one part that is left, if there is one, and else `()`, of which a type may be wanted. It
/// fails where memory is wanting, and where variables are too many.
#[cycle(walk)]
#[tactic(auto, using(value_indices::proofs::Walks::walks))]
fn walk_value(
    alloc: Global,
    walking: &mut Walking,
    around: &Around<'_>,
    scope: &Scope<'_>,
    place: Place,
    parts: &[Core],
    aim: &Aim,
) -> Result<Indices, AllocError>
    ensures value { IfOk result (λ made. made ≡ walk.got (statement_spec.block_end place (coded.each_part parts.now) (around_of around.now) (scope_of scope.now)
        aim.now) (walk.seen walking.old)) }
    ensures walked { OnOk result (walk.seen walking.new ≡ walk.run (statement_spec.block_end place (coded.each_part parts.now) (around_of around.now)
        (scope_of scope.now) aim.now) (walk.seen walking.old)) }
{
    match parts {
        [] => {
            let aim = aim.inner(alloc)?;
            settled(alloc, walking, around, place, &aim, Indices::Unit)
        }
        [value] => {
            let aim = aim.inner(alloc)?;
            walk_expression(alloc, walking, around, scope, value, &aim)
        }
        _ => wrong_value(alloc, walking, place),
    }
}

/// The value of a block, at whose end so many claims are in force no more. It fails where memory is wanting.
fn end_block(walking: &mut Walking, claims: usize, value: Indices) -> Result<Indices, AllocError>
    ensures value { IfOk result (λ made. made ≡ value) }
    ensures walked { OnOk result (walk.seen walking.new ≡ unclaimed_times claims (walk.seen walking.old)) }
{
    let mut left = claims;
    while left > 0 {
        walking.unclaim()?;
        left -= 1;
    }
    Ok(value)
}

/// `{ s; e }`: a part for each statement, and e where the block has a value. It fails where memory is wanting, and where variables are too
/// many.
#[cycle(walk)]
#[tactic(auto, using(value_indices::proofs::Walks::walks))]
pub(crate) fn walk_block(
    alloc: Global,
    walking: &mut Walking,
    around: &Around<'_>,
    scope: &Scope<'_>,
    place: Place,
    number: u32,
    statements: &[Statement],
    parts: &[Core],
    aim: &Aim,
) -> Result<Indices, AllocError>
    ensures value { IfOk result (λ made. made ≡ walk.got (statement_spec.block_walk place number statements.now (coded.each_part parts.now)
        (around_of around.now) (scope_of scope.now) aim.now) (walk.seen walking.old)) }
    ensures walked { OnOk result (walk.seen walking.new ≡ walk.run (statement_spec.block_walk place number statements.now (coded.each_part parts.now)
        (around_of around.now) (scope_of scope.now) aim.now) (walk.seen walking.old)) }
{
    let mut groups: Items<Items<Bound>> = Items::new(alloc);
    let mut claims: usize = 0;
    for (index, statement) in statements.iter().enumerate() {
        let inside = (&*scope).with_groups(groups.as_slice());
        match parts.get(index) {
            None => {
                let value = wrong_value(alloc, walking, place)?;
                return end_block(walking, claims, value);
            }
            Some(core) => {
                let giver = Giver::Arm(number, statements.len() - index - 1);
                let (found, condition) = walk_statement(
                    alloc, walking, around, &inside, giver, statement, core,
                )?;
                bring_in(&mut groups, found)?;
                claims += claim_if(walking, condition)?;
            }
        }
    }
    let inside = (&*scope).with_groups(groups.as_slice());
    let left = left_at(parts, statements.len());
    let value = walk_value(alloc, walking, around, &inside, place, left, aim)?;
    end_block(walking, claims, value)
}
