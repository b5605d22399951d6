//! The code of nodes without parts: literals, names, registers, and the numbers and truths of type variables.
ghost use Rattle.std.specs.Prelude.{◌≡◌, [], true, OnOk};
ghost use Rattle.sail_core.specs.declared.tree.Kind.TheVariants as kind;
ghost use Rattle.lowered_pieces.specs.Places.{Naming};
ghost use Rattle.lowered_pieces.specs.Forms.{constant_piece};
ghost use Rattle.lowered_steps.specs.Setting.{kit_for};
ghost use Rattle.lowered_nodes.specs.Walk as spec;

use crate::walk::Walk;
use jib::Literal;
use lowered_ends::literal_type;
use lowered_pieces::Coding;
use lowered_slots::Place;
use lowered_steps::{Making, Stand, Tail, copy_literal, put_made, put_tail};
use sail_base::Text;
use sail_core::{Core, Literal as Written};
use sail_types::{Con, Num};
use size_values::{Sized, Variables, truth_of, value_of};
use std::alloc::AllocError;

/// A literal of its type is in hand, and then what comes behind is done with it. It fails where memory is wanting.
fn put_literal<'x>(
    walk: &'x Walk<'x>,
    coding: &mut Coding,
    stand: &'x Stand<'x>,
    tail: &'x Tail<'x>,
    typ: &'x Sized,
    literal: Literal,
) -> Result<(), AllocError>
    ensures { OnOk result (spec.Puts coding.old coding.new walk.now stand.now tail.now
        (λ name. constant_piece (kit_for walk.now.setting.now name) typ.now literal)) }
{
    let number = walk.setting.number(&*typ)?;
    coding.put_constant(Place::Temp(stand.temp), number, literal)?;
    put_tail(walk.alloc, coding, walk.setting, &*tail, &*typ)
}

/// A literal. It fails where memory is wanting.
pub fn put_constant<'x>(
    walk: &'x Walk<'x>,
    coding: &mut Coding,
    stand: &'x Stand<'x>,
    tail: &'x Tail<'x>,
    literal: &'x Written,
    node: &'x Core,
) -> Result<(), AllocError>
    requires { (name : Naming) → spec.as_ok walk.now name (kind.Constant literal.now) node.now ≡ true }
    ensures { OnOk result (spec.Puts coding.old coding.new walk.now stand.now tail.now
        (λ name. spec.as_for walk.now name (kind.Constant literal.now) node.now)) }
{
    match node.parts.as_slice() {
        [] => {
            let typ = literal_type(walk.alloc, &*literal)?;
            let literal = copy_literal(walk.alloc, &*literal)?;
            put_literal(&*walk, coding, &*stand, &*tail, &typ, literal)
        }
        _ => Ok(()),
    }
}

/// A name. It fails where memory is wanting.
pub fn put_local<'x>(
    walk: &'x Walk<'x>,
    coding: &mut Coding,
    stand: &'x Stand<'x>,
    tail: &'x Tail<'x>,
    name: &'x Text,
    node: &'x Core,
) -> Result<(), AllocError>
    requires { (naming : Naming) → spec.as_ok walk.now naming (kind.Local name.now) node.now ≡ true }
    ensures { OnOk result (spec.Puts coding.old coding.new walk.now stand.now tail.now
        (λ naming. spec.as_for walk.now naming (kind.Local name.now) node.now)) }
{
    match node.parts.as_slice() {
        [] => put_made(
            walk.alloc,
            coding,
            walk.setting,
            &*stand,
            &*tail,
            node.number,
            0,
            1,
            &Making::Local(&*name),
        ),
        _ => Ok(()),
    }
}

/// A variable. It fails where memory is wanting.
pub fn put_variable<'x>(
    walk: &'x Walk<'x>,
    coding: &mut Coding,
    stand: &'x Stand<'x>,
    tail: &'x Tail<'x>,
    name: &'x Text,
    node: &'x Core,
) -> Result<(), AllocError>
    requires { (naming : Naming) → spec.as_ok walk.now naming (kind.Variable name.now) node.now ≡ true }
    ensures { OnOk result (spec.Puts coding.old coding.new walk.now stand.now tail.now
        (λ naming. spec.as_for walk.now naming (kind.Variable name.now) node.now)) }
{
    match node.parts.as_slice() {
        [] => put_made(
            walk.alloc,
            coding,
            walk.setting,
            &*stand,
            &*tail,
            node.number,
            0,
            0,
            &Making::Variable(&*name),
        ),
        _ => Ok(()),
    }
}

/// A name of a top-level `let`. It fails where memory is wanting.
pub fn put_opening<'x>(
    walk: &'x Walk<'x>,
    coding: &mut Coding,
    stand: &'x Stand<'x>,
    tail: &'x Tail<'x>,
    top: u32,
    node: &'x Core,
) -> Result<(), AllocError>
    requires { (name : Naming) → spec.as_ok walk.now name (kind.TopLevel top) node.now ≡ true }
    ensures { OnOk result (spec.Puts coding.old coding.new walk.now stand.now tail.now
        (λ name. spec.as_for walk.now name (kind.TopLevel top) node.now)) }
{
    match node.parts.as_slice() {
        [] => put_made(
            walk.alloc,
            coding,
            walk.setting,
            &*stand,
            &*tail,
            node.number,
            0,
            0,
            &Making::Opening(walk.around.opening(top)),
        ),
        _ => Ok(()),
    }
}

/// A register. It fails where memory is wanting.
pub fn put_read<'x>(
    walk: &'x Walk<'x>,
    coding: &mut Coding,
    stand: &'x Stand<'x>,
    tail: &'x Tail<'x>,
    register: u32,
    node: &'x Core,
) -> Result<(), AllocError>
    requires { (name : Naming) → spec.as_ok walk.now name (kind.Register register) node.now ≡ true }
    ensures { OnOk result (spec.Puts coding.old coding.new walk.now stand.now tail.now
        (λ name. spec.as_for walk.now name (kind.Register register) node.now)) }
{
    match node.parts.as_slice() {
        [] => put_made(
            walk.alloc,
            coding,
            walk.setting,
            &*stand,
            &*tail,
            node.number,
            0,
            0,
            &Making::Register(register),
        ),
        _ => Ok(()),
    }
}

/// The number of a size of the type variables. It fails where memory is wanting.
pub fn put_size<'x>(
    walk: &'x Walk<'x>,
    coding: &mut Coding,
    stand: &'x Stand<'x>,
    tail: &'x Tail<'x>,
    size: &'x Num,
    node: &'x Core,
) -> Result<(), AllocError>
    requires { (name : Naming) → spec.as_ok walk.now name (kind.SizeOf size.now []) node.now ≡ true }
    ensures { OnOk result (spec.Puts coding.old coding.new walk.now stand.now tail.now
        (λ name. spec.as_for walk.now name (kind.SizeOf size.now []) node.now)) }
{
    match node.parts.as_slice() {
        [] => match value_of(&*size, &Variables::Known(walk.setting.numbers, &[])) {
            Some(known) => {
                let literal = Literal::Integer(known);
                put_literal(&*walk, coding, &*stand, &*tail, &Sized::Int, literal)
            }
            None => Ok(()),
        },
        _ => Ok(()),
    }
}

/// The truth of a condition on the type variables. It fails where memory is wanting.
pub fn put_truth<'x>(
    walk: &'x Walk<'x>,
    coding: &mut Coding,
    stand: &'x Stand<'x>,
    tail: &'x Tail<'x>,
    condition: &'x Con,
    node: &'x Core,
) -> Result<(), AllocError>
    requires { (name : Naming) → spec.as_ok walk.now name (kind.Constraint condition.now []) node.now ≡ true }
    ensures { OnOk result (spec.Puts coding.old coding.new walk.now stand.now tail.now
        (λ name. spec.as_for walk.now name (kind.Constraint condition.now []) node.now)) }
{
    match node.parts.as_slice() {
        [] => match truth_of(&*condition, &Variables::Known(walk.setting.numbers, &[])) {
            Some(known) => {
                let literal = Literal::Truth(known);
                put_literal(&*walk, coding, &*stand, &*tail, &Sized::Bool, literal)
            }
            None => Ok(()),
        },
        _ => Ok(()),
    }
}
