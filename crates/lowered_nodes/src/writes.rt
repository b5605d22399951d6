//! Assignments.
ghost use Rattle.std.specs.Prelude.{◌≡◌, ◌+◌, true, length, OnOk};
ghost use Rattle.sail_core.specs.declared.tree.Kind.TheVariants as kind;
ghost use Rattle.lowered_pieces.specs.Places.{Naming};
ghost use Rattle.lowered_steps.specs.Cells.{cells_of};
ghost use Rattle.lowered_nodes.specs.Walk as spec;

use crate::calls::{Calling, put_calling};
use crate::operands::{put_all, put_cast};
use crate::walk::{Walk, put_node};
use lowered_ends::{Spot, spot_of};
use lowered_pieces::Coding;
use lowered_steps::{Cell, Stand, Tail, as_number, count_all, count_indexes, further};
use sail_base::Items;
use sail_core::{Core, Target};
use std::alloc::AllocError;

/// What a call writes: the arguments of the target, and behind them the new value, which comes to its type at the target's node. It fails where memory
/// is wanting.
#[cycle(lowering)]
fn put_written<'x>(
    walk: &'x Walk<'x>,
    coding: &mut Coding,
    stand: &'x Stand<'x>,
    tail: &'x Tail<'x>,
    number: u32,
    calling: Calling,
    arguments: &'x [Core],
    value: &'x Core,
) -> Result<(), AllocError>
    requires { ((name : Naming) → spec.assigned_ok walk.now name arguments.now value.now ≡ true) × (calling.count ≡ length arguments.now + 1) }
    ensures { OnOk result (spec.Puts coding.old coding.new walk.now stand.now tail.now
        (λ name. spec.written_for walk.now name number calling arguments.now value.now)) }
{
    put_all(&*walk, coding, &*stand, &*arguments)?;
    let behind = Stand {
        temp: further(stand.temp, as_number(arguments.len())?)?,
        ..*stand
    };
    put_cast(&*walk, coding, &behind, &Tail::Stays, number, &*value)?;
    put_calling(&*walk, coding, &*stand, &*tail, calling)
}

/// The indexes of what is assigned to, so many, and behind them the new value, with what is done with it. It fails where memory is wanting.
#[cycle(lowering)]
fn put_given<'x>(
    walk: &'x Walk<'x>,
    coding: &mut Coding,
    stand: &'x Stand<'x>,
    gives: &'x Tail<'x>,
    takes: u32,
    indexes: &'x [Core],
    value: &'x Core,
) -> Result<(), AllocError>
    requires { (name : Naming) → spec.assigned_ok walk.now name indexes.now value.now ≡ true }
    ensures { OnOk result (spec.Given coding.old coding.new walk.now stand.now gives.now takes indexes.now value.now) }
{
    put_all(&*walk, coding, &*stand, &*indexes)?;
    let behind = Stand {
        temp: further(stand.temp, takes)?,
        ..*stand
    };
    put_node(&*walk, coding, &behind, &*gives, &*value)
}

/// A new value of a register or of a variable, or of a part of one. It fails where memory is wanting.
#[cycle(lowering)]
fn put_one<'x>(
    walk: &'x Walk<'x>,
    coding: &mut Coding,
    stand: &'x Stand<'x>,
    tail: &'x Tail<'x>,
    cell: Cell<'x>,
    indexes: &'x [Core],
    value: &'x Core,
) -> Result<(), AllocError>
    requires { (name : Naming) → spec.assigned_ok walk.now name indexes.now value.now ≡ true }
    ensures { OnOk result (spec.Puts coding.old coding.new walk.now stand.now tail.now
        (λ name. spec.one_for walk.now name cell.entry indexes.now value.now)) }
{
    let takes = count_indexes(cell.suffixes)?;
    let gives = Tail::Gives(&cell, &*stand, &*tail);
    put_given(&*walk, coding, &*stand, &gives, takes, indexes, value)
}

/// New values of several, of a tuple. It fails where memory is wanting.
#[cycle(lowering)]
fn put_shares<'x>(
    walk: &'x Walk<'x>,
    coding: &mut Coding,
    stand: &'x Stand<'x>,
    tail: &'x Tail<'x>,
    targets: &'x [Target],
    indexes: &'x [Core],
    value: &'x Core,
) -> Result<(), AllocError>
    requires { (name : Naming) → spec.assigned_ok walk.now name indexes.now value.now ≡ true }
    ensures { OnOk result (spec.Puts coding.old coding.new walk.now stand.now tail.now
        (λ name. spec.several_for walk.now name (cells_of targets.now) indexes.now value.now)) }
{
    let takes = count_all(targets)?;
    let gives = Tail::Shares(targets, &*stand, &*tail);
    put_given(&*walk, coding, &*stand, &gives, takes, indexes, value)
}

/// An assignment. It fails where memory is wanting.
#[cycle(lowering)]
pub fn put_assigned<'x>(
    walk: &'x Walk<'x>,
    coding: &mut Coding,
    stand: &'x Stand<'x>,
    tail: &'x Tail<'x>,
    spot: Spot<'x>,
    parts: &'x [Core],
) -> Result<(), AllocError>
    requires { (name : Naming) → spec.spot_ok walk.now name spot parts.now ≡ true }
    ensures { OnOk result (spec.Puts coding.old coding.new walk.now stand.now tail.now (λ name. spec.assign_for walk.now name spot.entry parts.now)) }
{
    match parts {
        [] => Ok(()),
        [indexes @ .., value] => match spot {
            Spot::Other => Ok(()),
            Spot::One(cell) => put_one(&*walk, coding, &*stand, &*tail, cell, indexes, value),
            Spot::Several(targets) => put_shares(
                &*walk, coding, &*stand, &*tail, targets, indexes, value,
            ),
            Spot::Called(number, place, _, node, _) => {
                let calling = Calling {
                    place,
                    node,
                    count: parts.len(),
                };
                put_written(
                    &*walk, coding, &*stand, &*tail, number, calling, indexes, value,
                )
            }
        },
    }
}

/// An assignment to one target. It fails where memory is wanting.
#[cycle(lowering)]
pub fn put_assign<'x>(
    walk: &'x Walk<'x>,
    coding: &mut Coding,
    stand: &'x Stand<'x>,
    tail: &'x Tail<'x>,
    targets: &'x Items<Target>,
    node: &'x Core,
) -> Result<(), AllocError>
    requires { (name : Naming) → spec.as_ok walk.now name (kind.Assign targets.now) node.now ≡ true }
    ensures { OnOk result (spec.Puts coding.old coding.new walk.now stand.now tail.now
        (λ name. spec.as_for walk.now name (kind.Assign targets.now) node.now)) }
{
    match targets.as_slice() {
        [target] => {
            let spot = spot_of(target);
            put_assigned(&*walk, coding, &*stand, &*tail, spot, node.parts.as_slice())
        }
        _ => Ok(()),
    }
}
