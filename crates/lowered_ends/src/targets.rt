//! What is assigned to.
ghost use Rattle.std.specs.Prelude.{◌≡◌, map};
ghost use Rattle.lowered_pieces.specs.Writes.{cells_in, target_spot};
ghost use Rattle.lowered_steps.specs.Cells.{cell_in};
ghost use Rattle.lowered_ends.specs.Targets as spec;

use lowered_steps::{Cell, cell_of};
use sail_base::Place as TextPlace;
use sail_core::{Callee, Caller, Target, TargetKind};

/// What is assigned to, with the number of the node where it gets its new value.
#[derive(Clone, Copy)]
pub enum Spot<'a> {
    /// Something that isn't lowered here.
    Other,
    /// A register or a variable, or a part of one.
    One(Cell<'a>),
    /// Several of them: the targets of a tuple.
    Several(&'a [Target]),
    /// What a call of a function writes, at a place and a node of its own; so many arguments stand before the new value.
    Called(u32, TextPlace, u32, u32, u32),
}

/// Whether each target is a register or a variable, or a part of one.
fn are_cells(targets: &[Target]) -> bool
    ensures { spec.cells_if result targets.now ≡ cells_in (map target_spot targets.now) }
{
    match targets {
        [] => true,
        [first, rest @ ..] => match cell_of(first) {
            Some(_) => are_cells(rest),
            None => false,
        },
    }
}

/// What is written by a call.
fn called_of<'a>(target: &Target, arguments: u32, writer: Caller) -> Spot<'a>
    ensures { spec.spot_in result ≡ spec.called_in target.now arguments writer }
{
    match writer.callee {
        Callee::Function(function) => Spot::Called(
            target.number,
            target.place,
            arguments,
            writer.number,
            function,
        ),
        Callee::Row(_) => Spot::Other,
        Callee::Constructor(_, _) => Spot::Other,
        Callee::Converts(_) => Spot::Other,
        Callee::Applies(_) => Spot::Other,
    }
}

/// One alone, where it is one.
fn one_of(cell: Option<Cell<'_>>) -> Spot<'_>
    ensures { spec.spot_in result ≡ spec.one_in (cell_in cell.entry) }
{
    match cell {
        Some(cell) => Spot::One(cell),
        None => Spot::Other,
    }
}

/// What a target is.
pub fn spot_of(target: &Target) -> Spot<'_>
    ensures { spec.spot_in result ≡ target_spot target.now }
{
    let parts = target.parts.as_slice();
    match &target.kind {
        TargetKind::Tuple => {
            if are_cells(parts) {
                Spot::Several(parts)
            } else {
                Spot::Other
            }
        }
        TargetKind::Call(arguments, _, writer) => match parts {
            [] => called_of(target, *arguments, *writer),
            [_, ..] => Spot::Other,
        },
        TargetKind::Register(_) => one_of(cell_of(target)),
        TargetKind::Variable(_) => one_of(cell_of(target)),
        TargetKind::Part(_) => one_of(cell_of(target)),
    }
}
