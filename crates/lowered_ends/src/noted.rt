//! The variables whose numbers a form notes, as deep as it stands itself: what is noted inside branches, loops and arms is gone behind them.
ghost use Rattle.std.specs.Prelude.{◌≡◌, ◌++◌, nat_eq, length, OnOk};
ghost use Rattle.sail_types.specs.declared.shapes.Shape.TheVariants as shape;
ghost use Rattle.sail_core.specs.declared.tree.Core.{out-Core};
ghost use Rattle.row_types.specs.Calls.{has_state as has_state_of};
ghost use Rattle.sail_core.specs.declared.tree.Giver.TheVariants as giver;
ghost use Rattle.sail_core.specs.declared.tree.Kind.TheVariants as kind;
ghost use Rattle.sized_meanings.specs.Present.{gives_at};
ghost use Rattle.lowered_pieces.specs.Forms.{all_notes};
ghost use Rattle.lowered_ends.specs.Around.{piece_as, piece_for};
ghost use Rattle.lowered_pieces.specs.Places.{Naming};
ghost use Rattle.lowered_ends.specs.Noted as spec;
ghost use Rattle.lowered_steps.specs.Cells.{aim_of, cells_of};
ghost use Rattle.lowered_steps.specs.Setting.{nodes_in};

use crate::able::{are_suffixes, has_one};
use crate::around::Around;
use crate::targets::{Spot, spot_of};
use jib::has_state;
use lowered_steps::{Cell, Setting, cell_of, list_given};
use sail_base::{Items, Text};
use sail_core::{Callee, Core, Giver, Kind, Statement, Suffix, Target, Way};
use sail_types::Row;
use std::alloc::{AllocError, Global};

/// The variables that a node gives numbers, behind others. It fails where memory is wanting.
fn list_own(
    alloc: Global,
    noted: &mut Items<u32>,
    setting: &Setting<'_>,
    node: u32,
) -> Result<(), AllocError>
    ensures { OnOk result (noted.new ≡ noted.old ++ all_notes (gives_at (nodes_in setting.now) (giver.Node node))) }
{
    list_given(alloc, noted, setting, Giver::Node(node))
}

/// Those of operands and of the node that takes them. It fails where memory is wanting.
#[cycle(list_noted)]
fn list_made(
    alloc: Global,
    noted: &mut Items<u32>,
    setting: &Setting<'_>,
    around: &Around<'_>,
    node: u32,
    parts: &[Core],
) -> Result<(), AllocError>
    ensures { (name : Naming) → OnOk result (noted.new ≡ noted.old ++ spec.made_notes setting.now around.now name node parts.now) }
{
    list_all(alloc, noted, setting, around, parts)?;
    list_own(alloc, noted, setting, node)
}

/// Those of suffixes, with their indexes. It fails where memory is wanting.
#[cycle(list_noted)]
fn list_suffixes(
    alloc: Global,
    noted: &mut Items<u32>,
    setting: &Setting<'_>,
    around: &Around<'_>,
    suffixes: &[Suffix],
    indexes: &[Core],
) -> Result<(), AllocError>
    ensures { (name : Naming) → OnOk result (noted.new ≡ noted.old ++ spec.suffix_notes setting.now around.now name suffixes.now indexes.now) }
{
    match suffixes {
        [] => Ok(()),
        [first, rest @ ..] => {
            let number = first.number;
            match first.way {
                Way::Field(_, _) => {
                    list_own(alloc, noted, setting, number)?;
                    list_suffixes(alloc, noted, setting, around, rest, indexes)
                }
                Way::Item => list_item(alloc, noted, setting, around, number, rest, indexes),
                Way::Slice => list_slice(alloc, noted, setting, around, number, rest, indexes),
            }
        }
    }
}

/// Those of an index, with its node and the suffixes behind it. It fails where memory is wanting.
#[cycle(list_noted)]
fn list_item(
    alloc: Global,
    noted: &mut Items<u32>,
    setting: &Setting<'_>,
    around: &Around<'_>,
    node: u32,
    rest: &[Suffix],
    indexes: &[Core],
) -> Result<(), AllocError>
    ensures { (name : Naming) → OnOk result (noted.new ≡ noted.old ++ spec.item_notes setting.now around.now name node rest.now indexes.now) }
{
    match indexes {
        [] => Ok(()),
        [index, others @ ..] => {
            list_noted(alloc, noted, setting, around, index)?;
            list_own(alloc, noted, setting, node)?;
            list_suffixes(alloc, noted, setting, around, rest, others)
        }
    }
}

/// Those of the two indexes of a slice, with its node and the suffixes behind it. It fails where memory is wanting.
#[cycle(list_noted)]
fn list_slice(
    alloc: Global,
    noted: &mut Items<u32>,
    setting: &Setting<'_>,
    around: &Around<'_>,
    node: u32,
    rest: &[Suffix],
    indexes: &[Core],
) -> Result<(), AllocError>
    ensures { (name : Naming) → OnOk result (noted.new ≡ noted.old ++ spec.slice_notes setting.now around.now name node rest.now indexes.now) }
{
    match indexes {
        [high, low, others @ ..] => {
            list_noted(alloc, noted, setting, around, high)?;
            list_noted(alloc, noted, setting, around, low)?;
            list_own(alloc, noted, setting, node)?;
            list_suffixes(alloc, noted, setting, around, rest, others)
        }
        _ => Ok(()),
    }
}

/// Those that a new value gives at the node of a cell, and the whole where a part of it is new. It fails where memory is wanting.
fn list_cell(
    alloc: Global,
    noted: &mut Items<u32>,
    setting: &Setting<'_>,
    cell: &Cell<'_>,
) -> Result<(), AllocError>
    ensures { OnOk result (noted.new ≡ noted.old ++ spec.cell_listed setting.now (aim_of cell.now)) }
{
    list_own(alloc, noted, setting, cell.number)?;
    match cell.suffixes {
        [] => Ok(()),
        [_, ..] => list_own(alloc, noted, setting, cell.read),
    }
}

/// So those of the cells of targets. It fails where memory is wanting.
fn list_cells(
    alloc: Global,
    noted: &mut Items<u32>,
    setting: &Setting<'_>,
    targets: &[Target],
) -> Result<(), AllocError>
    ensures { OnOk result (noted.new ≡ noted.old ++ spec.cells_listed setting.now (cells_of targets.now)) }
{
    match targets {
        [] => Ok(()),
        [first, rest @ ..] => match cell_of(first) {
            Some(cell) => {
                list_cell(alloc, noted, setting, &cell)?;
                list_cells(alloc, noted, setting, rest)
            }
            None => list_cells(alloc, noted, setting, rest),
        },
    }
}

/// Those of an assignment, with its indexes and arguments. It fails where memory is wanting.
#[cycle(list_noted)]
fn list_assigned(
    alloc: Global,
    noted: &mut Items<u32>,
    setting: &Setting<'_>,
    around: &Around<'_>,
    spot: Spot<'_>,
    parts: &[Core],
) -> Result<(), AllocError>
    ensures { (name : Naming) → OnOk result (noted.new ≡ noted.old ++ spec.assigned_notes setting.now around.now name spot.entry parts.now) }
{
    match spot {
        Spot::Other => Ok(()),
        Spot::One(cell) => {
            list_all(alloc, noted, setting, around, parts)?;
            list_cell(alloc, noted, setting, &cell)
        }
        Spot::Several(targets) => {
            list_all(alloc, noted, setting, around, parts)?;
            list_cells(alloc, noted, setting, targets)
        }
        Spot::Called(node, _, _, call, _) => {
            list_all(alloc, noted, setting, around, parts)?;
            list_own(alloc, noted, setting, node)?;
            list_own(alloc, noted, setting, call)
        }
    }
}

/// Those of several nodes. It fails where memory is wanting.
#[cycle(list_noted)]
fn list_all(
    alloc: Global,
    noted: &mut Items<u32>,
    setting: &Setting<'_>,
    around: &Around<'_>,
    nodes: &[Core],
) -> Result<(), AllocError>
    ensures { (name : Naming) → OnOk result (noted.new ≡ noted.old ++ spec.all_noted setting.now around.now name nodes.now) }
{
    match nodes {
        [] => Ok(()),
        [first, rest @ ..] => {
            list_noted(alloc, noted, setting, around, first)?;
            list_all(alloc, noted, setting, around, rest)
        }
    }
}

/// Those of an arm that stands where its names are noted, and of its body. It fails where memory is wanting.
#[cycle(list_noted)]
pub fn list_arm(
    alloc: Global,
    noted: &mut Items<u32>,
    setting: &Setting<'_>,
    around: &Around<'_>,
    giver: Giver,
    body: &Core,
) -> Result<(), AllocError>
    ensures { (name : Naming) → OnOk result (noted.new ≡ noted.old
        ++ (all_notes (gives_at (nodes_in setting.now) giver) ++ (piece_for setting.now around.now name body.now).notes)) }
{
    list_given(alloc, noted, setting, giver)?;
    list_noted(alloc, noted, setting, around, body)
}

/// What a statement's names note, where they are matched. It fails where memory is wanting.
fn list_named(
    alloc: Global,
    noted: &mut Items<u32>,
    setting: &Setting<'_>,
    giver: Giver,
    statement: &Statement,
) -> Result<(), AllocError>
    ensures { OnOk result (noted.new ≡ noted.old ++ spec.named_notes setting.now giver statement.now) }
{
    match statement {
        Statement::Define(_, _) => list_given(alloc, noted, setting, giver),
        Statement::Evaluate => Ok(()),
        Statement::Declare(_, _) => Ok(()),
    }
}

/// Those of the rest of a block. It fails where memory is wanting.
#[cycle(list_noted)]
pub fn list_block(
    alloc: Global,
    noted: &mut Items<u32>,
    setting: &Setting<'_>,
    around: &Around<'_>,
    node: u32,
    statements: &[Statement],
    parts: &[Core],
) -> Result<(), AllocError>
    ensures { (name : Naming) → OnOk result (noted.new ≡ noted.old ++ (spec.block_for setting.now around.now name node statements.now parts.now).notes) }
{
    match statements {
        [] => list_one(alloc, noted, setting, around, parts),
        [statement, rest @ ..] => match parts {
            [] => Ok(()),
            [first, others @ ..] => {
                let giver = Giver::Arm(node, rest.len());
                list_noted(alloc, noted, setting, around, first)?;
                list_named(alloc, noted, setting, giver, statement)?;
                list_block(alloc, noted, setting, around, node, rest, others)
            }
        },
    }
}

/// Those of a node without parts. It fails where memory is wanting.
fn list_leaf(
    alloc: Global,
    noted: &mut Items<u32>,
    setting: &Setting<'_>,
    node: u32,
    parts: &[Core],
) -> Result<(), AllocError>
    ensures { OnOk result (noted.new ≡ noted.old ++ spec.leaf_notes setting.now node (length parts.now)) }
{
    match parts {
        [] => list_own(alloc, noted, setting, node),
        _ => Ok(()),
    }
}

/// Those of a variable that a node reads. It fails where memory is wanting.
fn list_variable(
    alloc: Global,
    noted: &mut Items<u32>,
    setting: &Setting<'_>,
    name: &Text,
    node: u32,
) -> Result<(), AllocError>
    ensures { OnOk result (noted.new ≡ noted.old ++ spec.variable_notes setting.now name.now node) }
{
    match setting.reads_as(name) {
        [] => Ok(()),
        [_, ..] => list_own(alloc, noted, setting, node),
    }
}

/// Those of operands and of the node that takes them, where they are listed. It fails where memory is wanting.
#[cycle(list_noted)]
fn list_where(
    alloc: Global,
    noted: &mut Items<u32>,
    setting: &Setting<'_>,
    around: &Around<'_>,
    node: u32,
    listed: bool,
    parts: &[Core],
) -> Result<(), AllocError>
    ensures { (name : Naming) → OnOk result (noted.new ≡ noted.old ++ spec.counted_notes setting.now around.now name node parts.now listed) }
{
    if listed {
        list_made(alloc, noted, setting, around, node, parts)
    } else {
        Ok(())
    }
}

/// Those of a node that makes its value of so many operands. It fails where memory is wanting.
#[cycle(list_noted)]
fn list_counted(
    alloc: Global,
    noted: &mut Items<u32>,
    setting: &Setting<'_>,
    around: &Around<'_>,
    node: u32,
    count: usize,
    parts: &[Core],
) -> Result<(), AllocError>
    ensures { (name : Naming) → OnOk result (noted.new ≡ noted.old
        ++ spec.counted_notes setting.now around.now name node parts.now (nat_eq (length parts.now) count)) }
{
    let listed = parts.len() == count;
    list_where(alloc, noted, setting, around, node, listed, parts)
}

/// Those of one part. It fails where memory is wanting.
#[cycle(list_noted)]
fn list_one(
    alloc: Global,
    noted: &mut Items<u32>,
    setting: &Setting<'_>,
    around: &Around<'_>,
    parts: &[Core],
) -> Result<(), AllocError>
    ensures { (name : Naming) → OnOk result (noted.new ≡ noted.old ++ spec.one_noted setting.now around.now name parts.now) }
{
    match parts {
        [] => Ok(()),
        [value] => list_noted(alloc, noted, setting, around, value),
        [_, _, ..] => Ok(()),
    }
}

/// Those of the first of two parts. It fails where memory is wanting.
#[cycle(list_noted)]
fn list_first(
    alloc: Global,
    noted: &mut Items<u32>,
    setting: &Setting<'_>,
    around: &Around<'_>,
    parts: &[Core],
) -> Result<(), AllocError>
    ensures { (name : Naming) → OnOk result (noted.new ≡ noted.old ++ spec.first_noted setting.now around.now name parts.now) }
{
    match parts {
        [] => Ok(()),
        [_] => Ok(()),
        [first, _] => list_noted(alloc, noted, setting, around, first),
        [_, _, _, ..] => Ok(()),
    }
}

/// Those of two parts. It fails where memory is wanting.
#[cycle(list_noted)]
fn list_both(
    alloc: Global,
    noted: &mut Items<u32>,
    setting: &Setting<'_>,
    around: &Around<'_>,
    parts: &[Core],
) -> Result<(), AllocError>
    ensures { (name : Naming) → OnOk result (noted.new ≡ noted.old ++ spec.both_noted setting.now around.now name parts.now) }
{
    match parts {
        [] => Ok(()),
        [_] => Ok(()),
        [first, second] => {
            list_noted(alloc, noted, setting, around, first)?;
            list_noted(alloc, noted, setting, around, second)
        }
        [_, _, _, ..] => Ok(()),
    }
}

/// Those of the bounds of a `foreach`. It fails where memory is wanting.
#[cycle(list_noted)]
fn list_bounds(
    alloc: Global,
    noted: &mut Items<u32>,
    setting: &Setting<'_>,
    around: &Around<'_>,
    parts: &[Core],
) -> Result<(), AllocError>
    ensures { (name : Naming) → OnOk result (noted.new ≡ noted.old ++ spec.bounds_noted setting.now around.now name parts.now) }
{
    match parts {
        [] => Ok(()),
        [_] => Ok(()),
        [_, _] => Ok(()),
        [_, _, _] => Ok(()),
        [first, last, step, _] => {
            list_noted(alloc, noted, setting, around, first)?;
            list_noted(alloc, noted, setting, around, last)?;
            list_noted(alloc, noted, setting, around, step)
        }
        [_, _, _, _, _, ..] => Ok(()),
    }
}

/// Whether what a builtin notes is listed: one of the state has one case.
fn is_listed(setting: &Setting<'_>, row: Row, node: u32, count: usize) -> bool
    ensures { result ≡ spec.row_listed setting.now (has_state_of row) node count }
{
    if has_state(row) {
        has_one(setting.cases(node, count))
    } else {
        true
    }
}

/// Those of a builtin. It fails where memory is wanting.
#[cycle(list_noted)]
fn list_row(
    alloc: Global,
    noted: &mut Items<u32>,
    setting: &Setting<'_>,
    around: &Around<'_>,
    row: Row,
    node: u32,
    parts: &[Core],
) -> Result<(), AllocError>
    ensures { (name : Naming) → OnOk result (noted.new ≡ noted.old ++ spec.row_noted setting.now around.now name (has_state_of row) node parts.now) }
{
    let listed = is_listed(setting, row, node, parts.len());
    list_where(alloc, noted, setting, around, node, listed, parts)
}

/// Those of a call. It fails where memory is wanting.
#[cycle(list_noted)]
fn list_callee(
    alloc: Global,
    noted: &mut Items<u32>,
    setting: &Setting<'_>,
    around: &Around<'_>,
    callee: Callee,
    node: &Core,
) -> Result<(), AllocError>
    ensures { (name : Naming) → OnOk result (noted.new ≡ noted.old ++ (piece_as setting.now around.now name (kind.Call callee) node.now).notes) }
{
    let number = node.number;
    let parts = node.parts.as_slice();
    match callee {
        Callee::Function(_) => list_made(alloc, noted, setting, around, number, parts),
        Callee::Row(row) => list_row(alloc, noted, setting, around, row, number, parts),
        Callee::Constructor(_, _) => list_made(alloc, noted, setting, around, number, parts),
        Callee::Converts(_) => Ok(()),
        Callee::Applies(_) => list_counted(alloc, noted, setting, around, number, 1, parts),
    }
}

/// Those of a part of a value. It fails where memory is wanting.
#[cycle(list_noted)]
fn list_part(
    alloc: Global,
    noted: &mut Items<u32>,
    setting: &Setting<'_>,
    around: &Around<'_>,
    suffixes: &Items<Suffix>,
    node: &Core,
) -> Result<(), AllocError>
    ensures { (name : Naming) → OnOk result (noted.new ≡ noted.old ++ (piece_as setting.now around.now name (kind.Part suffixes.now) node.now).notes) }
{
    match node.parts.as_slice() {
        [] => Ok(()),
        [whole, indexes @ ..] => {
            let suffixes = suffixes.as_slice();
            if are_suffixes(suffixes, indexes.len()) {
                list_noted(alloc, noted, setting, around, whole)?;
                list_suffixes(alloc, noted, setting, around, suffixes, indexes)
            } else {
                Ok(())
            }
        }
    }
}

/// Those of an assignment. It fails where memory is wanting.
#[cycle(list_noted)]
fn list_assign(
    alloc: Global,
    noted: &mut Items<u32>,
    setting: &Setting<'_>,
    around: &Around<'_>,
    targets: &Items<Target>,
    node: &Core,
) -> Result<(), AllocError>
    ensures { (name : Naming) → OnOk result (noted.new ≡ noted.old ++ (piece_as setting.now around.now name (kind.Assign targets.now) node.now).notes) }
{
    match targets.as_slice() {
        [] => Ok(()),
        [target] => {
            let spot = spot_of(target);
            list_assigned(alloc, noted, setting, around, spot, node.parts.as_slice())
        }
        [_, _, ..] => Ok(()),
    }
}

/// Those of an `if`: two branches meet at the node. It fails where memory is wanting.
#[cycle(list_noted)]
fn list_branches(
    alloc: Global,
    noted: &mut Items<u32>,
    setting: &Setting<'_>,
    around: &Around<'_>,
    node: &Core,
) -> Result<(), AllocError>
    ensures { (name : Naming) → OnOk result (noted.new ≡ noted.old ++ (piece_as setting.now around.now name (kind.If shape.Unit) node.now).notes) }
{
    match node.parts.as_slice() {
        [] => Ok(()),
        [_] => Ok(()),
        [test, _] => list_noted(alloc, noted, setting, around, test),
        [test, _, _] => {
            list_noted(alloc, noted, setting, around, test)?;
            list_own(alloc, noted, setting, node.number)
        }
        [_, _, _, _, ..] => Ok(()),
    }
}

/// Those of a `let`. It fails where memory is wanting.
#[cycle(list_noted)]
fn list_let(
    alloc: Global,
    noted: &mut Items<u32>,
    setting: &Setting<'_>,
    around: &Around<'_>,
    node: &Core,
) -> Result<(), AllocError>
    ensures { (name : Naming) → OnOk result (noted.new ≡ noted.old
        ++ spec.let_noted setting.now around.now name (out-Core node.now).number (out-Core node.now).parts) }
{
    match node.parts.as_slice() {
        [] => Ok(()),
        [_] => Ok(()),
        [value, behind] => {
            let giver = Giver::Arm(node.number, 0);
            list_noted(alloc, noted, setting, around, value)?;
            list_arm(alloc, noted, setting, around, giver, behind)
        }
        [_, _, _, ..] => Ok(()),
    }
}

/// Those of a `match`, whose arms meet at the node. It fails where memory is wanting.
#[cycle(list_noted)]
fn list_match(
    alloc: Global,
    noted: &mut Items<u32>,
    setting: &Setting<'_>,
    around: &Around<'_>,
    node: &Core,
) -> Result<(), AllocError>
    ensures { (name : Naming) → OnOk result (noted.new ≡ noted.old
        ++ spec.match_noted setting.now around.now name (out-Core node.now).number (out-Core node.now).parts) }
{
    match node.parts.as_slice() {
        [] => Ok(()),
        [value, ..] => {
            list_noted(alloc, noted, setting, around, value)?;
            list_own(alloc, noted, setting, node.number)
        }
    }
}

/// Those of a `try`, whose ways meet at the node: of what is thrown, and of the node. It fails where memory is wanting.
fn list_caught(
    alloc: Global,
    noted: &mut Items<u32>,
    setting: &Setting<'_>,
    node: u32,
    parts: &[Core],
) -> Result<(), AllocError>
    ensures { OnOk result (noted.new ≡ noted.old ++ spec.caught_notes setting.now node (length parts.now)) }
{
    match parts {
        [] => Ok(()),
        [_, ..] => {
            list_own(alloc, noted, setting, node)?;
            list_own(alloc, noted, setting, node)
        }
    }
}

/// Those of a node. It fails where memory is wanting.
#[cycle(list_noted)]
pub fn list_noted(
    alloc: Global,
    noted: &mut Items<u32>,
    setting: &Setting<'_>,
    around: &Around<'_>,
    node: &Core,
) -> Result<(), AllocError>
    ensures { (name : Naming) → OnOk result (noted.new ≡ noted.old ++ (piece_for setting.now around.now name node.now).notes) }
{
    let number = node.number;
    let parts = node.parts.as_slice();
    match &node.kind {
        Kind::Local(_) => list_leaf(alloc, noted, setting, number, parts),
        Kind::Variable(name) => list_variable(alloc, noted, setting, name, number),
        Kind::TopLevel(_) => list_leaf(alloc, noted, setting, number, parts),
        Kind::Register(_) => list_leaf(alloc, noted, setting, number, parts),
        Kind::Call(callee) => list_callee(alloc, noted, setting, around, *callee, node),
        Kind::And => list_first(alloc, noted, setting, around, parts),
        Kind::Or => list_first(alloc, noted, setting, around, parts),
        Kind::Cast(_) => list_counted(alloc, noted, setting, around, number, 1, parts),
        Kind::Tuple => list_made(alloc, noted, setting, around, number, parts),
        Kind::Vector(_) => list_made(alloc, noted, setting, around, number, parts),
        Kind::List(_) => list_made(alloc, noted, setting, around, number, parts),
        Kind::Cons(_) => list_made(alloc, noted, setting, around, number, parts),
        Kind::Struct(_, _) => list_made(alloc, noted, setting, around, number, parts),
        Kind::With(_, fields) => match fields.as_slice() {
            [] => Ok(()),
            _ => list_made(alloc, noted, setting, around, number, parts),
        },
        Kind::Part(suffixes) => list_part(alloc, noted, setting, around, suffixes, node),
        Kind::WithItem => list_counted(alloc, noted, setting, around, number, 3, parts),
        Kind::WithSlice => list_counted(alloc, noted, setting, around, number, 4, parts),
        Kind::Assign(targets) => list_assign(alloc, noted, setting, around, targets, node),
        Kind::Block(statements) => {
            let statements = statements.as_slice();
            list_block(alloc, noted, setting, around, number, statements, parts)
        }
        Kind::Let(_) => list_let(alloc, noted, setting, around, node),
        Kind::Var(_, _) => list_both(alloc, noted, setting, around, parts),
        Kind::If(_) => list_branches(alloc, noted, setting, around, node),
        Kind::Match(_, _) => list_match(alloc, noted, setting, around, node),
        Kind::Try(_, _) => list_caught(alloc, noted, setting, number, parts),
        Kind::When => list_both(alloc, noted, setting, around, parts),
        Kind::Foreach(_, _) => list_bounds(alloc, noted, setting, around, parts),
        Kind::Return => list_one(alloc, noted, setting, around, parts),
        Kind::Throw => list_one(alloc, noted, setting, around, parts),
        Kind::Exit => list_one(alloc, noted, setting, around, parts),
        Kind::Assert(_) => list_one(alloc, noted, setting, around, parts),
        Kind::Optional(_) => list_one(alloc, noted, setting, around, parts),
        Kind::Constant(_) => Ok(()),
        Kind::SizeOf(_, _) => Ok(()),
        Kind::Constraint(_, _) => Ok(()),
        Kind::Clauses(_) => Ok(()),
        Kind::While => Ok(()),
        Kind::Repeat => Ok(()),
    }
}
