//! Whether what is assigned to fits its cases.
ghost use Rattle.std.specs.Prelude.{◌≡◌, length, IfOk};
ghost use Rattle.lowered_steps.specs.Cells.{aim_of, cells_of, holder_in};
ghost use Rattle.lowered_ends.specs.Targets.{spot_in};
ghost use Rattle.lowered_typed.specs.Here as here;
ghost use Rattle.lowered_typed.specs.Judged as judged;

use crate::cases::{Asked, are_as_asked, are_leads, put_gives};
use crate::heads::are_parts;
use crate::kinds::are_kept;
use crate::replaced::all_replaced;
use crate::signs::Judge;
use crate::types::put_last_of;
use crate::works::both;
use lowered_ends::{Spot, spot_of};
use lowered_steps::{Cell, Holder, cell_of, further};
use sail_base::Items;
use sail_core::{Core, Target};
use size_values::Sized;
use sized_nodes::Case;
use std::alloc::AllocError;

/// Whether a register has the type of its cases. It fails where memory is wanting.
fn is_read(judge: &Judge<'_>, register: u32, cases: &[Case]) -> Result<bool, AllocError>
    ensures { IfOk result (λ answer. answer ≡ judged.read_asked judge.now register cases.now) }
{
    let typ = judge.signs.shell.registers.get(register as usize).copied();
    are_as_asked(judge, Asked::Sourced(typ), cases)
}

/// Whether a value comes to the types of the cases of a node. It fails where memory is wanting.
fn is_cast(judge: &Judge<'_>, node: u32) -> Result<bool, AllocError>
    ensures { IfOk result (λ answer. answer ≡ judged.cast_asked judge.now node) }
{
    are_as_asked(judge, Asked::Recasts, judge.setting.cases(node, 1))
}

/// Whether a holder takes what these cases give: a register has its type, and a variable is read at types to which it comes. It fails where memory is
/// wanting.
fn is_stored(judge: &Judge<'_>, holder: Holder<'_>, cases: &[Case]) -> Result<bool, AllocError>
    ensures { IfOk result (λ answer. answer ≡ here.holder_right judge.now (holder_in holder.entry) cases.now) }
{
    match holder {
        Holder::Register(register) => is_read(judge, register, cases),
        Holder::Variable(name) => {
            let mut types = Items::new(judge.alloc);
            put_gives(judge, cases, &mut types)?;
            are_kept(judge, judge.setting.reads_as(name), types.as_slice())
        }
    }
}

/// Whether a part of what a holder holds gets new values. It fails where memory is wanting.
fn is_part(judge: &Judge<'_>, cell: &Cell<'_>) -> Result<bool, AllocError>
    ensures { IfOk result (λ answer. answer ≡ judged.part_right judge.now cell.now) }
{
    let setting = judge.setting;
    let cases = setting.cases(cell.read, 0);
    let values = setting.cases(cell.number, 1);
    let one = are_as_asked(judge, Asked::Nothing, cases)?;
    let other = is_stored(judge, cell.holder, cases)?;
    let last = all_replaced(judge, cell.suffixes, cases, values)?;
    let rest = both(other, last);
    let all = both(one, rest);
    Ok(all)
}

/// Whether a register or a variable, or a part of one, gets new values. It fails where memory is wanting.
fn is_cell(judge: &Judge<'_>, cell: &Cell<'_>) -> Result<bool, AllocError>
    ensures { IfOk result (λ answer. answer ≡ here.cell_right judge.now (aim_of cell.now)) }
{
    let one = is_cast(judge, cell.number)?;
    match cell.suffixes {
        [] => {
            let other = is_stored(judge, cell.holder, judge.setting.cases(cell.number, 1))?;
            let all = both(one, other);
            Ok(all)
        }
        [_, ..] => {
            let other = is_part(judge, cell)?;
            let all = both(one, other);
            Ok(all)
        }
    }
}

/// So those of these targets that are one. It fails where memory is wanting.
fn are_cells(judge: &Judge<'_>, targets: &[Target]) -> Result<bool, AllocError>
    ensures { IfOk result (λ answer. answer ≡ here.cells_right judge.now (cells_of targets.now)) }
{
    match targets {
        [] => Ok(true),
        [first, rest @ ..] => {
            let others = are_cells(judge, rest)?;
            match cell_of(first) {
                Some(cell) => {
                    let one = is_cell(judge, &cell)?;
                    let all = both(one, others);
                    Ok(all)
                }
                None => Ok(others),
            }
        }
    }
}

/// How many of these targets are one. It fails where there are 2^32 or more.
fn count_cells(targets: &[Target]) -> Result<u32, AllocError>
    ensures { IfOk result (λ count. count ≡ length (cells_of targets.now)) }
{
    match targets {
        [] => Ok(0),
        [first, rest @ ..] => {
            let others = count_cells(rest)?;
            match cell_of(first) {
                Some(_) => further(others, 1),
                None => Ok(others),
            }
        }
    }
}

/// Whether so many parts can be taken out of tuples of all these types. It fails where memory is wanting.
fn are_tuples(judge: &Judge<'_>, types: &[Sized], count: u32) -> Result<bool, AllocError>
    ensures { IfOk result (λ answer. answer ≡ here.all_fields_right judge.now types.now count) }
{
    match types {
        [] => Ok(true),
        [first, rest @ ..] => {
            let one = are_parts(judge, first, 0, count)?;
            let others = are_tuples(judge, rest, count)?;
            let all = both(one, others);
            Ok(all)
        }
    }
}

/// Whether the parts of a tuple, the last of these values, go to several cells. It fails where memory is wanting.
fn are_shared(judge: &Judge<'_>, targets: &[Target], parts: &[Core]) -> Result<bool, AllocError>
    ensures { IfOk result (λ answer. answer ≡
        judged.several_asked judge.now (cells_of targets.now) (judged.all_here judge.now parts.now)) }
{
    let mut types = Items::new(judge.alloc);
    put_last_of(judge, parts, &mut types)?;
    let one = are_cells(judge, targets)?;
    let count = count_cells(targets)?;
    let other = are_tuples(judge, types.as_slice(), count)?;
    let all = both(one, other);
    Ok(all)
}

/// Whether a call writes a value, behind so many arguments and with it. It fails where memory is wanting.
fn is_written(judge: &Judge<'_>, node: u32, writer: u32, parts: usize) -> Result<bool, AllocError>
    ensures { IfOk result (λ answer. answer ≡ judged.written_asked judge.now node writer parts) }
{
    let one = is_cast(judge, node)?;
    let other = are_leads(
        judge,
        judge.setting.cases(writer, parts),
        judge.setting.leads(writer),
    )?;
    let all = both(one, other);
    Ok(all)
}

/// Whether what is assigned to fits, with these parts. It fails where memory is wanting.
fn is_spot_asked(judge: &Judge<'_>, spot: Spot<'_>, parts: &[Core]) -> Result<bool, AllocError>
    ensures { IfOk result (λ answer. answer ≡ judged.spot_asked judge.now (spot_in spot.entry) (judged.all_here judge.now parts.now)) }
{
    let count = parts.len();
    let one = count >= 1;
    match spot {
        Spot::Other => Ok(false),
        Spot::One(cell) => {
            let other = is_cell(judge, &cell)?;
            let all = both(one, other);
            Ok(all)
        }
        Spot::Several(targets) => {
            let other = are_shared(judge, targets, parts)?;
            let all = both(one, other);
            Ok(all)
        }
        Spot::Called(node, _, _, writer, _) => {
            let other = is_written(judge, node, writer, count)?;
            let all = both(one, other);
            Ok(all)
        }
    }
}

/// Whether an assignment to one target fits, with these parts. It fails where memory is wanting.
pub fn is_assign_asked(
    judge: &Judge<'_>,
    targets: &[Target],
    parts: &[Core],
) -> Result<bool, AllocError>
    ensures { IfOk result (λ answer. answer ≡ judged.assign_asked judge.now targets.now (judged.all_here judge.now parts.now)) }
{
    match targets {
        [] => Ok(false),
        [target] => {
            let one = !judge.signs.is_pure;
            let other = is_spot_asked(judge, spot_of(target), parts)?;
            let all = both(one, other);
            Ok(all)
        }
        [_, _, ..] => Ok(false),
    }
}
