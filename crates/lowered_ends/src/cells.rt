//! Which assignments are lowered here.
ghost use Rattle.std.specs.Prelude.{◌≡◌, IfOk};
ghost use Rattle.lowered_types.specs.Table.{is_known};
ghost use Rattle.lowered_pieces.specs.Writes.{is_said as is_said_of, spot_lowered};
ghost use Rattle.lowered_steps.specs.Cells.{aim_of, cells_of, holder_in};
ghost use Rattle.lowered_steps.specs.Setting.{tables_for};
ghost use Rattle.lowered_ends.specs.Cells as spec;
ghost use Rattle.lowered_ends.specs.Targets.{spot_in};

use crate::able::{both, is_said};
use crate::around::{Around, lead_to};
use crate::ends::made_ends;
use crate::targets::Spot;
use crate::told::{are_among, is_told};
use lowered_steps::{Cell, Holder, Setting, cell_of, count_all, count_indexes, way_type};
use sail_core::{Suffix, Target, Way};
use size_values::Sized;
use sized_nodes::Case;
use std::alloc::{AllocError, Global};

/// Whether a type has a number, or is that of what doesn't exist. It fails where there are 2^32 types or more.
pub fn is_numbered(setting: &Setting<'_>, typ: &Sized) -> Result<bool, AllocError>
    ensures { IfOk result (λ answer. answer ≡ is_known setting.now.numbered.now typ.now) }
{
    match typ {
        Sized::Never => Ok(true),
        _ => {
            let number = setting.number(typ)?;
            Ok((number as usize) < setting.numbered.len())
        }
    }
}

/// Whether the type of a part on a way is said.
fn is_way_said(way: &Way) -> bool
    ensures { result ≡ is_said_of way.now }
{
    match way {
        Way::Field(_, _) => true,
        Way::Item => true,
        Way::Slice => false,
    }
}

/// Whether all that stands on the way to a part of a value of this type has a type with a number. It fails where memory is wanting.
fn is_path(
    alloc: Global,
    setting: &Setting<'_>,
    suffixes: &[Suffix],
    typ: &Sized,
) -> Result<bool, AllocError>
    ensures { IfOk result (λ answer. answer ≡ spec.path_ok setting.now suffixes.now typ.now) }
{
    match suffixes {
        [] => Ok(true),
        [_] => Ok(true),
        [first, rest @ ..] => {
            let inner = way_type(alloc, setting.types, &first.way, typ)?;
            let known = is_numbered(setting, &inner)?;
            let is_rest = is_path(alloc, setting, rest, &inner)?;
            let behind = both(known, is_rest);
            Ok(both(is_way_said(&first.way), behind))
        }
    }
}

/// So for what each of these cases gives. It fails where memory is wanting.
fn are_paths(
    alloc: Global,
    setting: &Setting<'_>,
    suffixes: &[Suffix],
    cases: &[Case],
) -> Result<bool, AllocError>
    ensures { IfOk result (λ answer. answer ≡ spec.paths_ok setting.now suffixes.now cases.now) }
{
    match cases {
        [] => Ok(true),
        [first, rest @ ..] => {
            let one = is_path(alloc, setting, suffixes, &first.gives)?;
            let others = are_paths(alloc, setting, suffixes, rest)?;
            Ok(both(one, others))
        }
    }
}

/// Whether a variable is read at all, where it holds what gets a new value.
fn is_holder(setting: &Setting<'_>, holder: Holder<'_>) -> bool
    ensures { result ≡ spec.holder_ok setting.now (holder_in holder.entry) }
{
    match holder {
        Holder::Register(_) => true,
        Holder::Variable(name) => is_told(setting, name),
    }
}

/// Whether a variable is read in these cases at types that are known to be.
fn is_held(setting: &Setting<'_>, holder: Holder<'_>, cases: &[Case]) -> bool
    ensures { result ≡ spec.held_ok setting.now (holder_in holder.entry) cases.now }
{
    match holder {
        Holder::Register(_) => true,
        Holder::Variable(name) => are_among(setting.reads_as(name), cases),
    }
}

/// Whether the way to a part of what is read at a node is lowered. It fails where memory is wanting.
fn is_part(alloc: Global, setting: &Setting<'_>, cell: &Cell<'_>) -> Result<bool, AllocError>
    ensures { IfOk result (λ answer. answer ≡ spec.part_ok setting.now cell.now) }
{
    let cases = setting.cases(cell.read, 0);
    let ends = made_ends(alloc, setting, cell.read, 0)?;
    let said = is_said(&ends);
    let paths = are_paths(alloc, setting, cell.suffixes, cases)?;
    let held = is_held(setting, cell.holder, cases);
    let way = both(paths, held);
    Ok(both(said, way))
}

/// Whether a register or a variable is lowered that gets a new value, or a part of one. It fails where memory is wanting.
fn is_cell(alloc: Global, setting: &Setting<'_>, cell: &Cell<'_>) -> Result<bool, AllocError>
    ensures { IfOk result (λ answer. answer ≡ spec.cell_ok setting.now (aim_of cell.now)) }
{
    let holder = is_holder(setting, cell.holder);
    match cell.suffixes {
        [] => Ok(holder),
        [_, ..] => {
            let part = is_part(alloc, setting, cell)?;
            Ok(both(holder, part))
        }
    }
}

/// So for those of these targets that are one. It fails where memory is wanting.
fn are_cells_lowered(
    alloc: Global,
    setting: &Setting<'_>,
    targets: &[Target],
) -> Result<bool, AllocError>
    ensures { IfOk result (λ answer. answer ≡ spec.cells_ok setting.now (cells_of targets.now)) }
{
    match targets {
        [] => Ok(true),
        [first, rest @ ..] => {
            let others = are_cells_lowered(alloc, setting, rest)?;
            match cell_of(first) {
                Some(cell) => {
                    let one = is_cell(alloc, setting, &cell)?;
                    Ok(both(one, others))
                }
                None => Ok(others),
            }
        }
    }
}

/// Whether what is assigned to is lowered, with so many parts. It fails where memory is wanting.
pub fn is_spot(
    alloc: Global,
    setting: &Setting<'_>,
    around: &Around<'_>,
    spot: Spot<'_>,
    parts: usize,
) -> Result<bool, AllocError>
    ensures { IfOk result (λ answer. answer ≡
        spot_lowered setting.now.types.now (tables_for setting.now around.now.instances.now) (spot_in spot.entry) parts) }
{
    match spot {
        Spot::Other => Ok(false),
        Spot::One(cell) => {
            let takes = count_indexes(cell.suffixes)?;
            let fits = is_cell(alloc, setting, &cell)?;
            Ok(both(parts as u64 == takes as u64 + 1, fits))
        }
        Spot::Several(targets) => {
            let takes = count_all(targets)?;
            let fit = are_cells_lowered(alloc, setting, targets)?;
            Ok(both(parts as u64 == takes as u64 + 1, fit))
        }
        Spot::Called(_, _, arguments, call, function) => {
            let leads = lead_to(around, function, setting.leads(call));
            Ok(both(parts as u64 == arguments as u64 + 1, leads))
        }
    }
}
