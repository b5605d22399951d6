//! The types that the value of a node may have where it stands in hand.
ghost use Rattle.std.specs.Prelude.{◌≡◌, ◌++◌, [], OnOk};
ghost use Rattle.lowered_ends.specs.Targets.{spot_in};
ghost use Rattle.lowered_typed.specs.Here as here;
ghost use Rattle.lowered_typed.specs.Judged as judged;
ghost use Rattle.lowered_typed.specs.Judging.{typed};

use crate::cases::put_gives;
use crate::counts::has_count;
use crate::signs::Judge;
use lowered_ends::{Spot, fixed_type, literal_type, option_of, spot_of};
use sail_base::{Items, Text};
use sail_core::{Core, Kind, Literal, Statement, Suffix, Target, Way};
use sail_types::{Con, Num, Typ};
use size_values::{Sized, Variables, copy_sized, truth_of, value_of};
use std::alloc::AllocError;

/// The types of the values of all bodies come behind others. They fail where memory is wanting.
#[cycle(put_types)]
pub fn put_all_types(
    judge: &Judge<'_>,
    nodes: &[Core],
    types: &mut Items<Sized>,
) -> Result<(), AllocError>
    ensures { OnOk result (types.new ≡ types.old ++ here.arms_types judge.now (judged.all_here judge.now nodes.now)) }
{
    match nodes {
        [] => Ok(()),
        [first, rest @ ..] => {
            put_types(judge, first, types)?;
            put_all_types(judge, rest, types)
        }
    }
}

/// Those of the value of a block without statements do. They fail where memory is wanting.
#[tactic(auto, using(crate::proofs::Fixed::fixed))]
#[cycle(put_types)]
fn put_last_types(
    judge: &Judge<'_>,
    parts: &[Core],
    types: &mut Items<Sized>,
) -> Result<(), AllocError>
    ensures { OnOk result (types.new ≡ types.old ++ here.block_types judge.now [] (judged.all_here judge.now parts.now)) }
{
    match parts {
        [] => types.push(Sized::Unit),
        [value] => put_types(judge, value, types),
        [_, _, ..] => Ok(()),
    }
}

/// Those of the value of a block do. They fail where memory is wanting.
#[cycle(put_types)]
fn put_block_types(
    judge: &Judge<'_>,
    statements: &[Statement],
    parts: &[Core],
    types: &mut Items<Sized>,
) -> Result<(), AllocError>
    ensures { OnOk result (types.new ≡ types.old ++ here.block_types judge.now statements.now (judged.all_here judge.now parts.now)) }
{
    match statements {
        [] => put_last_types(judge, parts, types),
        [_, rest @ ..] => match parts {
            [] => Ok(()),
            [_, others @ ..] => put_block_types(judge, rest, others, types),
        },
    }
}

/// Those of the value of the first node do, if there is one. They fail where memory is wanting.
#[cycle(put_types)]
pub fn put_first_types(
    judge: &Judge<'_>,
    parts: &[Core],
    types: &mut Items<Sized>,
) -> Result<(), AllocError>
    ensures { OnOk result (types.new ≡ types.old ++ judged.first_types (judged.all_here judge.now parts.now)) }
{
    match parts {
        [] => Ok(()),
        [first, ..] => put_types(judge, first, types),
    }
}

/// Those of the value of the second node do, if there is one. They fail where memory is wanting.
#[cycle(put_types)]
fn put_second_types(
    judge: &Judge<'_>,
    parts: &[Core],
    types: &mut Items<Sized>,
) -> Result<(), AllocError>
    ensures { OnOk result (types.new ≡ types.old ++ judged.second_types judge.now (judged.all_here judge.now parts.now)) }
{
    match parts {
        [] => Ok(()),
        [_, rest @ ..] => put_first_types(judge, rest, types),
    }
}

/// Those of the value of the last node do, if there is one. They fail where memory is wanting.
pub fn put_last_of(
    judge: &Judge<'_>,
    parts: &[Core],
    types: &mut Items<Sized>,
) -> Result<(), AllocError>
    ensures { OnOk result (types.new ≡ types.old ++ here.last_types judge.now (judged.all_here judge.now parts.now)) }
{
    match parts {
        [] => Ok(()),
        [.., last] => put_types(judge, last, types),
    }
}

/// The types of a part that a suffix takes out come behind others. They fail where memory is wanting.
fn put_way_types(
    judge: &Judge<'_>,
    way: &Way,
    node: u32,
    types: &mut Items<Sized>,
) -> Result<(), AllocError>
    ensures { OnOk result (types.new ≡ types.old ++ here.way_types judge.now way.now node) }
{
    match way {
        Way::Field(_, _) => put_gives(judge, judge.setting.cases(node, 1), types),
        Way::Item => put_gives(judge, judge.setting.cases(node, 2), types),
        Way::Slice => put_gives(judge, judge.setting.cases(node, 3), types),
    }
}

/// Those of a path's last part do, or of the value of the first node where there are no suffixes. They fail where memory is wanting.
#[cycle(put_types)]
fn put_path_types(
    judge: &Judge<'_>,
    suffixes: &[Suffix],
    parts: &[Core],
    types: &mut Items<Sized>,
) -> Result<(), AllocError>
    ensures { OnOk result (types.new ≡ types.old
        ++ here.path_types judge.now suffixes.now (judged.first_types (judged.all_here judge.now parts.now))) }
{
    match suffixes {
        [] => put_first_types(judge, parts, types),
        [last] => put_way_types(judge, &last.way, last.number, types),
        [_, rest @ ..] => put_path_types(judge, rest, parts, types),
    }
}

/// The type of a literal comes behind others. It fails where memory is wanting.
fn put_literal_type(
    judge: &Judge<'_>,
    literal: &Literal,
    types: &mut Items<Sized>,
) -> Result<(), AllocError>
    ensures { OnOk result (types.new ≡ types.old ++ judged.literal_types judge.now literal.now) }
{
    let typ = literal_type(judge.alloc, literal)?;
    types.push(typ)
}

/// The type of a number of variables comes behind others, where it is known. It fails where memory is wanting.
#[tactic(auto, using(crate::proofs::Fixed::fixed))]
fn put_number_type(
    judge: &Judge<'_>,
    size: &Num,
    types: &mut Items<Sized>,
) -> Result<(), AllocError>
    ensures { OnOk result (types.new ≡ types.old ++ judged.size_types judge.now size.now) }
{
    match value_of(size, &Variables::Known(judge.setting.numbers, &[])) {
        Some(_) => types.push(Sized::Int),
        None => Ok(()),
    }
}

/// That of a truth of variables does. It fails where memory is wanting.
#[tactic(auto, using(crate::proofs::Fixed::fixed))]
fn put_truth_type(
    judge: &Judge<'_>,
    condition: &Con,
    types: &mut Items<Sized>,
) -> Result<(), AllocError>
    ensures { OnOk result (types.new ≡ types.old ++ judged.condition_types judge.now condition.now) }
{
    match truth_of(condition, &Variables::Known(judge.setting.numbers, &[])) {
        Some(_) => types.push(Sized::Bool),
        None => Ok(()),
    }
}

/// Those of the value of an assignment do, with so many parts. They fail where memory is wanting.
#[tactic(auto, using(crate::proofs::Fixed::fixed))]
fn put_spot_types(
    judge: &Judge<'_>,
    spot: Spot<'_>,
    parts: usize,
    types: &mut Items<Sized>,
) -> Result<(), AllocError>
    ensures { OnOk result (types.new ≡ types.old ++ judged.spot_types judge.now (spot_in spot.entry) parts) }
{
    match spot {
        Spot::Other => types.push(Sized::Unit),
        Spot::One(_) => types.push(Sized::Unit),
        Spot::Several(_) => types.push(Sized::Unit),
        Spot::Called(_, _, _, writer, _) => {
            put_gives(judge, judge.setting.cases(writer, parts), types)
        }
    }
}

/// Those of the value of assignments do, with so many parts. They fail where memory is wanting.
fn put_assign_types(
    judge: &Judge<'_>,
    targets: &[Target],
    parts: usize,
    types: &mut Items<Sized>,
) -> Result<(), AllocError>
    ensures { OnOk result (types.new ≡ types.old ++ judged.assign_types judge.now targets.now parts) }
{
    match targets {
        [] => Ok(()),
        [target] => put_spot_types(judge, spot_of(target), parts, types),
        [_, _, ..] => Ok(()),
    }
}

/// Those of an option do, once where there is a value, and once where there is none. They fail where memory is wanting.
fn put_option_types(
    judge: &Judge<'_>,
    typ: &Typ,
    types: &mut Items<Sized>,
) -> Result<(), AllocError>
    ensures { OnOk result (types.new ≡ types.old ++ judged.option_types judge.now typ.now) }
{
    let payload = fixed_type(judge.alloc, judge.setting.types, typ)?;
    let option = option_of(judge.alloc, &payload)?;
    let copy = copy_sized(judge.alloc, &option)?;
    types.push(copy)?;
    types.push(option)
}

/// Those of a variable do, where variables of its name are known to be read. They fail where memory is wanting.
fn put_variable_types(
    judge: &Judge<'_>,
    name: &Text,
    number: u32,
    types: &mut Items<Sized>,
) -> Result<(), AllocError>
    ensures { OnOk result (types.new ≡ types.old ++ judged.variable_types judge.now name.now number) }
{
    match judge.setting.reads_as(name) {
        [] => Ok(()),
        [_, ..] => put_gives(judge, judge.setting.cases(number, 0), types),
    }
}

/// Those of the value of a choice of one branch do. They fail where memory is wanting.
#[cycle(put_types)]
fn put_one_branch(
    judge: &Judge<'_>,
    parts: &[Core],
    types: &mut Items<Sized>,
) -> Result<(), AllocError>
    ensures { OnOk result (types.new ≡ types.old ++ judged.one_branch judge.now (judged.all_here judge.now parts.now)) }
{
    put_second_types(judge, parts, types)?;
    types.push(Sized::Unit)
}

/// Those of the value of a choice do. They fail where memory is wanting.
#[tactic(auto, using(crate::proofs::Parts::parts_here, crate::proofs::Fixed::fixed))]
#[cycle(put_types)]
fn put_if_types(
    judge: &Judge<'_>,
    number: u32,
    parts: &[Core],
    types: &mut Items<Sized>,
) -> Result<(), AllocError>
    ensures { OnOk result (types.new ≡ types.old ++ judged.if_types judge.now number (judged.all_here judge.now parts.now)) }
{
    if parts.len() == 2 {
        put_one_branch(judge, parts, types)
    } else {
        put_gives(judge, judge.setting.cases(number, 1), types)
    }
}

/// The types that the value of a kind may have come behind others, where it has as many parts as it takes. They fail where memory is wanting.
#[tactic(auto, using(crate::proofs::Parts::parts_here, crate::proofs::Fixed::fixed))]
#[cycle(put_types)]
fn put_kind_types(
    judge: &Judge<'_>,
    kind: &Kind,
    number: u32,
    parts: &[Core],
    types: &mut Items<Sized>,
) -> Result<(), AllocError>
    ensures { OnOk result (types.new ≡ types.old ++ judged.types_by judge.now kind.now number (judged.all_here judge.now parts.now)) }
{
    let setting = judge.setting;
    let count = parts.len();
    match kind {
        Kind::Constant(literal) => put_literal_type(judge, literal, types),
        Kind::Local(_) => put_gives(judge, setting.cases(number, 1), types),
        Kind::Variable(name) => put_variable_types(judge, name, number, types),
        Kind::TopLevel(_) => put_gives(judge, setting.cases(number, 0), types),
        Kind::Register(_) => put_gives(judge, setting.cases(number, 0), types),
        Kind::Call(_) => put_gives(judge, setting.cases(number, count), types),
        Kind::Tuple => put_gives(judge, setting.cases(number, count), types),
        Kind::Vector(_) => put_gives(judge, setting.cases(number, count), types),
        Kind::List(_) => put_gives(judge, setting.cases(number, count), types),
        Kind::Cons(_) => put_gives(judge, setting.cases(number, count), types),
        Kind::Struct(_, _) => put_gives(judge, setting.cases(number, count), types),
        Kind::With(_, _) => put_gives(judge, setting.cases(number, count), types),
        Kind::Part(suffixes) => put_path_types(judge, suffixes.as_slice(), parts, types),
        Kind::WithItem => put_gives(judge, setting.cases(number, 3), types),
        Kind::WithSlice => put_gives(judge, setting.cases(number, 4), types),
        Kind::Cast(_) => put_gives(judge, setting.cases(number, 1), types),
        Kind::SizeOf(size, _) => put_number_type(judge, size, types),
        Kind::Constraint(condition, _) => put_truth_type(judge, condition, types),
        Kind::Assign(targets) => put_assign_types(judge, targets.as_slice(), count, types),
        Kind::Block(statements) => put_block_types(judge, statements.as_slice(), parts, types),
        Kind::Var(_, _) => put_second_types(judge, parts, types),
        Kind::If(_) => put_if_types(judge, number, parts, types),
        Kind::While => types.push(Sized::Unit),
        Kind::Repeat => types.push(Sized::Unit),
        Kind::Foreach(_, _) => types.push(Sized::Unit),
        Kind::Assert(_) => types.push(Sized::Unit),
        Kind::And => types.push(Sized::Bool),
        Kind::Or => types.push(Sized::Bool),
        Kind::When => put_second_types(judge, parts, types),
        Kind::Let(_) => put_second_types(judge, parts, types),
        Kind::Match(_, _) => put_gives(judge, setting.cases(number, 1), types),
        Kind::Try(_, _) => put_gives(judge, setting.cases(number, 1), types),
        Kind::Clauses(_) => put_all_types(judge, parts, types),
        Kind::Optional(typ) => put_option_types(judge, typ, types),
        Kind::Return => Ok(()),
        Kind::Throw => Ok(()),
        Kind::Exit => Ok(()),
    }
}

/// The types that the value of a node may have come behind others. They fail where memory is wanting.
#[tactic(auto, using(crate::proofs::Parts::parts_here, crate::proofs::Parts::node_types))]
#[cycle(put_types)]
pub fn put_types(judge: &Judge<'_>, node: &Core, types: &mut Items<Sized>) -> Result<(), AllocError>
    ensures { OnOk result (types.new ≡ types.old ++ (typed judge.now node.now).types) }
{
    let parts = node.parts.as_slice();
    if has_count(&node.kind, parts.len()) {
        put_kind_types(judge, &node.kind, node.number, parts, types)
    } else {
        Ok(())
    }
}
