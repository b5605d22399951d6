//! Which nodes are lowered here: those whose kinds, counts of parts and arms are, and whose cases are as their code asks.
ghost use Rattle.std.specs.Prelude.{◌≡◌, ◌+◌, ◌&&◌, [], nat_eq, nat_lt, is_some, length, slice_get, IfOk};
ghost use Rattle.sail_types.specs.Named.{members as members_of};
ghost use Rattle.sail_types.specs.declared.shapes.Shape.TheVariants as shape;
ghost use Rattle.sail_core.specs.declared.tree.Callee.TheVariants as callee;
ghost use Rattle.sail_core.specs.declared.tree.Kind.TheVariants as kind;
ghost use Rattle.sail_core.specs.Values.{literal_typ, literal_value};
ghost use Rattle.checked_meaning.specs.Fits.{has_sizes};
ghost use Rattle.checked_meaning.specs.Items.{fixed_typ};
ghost use Rattle.size_values.specs.Numbers.{known_at, known_of, truth_of as truth_in};
ghost use Rattle.lowered_pieces.specs.Arms.{arm_fits, arms_fit, step_fits, steps_fit, steps_in, width_lowered, widths_lowered};
ghost use Rattle.lowered_pieces.specs.Forms.{cases_ends, has_ends};
ghost use Rattle.lowered_pieces.specs.Gathered.{is_one as is_one_of};
ghost use Rattle.lowered_pieces.specs.Mapped.{ends_with as ends_with_of, fixed_end as fixed_end_of};
ghost use Rattle.lowered_pieces.specs.Places.{Naming};
ghost use Rattle.lowered_steps.specs.Hands.{types_of};
ghost use Rattle.lowered_steps.specs.Setting.{crosses_for, reads_at, size_for, ways_for};
ghost use Rattle.lowered_ends.specs.Able as spec;
ghost use Rattle.lowered_ends.specs.Around.{node_for, ok_as};

use crate::around::{Around, lead_to};
use crate::cells::{is_numbered, is_spot};
use crate::ends::{ends_with, literal_type, made_ends, node_ends};
use crate::targets::spot_of;
use crate::told::{is_unread, is_variable};
use jib::has_state;
use lowered_steps::{Ends, Setting};
use sail_base::{Items, Text};
use sail_core::{Arm, Callee, Core, Head, Kind, Literal, Statement, Step, Suffix, Target, Way};
use sail_types::{Con, Form, Num, Row, Types, is_small};
use size_values::{Variables, truth_of, value_of};
use sized_nodes::Case;
use std::alloc::{AllocError, Global};

/// Whether both are so.
pub fn both(first: bool, second: bool) -> bool
    ensures { result ≡ (first && second) }
{
    first && second
}

/// Whether the widths that are written are known.
fn are_widths(setting: &Setting<'_>, widths: &[Option<Num>]) -> bool
    ensures { result ≡ widths_lowered (size_for setting.now) widths.now }
{
    match widths {
        [] => true,
        [first, rest @ ..] => is_width(setting, first) && are_widths(setting, rest),
    }
}

/// Whether a width is known, where it is written.
fn is_width(setting: &Setting<'_>, width: &Option<Num>) -> bool
    ensures { result ≡ width_lowered (size_for setting.now) width.now }
{
    match width {
        Some(width) => match value_of(width, &Variables::Known(setting.numbers, &[])) {
            Some(number) => number >= 0,
            None => false,
        },
        None => true,
    }
}

/// Whether there is a direction.
fn is_crossed(setting: &Setting<'_>, direction: u32) -> bool
    ensures { result ≡ crosses_for setting.now direction }
{
    match setting.direction(direction) {
        Some(_) => true,
        None => false,
    }
}

/// Whether a step is lowered.
fn is_step(setting: &Setting<'_>, step: &Step) -> bool
    ensures { result ≡ step_fits (size_for setting.now) (crosses_for setting.now) (reads_at setting.now.reads.now) step.now }
{
    match step {
        Step::Opens(_, head, _) => match head {
            Head::Cut(widths) => are_widths(setting, widths.as_slice()),
            _ => true,
        },
        Step::Names(_, name) => is_unread(setting, name),
        Step::Sees(_, direction) => is_crossed(setting, *direction),
    }
}

/// The steps of a flat arm; none of another.
pub fn arm_steps(arm: &Arm) -> &[Step]
    ensures { result.now ≡ steps_in arm.now }
{
    match arm {
        Arm::Flat(_, steps) => steps.as_slice(),
        Arm::Nested(_) => &[],
    }
}

/// Whether all steps are lowered.
fn are_steps(setting: &Setting<'_>, steps: &[Step]) -> bool
    ensures { result ≡ steps_fit (size_for setting.now) (crosses_for setting.now) (reads_at setting.now.reads.now) steps.now }
{
    match steps {
        [] => true,
        [first, rest @ ..] => is_step(setting, first) && are_steps(setting, rest),
    }
}

/// Whether an arm is lowered.
pub fn is_arm(setting: &Setting<'_>, arm: &Arm) -> bool
    ensures { result ≡ arm_fits (size_for setting.now) (crosses_for setting.now) (reads_at setting.now.reads.now) arm.now }
{
    match arm {
        Arm::Flat(_, steps) => are_steps(setting, steps.as_slice()),
        Arm::Nested(_) => false,
    }
}

/// Whether all arms are lowered.
fn are_arms(setting: &Setting<'_>, arms: &[Arm]) -> bool
    ensures { result ≡ arms_fit (size_for setting.now) (crosses_for setting.now) (reads_at setting.now.reads.now) arms.now }
{
    match arms {
        [] => true,
        [first, rest @ ..] => is_arm(setting, first) && are_arms(setting, rest),
    }
}

/// Whether there are cases.
fn has_cases(cases: &[Case]) -> bool
    ensures { result ≡ has_ends (cases_ends cases.now) }
{
    match cases {
        [] => false,
        _ => true,
    }
}

/// Whether there is one case.
pub fn has_one(cases: &[Case]) -> bool
    ensures { result ≡ is_one_of (cases_ends cases.now) }
{
    match cases {
        [] => false,
        [_] => true,
        [_, _, ..] => false,
    }
}

/// Whether types are said.
pub fn is_said(ends: &Ends<'_>) -> bool
    ensures { result ≡ has_ends (types_of ends.now) }
{
    match ends {
        Ends::Unsaid => false,
        Ends::Cases(cases) => has_cases(cases),
        Ends::One(_) => true,
    }
}

/// Whether one type is said.
pub fn is_one(ends: &Ends<'_>) -> bool
    ensures { result ≡ is_one_of (types_of ends.now) }
{
    match ends {
        Ends::Unsaid => false,
        Ends::Cases(cases) => has_one(cases),
        Ends::One(_) => true,
    }
}

/// Whether all nodes are lowered. It fails where memory is wanting.
#[cycle(is_lowered)]
fn are_lowered(
    alloc: Global,
    setting: &Setting<'_>,
    around: &Around<'_>,
    nodes: &[Core],
) -> Result<bool, AllocError>
    ensures { IfOk result (λ answer. (name : Naming) → answer ≡ spec.all_for setting.now around.now name nodes.now) }
{
    match nodes {
        [] => Ok(true),
        [first, rest @ ..] => {
            let is_first = is_lowered(alloc, setting, around, first)?;
            let are_others = are_lowered(alloc, setting, around, rest)?;
            Ok(both(is_first, are_others))
        }
    }
}

/// Whether a node is lowered, and the types of its value are said. It fails where memory is wanting.
#[cycle(is_lowered)]
fn is_matched(
    alloc: Global,
    setting: &Setting<'_>,
    around: &Around<'_>,
    node: &Core,
) -> Result<bool, AllocError>
    ensures { IfOk result (λ answer. (name : Naming) → answer ≡ spec.matched_for setting.now around.now name node.now) }
{
    let is_value = is_lowered(alloc, setting, around, node)?;
    let ends = node_ends(alloc, setting, around, node)?;
    let said = is_said(&ends);
    Ok(both(is_value, said))
}

/// Whether the rest of a block is lowered. It fails where memory is wanting.
#[cycle(is_lowered)]
fn is_block(
    alloc: Global,
    setting: &Setting<'_>,
    around: &Around<'_>,
    statements: &[Statement],
    parts: &[Core],
) -> Result<bool, AllocError>
    ensures { IfOk result (λ answer. (name : Naming) → answer ≡ spec.block_ok setting.now around.now name statements.now parts.now) }
{
    match statements {
        [] => is_last(alloc, setting, around, parts),
        [statement, rest @ ..] => match parts {
            [] => Ok(false),
            [first, others @ ..] => {
                let is_first = is_statement(alloc, setting, around, statement, first)?;
                let are_others = is_block(alloc, setting, around, rest, others)?;
                Ok(both(is_first, are_others))
            }
        },
    }
}

/// Whether a block without statements is lowered. It fails where memory is wanting.
#[cycle(is_lowered)]
fn is_last(
    alloc: Global,
    setting: &Setting<'_>,
    around: &Around<'_>,
    parts: &[Core],
) -> Result<bool, AllocError>
    ensures { IfOk result (λ answer. (name : Naming) → answer ≡ spec.block_ok setting.now around.now name [] parts.now) }
{
    match parts {
        [] => Ok(true),
        [value] => is_lowered(alloc, setting, around, value),
        [_, _, ..] => Ok(false),
    }
}

/// Whether a statement is lowered, with its part. It fails where memory is wanting.
#[cycle(is_lowered)]
fn is_statement(
    alloc: Global,
    setting: &Setting<'_>,
    around: &Around<'_>,
    statement: &Statement,
    first: &Core,
) -> Result<bool, AllocError>
    ensures { IfOk result (λ answer. (name : Naming) → answer ≡ spec.statement_ok setting.now around.now name statement.now first.now) }
{
    match statement {
        Statement::Evaluate => is_lowered(alloc, setting, around, first),
        Statement::Declare(_, _) => is_lowered(alloc, setting, around, first),
        Statement::Define(_, arm) => {
            let flat = is_arm(setting, arm);
            let is_value = is_matched(alloc, setting, around, first)?;
            Ok(both(flat, is_value))
        }
    }
}

/// Whether suffixes have just their indexes.
pub fn are_suffixes(suffixes: &[Suffix], indexes: usize) -> bool
    ensures { result ≡ spec.suffixes_fit suffixes.now indexes }
{
    match suffixes {
        [] => indexes == 0,
        [first, rest @ ..] => match first.way {
            Way::Field(_, _) => are_suffixes(rest, indexes),
            Way::Item => indexes >= 1 && are_suffixes(rest, indexes - 1),
            Way::Slice => indexes >= 2 && are_suffixes(rest, indexes - 2),
        },
    }
}

/// Whether an enum has a member of this number.
fn is_member(types: &Types, place: u32, member: u32) -> bool
    ensures { result ≡ nat_lt member (length (members_of types.now place)) }
{
    match types.definitions.get(place as usize) {
        Some(definition) => match &definition.form {
            Form::Struct(_) => false,
            Form::Union(_) => false,
            Form::Enum(members) => (member as usize) < members.len(),
        },
        None => false,
    }
}

/// Whether a literal is of its type.
fn is_fitting(setting: &Setting<'_>, literal: &Literal) -> bool
    ensures { result ≡ has_sizes setting.now.types.now (literal_value literal.now) (fixed_typ setting.now.types.now (literal_typ literal.now)) }
{
    match literal {
        Literal::Unit => true,
        Literal::Integer(number) => is_small(*number),
        Literal::Truth(_) => true,
        Literal::Bit(_) => true,
        Literal::Bits(word) => word.width() <= 128,
        Literal::String(_) => true,
        Literal::Member(place, member) => is_member(setting.types, *place, *member),
    }
}

/// Whether a literal is of its type, and the type has a number. It fails where memory is wanting.
fn is_literal(alloc: Global, setting: &Setting<'_>, literal: &Literal) -> Result<bool, AllocError>
    ensures { IfOk result (λ answer. answer ≡ spec.literal_ok setting.now literal.now) }
{
    let typ = literal_type(alloc, literal)?;
    let known = is_numbered(setting, &typ)?;
    let fits = is_fitting(setting, literal);
    Ok(both(fits, known))
}

/// Whether the operands of a builtin of the state have one type each. It fails where memory is wanting.
fn have_one_type(
    alloc: Global,
    setting: &Setting<'_>,
    around: &Around<'_>,
    nodes: &[Core],
) -> Result<bool, AllocError>
    ensures { IfOk result (λ answer. (name : Naming) → answer ≡ spec.all_one_for setting.now around.now name nodes.now) }
{
    match nodes {
        [] => Ok(true),
        [first, rest @ ..] => {
            let ends = node_ends(alloc, setting, around, first)?;
            let single = is_one(&ends);
            let are_others = have_one_type(alloc, setting, around, rest)?;
            Ok(both(single, are_others))
        }
    }
}

/// Whether the number of a size of the type variables is known and an integer of a model, at a node without parts.
fn is_size(setting: &Setting<'_>, size: &Num, parts: &[Core]) -> bool
    ensures { result ≡ (nat_eq (length parts.now) 0 && spec.number_fits (size_for setting.now size.now)) }
{
    match parts {
        [] => match value_of(size, &Variables::Known(setting.numbers, &[])) {
            Some(number) => is_small(number),
            None => false,
        },
        _ => false,
    }
}

/// Whether the truth of a condition on the type variables is known, at a node without parts.
fn is_truth(setting: &Setting<'_>, condition: &Con, parts: &[Core]) -> bool
    ensures { result ≡ (nat_eq (length parts.now) 0 && is_some (truth_in (known_at (known_of setting.now.numbers.now)) condition.now)) }
{
    match parts {
        [] => truth_of(condition, &Variables::Known(setting.numbers, &[])).is_some(),
        _ => false,
    }
}

/// Whether a literal without parts is lowered. It fails where memory is wanting.
fn is_constant(
    alloc: Global,
    setting: &Setting<'_>,
    around: &Around<'_>,
    literal: &Literal,
    node: &Core,
) -> Result<bool, AllocError>
    ensures { IfOk result (λ answer. (name : Naming) → answer ≡ ok_as setting.now around.now name (kind.Constant literal.now) node.now) }
{
    match node.parts.as_slice() {
        [] => is_literal(alloc, setting, literal),
        _ => Ok(false),
    }
}

/// Whether these are so many nodes, and all lowered. It fails where memory is wanting.
#[cycle(is_lowered)]
fn are_so_many(
    alloc: Global,
    setting: &Setting<'_>,
    around: &Around<'_>,
    count: usize,
    nodes: &[Core],
) -> Result<bool, AllocError>
    ensures { IfOk result (λ answer. (name : Naming) → answer ≡ (nat_eq (length nodes.now) count && spec.all_for setting.now around.now name nodes.now)) }
{
    let are_nodes = are_lowered(alloc, setting, around, nodes)?;
    Ok(both(nodes.len() == count, are_nodes))
}

/// Whether what is called is lowered. It fails where memory is wanting.
#[cycle(is_lowered)]
fn is_callee(
    alloc: Global,
    setting: &Setting<'_>,
    around: &Around<'_>,
    callee: Callee,
    node: &Core,
) -> Result<bool, AllocError>
    ensures { IfOk result (λ answer. (name : Naming) → answer ≡ ok_as setting.now around.now name (kind.Call callee) node.now) }
{
    let parts = node.parts.as_slice();
    match callee {
        Callee::Function(function) => {
            let leads = lead_to(around, function, setting.leads(node.number));
            let are_parts = are_lowered(alloc, setting, around, parts)?;
            Ok(both(leads, are_parts))
        }
        Callee::Row(row) => is_row(alloc, setting, around, row, node),
        Callee::Constructor(_, _) => are_lowered(alloc, setting, around, parts),
        Callee::Converts(_) => Ok(false),
        Callee::Applies(direction) => is_crossing(alloc, setting, around, direction, node),
    }
}

/// Whether a builtin is lowered: one of the state has one case and operands of one type each. It fails where memory is wanting.
#[cycle(is_lowered)]
fn is_row(
    alloc: Global,
    setting: &Setting<'_>,
    around: &Around<'_>,
    row: Row,
    node: &Core,
) -> Result<bool, AllocError>
    ensures { IfOk result (λ answer. (name : Naming) → answer ≡ ok_as setting.now around.now name (kind.Call (callee.Row row)) node.now) }
{
    let parts = node.parts.as_slice();
    let are_parts = are_lowered(alloc, setting, around, parts)?;
    if has_state(row) {
        let single = has_one(setting.cases(node.number, parts.len()));
        let are_single = have_one_type(alloc, setting, around, parts)?;
        let fit = both(are_single, are_parts);
        Ok(both(single, fit))
    } else {
        Ok(are_parts)
    }
}

/// Whether a value of these types may be handed to a direction: there is one, and it takes the one type that is said.
fn is_taken(setting: &Setting<'_>, direction: u32, ends: &Ends<'_>) -> bool
    ensures { result ≡ (crosses_for setting.now direction && ends_with_of (ways_for setting.now direction).takes (fixed_end_of (types_of ends.now))) }
{
    match setting.direction(direction) {
        Some(mapped) => ends_with(&mapped.takes, ends),
        None => false,
    }
}

/// Whether a call of a direction is lowered. It fails where memory is wanting.
#[cycle(is_lowered)]
fn is_crossing(
    alloc: Global,
    setting: &Setting<'_>,
    around: &Around<'_>,
    direction: u32,
    node: &Core,
) -> Result<bool, AllocError>
    ensures { IfOk result (λ answer. (name : Naming) → answer ≡ ok_as setting.now around.now name (kind.Call (callee.Applies direction)) node.now) }
{
    match node.parts.as_slice() {
        [] => Ok(false),
        [value] => {
            let ends = node_ends(alloc, setting, around, value)?;
            let taken = is_taken(setting, direction, &ends);
            let is_value = is_lowered(alloc, setting, around, value)?;
            Ok(both(taken, is_value))
        }
        [_, _, ..] => Ok(false),
    }
}

/// Whether a part of a value is lowered. It fails where memory is wanting.
#[cycle(is_lowered)]
fn is_part(
    alloc: Global,
    setting: &Setting<'_>,
    around: &Around<'_>,
    suffixes: &Items<Suffix>,
    node: &Core,
) -> Result<bool, AllocError>
    ensures { IfOk result (λ answer. (name : Naming) → answer ≡ ok_as setting.now around.now name (kind.Part suffixes.now) node.now) }
{
    match node.parts.as_slice() {
        [] => Ok(false),
        [whole, indexes @ ..] => {
            let fit = are_suffixes(suffixes.as_slice(), indexes.len());
            let is_whole = is_lowered(alloc, setting, around, whole)?;
            let are_indexes = are_lowered(alloc, setting, around, indexes)?;
            let path = both(fit, are_indexes);
            Ok(both(is_whole, path))
        }
    }
}

/// Whether an assignment is lowered. It fails where memory is wanting.
#[cycle(is_lowered)]
fn is_assigned(
    alloc: Global,
    setting: &Setting<'_>,
    around: &Around<'_>,
    targets: &Items<Target>,
    node: &Core,
) -> Result<bool, AllocError>
    ensures { IfOk result (λ answer. (name : Naming) → answer ≡ ok_as setting.now around.now name (kind.Assign targets.now) node.now) }
{
    let parts = node.parts.as_slice();
    match targets.as_slice() {
        [] => Ok(false),
        [target] => {
            let spot = spot_of(target);
            let known = is_spot(alloc, setting, around, spot, parts.len())?;
            let are_parts = are_lowered(alloc, setting, around, parts)?;
            Ok(both(known, are_parts))
        }
        [_, _, ..] => Ok(false),
    }
}

/// Whether a `let` is lowered. It fails where memory is wanting.
#[cycle(is_lowered)]
fn is_let(
    alloc: Global,
    setting: &Setting<'_>,
    around: &Around<'_>,
    arm: &Arm,
    node: &Core,
) -> Result<bool, AllocError>
    ensures { IfOk result (λ answer. (name : Naming) → answer ≡ ok_as setting.now around.now name (kind.Let arm.now) node.now) }
{
    match node.parts.as_slice() {
        [] => Ok(false),
        [_] => Ok(false),
        [value, behind] => {
            let flat = is_arm(setting, arm);
            let is_value = is_matched(alloc, setting, around, value)?;
            let is_behind = is_lowered(alloc, setting, around, behind)?;
            let bound = both(is_value, is_behind);
            Ok(both(flat, bound))
        }
        [_, _, _, ..] => Ok(false),
    }
}

/// Whether an `if` is lowered. It fails where memory is wanting.
#[cycle(is_lowered)]
fn is_branch(
    alloc: Global,
    setting: &Setting<'_>,
    around: &Around<'_>,
    node: &Core,
) -> Result<bool, AllocError>
    ensures { IfOk result (λ answer. (name : Naming) → answer ≡ ok_as setting.now around.now name (kind.If shape.Unit) node.now) }
{
    let parts = node.parts.as_slice();
    let are_parts = are_lowered(alloc, setting, around, parts)?;
    match parts {
        [] => Ok(false),
        [_] => Ok(false),
        [_, _] => Ok(are_parts),
        [_, _, _] => Ok(are_parts),
        [_, _, _, _, ..] => Ok(false),
    }
}

/// Whether a `match` is lowered. It fails where memory is wanting.
#[cycle(is_lowered)]
fn is_match(
    alloc: Global,
    setting: &Setting<'_>,
    around: &Around<'_>,
    arms: &Items<Arm>,
    node: &Core,
) -> Result<bool, AllocError>
    ensures { IfOk result (λ answer. (name : Naming) → answer ≡ ok_as setting.now around.now name (kind.Match arms.now shape.Unit) node.now) }
{
    match node.parts.as_slice() {
        [] => Ok(false),
        [value, bodies @ ..] => {
            let flat = are_arms(setting, arms.as_slice());
            let is_value = is_matched(alloc, setting, around, value)?;
            let are_bodies = are_lowered(alloc, setting, around, bodies)?;
            let arms_stand = both(flat, are_bodies);
            Ok(both(is_value, arms_stand))
        }
    }
}

/// Whether a `try` is lowered. It fails where memory is wanting.
#[cycle(is_lowered)]
fn is_try(
    alloc: Global,
    setting: &Setting<'_>,
    around: &Around<'_>,
    arms: &Items<Arm>,
    node: &Core,
) -> Result<bool, AllocError>
    ensures { IfOk result (λ answer. (name : Naming) → answer ≡ ok_as setting.now around.now name (kind.Try arms.now shape.Unit) node.now) }
{
    match node.parts.as_slice() {
        [] => Ok(false),
        [value, bodies @ ..] => {
            let ends = made_ends(alloc, setting, node.number, 0)?;
            let said = is_said(&ends);
            let flat = are_arms(setting, arms.as_slice());
            let is_value = is_lowered(alloc, setting, around, value)?;
            let are_bodies = are_lowered(alloc, setting, around, bodies)?;
            let arms_stand = both(flat, are_bodies);
            let caught = both(said, arms_stand);
            Ok(both(is_value, caught))
        }
    }
}

/// Whether clauses are lowered. It fails where memory is wanting.
#[cycle(is_lowered)]
fn are_clauses(
    alloc: Global,
    setting: &Setting<'_>,
    around: &Around<'_>,
    arms: &Items<Arm>,
    node: &Core,
) -> Result<bool, AllocError>
    ensures { IfOk result (λ answer. (name : Naming) → answer ≡ ok_as setting.now around.now name (kind.Clauses arms.now) node.now) }
{
    let flat = are_arms(setting, arms.as_slice());
    let are_bodies = are_lowered(alloc, setting, around, node.parts.as_slice())?;
    Ok(both(flat, are_bodies))
}

/// Whether a loop over numbers is lowered, the number of which has this name. It fails where memory is wanting.
#[cycle(is_lowered)]
fn is_foreach(
    alloc: Global,
    setting: &Setting<'_>,
    around: &Around<'_>,
    name: &Text,
    parts: &[Core],
) -> Result<bool, AllocError>
    ensures { IfOk result (λ answer. (naming : Naming) → answer ≡ spec.foreach_ok setting.now around.now naming name.now parts.now) }
{
    let free = is_unread(setting, name);
    let are_parts = are_so_many(alloc, setting, around, 4, parts)?;
    Ok(both(free, are_parts))
}

/// Whether a node is lowered. It fails where memory is wanting.
#[cycle(is_lowered)]
pub fn is_lowered(
    alloc: Global,
    setting: &Setting<'_>,
    around: &Around<'_>,
    node: &Core,
) -> Result<bool, AllocError>
    ensures { IfOk result (λ answer. (name : Naming) → answer ≡ (node_for setting.now around.now name node.now).ok) }
{
    let parts = node.parts.as_slice();
    match &node.kind {
        Kind::Constant(literal) => is_constant(alloc, setting, around, literal, node),
        Kind::Local(_) => Ok(parts.len() == 0),
        Kind::Variable(name) => Ok(is_variable(setting, name, node.number, parts.len())),
        Kind::TopLevel(_) => Ok(parts.len() == 0),
        Kind::Register(_) => Ok(parts.len() == 0),
        Kind::Call(callee) => is_callee(alloc, setting, around, *callee, node),
        Kind::And => are_so_many(alloc, setting, around, 2, parts),
        Kind::Or => are_so_many(alloc, setting, around, 2, parts),
        Kind::Cast(_) => are_so_many(alloc, setting, around, 1, parts),
        Kind::Tuple => are_lowered(alloc, setting, around, parts),
        Kind::Vector(_) => are_lowered(alloc, setting, around, parts),
        Kind::List(_) => are_lowered(alloc, setting, around, parts),
        Kind::Cons(_) => are_lowered(alloc, setting, around, parts),
        Kind::Struct(_, _) => are_lowered(alloc, setting, around, parts),
        Kind::With(_, fields) => match fields.as_slice() {
            [] => Ok(false),
            _ => are_lowered(alloc, setting, around, parts),
        },
        Kind::Part(suffixes) => is_part(alloc, setting, around, suffixes, node),
        Kind::WithItem => are_so_many(alloc, setting, around, 3, parts),
        Kind::WithSlice => are_so_many(alloc, setting, around, 4, parts),
        Kind::SizeOf(size, _) => Ok(is_size(setting, size, parts)),
        Kind::Constraint(condition, _) => Ok(is_truth(setting, condition, parts)),
        Kind::Assign(targets) => is_assigned(alloc, setting, around, targets, node),
        Kind::Block(statements) => {
            is_block(alloc, setting, around, statements.as_slice(), parts)
        }
        Kind::Let(arm) => is_let(alloc, setting, around, arm, node),
        Kind::Var(_, _) => are_so_many(alloc, setting, around, 2, parts),
        Kind::If(_) => is_branch(alloc, setting, around, node),
        Kind::Match(arms, _) => is_match(alloc, setting, around, arms, node),
        Kind::Try(arms, _) => is_try(alloc, setting, around, arms, node),
        Kind::Clauses(arms) => are_clauses(alloc, setting, around, arms, node),
        Kind::When => are_so_many(alloc, setting, around, 2, parts),
        Kind::Foreach(name, _) => is_foreach(alloc, setting, around, name, parts),
        Kind::While => are_so_many(alloc, setting, around, 3, parts),
        Kind::Repeat => are_so_many(alloc, setting, around, 3, parts),
        Kind::Return => are_so_many(alloc, setting, around, 1, parts),
        Kind::Throw => are_so_many(alloc, setting, around, 1, parts),
        Kind::Exit => are_so_many(alloc, setting, around, 1, parts),
        Kind::Assert(_) => are_so_many(alloc, setting, around, 1, parts),
        Kind::Optional(_) => Ok(false),
    }
}
