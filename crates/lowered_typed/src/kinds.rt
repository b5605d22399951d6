//! What is asked of the kind of a node, whatever its parts are.
ghost use Rattle.std.specs.Prelude.{◌≡◌, IfOk};
ghost use Rattle.lowered_typed.specs.Here as here;
ghost use Rattle.lowered_typed.specs.Judged as judged;

use crate::arms::{are_arms_typed, are_ends_typed, is_end_typed};
use crate::calls::is_call_asked;
use crate::cases::{Asked, Order, are_as_asked, meet};
use crate::ends::{are_thrown, first_ends};
use crate::signs::Judge;
use crate::spots::is_assign_asked;
use crate::types::{put_all_types, put_first_types};
use crate::works::{both, comes, is_constant, unit_number, works_alone, works_on};
use jib::{Literal, Operation, Source};
use lowered_ends::{are_suffixes, fixed_type, literal_type, made_ends, option_of};
use lowered_steps::copy_literal;
use sail_base::{Items, Text};
use sail_core::{Arm, Core, Kind, Literal as CoreLiteral, Suffix, Way};
use sail_types::{Con, Num, Typ};
use size_values::{Sized, Variables, truth_of, value_of};
use std::alloc::AllocError;

// ---- constants and names

/// Whether a literal is of its type. It fails where memory is wanting.
fn is_literal_asked(judge: &Judge<'_>, literal: &CoreLiteral) -> Result<bool, AllocError>
    ensures { IfOk result (λ answer. answer ≡ judged.literal_asked judge.now literal.now) }
{
    let typ = literal_type(judge.alloc, literal)?;
    let number = judge.setting.number(&typ)?;
    let constant = copy_literal(judge.alloc, literal)?;
    let answer = is_constant(judge, number, &constant);
    Ok(answer)
}

/// Whether a name of a top-level let has the type of its cases. It fails where memory is wanting.
fn is_let_asked(judge: &Judge<'_>, name: u32, node: u32) -> Result<bool, AllocError>
    ensures { IfOk result (λ answer. answer ≡ judged.let_asked judge.now name (judged.cases_at judge.now node 0)) }
{
    let opening = judge.around.opening(name);
    let typ = judge.signs.lets.get(opening as usize).copied();
    are_as_asked(judge, Asked::Sourced(typ), judge.setting.cases(node, 0))
}

/// Whether a register may be read, and has the type of its cases. It fails where memory is wanting.
fn is_register_asked(judge: &Judge<'_>, register: u32, node: u32) -> Result<bool, AllocError>
    ensures { IfOk result (λ answer. answer ≡ judged.register_asked judge.now register node) }
{
    let typ = judge.signs.shell.registers.get(register as usize).copied();
    let one = !judge.signs.is_pure;
    let other = are_as_asked(judge, Asked::Sourced(typ), judge.setting.cases(node, 0))?;
    let all = both(one, other);
    Ok(all)
}

/// Whether a number of variables is known, and a constant may have it. It fails where there are 2^32 types or more.
#[tactic(auto, using(crate::proofs::Fixed::fixed))]
fn is_size_asked(judge: &Judge<'_>, size: &Num) -> Result<bool, AllocError>
    ensures { IfOk result (λ answer. answer ≡ judged.size_asked judge.now size.now) }
{
    match value_of(size, &Variables::Known(judge.setting.numbers, &[])) {
        Some(value) => {
            let typ = judge.setting.number(&Sized::Int)?;
            Ok(is_constant(judge, typ, &Literal::Integer(value)))
        }
        None => Ok(false),
    }
}

/// Whether a truth of variables is known. It fails where there are 2^32 types or more.
#[tactic(auto, using(crate::proofs::Fixed::fixed))]
fn is_condition_asked(judge: &Judge<'_>, condition: &Con) -> Result<bool, AllocError>
    ensures { IfOk result (λ answer. answer ≡ judged.condition_asked judge.now condition.now) }
{
    match truth_of(condition, &Variables::Known(judge.setting.numbers, &[])) {
        Some(value) => {
            let typ = judge.setting.number(&Sized::Bool)?;
            Ok(is_constant(judge, typ, &Literal::Truth(value)))
        }
        None => Ok(false),
    }
}

// ---- what is built

/// Whether an operation builds a value of what nodes of this number make of so many parts. It fails where memory is wanting.
fn is_built(
    judge: &Judge<'_>,
    operation: Operation,
    order: Order<'_>,
    node: u32,
    count: usize,
) -> Result<bool, AllocError>
    ensures { IfOk result (λ answer. answer ≡ judged.built_asked judge.now operation order.entry node count) }
{
    are_as_asked(
        judge,
        Asked::Works(operation, order),
        judge.setting.cases(node, count),
    )
}

/// Whether a struct is built anew with others in these fields. It fails where memory is wanting.
fn is_with_asked(
    judge: &Judge<'_>,
    fields: &[u32],
    node: u32,
    count: usize,
) -> Result<bool, AllocError>
    ensures { IfOk result (λ answer. answer ≡ judged.with_asked judge.now fields.now (judged.cases_at judge.now node count)) }
{
    match fields {
        [] => Ok(false),
        [field] => is_built(
            judge,
            Operation::WithField(*field),
            Order::Forwards,
            node,
            count,
        ),
        [_, _, ..] => are_as_asked(
            judge,
            Asked::Changes(fields),
            judge.setting.cases(node, count),
        ),
    }
}

/// Whether a suffix fits its cases. It fails where memory is wanting.
fn is_way_asked(judge: &Judge<'_>, way: &Way, node: u32) -> Result<bool, AllocError>
    ensures { IfOk result (λ answer. answer ≡ judged.way_asked judge.now way.now node) }
{
    match way {
        Way::Field(_, field) => {
            is_built(judge, Operation::Field(*field), Order::Forwards, node, 1)
        }
        Way::Item => is_built(judge, Operation::Item, Order::Forwards, node, 2),
        Way::Slice => is_built(judge, Operation::Slice, Order::Forwards, node, 3),
    }
}

/// Whether suffixes fit their cases. It fails where memory is wanting.
fn are_ways_asked(judge: &Judge<'_>, suffixes: &[Suffix]) -> Result<bool, AllocError>
    ensures { IfOk result (λ answer. answer ≡ judged.ways_asked judge.now suffixes.now) }
{
    match suffixes {
        [] => Ok(true),
        [first, rest @ ..] => {
            let one = is_way_asked(judge, &first.way, first.number)?;
            let other = are_ways_asked(judge, rest)?;
            let all = both(one, other);
            Ok(all)
        }
    }
}

/// Whether suffixes have just their indexes among so many parts, and fit their cases. It fails where memory is wanting.
fn is_part_asked(judge: &Judge<'_>, suffixes: &[Suffix], count: usize) -> Result<bool, AllocError>
    ensures { IfOk result (λ answer. answer ≡ judged.part_asked judge.now suffixes.now count) }
{
    let one = are_suffixes(suffixes, count.saturating_sub(1));
    let other = are_ways_asked(judge, suffixes)?;
    let all = both(one, other);
    Ok(all)
}

// ---- where ways meet

/// The nodes behind the first.
fn others(parts: &[Core]) -> &[Core]
    ensures { result.now ≡ judged.behind parts.now }
{
    match parts {
        [] => &[],
        [_, rest @ ..] => rest,
    }
}

/// Whether the values of these nodes come to the type of the case where their ways meet. It fails where memory is wanting.
fn are_met(judge: &Judge<'_>, nodes: &[Core], node: u32) -> Result<bool, AllocError>
    ensures { IfOk result (λ answer. answer ≡ here.meet_right judge.now
        (here.arms_types judge.now (judged.all_here judge.now nodes.now)) (judged.cases_at judge.now node 1)) }
{
    let mut types = Items::new(judge.alloc);
    put_all_types(judge, nodes, &mut types)?;
    meet(judge, types.as_slice(), judge.setting.cases(node, 1))
}

/// Whether both branches of a choice, where there are two, come to the type of the case behind. It fails where memory is wanting.
#[tactic(auto, using(crate::proofs::Parts::parts_here))]
fn is_if_asked(judge: &Judge<'_>, node: u32, parts: &[Core]) -> Result<bool, AllocError>
    ensures { IfOk result (λ answer. answer ≡ judged.if_asked judge.now node (judged.all_here judge.now parts.now)) }
{
    if parts.len() == 3 {
        are_met(judge, others(parts), node)
    } else {
        Ok(true)
    }
}

/// Whether arms, as many as there are bodies behind the first node, fit its value, and all come to the type of the case behind. It fails where memory is
/// wanting.
#[tactic(auto, using(crate::proofs::Parts::parts_here))]
fn is_match_asked(
    judge: &Judge<'_>,
    arms: &[Arm],
    node: u32,
    parts: &[Core],
) -> Result<bool, AllocError>
    ensures { IfOk result (λ answer. answer ≡ judged.match_asked judge.now arms.now node (judged.all_here judge.now parts.now)) }
{
    let first = arms.len() == others(parts).len();
    let ends = first_ends(judge, parts)?;
    let one = are_ends_typed(judge, arms, &ends)?;
    let other = are_met(judge, others(parts), node)?;
    let rest = both(one, other);
    let all = both(first, rest);
    Ok(all)
}

/// Whether what is thrown is of the type of exceptions where it is caught, and where it is thrown on. It fails where memory is wanting.
fn is_caught(judge: &Judge<'_>, node: u32) -> Result<bool, AllocError>
    ensures { IfOk result (λ answer. answer ≡ judged.caught_asked judge.now node) }
{
    let thrown = Some(judge.signs.shell.exception);
    let one = are_as_asked(judge, Asked::Sourced(thrown), judge.setting.cases(node, 0))?;
    let ends = made_ends(judge.alloc, judge.setting, node, 0)?;
    let other = are_thrown(judge, &ends)?;
    let all = both(one, other);
    Ok(all)
}

/// Whether arms, as many as there are bodies behind the first node, fit what is caught, and all come to the type of the case behind. It fails where memory
/// is wanting.
#[tactic(auto, using(crate::proofs::Parts::parts_here))]
fn is_try_asked(
    judge: &Judge<'_>,
    arms: &[Arm],
    node: u32,
    parts: &[Core],
) -> Result<bool, AllocError>
    ensures { IfOk result (λ answer. answer ≡ judged.try_asked judge.now arms.now node (judged.all_here judge.now parts.now)) }
{
    let first = arms.len() == others(parts).len();
    let second = is_caught(judge, node)?;
    let ends = made_ends(judge.alloc, judge.setting, node, 0)?;
    let one = are_ends_typed(judge, arms, &ends)?;
    let other = are_met(judge, parts, node)?;
    let rest = both(one, other);
    let behind = both(second, rest);
    let all = both(first, behind);
    Ok(all)
}

/// Whether arms, as many as there are bodies, fit what a function is called with. It fails where memory is wanting.
fn is_clauses_asked(judge: &Judge<'_>, arms: &[Arm], bodies: usize) -> Result<bool, AllocError>
    ensures { IfOk result (λ answer. answer ≡ judged.clauses_asked judge.now arms.now bodies) }
{
    let one = arms.len() == bodies;
    let other = are_arms_typed(judge, arms, judge.around.given)?;
    let all = both(one, other);
    Ok(all)
}

// ---- types of first nodes

/// Whether all types have this number. It fails where there are 2^32 types or more.
fn are_of(judge: &Judge<'_>, number: u32, types: &[Sized]) -> Result<bool, AllocError>
    ensures { IfOk result (λ answer. answer ≡ here.are_of judge.now number types.now) }
{
    match types {
        [] => Ok(true),
        [first, rest @ ..] => {
            let found = judge.setting.number(first)?;
            let one = found == number;
            let other = are_of(judge, number, rest)?;
            let all = both(one, other);
            Ok(all)
        }
    }
}

/// Whether all types that the value of the first node may have have this number. It fails where memory is wanting.
fn is_first_of(judge: &Judge<'_>, number: u32, parts: &[Core]) -> Result<bool, AllocError>
    ensures { IfOk result (λ answer. answer ≡ here.are_of judge.now number (judged.first_types (judged.all_here judge.now parts.now))) }
{
    let mut types = Items::new(judge.alloc);
    put_first_types(judge, parts, &mut types)?;
    are_of(judge, number, types.as_slice())
}

/// Whether values of all these types come to one. It fails where there are 2^32 types or more.
fn all_come(judge: &Judge<'_>, types: &[Sized], typ: &Sized) -> Result<bool, AllocError>
    ensures { IfOk result (λ answer. answer ≡ here.all_come judge.now types.now typ.now) }
{
    match types {
        [] => Ok(true),
        [first, rest @ ..] => {
            let from = judge.setting.number(first)?;
            let to = judge.setting.number(typ)?;
            let one = comes(judge, from, to);
            let other = all_come(judge, rest, typ)?;
            let all = both(one, other);
            Ok(all)
        }
    }
}

/// Whether an option is made of values of a type, and of none. It fails where memory is wanting.
fn is_option(judge: &Judge<'_>, payload: &Sized, option: &Sized) -> Result<bool, AllocError>
    ensures { IfOk result (λ answer. answer ≡ judged.option_right judge.now payload.now option.now) }
{
    let one = works_on(judge, Operation::Construct(0), payload, option)?;
    let number = unit_number(judge)?;
    let unit = Source::Constant(number, Literal::Unit);
    let other = works_alone(judge, Operation::Construct(1), unit, option)?;
    let all = both(one, other);
    Ok(all)
}

/// Whether so is one of what the first node gives. It fails where memory is wanting.
fn is_option_asked(judge: &Judge<'_>, typ: &Typ, parts: &[Core]) -> Result<bool, AllocError>
    ensures { IfOk result (λ answer. answer ≡ judged.option_asked judge.now typ.now (judged.all_here judge.now parts.now)) }
{
    let payload = fixed_type(judge.alloc, judge.setting.types, typ)?;
    let option = option_of(judge.alloc, &payload)?;
    let mut types = Items::new(judge.alloc);
    put_first_types(judge, parts, &mut types)?;
    let one = all_come(judge, types.as_slice(), &payload)?;
    let other = is_option(judge, &payload, &option)?;
    let all = both(one, other);
    Ok(all)
}

/// Whether values of all these types come to all types at which a variable is read. It fails where there are 2^32 types or more.
pub fn are_kept(judge: &Judge<'_>, reads: &[Sized], types: &[Sized]) -> Result<bool, AllocError>
    ensures { IfOk result (λ answer. answer ≡ here.kept_right judge.now reads.now types.now) }
{
    match reads {
        [] => Ok(true),
        [first, rest @ ..] => {
            let one = all_come(judge, types, first)?;
            let other = are_kept(judge, rest, types)?;
            let all = both(one, other);
            Ok(all)
        }
    }
}

/// Whether the value of the first node comes to all types at which variables of a name are read. It fails where memory is wanting.
fn is_var_asked(judge: &Judge<'_>, name: &Text, parts: &[Core]) -> Result<bool, AllocError>
    ensures { IfOk result (λ answer. answer ≡ judged.var_asked judge.now name.now (judged.all_here judge.now parts.now)) }
{
    let mut types = Items::new(judge.alloc);
    put_first_types(judge, parts, &mut types)?;
    are_kept(judge, judge.setting.reads_as(name), types.as_slice())
}

/// Whether a variable is read at types that have numbers. It fails where memory is wanting.
fn is_variable_asked(judge: &Judge<'_>, name: &Text, number: u32) -> Result<bool, AllocError>
    ensures { IfOk result (λ answer. answer ≡ judged.variable_asked judge.now name.now number) }
{
    match judge.setting.reads_as(name) {
        [] => Ok(false),
        [_, ..] => are_as_asked(judge, Asked::Nothing, judge.setting.cases(number, 0)),
    }
}

/// Whether an arm fits the value of the first node. It fails where memory is wanting.
fn is_bound(judge: &Judge<'_>, arm: &Arm, parts: &[Core]) -> Result<bool, AllocError>
    ensures { IfOk result (λ answer. answer ≡ here.ends_right judge.now arm.now (judged.first_ends (judged.all_here judge.now parts.now))) }
{
    let ends = first_ends(judge, parts)?;
    is_end_typed(judge, arm, &ends)
}

/// Whether a kind fits its cases that has as many parts as it takes. It fails where memory is wanting.
#[tactic(auto, using(crate::proofs::Parts::parts_here))]
pub fn is_kind_asked(
    judge: &Judge<'_>,
    kind: &Kind,
    number: u32,
    parts: &[Core],
) -> Result<bool, AllocError>
    ensures { IfOk result (λ answer. answer ≡ judged.kind_asked judge.now kind.now number (judged.all_here judge.now parts.now)) }
{
    let count = parts.len();
    let forwards = Order::Forwards;
    match kind {
        Kind::Constant(literal) => is_literal_asked(judge, literal),
        Kind::Local(_) => are_as_asked(judge, Asked::Casts, judge.setting.cases(number, 1)),
        Kind::Variable(name) => is_variable_asked(judge, name, number),
        Kind::TopLevel(name) => is_let_asked(judge, *name, number),
        Kind::Register(register) => is_register_asked(judge, *register, number),
        Kind::Call(callee) => is_call_asked(judge, *callee, number, parts),
        Kind::Tuple => is_built(judge, Operation::Build, forwards, number, count),
        Kind::Vector(_) => is_built(judge, Operation::Build, Order::Backwards, number, count),
        Kind::List(_) => is_built(judge, Operation::Build, forwards, number, count),
        Kind::Cons(_) => is_built(judge, Operation::Cons, forwards, number, count),
        Kind::Struct(_, fields) => {
            let order = Order::Fields(fields.as_slice());
            is_built(judge, Operation::Build, order, number, count)
        }
        Kind::With(_, fields) => is_with_asked(judge, fields.as_slice(), number, count),
        Kind::Part(suffixes) => is_part_asked(judge, suffixes.as_slice(), count),
        Kind::WithItem => is_built(judge, Operation::WithItem, forwards, number, 3),
        Kind::WithSlice => is_built(judge, Operation::WithSlice, forwards, number, 4),
        Kind::Cast(_) => are_as_asked(judge, Asked::Recasts, judge.setting.cases(number, 1)),
        Kind::SizeOf(size, _) => is_size_asked(judge, size),
        Kind::Constraint(condition, _) => is_condition_asked(judge, condition),
        Kind::Assign(targets) => is_assign_asked(judge, targets.as_slice(), parts),
        Kind::If(_) => is_if_asked(judge, number, parts),
        Kind::While => Ok(!judge.signs.is_pure),
        Kind::Repeat => Ok(!judge.signs.is_pure),
        Kind::Foreach(_, _) => Ok(!judge.signs.is_pure),
        Kind::Throw => is_first_of(judge, judge.signs.shell.exception, parts),
        Kind::Return => is_first_of(judge, judge.signs.result, parts),
        Kind::Let(arm) => is_bound(judge, arm, parts),
        Kind::Match(arms, _) => is_match_asked(judge, arms.as_slice(), number, parts),
        Kind::Try(arms, _) => is_try_asked(judge, arms.as_slice(), number, parts),
        Kind::Clauses(arms) => is_clauses_asked(judge, arms.as_slice(), count),
        Kind::Optional(typ) => is_option_asked(judge, typ, parts),
        Kind::And => Ok(true),
        Kind::Or => Ok(true),
        Kind::Block(_) => Ok(true),
        Kind::Var(name, _) => is_var_asked(judge, name, parts),
        Kind::When => Ok(true),
        Kind::Exit => Ok(true),
        Kind::Assert(_) => Ok(true),
    }
}
