//! The types that the value of a node may have, where they are said: of a node that ends with one that makes a value, by the numbers that are noted behind it.
ghost use Rattle.std.specs.Prelude.{◌≡◌, nat_eq, length, map, IfOk, [], if◌then◌else◌};
ghost use Rattle.sail_types.specs.declared.table.Types.{Types};
ghost use Rattle.sail_core.specs.declared.tree.Giver.TheVariants as giver;
ghost use Rattle.sail_core.specs.declared.tree.Kind.TheVariants as kind;
ghost use Rattle.sail_core.specs.Values.{literal_typ};
ghost use Rattle.row_types.specs.Calls.{has_state as has_state_of};
ghost use Rattle.sized_meanings.specs.Present.{gives_at};
ghost use Rattle.checked_meaning.specs.Items.{fixed_typ};
ghost use Rattle.lowered_pieces.specs.Forms.{cases_ends, ends_of, first_end as first_end_of};
ghost use Rattle.lowered_pieces.specs.Keeping.{all_kept as all_kept_of};
ghost use Rattle.std.specs.Option.{option_copied};
ghost use Rattle.lowered_pieces.specs.Mapped.{ends_with as ends_with_of, fixed_end as fixed_end_of};
ghost use Rattle.lowered_pieces.specs.Nodes.{cases_at};
ghost use Rattle.lowered_ends.specs.Ends as spec;
ghost use Rattle.lowered_steps.specs.Found.{indices_of};
ghost use Rattle.lowered_steps.specs.Hands.{types_of};
ghost use Rattle.lowered_ends.specs.Around.{piece_as, piece_for};
ghost use Rattle.lowered_pieces.specs.Places.{Naming};
ghost use Rattle.lowered_steps.specs.Setting.{nodes_in};

use crate::able::{are_suffixes, both};
use crate::around::Around;
use crate::keeping::{all_kept, give_one};
use jib::has_state;
use lowered_steps::{Ends, Setting};
use sail_base::{Items, Text};
use sail_core::{Callee, Core, Giver, Kind, Literal, Statement, Suffix, Way};
use sail_types::{Con, Num, Row};
use size_values::{Sized, Variables, copy_sized, same_sized, truth_of, value_of};
use sized_nodes::Case;
use std::alloc::{AllocError, Global};
use value_indices::Indices;

/// The type of the first case; `()` where there is none, so that no value is made. It fails where memory is wanting.
fn first_end<'a>(alloc: Global, cases: &[Case]) -> Result<Ends<'a>, AllocError>
    ensures { IfOk result (λ ends. types_of ends ≡ first_end_of cases.now) }
{
    match cases {
        [] => Ok(Ends::One(Sized::Unit)),
        [first, ..] => Ok(Ends::One(copy_sized(alloc, &first.gives)?)),
    }
}

/// What is said of values of cases that don't all give one type, where these indices say which numbers they give.
fn kept_ends<'a>(given: &[&Indices], cases: &'a [Case]) -> Ends<'a>
    ensures { types_of result ≡ (if all_kept_of (map indices_of given.now) cases.now then cases_ends cases.now else []) }
{
    if all_kept(given, cases) {
        Ends::Cases(cases)
    } else {
        Ends::Unsaid
    }
}

/// What is said of the value of a node that makes one of so many operands. It fails where memory is wanting.
pub fn made_ends<'a>(
    alloc: Global,
    setting: &Setting<'a>,
    node: u32,
    operands: usize,
) -> Result<Ends<'a>, AllocError>
    ensures { IfOk result (λ ends. types_of ends
        ≡ ends_of (gives_at (nodes_in setting.now) (giver.Node node)) (cases_at node operands (nodes_in setting.now))) }
{
    let cases = setting.cases(node, operands);
    if give_one(cases) {
        return first_end(alloc, cases);
    }
    let given = setting.gives(alloc, Giver::Node(node))?;
    Ok(kept_ends(given.as_slice(), cases))
}

/// The type of a literal. It fails where memory is wanting.
pub fn literal_type(alloc: Global, literal: &Literal) -> Result<Sized, AllocError>
    ensures { IfOk result (λ made. (types : Types) → made ≡ fixed_typ types (literal_typ literal.now)) }
{
    match literal {
        Literal::Unit => Ok(Sized::Unit),
        Literal::Integer(_) => Ok(Sized::Int),
        Literal::Truth(_) => Ok(Sized::Bool),
        Literal::Bit(_) => Ok(Sized::Bit),
        Literal::Bits(word) => Ok(Sized::Bits(word.width() as i128)),
        Literal::String(_) => Ok(Sized::String),
        Literal::Member(place, _) => {
            let numbers = Items::new(alloc);
            let types = Items::new(alloc);
            Ok(Sized::Named(*place, numbers, types))
        }
    }
}

/// The type of the only case, where it goes by no number.
fn fixed_case(cases: &[Case]) -> Option<&Sized>
    ensures { option_copied result ≡ fixed_end_of (cases_ends cases.now) }
{
    match cases {
        [] => None,
        [only] => match only.picked.as_slice() {
            [] => Some(&only.gives),
            _ => None,
        },
        [_, _, ..] => None,
    }
}

/// The type that is said, where it is one whatever the numbers are.
pub fn fixed_end<'b>(ends: &'b Ends<'_>) -> Option<&'b Sized>
    ensures { option_copied result ≡ fixed_end_of (types_of ends.now) }
{
    match ends {
        Ends::Unsaid => None,
        Ends::Cases(cases) => fixed_case(cases),
        Ends::One(typ) => Some(typ),
    }
}

/// Whether one type is said, and is this one.
pub fn ends_with(typ: &Sized, ends: &Ends<'_>) -> bool
    ensures { result ≡ ends_with_of typ.now (fixed_end_of (types_of ends.now)) }
{
    match fixed_end(ends) {
        Some(other) => same_sized(other, typ),
        None => false,
    }
}

/// Whether all nodes end with this type. It fails where memory is wanting.
#[cycle(node_ends)]
fn all_end(
    alloc: Global,
    setting: &Setting<'_>,
    around: &Around<'_>,
    typ: &Sized,
    nodes: &[Core],
) -> Result<bool, AllocError>
    ensures { IfOk result (λ answer. (name : Naming) → answer ≡ spec.all_end_for setting.now around.now name typ.now nodes.now) }
{
    match nodes {
        [] => Ok(true),
        [first, rest @ ..] => {
            let ends = node_ends(alloc, setting, around, first)?;
            let is_first = ends_with(typ, &ends);
            let are_others = all_end(alloc, setting, around, typ, rest)?;
            Ok(both(is_first, are_others))
        }
    }
}

/// This type alone, where it is said of all. It fails where memory is wanting.
fn end_where<'a>(alloc: Global, typ: &Sized, all: bool) -> Result<Ends<'a>, AllocError>
    ensures { IfOk result (λ ends. types_of ends ≡ spec.end_where typ.now all) }
{
    if all {
        Ok(Ends::One(copy_sized(alloc, typ)?))
    } else {
        Ok(Ends::Unsaid)
    }
}

/// The type with which all nodes end, where there is one. It fails where memory is wanting.
#[cycle(node_ends)]
fn common_ends<'a>(
    alloc: Global,
    setting: &Setting<'a>,
    around: &Around<'_>,
    nodes: &[Core],
) -> Result<Ends<'a>, AllocError>
    ensures { IfOk result (λ ends. (name : Naming) → types_of ends ≡ spec.common_for setting.now around.now name nodes.now) }
{
    match nodes {
        [] => Ok(Ends::Unsaid),
        [first, rest @ ..] => {
            let ends = node_ends(alloc, setting, around, first)?;
            match fixed_end(&ends) {
                Some(typ) => {
                    let all = all_end(alloc, setting, around, typ, rest)?;
                    end_where(alloc, typ, all)
                }
                None => Ok(Ends::Unsaid),
            }
        }
    }
}

/// What is said of a literal without parts. It fails where memory is wanting.
fn literal_ends<'a>(
    alloc: Global,
    literal: &Literal,
    parts: &[Core],
) -> Result<Ends<'a>, AllocError>
    ensures { IfOk result (λ ends. (types : Types) → types_of ends ≡ spec.literal_ends types literal.now (length parts.now)) }
{
    match parts {
        [] => Ok(Ends::One(literal_type(alloc, literal)?)),
        _ => Ok(Ends::Unsaid),
    }
}

/// What is said of the value of a node that has so many parts, where it makes one of so many operands. It fails where memory is wanting.
fn counted_ends<'a>(
    alloc: Global,
    setting: &Setting<'a>,
    node: u32,
    operands: usize,
    count: usize,
    parts: &[Core],
) -> Result<Ends<'a>, AllocError>
    ensures { IfOk result (λ ends. types_of ends ≡ spec.counted_ends setting.now node operands (nat_eq (length parts.now) count)) }
{
    if parts.len() == count {
        made_ends(alloc, setting, node, operands)
    } else {
        Ok(Ends::Unsaid)
    }
}

/// What is said of a variable that a node reads: by the node's cases, where variables of its name are known to be read. It fails where memory is wanting.
fn variable_ends<'a>(
    alloc: Global,
    setting: &Setting<'a>,
    name: &Text,
    node: u32,
) -> Result<Ends<'a>, AllocError>
    ensures { IfOk result (λ ends. types_of ends ≡ spec.variable_ends setting.now name.now node) }
{
    match setting.reads_as(name) {
        [] => Ok(Ends::Unsaid),
        [_, ..] => made_ends(alloc, setting, node, 0),
    }
}

/// What is said of a value where ways meet, at a node with these parts. It fails where memory is wanting.
fn met_ends<'a>(
    alloc: Global,
    setting: &Setting<'a>,
    node: u32,
    parts: &[Core],
) -> Result<Ends<'a>, AllocError>
    ensures { IfOk result (λ ends. types_of ends ≡ spec.met_ends setting.now node (length parts.now)) }
{
    match parts {
        [] => Ok(Ends::Unsaid),
        [_, ..] => made_ends(alloc, setting, node, 1),
    }
}

/// What is said of what a suffix takes out. It fails where memory is wanting.
fn suffix_ends<'a>(
    alloc: Global,
    setting: &Setting<'a>,
    suffix: &Suffix,
) -> Result<Ends<'a>, AllocError>
    ensures { IfOk result (λ ends. types_of ends ≡ spec.suffix_ends setting.now suffix.now.way suffix.now.number) }
{
    match suffix.way {
        Way::Field(_, _) => made_ends(alloc, setting, suffix.number, 1),
        Way::Item => made_ends(alloc, setting, suffix.number, 2),
        Way::Slice => made_ends(alloc, setting, suffix.number, 3),
    }
}

/// What is said of what the last of a suffix and of others takes out. It fails where memory is wanting.
fn last_ends<'a>(
    alloc: Global,
    setting: &Setting<'a>,
    suffix: &Suffix,
    others: &[Suffix],
) -> Result<Ends<'a>, AllocError>
    ensures { IfOk result (λ ends. types_of ends ≡ spec.last_ends setting.now suffix.now others.now) }
{
    match others {
        [] => suffix_ends(alloc, setting, suffix),
        [next, rest @ ..] => last_ends(alloc, setting, next, rest),
    }
}

/// What is said of a part of this value, which has just its indexes. It fails where memory is wanting.
#[cycle(node_ends)]
fn taken_ends<'a>(
    alloc: Global,
    setting: &Setting<'a>,
    around: &Around<'_>,
    suffixes: &[Suffix],
    whole: &Core,
) -> Result<Ends<'a>, AllocError>
    ensures { IfOk result (λ ends. (name : Naming) → types_of ends
        ≡ spec.rest_ends setting.now suffixes.now (piece_for setting.now around.now name whole.now).ends) }
{
    match suffixes {
        [] => node_ends(alloc, setting, around, whole),
        [first, others @ ..] => last_ends(alloc, setting, first, others),
    }
}

/// What is said of a part of the first of these nodes, the others of which are indexes. It fails where memory is wanting.
#[cycle(node_ends)]
fn part_ends<'a>(
    alloc: Global,
    setting: &Setting<'a>,
    around: &Around<'_>,
    suffixes: &[Suffix],
    parts: &[Core],
) -> Result<Ends<'a>, AllocError>
    ensures { IfOk result (λ ends. (name : Naming) → types_of ends ≡ spec.part_ends setting.now around.now name suffixes.now parts.now) }
{
    match parts {
        [] => Ok(Ends::Unsaid),
        [whole, indexes @ ..] => {
            if are_suffixes(suffixes, indexes.len()) {
                taken_ends(alloc, setting, around, suffixes, whole)
            } else {
                Ok(Ends::Unsaid)
            }
        }
    }
}

/// What is said of the second of two nodes. It fails where memory is wanting.
#[cycle(node_ends)]
fn second_ends<'a>(
    alloc: Global,
    setting: &Setting<'a>,
    around: &Around<'_>,
    parts: &[Core],
) -> Result<Ends<'a>, AllocError>
    ensures { IfOk result (λ ends. (name : Naming) → types_of ends ≡ spec.second_ends setting.now around.now name parts.now) }
{
    match parts {
        [] => Ok(Ends::Unsaid),
        [_] => Ok(Ends::Unsaid),
        [_, value] => node_ends(alloc, setting, around, value),
        [_, _, _, ..] => Ok(Ends::Unsaid),
    }
}

/// What is said of the value behind all statements of a block: of the only node. It fails where memory is wanting.
#[cycle(node_ends)]
fn final_ends<'a>(
    alloc: Global,
    setting: &Setting<'a>,
    around: &Around<'_>,
    parts: &[Core],
) -> Result<Ends<'a>, AllocError>
    ensures { IfOk result (λ ends. (name : Naming) → types_of ends ≡ spec.final_ends setting.now around.now name parts.now) }
{
    match parts {
        [] => Ok(Ends::Unsaid),
        [value] => node_ends(alloc, setting, around, value),
        [_, _, ..] => Ok(Ends::Unsaid),
    }
}

/// What is said of the value of a block, each statement of which has a part. It fails where memory is wanting.
#[cycle(node_ends)]
fn block_ends<'a>(
    alloc: Global,
    setting: &Setting<'a>,
    around: &Around<'_>,
    statements: &[Statement],
    parts: &[Core],
) -> Result<Ends<'a>, AllocError>
    ensures { IfOk result (λ ends. (name : Naming) → types_of ends ≡ spec.block_ends setting.now around.now name statements.now parts.now) }
{
    match statements {
        [] => final_ends(alloc, setting, around, parts),
        [_, rest @ ..] => match parts {
            [] => Ok(Ends::Unsaid),
            [_, others @ ..] => block_ends(alloc, setting, around, rest, others),
        },
    }
}

/// What is said of the number of a size. It is one type, where the number is known.
fn size_ends<'a>(setting: &Setting<'a>, size: &Num, parts: &[Core]) -> Ends<'a>
    ensures { types_of result ≡ spec.size_ends setting.now size.now (length parts.now) }
{
    match parts {
        [] => match value_of(size, &Variables::Known(setting.numbers, &[])) {
            Some(_) => Ends::One(Sized::Int),
            None => Ends::Unsaid,
        },
        _ => Ends::Unsaid,
    }
}

/// What is said of the truth of a condition: one type, where the truth is known.
fn truth_ends<'a>(setting: &Setting<'a>, condition: &Con, parts: &[Core]) -> Ends<'a>
    ensures { types_of result ≡ spec.truth_ends setting.now condition.now (length parts.now) }
{
    match parts {
        [] => match truth_of(condition, &Variables::Known(setting.numbers, &[])) {
            Some(_) => Ends::One(Sized::Bool),
            None => Ends::Unsaid,
        },
        _ => Ends::Unsaid,
    }
}

/// What is said of the value of a builtin: of one of the state the type of its only case. It fails where memory is wanting.
fn row_ends<'a>(
    alloc: Global,
    setting: &Setting<'a>,
    row: Row,
    node: u32,
    count: usize,
) -> Result<Ends<'a>, AllocError>
    ensures { IfOk result (λ ends. types_of ends ≡ spec.row_ends setting.now (has_state_of row) node count) }
{
    if has_state(row) {
        match setting.cases(node, count) {
            [] => Ok(Ends::Unsaid),
            [only] => Ok(Ends::One(copy_sized(alloc, &only.gives)?)),
            [_, _, ..] => Ok(Ends::Unsaid),
        }
    } else {
        made_ends(alloc, setting, node, count)
    }
}

/// What is said of the value of a call. It fails where memory is wanting.
fn callee_ends<'a>(
    alloc: Global,
    setting: &Setting<'a>,
    around: &Around<'_>,
    callee: Callee,
    node: &Core,
) -> Result<Ends<'a>, AllocError>
    ensures { IfOk result (λ ends. (name : Naming) → types_of ends ≡ (piece_as setting.now around.now name (kind.Call callee) node.now).ends) }
{
    let number = node.number;
    let parts = node.parts.as_slice();
    match callee {
        Callee::Function(_) => made_ends(alloc, setting, number, parts.len()),
        Callee::Row(row) => row_ends(alloc, setting, row, number, parts.len()),
        Callee::Constructor(_, _) => made_ends(alloc, setting, number, parts.len()),
        Callee::Converts(_) => Ok(Ends::Unsaid),
        Callee::Applies(_) => counted_ends(alloc, setting, number, 1, 1, parts),
    }
}

/// What is said of the value of a node. It fails where memory is wanting.
#[cycle(node_ends)]
pub fn node_ends<'a>(
    alloc: Global,
    setting: &Setting<'a>,
    around: &Around<'_>,
    node: &Core,
) -> Result<Ends<'a>, AllocError>
    ensures { IfOk result (λ ends. (name : Naming) → types_of ends ≡ (piece_for setting.now around.now name node.now).ends) }
{
    let number = node.number;
    let parts = node.parts.as_slice();
    match &node.kind {
        Kind::Constant(literal) => literal_ends(alloc, literal, parts),
        Kind::Local(_) => counted_ends(alloc, setting, number, 1, 0, parts),
        Kind::Variable(name) => variable_ends(alloc, setting, name, number),
        Kind::TopLevel(_) => counted_ends(alloc, setting, number, 0, 0, parts),
        Kind::Register(_) => counted_ends(alloc, setting, number, 0, 0, parts),
        Kind::Call(callee) => callee_ends(alloc, setting, around, *callee, node),
        Kind::Tuple => made_ends(alloc, setting, number, parts.len()),
        Kind::Vector(_) => made_ends(alloc, setting, number, parts.len()),
        Kind::List(_) => made_ends(alloc, setting, number, parts.len()),
        Kind::Cons(_) => made_ends(alloc, setting, number, parts.len()),
        Kind::Struct(_, _) => made_ends(alloc, setting, number, parts.len()),
        Kind::With(_, fields) => match fields.as_slice() {
            [] => Ok(Ends::Unsaid),
            _ => made_ends(alloc, setting, number, parts.len()),
        },
        Kind::Cast(_) => counted_ends(alloc, setting, number, 1, 1, parts),
        Kind::SizeOf(size, _) => Ok(size_ends(setting, size, parts)),
        Kind::Constraint(condition, _) => Ok(truth_ends(setting, condition, parts)),
        Kind::Clauses(_) => common_ends(alloc, setting, around, parts),
        Kind::And => Ok(Ends::Unsaid),
        Kind::Or => Ok(Ends::Unsaid),
        Kind::Part(suffixes) => part_ends(alloc, setting, around, suffixes.as_slice(), parts),
        Kind::WithItem => counted_ends(alloc, setting, number, 3, 3, parts),
        Kind::WithSlice => counted_ends(alloc, setting, number, 4, 4, parts),
        Kind::Assign(_) => Ok(Ends::Unsaid),
        Kind::Block(statements) => {
            block_ends(alloc, setting, around, statements.as_slice(), parts)
        }
        Kind::Let(_) => second_ends(alloc, setting, around, parts),
        Kind::Var(_, _) => second_ends(alloc, setting, around, parts),
        Kind::If(_) => counted_ends(alloc, setting, number, 1, 3, parts),
        Kind::Match(_, _) => met_ends(alloc, setting, number, parts),
        Kind::Try(_, _) => met_ends(alloc, setting, number, parts),
        Kind::When => second_ends(alloc, setting, around, parts),
        Kind::Foreach(_, _) => Ok(Ends::Unsaid),
        Kind::While => Ok(Ends::Unsaid),
        Kind::Repeat => Ok(Ends::Unsaid),
        Kind::Return => Ok(Ends::Unsaid),
        Kind::Throw => Ok(Ends::Unsaid),
        Kind::Exit => Ok(Ends::Unsaid),
        Kind::Assert(_) => Ok(Ends::Unsaid),
        Kind::Optional(_) => Ok(Ends::Unsaid),
    }
}
