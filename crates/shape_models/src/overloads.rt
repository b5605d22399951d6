ghost use Rattle.std.specs.Prelude.{◌≡◌, ℕ, List, bytes_eq, if◌then◌else◌, map, Some, None, [], ◌∷◌, ◌++◌, OnOk, IfOk};
ghost use Rattle.std.specs.HashMap.{get_by_text};
ghost use Rattle.std.specs.Option.{option_copied};
ghost use Rattle.sail_types.specs.Rows.{row_named as row_of_name};
ghost use Rattle.shape_rules.specs.Calls.{builtin_members, member_candidate as member_called, cons_candidate};
ghost use Rattle.shape_rules.specs.Findings.{first_failure};
ghost use Rattle.shape_rules.specs.Written.{joined};
ghost use Rattle.shape_models.specs.Models.{callee_in as callee_of, row_candidates, members_at, adds_to_name, adds_to_operator};
ghost use Rattle.shape_models.specs.Models.{added_to_name as added_to_name_in, added_to_operator as added_to_operator_in, operator_added as operator_added_in};
ghost use Rattle.shape_models.specs.Models.{operators, overloads_by, overloads_in, named_faults, same_operator as are_same, candidates as candidates_in, candidates_of, or_overload};
ghost use Rattle.shape_models.specs.Overloads.{placed, overload_faults};
ghost use Rattle.shape_models.specs.Held.{held, or_named};

use crate::candidates::copy_candidate;
use crate::clashes::{Added, note_clashes};
use crate::values::put_new;
use sail_base::{Boxed, Items, Operator, Place, Text, operator_number};
use sail_syntax::{Def, Name, Overloaded};
use sail_types::{Member, Row, Shape, Types, operator_rows, row_members, row_named, rows_members};
use shape_calls::member_candidate;
use shape_rules::{Candidate, Doing, First, Meant};
use std::alloc::{AllocError, Global};
use std::collections::HashMap;

/// The overload of a name.
#[derive(Drop)]
pub struct Overload {
    /// The name.
    pub name: Text,
    /// The members that definitions add, in text order.
    pub added: Items<Added>,
}

fn push_member(
    member: Candidate,
    place: Option<Place>,
    added: &mut Items<Added>,
) -> Result<(), AllocError>
    ensures { OnOk result (added.new ≡ added.old ++ placed place member ∷ []) }
{
    added.push(Added { member, place })
}

/// Members of builtins.
fn push_builtins(
    alloc: Global,
    members: &[Member],
    place: Option<Place>,
    added: &mut Items<Added>,
) -> Result<(), AllocError>
    ensures { OnOk result (added.new ≡ added.old ++ map (placed place) (map member_called members.now)) }
{
    for member in members {
        push_member(member_candidate(alloc, member)?, place, added)?;
    }
    Ok(())
}

fn push_row(
    alloc: Global,
    types: &Types,
    row: Option<Row>,
    place: Option<Place>,
    added: &mut Items<Added>,
) -> Result<(), AllocError>
    ensures { OnOk result (added.new ≡ added.old ++ map (placed place) (row_candidates types.now row)) }
{
    match row {
        None => Ok(()),
        Some(row) => {
            let members = row_members(alloc, types, row)?;
            push_builtins(alloc, members.as_slice(), place, added)
        }
    }
}

fn callee_in(meant: Option<&Meant>) -> Option<&Candidate>
    ensures { option_copied result ≡ callee_of (option_copied meant.entry) }
{
    match meant {
        Some(Meant::Callee(candidate)) => Some(candidate),
        _ => None,
    }
}

/// What a definition adds by one name.
fn push_named(
    alloc: Global,
    types: &Types,
    values: &HashMap<String, Meant>,
    place: Place,
    name: &str,
    added: &mut Items<Added>,
) -> Result<(), AllocError>
    ensures { OnOk result (added.new ≡ added.old ++ map (placed (Some place)) (candidates_of types.now (callee_of (held values.now name.now)) (row_of_name name.now))) }
{
    match callee_in(values.get(name)) {
        Some(candidate) => push_member(copy_candidate(alloc, candidate)?, Some(place), added),
        None => push_row(alloc, types, row_named(name), Some(place), added),
    }
}

/// What a definition adds.
fn push_members(
    alloc: Global,
    types: &Types,
    values: &HashMap<String, Meant>,
    place: Place,
    names: &[Name],
    added: &mut Items<Added>,
) -> Result<(), AllocError>
    ensures { OnOk result (added.new ≡ added.old ++ members_at types.now (held values.now) place names.now) }
{
    for name in names {
        push_named(alloc, types, values, place, name.text.as_str(), added)?;
    }
    Ok(())
}

/// What a definition adds to the overload of a name.
fn push_to_name(
    alloc: Global,
    types: &Types,
    values: &HashMap<String, Meant>,
    name: &str,
    definition: &Def,
    added: &mut Items<Added>,
) -> Result<(), AllocError>
    ensures { OnOk result (added.new ≡ added.old ++ adds_to_name types.now (held values.now) name.now definition.now) }
{
    match definition {
        Def::Overload(place, Overloaded::Named(own), names) => {
            if own.text.as_str() == name {
                push_members(alloc, types, values, *place, names.as_slice(), added)
            } else {
                Ok(())
            }
        }
        _ => Ok(()),
    }
}

/// What the definitions of a text add to the overload of a name.
fn added_to_name(
    alloc: Global,
    types: &Types,
    values: &HashMap<String, Meant>,
    definitions: &[Def],
    name: &str,
) -> Result<Items<Added>, AllocError>
    ensures { IfOk result (λ added. added ≡ added_to_name_in types.now (held values.now) definitions.now name.now) }
{
    let mut added = Items::new(alloc);
    for definition in definitions {
        push_to_name(alloc, types, values, name, definition, &mut added)?;
    }
    Ok(added)
}

/// The overload of a name that a definition adds to, behind others.
fn push_overload(
    alloc: Global,
    types: &Types,
    values: &HashMap<String, Meant>,
    definitions: &[Def],
    definition: &Def,
    named: &mut Items<Overload>,
) -> Result<(), AllocError>
    ensures { OnOk result (named.new ≡ named.old ++ overloads_by types.now (held values.now) definitions.now definition.now) }
{
    match definition {
        Def::Overload(_, Overloaded::Named(name), _) => {
            let added = added_to_name(alloc, types, values, definitions, name.text.as_str())?;
            named.push(Overload {
                name: name.text.clone()?,
                added,
            })
        }
        _ => Ok(()),
    }
}

/// The overloads of names, a name for each definition that adds to it, where definitions of names mean this. The one error is want of
/// memory.
pub(crate) fn find_named(
    alloc: Global,
    types: &Types,
    values: &HashMap<String, Meant>,
    definitions: &[Def],
) -> Result<Items<Overload>, AllocError>
    ensures { IfOk result (λ named. named ≡ overloads_in types.now (held values.now) definitions.now) }
{
    let mut named = Items::new(alloc);
    for definition in definitions {
        push_overload(alloc, types, values, definitions, definition, &mut named)?;
    }
    Ok(named)
}

/// Notes the clashes in overloads of names. The one error is want of memory.
#[tactic(auto, using(shape_rules::proofs::Firsts::first_failure_append))]
pub(crate) fn note_named(
    alloc: Global,
    named: &[Overload],
    first: &mut First,
) -> Result<(), AllocError>
    ensures { OnOk result (first.new.error ≡ first_failure first.old.error (named_faults named.now)) }
{
    for overload in named {
        note_overload(alloc, overload, first)?;
    }
    Ok(())
}

fn note_overload(alloc: Global, overload: &Overload, first: &mut First) -> Result<(), AllocError>
    ensures { OnOk result (first.new.error ≡ first_failure first.old.error (overload_faults overload.now.added)) }
{
    note_clashes(alloc, overload.added.as_slice(), first)
}

fn same_operator(a: Operator, b: Operator) -> bool
    ensures { result ≡ are_same a b }
{
    operator_number(a) == operator_number(b)
}

/// What a definition adds to the overload of an operator.
fn push_to_operator(
    alloc: Global,
    types: &Types,
    values: &HashMap<String, Meant>,
    operator: Operator,
    definition: &Def,
    added: &mut Items<Added>,
) -> Result<(), AllocError>
    ensures { OnOk result (added.new ≡ added.old ++ adds_to_operator types.now (held values.now) operator definition.now) }
{
    match definition {
        Def::Overload(place, Overloaded::Operator(_, own), names) => {
            if same_operator(*own, operator) {
                push_members(alloc, types, values, *place, names.as_slice(), added)
            } else {
                Ok(())
            }
        }
        _ => Ok(()),
    }
}

/// Puts what the definitions of a text add to the overload of an operator behind other members.
fn push_all_to_operator(
    alloc: Global,
    types: &Types,
    values: &HashMap<String, Meant>,
    definitions: &[Def],
    operator: Operator,
    added: &mut Items<Added>,
) -> Result<(), AllocError>
    ensures { OnOk result (added.new ≡ added.old ++ added_to_operator_in types.now (held values.now) definitions.now operator) }
{
    for definition in definitions {
        push_to_operator(alloc, types, values, operator, definition, added)?;
    }
    Ok(())
}

/// `a :: b`, the first member of its operator.
fn cons(alloc: Global) -> Result<Candidate, AllocError>
    ensures { IfOk result (λ made. made ≡ cons_candidate) }
{
    let mut params = Items::new(alloc);
    params.push(Shape::Variable(0))?;
    params.push(Shape::List(Boxed::new(alloc, Shape::Variable(0))?))?;
    let answer = Shape::List(Boxed::new(alloc, Shape::Variable(0))?);
    Ok(Candidate {
        name: Text::new(alloc, "cons")?,
        doing: Doing::Conses,
        variables: 1,
        params,
        answer,
    })
}

fn push_cons(alloc: Global, operator: Operator, added: &mut Items<Added>) -> Result<(), AllocError>
    ensures { OnOk result (added.new ≡ added.old ++ map (placed None) (builtin_members operator)) }
{
    match operator {
        Operator::Cons => push_member(cons(alloc)?, None, added),
        _ => Ok(()),
    }
}

/// All members of an operator, the builtins first.
fn operator_added(
    alloc: Global,
    types: &Types,
    values: &HashMap<String, Meant>,
    definitions: &[Def],
    operator: Operator,
) -> Result<Items<Added>, AllocError>
    ensures { IfOk result (λ added. added ≡ operator_added_in types.now (held values.now) definitions.now operator) }
{
    let mut added = Items::new(alloc);
    push_cons(alloc, operator, &mut added)?;
    let members = rows_members(alloc, types, operator_rows(operator))?;
    push_builtins(alloc, members.as_slice(), None, &mut added)?;
    push_all_to_operator(alloc, types, values, definitions, operator, &mut added)?;
    Ok(added)
}

/// The operators, by their numbers.
fn all_operators() -> &'static [Operator]
    ensures { result.now ≡ operators }
{
    &[
        Operator::Caret,
        Operator::Star,
        Operator::ShiftLeft,
        Operator::ShiftRight,
        Operator::Plus,
        Operator::Minus,
        Operator::Append,
        Operator::Cons,
        Operator::Equal,
        Operator::NotEqual,
        Operator::Less,
        Operator::LessEqual,
        Operator::Greater,
        Operator::GreaterEqual,
        Operator::LessUnsigned,
        Operator::LessEqualUnsigned,
        Operator::GreaterUnsigned,
        Operator::GreaterEqualUnsigned,
        Operator::LessSigned,
        Operator::LessEqualSigned,
        Operator::GreaterSigned,
        Operator::GreaterEqualSigned,
        Operator::And,
        Operator::Or,
    ]
}

/// Notes the clashes in the overload of an operator.
fn note_operator(
    alloc: Global,
    types: &Types,
    values: &HashMap<String, Meant>,
    definitions: &[Def],
    operator: Operator,
    first: &mut First,
) -> Result<(), AllocError>
    ensures { OnOk result (first.new.error ≡ first_failure first.old.error
        (overload_faults (operator_added_in types.now (held values.now) definitions.now operator))) }
{
    let added = operator_added(alloc, types, values, definitions, operator)?;
    note_clashes(alloc, added.as_slice(), first)
}

/// Likewise of each of these operators.
#[tactic(auto, using(shape_rules::proofs::Firsts::first_failure_append))]
fn note_each(
    alloc: Global,
    types: &Types,
    values: &HashMap<String, Meant>,
    definitions: &[Def],
    all: &[Operator],
    first: &mut First,
) -> Result<(), AllocError>
    ensures { OnOk result (first.new.error ≡ first_failure first.old.error
        (joined (map (λ operator. overload_faults (operator_added_in types.now (held values.now) definitions.now operator)) all.now))) }
{
    for operator in all {
        note_operator(alloc, types, values, definitions, *operator, first)?;
    }
    Ok(())
}

/// Notes the clashes in overloads of operators. The one error is want of memory.
pub(crate) fn note_operators(
    alloc: Global,
    types: &Types,
    values: &HashMap<String, Meant>,
    definitions: &[Def],
    first: &mut First,
) -> Result<(), AllocError>
    ensures { OnOk result (first.new.error ≡ first_failure first.old.error
        (joined (map (λ operator. overload_faults (operator_added_in types.now (held values.now) definitions.now operator)) operators))) }
{
    let all = all_operators();
    note_each(alloc, types, values, definitions, all, first)
}

fn into_candidates(alloc: Global, added: Items<Added>) -> Result<Items<Candidate>, AllocError>
    ensures { IfOk result (λ members. members ≡ candidates_in added) }
{
    let mut members = Items::new(alloc);
    for one in added.into_vec() {
        members.push(one.member)?;
    }
    Ok(members)
}

/// What overloads add to an operator.
fn candidates_added(
    alloc: Global,
    types: &Types,
    values: &HashMap<String, Meant>,
    definitions: &[Def],
    operator: Operator,
) -> Result<Items<Candidate>, AllocError>
    ensures { IfOk result (λ found. found ≡ candidates_in (added_to_operator_in types.now (held values.now) definitions.now operator)) }
{
    let mut added = Items::new(alloc);
    push_all_to_operator(alloc, types, values, definitions, operator, &mut added)?;
    into_candidates(alloc, added)
}

/// What overloads add to each of these operators.
fn find_each(
    alloc: Global,
    types: &Types,
    values: &HashMap<String, Meant>,
    definitions: &[Def],
    all: &[Operator],
) -> Result<Items<Items<Candidate>>, AllocError>
    ensures { IfOk result (λ found. found
        ≡ map (λ operator. candidates_in (added_to_operator_in types.now (held values.now) definitions.now operator)) all.now) }
{
    let mut found = Items::new(alloc);
    for operator in all {
        found.push(candidates_added(alloc, types, values, definitions, *operator)?)?;
    }
    Ok(found)
}

/// What overloads add to each operator, by its number. The one error is want of memory.
pub(crate) fn find_operators(
    alloc: Global,
    types: &Types,
    values: &HashMap<String, Meant>,
    definitions: &[Def],
) -> Result<Items<Items<Candidate>>, AllocError>
    ensures { IfOk result (λ found. found
        ≡ map (λ operator. candidates_in (added_to_operator_in types.now (held values.now) definitions.now operator)) operators) }
{
    let all = all_operators();
    find_each(alloc, types, values, definitions, all)
}

/// Gives the name of an overload that has members its meaning, unless it means something.
fn put_overload(
    alloc: Global,
    values: &mut HashMap<String, Meant>,
    overload: Overload,
) -> Result<(), AllocError>
    ensures { OnOk result ((name : List ℕ) → get_by_text values.new name
        ≡ or_overload (get_by_text values.old name) (if bytes_eq overload.name name then candidates_in overload.added else [])) }
{
    let Overload { name, added } = overload;
    if added.is_empty() {
        return Ok(());
    }
    let members = into_candidates(alloc, added)?;
    put_new(alloc, values, name.as_str(), Meant::Overload(members))
}

/// Gives the names of overloads their meanings, unless they mean something. The one error is want of memory.
pub(crate) fn put_named(
    alloc: Global,
    values: &mut HashMap<String, Meant>,
    named: Items<Overload>,
) -> Result<(), AllocError>
    ensures { OnOk result ((name : List ℕ) → get_by_text values.new name ≡ or_named (get_by_text values.old name) named name) }
{
    for overload in named.into_vec() {
        put_overload(alloc, values, overload)?;
    }
    Ok(())
}
