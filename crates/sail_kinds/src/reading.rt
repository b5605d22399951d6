ghost use Rattle.std.specs.Prelude.{◌≡◌, ◌++◌, length, map, is_some, IfOk, OnOk, option_map};
ghost use Rattle.sail_types.specs.Sums.{and_then};
ghost use Rattle.std.specs.Option.{option_to_list};
ghost use Rattle.sail_types.specs.declared.types.Typ.TheVariants as W;
ghost use Rattle.type_arguments.specs.Taken.{typ_of};
ghost use Rattle.type_arguments.specs.declared.normal.Normal.TheVariants as N;
ghost use Rattle.sail_kinds.specs.Failures.{first_failure};
ghost use Rattle.sail_kinds.specs.Scopes.{within};
ghost use Rattle.sail_kinds.specs.Normal.{reading, reading_as, part, number_part, constraint_part, typ_part, all_read, prefixed};
ghost use Rattle.sail_kinds.specs.Normal.{index_of, arguments_read, argument_scope as argument_scope_of, applied_type, bare as bare_of, name_read};

use crate::builtins::{alone, builtin};
use crate::error::{Mismatch, TableError};
use crate::first::First;
use crate::forms::{
    both_computed, both_connected, bound, is_connective, meant, negated, not_of, one_of, power_at,
};
use crate::kinds::{as_kind, read_variable};
use crate::repeated::{both, note_repeated};
use crate::scope::{Binders, NamedType, Scope};
use sail_base::{Items, Kind, Place};
use sail_syntax::{Name, TyExp, TypePrefix};
use sail_types::{Con, Index, Num, Typ};
use std::alloc::{AllocError, Global};
use type_arguments::Normal;

/// What a type's text stands for, and notes its failures. It stands for nothing where something has failed
/// that this needs. The one error is want of memory.
#[cycle(read)]
#[tactic(auto, using(crate::proofs::Firsts::first_failure_append, crate::proofs::PartPlaces::place_is))]
pub fn read(
    alloc: Global,
    typ: &TyExp,
    scope: &Scope<'_>,
    first: &mut First,
) -> Result<Option<Normal>, AllocError>
    ensures failures { OnOk result (first.new.error ≡ first_failure first.old.error (reading typ.now (within scope.now)).failures) }
    ensures normal { IfOk result (λ normal. normal ≡ (reading typ.now (within scope.now)).normal) }
{
    match typ {
        TyExp::Named(name, arguments) => {
            read_name(alloc, name, arguments.as_slice(), scope, first)
        }
        TyExp::Variable(name) => read_variable(alloc, name, scope, first),
        TyExp::Number(_, n) => Ok(Some(Normal::Number(Num::constant(alloc, *n)))),
        TyExp::Truth(_, truth) => Ok(Some(Normal::Constraint(Con::Truth(*truth)))),
        TyExp::Prefix(place, prefix, part) => {
            read_prefix(alloc, *prefix, *place, part.get(), scope, first)
        }
        TyExp::Infix {
            place,
            operator,
            left,
            right,
        } => {
            if is_connective(*operator) {
                let left = read_constraint(alloc, left.get(), scope, first)?;
                let right = read_constraint(alloc, right.get(), scope, first)?;
                both_connected(alloc, *operator, left, right)
            } else {
                let left = read_number(alloc, left.get(), scope, first)?;
                let right = read_number(alloc, right.get(), scope, first)?;
                both_computed(alloc, *operator, *place, left, right, first)
            }
        }
        TyExp::OneOf(_, part, choices) => {
            let number = read_number(alloc, part.get(), scope, first)?;
            one_of(alloc, number, choices.as_slice())
        }
        TyExp::Tuple(_, parts) => {
            let types = read_types(alloc, parts.as_slice(), scope, first)?;
            Ok(tuple(types))
        }
        TyExp::Exists {
            variables,
            constraint: Some(constraint),
            typ,
            ..
        } => {
            let is_clear = note_repeated(alloc, variables.as_slice(), first)?;
            let binders = Binders::Exists(variables.as_slice(), scope.variables());
            let inside = scope.with_variables(&binders);
            let constraint = read_constraint(alloc, constraint.get(), &inside, first)?;
            let typ = read_typ(alloc, typ.get(), &inside, first)?;
            bound(alloc, variables.as_slice(), is_clear, constraint, typ)
        }
        TyExp::Exists {
            variables,
            constraint: None,
            typ,
            ..
        } => {
            let is_clear = note_repeated(alloc, variables.as_slice(), first)?;
            let binders = Binders::Exists(variables.as_slice(), scope.variables());
            let inside = scope.with_variables(&binders);
            let typ = read_typ(alloc, typ.get(), &inside, first)?;
            let constraint = Some(Con::Truth(true));
            bound(alloc, variables.as_slice(), is_clear, constraint, typ)
        }
    }
}

/// A prefix before its operand.
#[cycle(read)]
#[tactic(auto, using(crate::proofs::Firsts::first_failure_append, crate::proofs::PartPlaces::place_is))]
fn read_prefix(
    alloc: Global,
    prefix: TypePrefix,
    place: Place,
    operand: &TyExp,
    scope: &Scope<'_>,
    first: &mut First,
) -> Result<Option<Normal>, AllocError>
    ensures failures { OnOk result (first.new.error ≡ first_failure first.old.error (prefixed prefix place (within scope.now) (part operand.now)).failures) }
    ensures normal { IfOk result (λ normal. normal ≡ (prefixed prefix place (within scope.now) (part operand.now)).normal) }
{
    match prefix {
        TypePrefix::Negate => {
            let number = read_number(alloc, operand, scope, first)?;
            negated(alloc, place, number, first)
        }
        TypePrefix::Power => {
            let exponent = read_number(alloc, operand, scope, first)?;
            power_at(alloc, place, exponent, first)
        }
        TypePrefix::Not => {
            let constraint = read_constraint(alloc, operand, scope, first)?;
            not_of(alloc, constraint)
        }
    }
}

/// What a type's text stands for where this kind is wanted: as `read`, and with a part of another kind
/// noted as a failure, where it stands.
#[cycle(read)]
#[tactic(auto, using(crate::proofs::Firsts::first_failure_append, crate::proofs::PartPlaces::place_is))]
pub fn read_as(
    alloc: Global,
    typ: &TyExp,
    wanted: Kind,
    scope: &Scope<'_>,
    first: &mut First,
) -> Result<Option<Normal>, AllocError>
    ensures failures { OnOk result (first.new.error ≡ first_failure first.old.error (reading_as wanted typ.now (within scope.now)).failures) }
    ensures normal { IfOk result (λ normal. normal ≡ (reading_as wanted typ.now (within scope.now)).normal) }
{
    let normal = read(alloc, typ, scope, first)?;
    Ok(as_kind(wanted, typ.place(), normal, first))
}

/// A part that is to be a number.
#[cycle(read)]
#[tactic(auto, using(crate::proofs::Firsts::first_failure_append, crate::proofs::PartPlaces::place_is))]
fn read_number(
    alloc: Global,
    typ: &TyExp,
    scope: &Scope<'_>,
    first: &mut First,
) -> Result<Option<Num>, AllocError>
    ensures failures { OnOk result (first.new.error ≡ first_failure first.old.error (number_part (within scope.now) (part typ.now)).failures) }
    ensures normal { IfOk result (λ normal. normal ≡ (number_part (within scope.now) (part typ.now)).normal) }
{
    match read_as(alloc, typ, Kind::Int, scope, first)? {
        Some(normal) => Ok(normal.into_number()),
        None => Ok(None),
    }
}

/// A part that is to be a constraint.
#[cycle(read)]
#[tactic(auto, using(crate::proofs::Firsts::first_failure_append, crate::proofs::PartPlaces::place_is))]
fn read_constraint(
    alloc: Global,
    typ: &TyExp,
    scope: &Scope<'_>,
    first: &mut First,
) -> Result<Option<Con>, AllocError>
    ensures failures { OnOk result (first.new.error ≡ first_failure first.old.error (constraint_part (within scope.now) (part typ.now)).failures) }
    ensures normal { IfOk result (λ normal. normal ≡ (constraint_part (within scope.now) (part typ.now)).normal) }
{
    match read_as(alloc, typ, Kind::Bool, scope, first)? {
        Some(normal) => Ok(normal.into_constraint()),
        None => Ok(None),
    }
}

/// A part that is to be a type.
#[cycle(read)]
#[tactic(auto, using(crate::proofs::Firsts::first_failure_append, crate::proofs::PartPlaces::place_is))]
fn read_typ(
    alloc: Global,
    typ: &TyExp,
    scope: &Scope<'_>,
    first: &mut First,
) -> Result<Option<Typ>, AllocError>
    ensures failures { OnOk result (first.new.error ≡ first_failure first.old.error (typ_part (within scope.now) (part typ.now)).failures) }
    ensures normal { IfOk result (λ normal. normal ≡ (typ_part (within scope.now) (part typ.now)).normal) }
{
    match read_as(alloc, typ, Kind::Type, scope, first)? {
        Some(normal) => Ok(normal.into_typ()),
        None => Ok(None),
    }
}

fn tuple(types: Option<Items<Typ>>) -> Option<Normal>
    ensures { result ≡ option_map (λ ts. N.Typ (W.Tuple ts)) types }
{
    match types {
        Some(types) => Some(Normal::Typ(Typ::Tuple(types))),
        None => None,
    }
}

/// Puts a type behind others, where there is one, and says whether there is. The one error is want of memory.
fn push_some(typ: Option<Typ>, types: &mut Items<Typ>) -> Result<bool, AllocError>
    ensures types { OnOk result (types.new ≡ types.old ++ option_to_list typ) }
    ensures some { IfOk result (λ some. some ≡ is_some typ) }
{
    match typ {
        Some(typ) => {
            types.push(typ)?;
            Ok(true)
        }
        None => Ok(false),
    }
}

/// The types of a tuple.
#[cycle(read)]
#[tactic(auto, using(crate::proofs::Firsts::first_failure_append, crate::proofs::PartPlaces::place_is))]
fn read_types(
    alloc: Global,
    parts: &[TyExp],
    scope: &Scope<'_>,
    first: &mut First,
) -> Result<Option<Items<Typ>>, AllocError>
    ensures failures { OnOk result (first.new.error ≡ first_failure first.old.error (all_read (map (typ_part (within scope.now)) (map part parts.now))).failures) }
    ensures types { IfOk result (λ types. types ≡ (all_read (map (typ_part (within scope.now)) (map part parts.now))).normal) }
{
    let mut types = Items::new(alloc);
    let mut is_whole = true;
    for part in parts {
        let typ = read_typ(alloc, part, scope, first)?;
        is_whole = both(push_some(typ, &mut types)?, is_whole);
    }
    if is_whole { Ok(Some(types)) } else { Ok(None) }
}

/// What a name stands for that has no argument, though it may have one.
fn bare(alloc: Global, name: &str, arguments: &[TyExp]) -> Option<Typ>
    ensures { result ≡ bare_of name.now (map part arguments.now) }
{
    match arguments {
        [] => alone(alloc, name),
        _ => None,
    }
}

/// A name, with its arguments where it has some.
#[cycle(read)]
#[tactic(auto, using(crate::proofs::Firsts::first_failure_append, crate::proofs::PartPlaces::place_is))]
fn read_name(
    alloc: Global,
    name: &Name,
    arguments: &[TyExp],
    scope: &Scope<'_>,
    first: &mut First,
) -> Result<Option<Normal>, AllocError>
    ensures failures { OnOk result (first.new.error ≡ first_failure first.old.error (name_read name.now (map part arguments.now) (bare_of name.now.text (map part arguments.now)) (within scope.now)).failures) }
    ensures normal { IfOk result (λ normal. normal ≡ (name_read name.now (map part arguments.now) (bare_of name.now.text (map part arguments.now)) (within scope.now)).normal) }
{
    if let Some(typ) = bare(alloc, name.text.as_str(), arguments) {
        return Ok(Some(Normal::Typ(typ)));
    }
    if let Some(typ) = builtin(alloc, name.text.as_str())? {
        return read_applied(alloc, name, arguments, &typ, scope, first);
    }
    match scope.named(name.text.as_str()) {
        Some(typ) => read_applied(alloc, name, arguments, typ, scope, first),
        None => {
            first.note(TableError::NoName {
                place: name.place,
                name: name.text.clone()?,
            });
            Ok(None)
        }
    }
}

/// A type at its arguments.
#[cycle(read)]
#[tactic(auto, using(crate::proofs::Firsts::first_failure_append, crate::proofs::PartPlaces::place_is))]
fn read_applied(
    alloc: Global,
    name: &Name,
    arguments: &[TyExp],
    typ: &NamedType,
    scope: &Scope<'_>,
    first: &mut First,
) -> Result<Option<Normal>, AllocError>
    ensures failures { OnOk result (first.new.error ≡ first_failure first.old.error (applied_type name.now (map part arguments.now) typ.now (within scope.now)).failures) }
    ensures normal { IfOk result (λ normal. normal ≡ (applied_type name.now (map part arguments.now) typ.now (within scope.now)).normal) }
{
    if arguments.len() != typ.parameters.len() {
        first.note(TableError::IllKinded {
            place: name.place,
            mismatch: Some(Mismatch::Counts(typ.parameters.len(), arguments.len())),
        });
        return Ok(None);
    }
    let inside = argument_scope(name, scope);
    match read_arguments(alloc, arguments, typ.parameters.as_slice(), &inside, first)? {
        Some((indices, types)) => { meant(alloc, name.place, &typ.meaning, indices, types, first) }
        None => Ok(None),
    }
}

/// Where the arguments of a name stand.
fn argument_scope<'s>(name: &Name, scope: &Scope<'s>) -> Scope<'s>
    ensures { within result ≡ argument_scope_of name.now (within scope.now) }
{
    if name.text.as_str() == "list" {
        scope.inside_list()
    } else {
        *scope
    }
}

/// Puts an argument behind those of its sort, where there is one, and says whether there is. The one error
/// is want of memory.
fn push_argument(
    argument: Option<Normal>,
    indices: &mut Items<Index>,
    types: &mut Items<Typ>,
) -> Result<bool, AllocError>
    ensures indices { OnOk result (indices.new ≡ indices.old ++ option_to_list (and_then argument index_of)) }
    ensures types { OnOk result (types.new ≡ types.old ++ option_to_list (and_then argument typ_of)) }
    ensures some { IfOk result (λ some. some ≡ is_some argument) }
{
    let Some(argument) = argument else {
        return Ok(false);
    };
    match argument.into_argument() {
        Ok(index) => indices.push(index)?,
        Err(typ) => types.push(typ)?,
    }
    Ok(true)
}

/// Arguments of these kinds: the numbers and constraints, and the types.
#[cycle(read)]
#[tactic(auto, using(crate::proofs::Firsts::first_failure_append, crate::proofs::PartPlaces::place_is))]
fn read_arguments(
    alloc: Global,
    arguments: &[TyExp],
    kinds: &[Kind],
    scope: &Scope<'_>,
    first: &mut First,
) -> Result<Option<(Items<Index>, Items<Typ>)>, AllocError>
    requires { length arguments.now ≡ length kinds.now }
    ensures failures { OnOk result (first.new.error ≡ first_failure first.old.error (arguments_read (within scope.now) kinds.now (map part arguments.now)).failures) }
    ensures arguments { IfOk result (λ all. all ≡ (arguments_read (within scope.now) kinds.now (map part arguments.now)).normal) }
{
    let mut indices = Items::new(alloc);
    let mut types = Items::new(alloc);
    let mut is_whole = true;
    for (index, argument) in arguments.iter().enumerate() {
        let argument = read_as(alloc, argument, kinds[index], scope, first)?;
        is_whole = both(push_argument(argument, &mut indices, &mut types)?, is_whole);
    }
    if is_whole {
        Ok(Some((indices, types)))
    } else {
        Ok(None)
    }
}
