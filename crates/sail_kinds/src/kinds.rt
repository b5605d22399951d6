ghost use Rattle.std.specs.Prelude.{◌≡◌, Option, IfOk, OnOk};
ghost use Rattle.sail_kinds.specs.Failures.{first_failure};
ghost use Rattle.sail_kinds.specs.Scopes.{variable_of, within};
ghost use Rattle.sail_kinds.specs.Normal.{kind_of, is_of, as_kind as as_kind_of, made_of, made as made_at, opened as opened_at, variable_normal, variable_read};

use crate::error::{Mismatch, TableError};
use crate::first::First;
use crate::scope::{FoundVariable, Scope};
use crate::variables::find_variable;
use sail_base::{Kind, Place};
use sail_syntax::Name;
use sail_types::{Con, Num, Typ};
use std::alloc::{AllocError, Global};
use type_arguments::{Normal, is_void_normal};

fn kind_of(normal: &Normal) -> Kind
    ensures { result ≡ kind_of normal.now }
{
    match normal {
        Normal::Number(_) => Kind::Int,
        Normal::Constraint(_) => Kind::Bool,
        Normal::Typ(_) => Kind::Type,
    }
}

fn is_of(wanted: Kind, normal: &Normal) -> bool
    ensures { result ≡ is_of wanted normal.now }
{
    match (wanted, normal) {
        (Kind::Int, Normal::Number(_)) => true,
        (Kind::Bool, Normal::Constraint(_)) => true,
        (Kind::Type, Normal::Typ(_)) => true,
        _ => false,
    }
}

/// A part that stands at a place where this kind is wanted, where it has that kind.
pub(crate) fn as_kind(
    wanted: Kind,
    place: Place,
    part: Option<Normal>,
    first: &mut First,
) -> Option<Normal>
    ensures failures { first.new.error ≡ first_failure first.old.error (made_of (as_kind_of wanted place) part).failures }
    ensures normal { result ≡ (made_of (as_kind_of wanted place) part).normal }
{
    let Some(normal) = part else {
        return None;
    };
    if is_of(wanted, &normal) {
        return Some(normal);
    }
    first.note(TableError::IllKinded {
        place,
        mismatch: Some(Mismatch::Kinds(wanted, kind_of(&normal))),
    });
    None
}

/// A number that could be made, at the operator that makes it.
pub(crate) fn made(place: Place, number: Option<Num>, first: &mut First) -> Option<Normal>
    ensures failures { first.new.error ≡ first_failure first.old.error (made_at place number).failures }
    ensures normal { result ≡ (made_at place number).normal }
{
    match number {
        Some(number) => Some(Normal::Number(number)),
        None => {
            first.note(TableError::IllKinded {
                place,
                mismatch: None,
            });
            None
        }
    }
}

/// What a named type stands for at its arguments, where nothing in it is void.
pub(crate) fn opened(place: Place, normal: Option<Normal>, first: &mut First) -> Option<Normal>
    ensures failures { first.new.error ≡ first_failure first.old.error (opened_at place normal).failures }
    ensures normal { result ≡ (opened_at place normal).normal }
{
    match normal {
        Some(normal) if !is_void_normal(&normal) => Some(normal),
        _ => {
            first.note(TableError::IllKinded {
                place,
                mismatch: None,
            });
            None
        }
    }
}

fn variable_normal(alloc: Global, found: FoundVariable) -> Result<Normal, AllocError>
    ensures { IfOk result (λ normal. normal ≡ variable_normal found.kind found.number) }
{
    match found.kind {
        Kind::Int => Ok(Normal::Number(Num::variable(alloc, found.number)?)),
        Kind::Bool => Ok(Normal::Constraint(Con::Holds(found.number))),
        Kind::Type => Ok(Normal::Typ(Typ::Variable(found.number))),
    }
}

/// A type variable alone.
pub(crate) fn read_variable(
    alloc: Global,
    name: &Name,
    scope: &Scope<'_>,
    first: &mut First,
) -> Result<Option<Normal>, AllocError>
    ensures failures { OnOk result (first.new.error ≡ first_failure first.old.error
        (variable_read name.now (variable_of name.now.text (within scope.now).variables)).failures) }
    ensures normal { IfOk result (λ normal. normal ≡ (variable_read name.now (variable_of name.now.text (within scope.now).variables)).normal) }
{
    match find_variable(scope.variables(), name.text.as_str())? {
        Some(found) => Ok(Some(variable_normal(alloc, found)?)),
        None => {
            first.note(TableError::NoName {
                place: name.place,
                name: name.text.clone()?,
            });
            Ok(None)
        }
    }
}
