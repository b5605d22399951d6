ghost use Rattle.std.specs.Prelude.{◌≡◌, IfOk, Some, List};
ghost use Rattle.sail_types.specs.Sums.{variable};
ghost use Rattle.sail_types.specs.declared.types.Typ.TheVariants as W;
ghost use Rattle.sail_kinds.specs.Builtin.{builtin as builtin_of, alone as alone_of, of_kinds, int as int_of, nat as nat_of};

use crate::scope::{Meaning, NamedType};
use sail_base::{Boxed, Items, Kind};
use sail_types::{Con, Num, Typ};
use std::alloc::{AllocError, Global};
use type_arguments::Normal;

const LARGEST: i128 = 85070591730234615865843651857942052864;

#[tactic(auto, unfolding(sail_types::specs::Limits::largest))]
fn int(alloc: Global) -> Typ
    ensures { result ≡ int_of }
{
    Typ::Range(
        Num::constant(alloc, -LARGEST),
        Num::constant(alloc, LARGEST),
    )
}

#[tactic(auto, unfolding(sail_types::specs::Limits::largest))]
fn nat(alloc: Global) -> Typ
    ensures { result ≡ nat_of }
{
    Typ::Range(Num::constant(alloc, 0), Num::constant(alloc, LARGEST))
}

/// What `bool` and `int` stand for where they have no argument.
pub(crate) fn alone(alloc: Global, name: &str) -> Option<Typ>
    ensures { result ≡ alone_of name.now }
{
    match name {
        "bool" => Some(Typ::Bool),
        "int" => Some(int(alloc)),
        _ => None,
    }
}

/// A type under parameters of these kinds.
fn of_kinds(alloc: Global, kinds: &[Kind], typ: Typ) -> Result<Option<NamedType>, AllocError>
    ensures { IfOk result (λ t. t ≡ Some (of_kinds kinds.now typ)) }
{
    Ok(Some(NamedType {
        parameters: Items::from_slice(alloc, kinds)?,
        meaning: Meaning::Alias(Normal::Typ(typ)),
    }))
}

/// The type of the language of this name. The one error is want of memory.
pub fn builtin(alloc: Global, name: &str) -> Result<Option<NamedType>, AllocError>
    ensures { IfOk result (λ t. t ≡ builtin_of name.now) }
{
    match name {
        "unit" => of_kinds(alloc, &[], Typ::Unit),
        "bool" => of_kinds(alloc, &[Kind::Bool], Typ::Truth(Con::Holds(0))),
        "bit" => of_kinds(alloc, &[], Typ::Bit),
        "bits" => of_kinds(alloc, &[Kind::Int], Typ::Bits(Num::variable(alloc, 0)?)),
        "bitvector" => of_kinds(alloc, &[Kind::Int], Typ::Bits(Num::variable(alloc, 0)?)),
        "int" => of_kinds(alloc, &[Kind::Int], Typ::Int(Num::variable(alloc, 0)?)),
        "nat" => of_kinds(alloc, &[], nat(alloc)),
        "range" => of_kinds(alloc, &[Kind::Int, Kind::Int], range(alloc)?),
        "string" => of_kinds(alloc, &[], Typ::String),
        "list" => of_kinds(alloc, &[Kind::Type], list(alloc)?),
        "vector" => of_kinds(alloc, &[Kind::Int, Kind::Type], vector(alloc)?),
        _ => Ok(None),
    }
}

fn range(alloc: Global) -> Result<Typ, AllocError>
    ensures { IfOk result (λ t. t ≡ W.Range (variable 0) (variable 1)) }
{
    Ok(Typ::Range(Num::variable(alloc, 0)?, Num::variable(alloc, 1)?))
}

fn list(alloc: Global) -> Result<Typ, AllocError>
    ensures { IfOk result (λ t. t ≡ W.List (W.Variable 0)) }
{
    Ok(Typ::List(Boxed::new(alloc, Typ::Variable(0))?))
}

fn vector(alloc: Global) -> Result<Typ, AllocError>
    ensures { IfOk result (λ t. t ≡ W.Vector (variable 0) (W.Variable 0)) }
{
    let item = Boxed::new(alloc, Typ::Variable(0))?;
    Ok(Typ::Vector(Num::variable(alloc, 0)?, item))
}
