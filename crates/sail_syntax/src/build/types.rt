ghost use Rattle.std.specs.Prelude.{◌≡◌, IfOk};
ghost use Rattle.sail_syntax.specs.declared.types.TyExp.TheVariants as V;

use crate::name::Name;
use crate::types::TyExp;
use crate::words::{TypeOperator, TypePrefix};
use sail_base::{Boxed, Items, Place};
use std::alloc::{AllocError, Global};

/// A prefix and its operand. It fails where memory is wanting.
pub fn type_prefix(
    alloc: Global,
    place: Place,
    prefix: TypePrefix,
    operand: TyExp,
) -> Result<TyExp, AllocError>
    ensures { IfOk result (λ made. made ≡ V.Prefix place prefix operand) }
{
    let operand = Boxed::new(alloc, operand)?;
    Ok(TyExp::Prefix(place, prefix, operand))
}

/// Two operands around an operator. It fails where memory is wanting.
pub fn type_infix(
    alloc: Global,
    place: Place,
    operator: TypeOperator,
    left: TyExp,
    right: TyExp,
) -> Result<TyExp, AllocError>
    ensures { IfOk result (λ made. made ≡ V.Infix place operator left right) }
{
    let left = Boxed::new(alloc, left)?;
    let right = Boxed::new(alloc, right)?;
    Ok(TyExp::Infix {
        place,
        operator,
        left,
        right,
    })
}

/// A number among some. It fails where memory is wanting.
pub fn one_of(
    alloc: Global,
    place: Place,
    number: TyExp,
    choices: Items<i128>,
) -> Result<TyExp, AllocError>
    ensures { IfOk result (λ made. made ≡ V.OneOf place number choices) }
{
    let number = Boxed::new(alloc, number)?;
    Ok(TyExp::OneOf(place, number, choices))
}

/// `{..}`: the variables, the constraint, the type. It fails where memory is wanting.
pub fn exists(
    alloc: Global,
    place: Place,
    variables: Items<Name>,
    constraint: Option<Boxed<TyExp>>,
    typ: TyExp,
) -> Result<TyExp, AllocError>
    ensures { IfOk result (λ made. made ≡ V.Exists place variables constraint typ) }
{
    let typ = Boxed::new(alloc, typ)?;
    Ok(TyExp::Exists {
        place,
        variables,
        constraint,
        typ,
    })
}
