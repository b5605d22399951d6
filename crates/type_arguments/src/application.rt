//! Numbers, constraints and types with arguments in the place of their variables.
ghost use Rattle.std.specs.Prelude.{◌≡◌, IfOk};
ghost use Rattle.type_arguments.specs.Applied.{inside_indices as inside_indices_of, typ_at as typ_at_of, applied_typ as applied_typ_of};
ghost use Rattle.type_arguments.specs.Applied.{applied_types as applied_types_of, applied as applied_of};

use crate::copies::copy_typ;
use crate::moved::{moved_index, moved_types};
use crate::normal::Normal;
use sail_types::{Boxed, Index, Items, Num, Typ, read_con, read_indices, read_number};
use std::alloc::{AllocError, Global};

/// The arguments inside an existential type: the variable that it binds, and then each of them read one
/// binder further in; none where a variable's number would pass the largest of 32 bits.
fn inside_indices(alloc: Global, indices: &[Index]) -> Result<Option<Items<Index>>, AllocError>
    ensures { IfOk result (λ made. made ≡ inside_indices_of indices.now) }
{
    let mut made = Items::new(alloc);
    made.push(Index::Number(Num::variable(alloc, 0)?))?;
    for index in indices {
        match moved_index(alloc, 0, index)? {
            None => return Ok(None),
            Some(moved) => made.push(moved)?,
        }
    }
    Ok(Some(made))
}

/// What a Type variable stands for.
fn typ_at(alloc: Global, types: &[Typ], position: u32) -> Result<Typ, AllocError>
    ensures { IfOk result (λ made. made ≡ typ_at_of types.now position) }
{
    match types.get(position as usize) {
        Some(typ) => copy_typ(alloc, typ),
        None => Ok(Typ::Unit),
    }
}

#[tactic(auto, using(crate::proofs::Parts::applied_tuple, crate::proofs::Parts::applied_named))]
/// A type with these in the place of its variables: the arguments for the Int and Bool variables by their
/// numbers (0, or `false`, for one without an argument of its kind), the types for the Type variables by their
/// positions (`unit` for one without). What an existential type binds stays.
///
/// There is none where a number past 2^126 in size stands on the way; an exponent that becomes a constant
/// outside 0 to 126 stays. There is none either where, inside existential types, a variable's number would pass
/// the largest of 32 bits. It fails where memory is wanting.
#[cycle(applied_typ)]
pub fn applied_typ(
    alloc: Global,
    indices: &[Index],
    types: &[Typ],
    typ: &Typ,
) -> Result<Option<Typ>, AllocError>
    ensures { IfOk result (λ made. made ≡ applied_typ_of indices.now types.now typ.now) }
{
    match typ {
        Typ::Unit => Ok(Some(Typ::Unit)),
        Typ::Bool => Ok(Some(Typ::Bool)),
        Typ::Truth(con) => match read_con(alloc, con, indices)? {
            None => Ok(None),
            Some(con) => Ok(Some(Typ::Truth(con))),
        },
        Typ::Bit => Ok(Some(Typ::Bit)),
        Typ::Bits(width) => match read_number(alloc, width, indices)? {
            None => Ok(None),
            Some(width) => Ok(Some(Typ::Bits(width))),
        },
        Typ::Int(number) => match read_number(alloc, number, indices)? {
            None => Ok(None),
            Some(number) => Ok(Some(Typ::Int(number))),
        },
        Typ::Range(low, high) => {
            let Some(low) = read_number(alloc, low, indices)? else {
                return Ok(None);
            };
            match read_number(alloc, high, indices)? {
                None => Ok(None),
                Some(high) => Ok(Some(Typ::Range(low, high))),
            }
        }
        Typ::String => Ok(Some(Typ::String)),
        Typ::List(item) => match applied_typ(alloc, indices, types, item.get())? {
            None => Ok(None),
            Some(item) => Ok(Some(Typ::List(Boxed::new(alloc, item)?))),
        },
        Typ::Vector(length, item) => {
            let Some(length) = read_number(alloc, length, indices)? else {
                return Ok(None);
            };
            match applied_typ(alloc, indices, types, item.get())? {
                None => Ok(None),
                Some(item) => Ok(Some(Typ::Vector(length, Boxed::new(alloc, item)?))),
            }
        }
        Typ::Tuple(parts) => match applied_types(alloc, indices, types, parts.as_slice())? {
            None => Ok(None),
            Some(parts) => Ok(Some(Typ::Tuple(parts))),
        },
        Typ::Named(place, own, arguments) => {
            let Some(own) = read_indices(alloc, own.as_slice(), indices)? else {
                return Ok(None);
            };
            match applied_types(alloc, indices, types, arguments.as_slice())? {
                None => Ok(None),
                Some(arguments) => Ok(Some(Typ::Named(*place, own, arguments))),
            }
        }
        Typ::Variable(position) => Ok(Some(typ_at(alloc, types, *position)?)),
        Typ::Exists(name, con, part) => {
            let Some(indices) = inside_indices(alloc, indices)? else {
                return Ok(None);
            };
            let Some(types) = moved_types(alloc, 0, types)? else {
                return Ok(None);
            };
            let Some(con) = read_con(alloc, con, indices.as_slice())? else {
                return Ok(None);
            };
            match applied_typ(alloc, indices.as_slice(), types.as_slice(), part.get())? {
                None => Ok(None),
                Some(part) => {
                    let name = name.clone()?;
                    Ok(Some(Typ::Exists(name, con, Boxed::new(alloc, part)?)))
                }
            }
        }
    }
}

/// Types with these in the place of their variables, each as by `applied_typ`; none where there is none of one
/// of them. It fails where memory is wanting.
#[cycle(applied_typ)]
pub fn applied_types(
    alloc: Global,
    indices: &[Index],
    types: &[Typ],
    parts: &[Typ],
) -> Result<Option<Items<Typ>>, AllocError>
    ensures { IfOk result (λ made. made ≡ applied_types_of indices.now types.now parts.now) }
{
    let mut made = Items::new(alloc);
    for part in parts {
        match applied_typ(alloc, indices, types, part)? {
            None => return Ok(None),
            Some(applied) => made.push(applied)?,
        }
    }
    Ok(Some(made))
}

/// What a named type's right side stands for where the type is applied: the right side with these in the place
/// of its parameters, the Int and Bool arguments in order and the Type arguments in order.
///
/// There is none where a number past 2^126 in size stands on the way, or where, inside existential types, a
/// variable's number would pass the largest of 32 bits. It fails where memory is wanting.
pub fn applied(
    alloc: Global,
    indices: &[Index],
    types: &[Typ],
    right: &Normal,
) -> Result<Option<Normal>, AllocError>
    ensures { IfOk result (λ made. made ≡ applied_of indices.now types.now right.now) }
{
    match right {
        Normal::Number(number) => match read_number(alloc, number, indices)? {
            None => Ok(None),
            Some(number) => Ok(Some(Normal::Number(number))),
        },
        Normal::Constraint(con) => match read_con(alloc, con, indices)? {
            None => Ok(None),
            Some(con) => Ok(Some(Normal::Constraint(con))),
        },
        Normal::Typ(typ) => match applied_typ(alloc, indices, types, typ)? {
            None => Ok(None),
            Some(typ) => Ok(Some(Normal::Typ(typ))),
        },
    }
}
