//! Types once more.
ghost use Rattle.std.specs.Prelude.{◌≡◌, IfOk};

use crate::normal::Normal;
use sail_types::{Boxed, Index, Items, Typ, copy_con, copy_index, copy_num};
use std::alloc::{AllocError, Global};

/// The same type once more. It fails where memory is wanting.
#[cycle(copy_typ)]
pub fn copy_typ(alloc: Global, typ: &Typ) -> Result<Typ, AllocError>
    ensures { IfOk result (λ copy. copy ≡ typ.now) }
{
    match typ {
        Typ::Unit => Ok(Typ::Unit),
        Typ::Bool => Ok(Typ::Bool),
        Typ::Truth(con) => Ok(Typ::Truth(copy_con(alloc, con)?)),
        Typ::Bit => Ok(Typ::Bit),
        Typ::Bits(width) => Ok(Typ::Bits(copy_num(alloc, width)?)),
        Typ::Int(number) => Ok(Typ::Int(copy_num(alloc, number)?)),
        Typ::Range(low, high) => {
            let low = copy_num(alloc, low)?;
            Ok(Typ::Range(low, copy_num(alloc, high)?))
        }
        Typ::String => Ok(Typ::String),
        Typ::List(item) => {
            let item = copy_typ(alloc, item.get())?;
            Ok(Typ::List(Boxed::new(alloc, item)?))
        }
        Typ::Vector(length, item) => {
            let length = copy_num(alloc, length)?;
            let item = copy_typ(alloc, item.get())?;
            Ok(Typ::Vector(length, Boxed::new(alloc, item)?))
        }
        Typ::Tuple(parts) => Ok(Typ::Tuple(copy_types(alloc, parts.as_slice())?)),
        Typ::Named(place, indices, arguments) => {
            let indices = copy_indices(alloc, indices.as_slice())?;
            let arguments = copy_types(alloc, arguments.as_slice())?;
            Ok(Typ::Named(*place, indices, arguments))
        }
        Typ::Variable(position) => Ok(Typ::Variable(*position)),
        Typ::Exists(name, con, part) => {
            let con = copy_con(alloc, con)?;
            let part = copy_typ(alloc, part.get())?;
            let name = name.clone()?;
            Ok(Typ::Exists(name, con, Boxed::new(alloc, part)?))
        }
    }
}

/// The same types once more. It fails where memory is wanting.
#[cycle(copy_typ)]
pub fn copy_types(alloc: Global, types: &[Typ]) -> Result<Items<Typ>, AllocError>
    ensures { IfOk result (λ copy. copy ≡ types.now) }
{
    let mut copies = Items::new(alloc);
    for typ in types {
        copies.push(copy_typ(alloc, typ)?)?;
    }
    Ok(copies)
}

/// The same arguments once more. It fails where memory is wanting.
pub fn copy_indices(alloc: Global, indices: &[Index]) -> Result<Items<Index>, AllocError>
    ensures { IfOk result (λ copy. copy ≡ indices.now) }
{
    let mut copies = Items::new(alloc);
    for index in indices {
        copies.push(copy_index(alloc, index)?)?;
    }
    Ok(copies)
}

/// What a type's text stands for, once more. It fails where memory is wanting.
pub fn copy_normal(alloc: Global, normal: &Normal) -> Result<Normal, AllocError>
    ensures { IfOk result (λ copy. copy ≡ normal.now) }
{
    match normal {
        Normal::Number(number) => Ok(Normal::Number(copy_num(alloc, number)?)),
        Normal::Constraint(con) => Ok(Normal::Constraint(copy_con(alloc, con)?)),
        Normal::Typ(typ) => Ok(Normal::Typ(copy_typ(alloc, typ)?)),
    }
}
