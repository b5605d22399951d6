ghost use Rattle.std.specs.Prelude.{◌≡◌, IfOk};
ghost use Rattle.sail_syntax.specs.declared.patterns.Pat.TheVariants as V;

use crate::name::Name;
use crate::patterns::{Joined, Pat};
use crate::types::TyExp;
use sail_base::{Boxed, Items, Place};
use std::alloc::{AllocError, Global};

/// A concatenation: the place of the first `@`, the first two parts, the others. It fails where memory is wanting.
pub fn concat(
    alloc: Global,
    place: Place,
    first: Pat,
    second: Pat,
    more: Items<Joined>,
) -> Result<Pat, AllocError>
    ensures { IfOk result (λ made. made ≡ V.Concat place first second more) }
{
    let first = Boxed::new(alloc, first)?;
    let second = Boxed::new(alloc, second)?;
    Ok(Pat::Concat {
        place,
        first,
        second,
        more,
    })
}

/// The head of a list and the rest. It fails where memory is wanting.
pub fn cons(alloc: Global, place: Place, head: Pat, tail: Pat) -> Result<Pat, AllocError>
    ensures { IfOk result (λ made. made ≡ V.Cons place head tail) }
{
    let head = Boxed::new(alloc, head)?;
    let tail = Boxed::new(alloc, tail)?;
    Ok(Pat::Cons(place, head, tail))
}

/// A pattern with a name for its value. It fails where memory is wanting.
pub fn named(alloc: Global, place: Place, part: Pat, name: Name) -> Result<Pat, AllocError>
    ensures { IfOk result (λ made. made ≡ V.As place part name) }
{
    let part = Boxed::new(alloc, part)?;
    Ok(Pat::As(place, part, name))
}

/// An annotated pattern. It fails where memory is wanting.
pub fn annotated(alloc: Global, place: Place, part: Pat, typ: TyExp) -> Result<Pat, AllocError>
    ensures { IfOk result (λ made. made ≡ V.Typed place part typ) }
{
    let part = Boxed::new(alloc, part)?;
    Ok(Pat::Typed(place, part, typ))
}
