//! Types that name no variable.
ghost use Rattle.std.specs.Prelude.{◌≡◌, IfOk, map};
ghost use Rattle.std.specs.List.{list_all};
ghost use Rattle.call_arguments.specs.Callees as callees;

use sail_types::{Index, Num, Typ};
use std::alloc::AllocError;
use wide_types::{is_below, is_con_below};

/// Whether an argument names no variable but so many.
fn index_under(depth: u32, index: &Index) -> bool
    ensures { result ≡ callees.index_under depth index.now }
{
    match index {
        Index::Number(number) => is_below(depth, number),
        Index::Truth(con) => is_con_below(depth, con),
    }
}

/// The same of arguments.
pub fn are_under(depth: u32, indices: &[Index]) -> bool
    ensures { result ≡ list_all (callees.index_under depth) indices.now }
{
    for index in indices {
        if !index_under(depth, index) {
            return false;
        }
    }
    true
}

/// The number of variables that are bound behind one more. It fails where they are too many.
fn behind(depth: u32) -> Result<u32, AllocError>
    ensures { IfOk result (λ more. more ≡ callees.behind depth) }
{
    match depth.checked_add(1) {
        None => Err(AllocError),
        Some(more) => Ok(more),
    }
}

/// Whether both numbers name no variable but so many.
fn are_both_under(depth: u32, low: &Num, high: &Num) -> bool
    ensures { result ≡ callees.are_both_under depth low.now high.now }
{
    is_below(depth, low) && is_below(depth, high)
}

/// Whether a type names no Int or Bool variable but those that it binds and so many around it. It fails where binders are too many.
#[cycle(is_numberless_under)]
pub fn is_numberless_under(typ: &Typ, depth: u32) -> Result<bool, AllocError>
    ensures { IfOk result (λ is. is ≡ callees.is_numberless_under typ.now depth) }
{
    match typ {
        Typ::Unit => Ok(true),
        Typ::Bool => Ok(true),
        Typ::Truth(con) => Ok(is_con_below(depth, con)),
        Typ::Bit => Ok(true),
        Typ::Bits(width) => Ok(is_below(depth, width)),
        Typ::Int(number) => Ok(is_below(depth, number)),
        Typ::Range(low, high) => Ok(are_both_under(depth, low, high)),
        Typ::String => Ok(true),
        Typ::List(item) => is_numberless_under(item.get(), depth),
        Typ::Vector(length, item) => {
            if is_below(depth, length) {
                is_numberless_under(item.get(), depth)
            } else {
                Ok(false)
            }
        }
        Typ::Tuple(parts) => are_numberless(parts.as_slice(), depth),
        Typ::Named(_, indices, parts) => {
            if are_under(depth, indices.as_slice()) {
                are_numberless(parts.as_slice(), depth)
            } else {
                Ok(false)
            }
        }
        Typ::Variable(_) => Ok(true),
        Typ::Exists(_, con, part) => {
            let inner = behind(depth)?;
            if is_con_below(inner, con) {
                is_numberless_under(part.get(), inner)
            } else {
                Ok(false)
            }
        }
    }
}

/// The same of types.
#[cycle(is_numberless_under)]
fn are_numberless(types: &[Typ], depth: u32) -> Result<bool, AllocError>
    ensures { IfOk result (λ are. are ≡ list_all (λ f. f depth) (map callees.is_numberless_under types.now)) }
{
    for typ in types {
        if !is_numberless_under(typ, depth)? {
            return Ok(false);
        }
    }
    Ok(true)
}

/// Whether a type names no Int or Bool variable but those that it binds. It fails where binders are too many.
pub fn is_numberless(typ: &Typ) -> Result<bool, AllocError>
    ensures { IfOk result (λ is. is ≡ callees.is_numberless typ.now) }
{
    is_numberless_under(typ, 0)
}

/// Whether a type names no Type variable.
#[cycle(is_typeless)]
pub fn is_typeless(typ: &Typ) -> bool
    ensures { result ≡ callees.is_typeless typ.now }
{
    match typ {
        Typ::List(item) => is_typeless(item.get()),
        Typ::Vector(_, item) => is_typeless(item.get()),
        Typ::Tuple(parts) => are_typeless(parts.as_slice()),
        Typ::Named(_, _, parts) => are_typeless(parts.as_slice()),
        Typ::Variable(_) => false,
        Typ::Exists(_, _, part) => is_typeless(part.get()),
        _ => true,
    }
}

/// The same of types.
#[cycle(is_typeless)]
fn are_typeless(types: &[Typ]) -> bool
    ensures { result ≡ list_all (λ b. b) (map callees.is_typeless types.now) }
{
    for typ in types {
        if !is_typeless(typ) {
            return false;
        }
    }
    true
}

/// Whether a type names no variable but those that it binds. It fails where binders are too many.
pub fn is_closed(typ: &Typ) -> Result<bool, AllocError>
    ensures { IfOk result (λ is. is ≡ callees.is_closed typ.now) }
{
    if is_numberless(typ)? {
        Ok(is_typeless(typ))
    } else {
        Ok(false)
    }
}
