//! Types whose sizes are constants.
ghost use Rattle.std.specs.Prelude.{◌≡◌, ◌&&◌, IfOk, nat_eq};
ghost use Rattle.size_values.specs.Sized as spec;

use crate::small::{both, same_integer, same_place};
use sail_base::{Boxed, Items};
use std::alloc::{AllocError, Global};

/// A type of which every size is a constant, and of whose numbers nothing else is known.
pub enum Sized {
    /// Of what doesn't exist: of what never ends normally, and of the items of an empty list.
    Never,
    /// `unit`
    Unit,
    /// `bool`
    Bool,
    /// `bit`
    Bit,
    /// Bits, of this width.
    Bits(i128),
    /// An integer.
    Int,
    /// `string`
    String,
    /// A list of such items.
    List(Boxed<Sized>),
    /// A vector, of this length, of such items.
    Vector(i128, Boxed<Sized>),
    /// A tuple, by its parts.
    Tuple(Items<Sized>),
    /// The struct, union or enum at a place in the table: the numbers of its parameters, where a size of its fields or payloads
    /// hangs on them, and its Type arguments.
    Named(u32, Items<Option<i128>>, Items<Sized>),
}

impl Drop for Sized {
    #[cycle(sized_drop)]
    fn drop(self) {
        match self {
            Sized::Never => {}
            Sized::Unit => {}
            Sized::Bool => {}
            Sized::Bit => {}
            Sized::Bits(_) => {}
            Sized::Int => {}
            Sized::String => {}
            Sized::List(_) => {}
            Sized::Vector(_, _) => {}
            Sized::Tuple(_) => {}
            Sized::Named(_, _, _) => {}
        }
    }
}

/// The same type once more. It fails where memory is wanting.
#[cycle(copy_sized)]
pub fn copy_sized(alloc: Global, sized: &Sized) -> Result<Sized, AllocError>
    ensures { IfOk result (λ copy. copy ≡ sized.now) }
{
    match sized {
        Sized::Never => Ok(Sized::Never),
        Sized::Unit => Ok(Sized::Unit),
        Sized::Bool => Ok(Sized::Bool),
        Sized::Bit => Ok(Sized::Bit),
        Sized::Bits(width) => Ok(Sized::Bits(*width)),
        Sized::Int => Ok(Sized::Int),
        Sized::String => Ok(Sized::String),
        Sized::List(item) => {
            let item = copy_sized(alloc, item.get())?;
            Ok(Sized::List(Boxed::new(alloc, item)?))
        }
        Sized::Vector(length, item) => {
            let item = copy_sized(alloc, item.get())?;
            Ok(Sized::Vector(*length, Boxed::new(alloc, item)?))
        }
        Sized::Tuple(parts) => Ok(Sized::Tuple(copy_all_sized(alloc, parts.as_slice())?)),
        Sized::Named(place, numbers, types) => {
            let numbers = Items::from_slice(alloc, numbers.as_slice())?;
            let types = copy_all_sized(alloc, types.as_slice())?;
            Ok(Sized::Named(*place, numbers, types))
        }
    }
}

/// The same types once more. They fail where memory is wanting.
#[cycle(copy_sized)]
pub fn copy_all_sized(alloc: Global, types: &[Sized]) -> Result<Items<Sized>, AllocError>
    ensures { IfOk result (λ copy. copy ≡ types.now) }
{
    let mut copies = Items::new(alloc);
    for sized in types {
        copies.push(copy_sized(alloc, sized)?)?;
    }
    Ok(copies)
}

/// Whether two optional numbers are the same.
fn same_number(a: &Option<i128>, b: &Option<i128>) -> bool
    ensures { result ≡ spec.option_eq a.now b.now }
{
    match (a, b) {
        (None, None) => true,
        (Some(a), Some(b)) => same_integer(*a, *b),
        _ => false,
    }
}

/// Whether two lists have the same optional numbers in the same order.
#[tactic(auto, using(crate::proofs::Same::numbers_differ))]
pub fn same_numbers(a: &[Option<i128>], b: &[Option<i128>]) -> bool
    ensures { result ≡ spec.numbers_eq a.now b.now }
{
    if a.len() != b.len() {
        return false;
    }
    let mut at = 0;
    for number in a {
        if !same_number(number, &b[at]) {
            return false;
        }
        at += 1;
    }
    true
}

/// Whether two types are the same.
#[cycle(same_sized)]
pub fn same_sized(a: &Sized, b: &Sized) -> bool
    ensures { result ≡ spec.sized_eq a.now b.now }
{
    match (a, b) {
        (Sized::Never, Sized::Never) => true,
        (Sized::Unit, Sized::Unit) => true,
        (Sized::Bool, Sized::Bool) => true,
        (Sized::Bit, Sized::Bit) => true,
        (Sized::Bits(a), Sized::Bits(b)) => same_integer(*a, *b),
        (Sized::Int, Sized::Int) => true,
        (Sized::String, Sized::String) => true,
        (Sized::List(a), Sized::List(b)) => same_sized(a.get(), b.get()),
        (Sized::Vector(m, a), Sized::Vector(n, b)) => {
            both(same_integer(*m, *n), same_sized(a.get(), b.get()))
        }
        (Sized::Tuple(a), Sized::Tuple(b)) => same_all(a.as_slice(), b.as_slice()),
        (Sized::Named(u, m, a), Sized::Named(v, n, b)) => both(
            same_named(*u, m.as_slice(), *v, n.as_slice()),
            same_all(a.as_slice(), b.as_slice()),
        ),
        _ => false,
    }
}

/// Whether two places and the numbers there are the same.
fn same_named(u: u32, m: &[Option<i128>], v: u32, n: &[Option<i128>]) -> bool
    ensures { result ≡ (nat_eq u v && spec.numbers_eq m.now n.now) }
{
    both(same_place(u, v), same_numbers(m, n))
}

/// Whether two lists have the same types in the same order.
#[cycle(same_sized)]
#[tactic(auto, using(crate::proofs::Same::all_differ))]
pub fn same_all(a: &[Sized], b: &[Sized]) -> bool
    ensures { result ≡ spec.all_eq a.now b.now }
{
    if a.len() != b.len() {
        return false;
    }
    let mut at = 0;
    for sized in a {
        if !same_sized(sized, &b[at]) {
            return false;
        }
        at += 1;
    }
    true
}
