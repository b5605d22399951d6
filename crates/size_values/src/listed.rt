//! The sizes that are listed by then, and the named types that are read.
ghost use Rattle.std.specs.Prelude.{◌≡◌, bytes_eq, OnOk};
ghost use Rattle.size_values.specs.Sizes as spec;

use crate::constants::{Constant, copy_constants};
use crate::sizes::Size;
use crate::small::{both, same_integer, same_place};
use sail_base::{Items, Text};
use std::alloc::{AllocError, Global};

/// A named type under arguments.
#[derive(Drop)]
pub struct Applied {
    /// Its place in the table.
    pub place: u32,
    /// Its Int and Bool arguments.
    pub arguments: Items<Constant>,
}

/// Sizes, from the left, and the named types whose fields and payloads are read for them.
#[derive(Drop)]
pub struct Listed {
    /// The sizes.
    pub sizes: Items<Size>,
    /// The named types, in order of reading.
    pub read: Items<Applied>,
}

/// Whether two names are the same.
fn same_name(a: &Text, b: &Text) -> bool
    ensures { result ≡ bytes_eq a.now b.now }
{
    *a == *b
}

/// Whether two constants are the same.
fn same_constant(a: &Constant, b: &Constant) -> bool
    ensures { result ≡ spec.constant_eq a.now b.now }
{
    match (a, b) {
        (Constant::Number(a), Constant::Number(b)) => same_integer(*a, *b),
        (Constant::Open(a), Constant::Open(b)) => same_place(*a, *b),
        (Constant::Bound(a), Constant::Bound(b)) => same_name(a, b),
        _ => false,
    }
}

/// Whether two lists have the same constants in the same order.
#[tactic(auto, using(crate::proofs::Same::constants_differ))]
fn same_constants(a: &[Constant], b: &[Constant]) -> bool
    ensures { result ≡ spec.constants_eq a.now b.now }
{
    if a.len() != b.len() {
        return false;
    }
    let mut at = 0;
    for constant in a {
        if !same_constant(constant, &b[at]) {
            return false;
        }
        at += 1;
    }
    true
}

/// Whether it is the named type at this place under these arguments.
fn is_applied(place: u32, arguments: &[Constant], applied: &Applied) -> bool
    ensures { result ≡ spec.is_applied place arguments.now applied.now }
{
    both(
        same_place(place, applied.place),
        same_constants(arguments, applied.arguments.as_slice()),
    )
}

/// Whether the named type at this place is among these under these arguments.
pub fn was_read(place: u32, arguments: &[Constant], read: &[Applied]) -> bool
    ensures { result ≡ spec.was_read place arguments.now read.now }
{
    for applied in read {
        if is_applied(place, arguments, applied) {
            return true;
        }
    }
    false
}

/// Nothing is listed.
pub fn none_listed(alloc: Global) -> Listed
    ensures { result ≡ spec.none_listed }
{
    let sizes = Items::new(alloc);
    let read = Items::new(alloc);
    Listed { sizes, read }
}

/// Lists more sizes. The one error is want of memory.
pub fn list_sizes(listed: &mut Listed, sizes: Items<Size>) -> Result<(), AllocError>
    ensures { OnOk result (listed.new ≡ spec.listing sizes listed.old) }
{
    listed.sizes.append(sizes)
}

/// Puts the named type at this place under these arguments to those that are read. The one error is want of memory.
pub fn put_read(
    alloc: Global,
    listed: &mut Listed,
    place: u32,
    arguments: &[Constant],
) -> Result<(), AllocError>
    ensures { OnOk result (listed.new ≡ spec.reading place arguments.now listed.old) }
{
    let arguments = copy_constants(alloc, arguments)?;
    listed.read.push(Applied { place, arguments })
}
