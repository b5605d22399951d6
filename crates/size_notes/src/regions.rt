//! Where a part of a written type stands.
ghost use Rattle.std.specs.Prelude.{◌≡◌, suc, IfOk};
ghost use Rattle.size_notes.specs.Regions as spec;

use sail_base::{Boxed, Items, Text};
use sail_types::{Con, Index, Typ};
use std::alloc::{AllocError, Global};
use type_arguments::copy_indices;
use value_indices::{Indices, Reading, zero_num};

/// Where a part of a written type stands.
pub enum Region {
    /// In what is opened where the type is, under so many variables that it binds.
    Opened(u32),
    /// In a list, a vector or a named type, under variables of these names, the innermost first.
    Kept(Items<Text>),
}

impl Drop for Region {
    fn drop(self) {
        match self {
            Region::Opened(_) => {}
            Region::Kept(_) => {}
        }
    }
}

/// Names once more. It fails where memory is wanting.
fn copy_names(alloc: Global, names: &[Text]) -> Result<Items<Text>, AllocError>
    ensures { IfOk result (λ copies. copies ≡ names.now) }
{
    let mut copies = Items::new(alloc);
    for name in names {
        copies.push(name.clone()?)?;
    }
    Ok(copies)
}

/// The region of what is in a list, a vector or a named type. It fails where memory is wanting.
pub fn inward(alloc: Global, region: &Region) -> Result<Region, AllocError>
    ensures { IfOk result (λ inner. inner ≡ spec.inward region.now) }
{
    match region {
        Region::Opened(depth) => {
            if *depth == 0 {
                Ok(Region::Kept(Items::new(alloc)))
            } else {
                Ok(Region::Opened(*depth))
            }
        }
        Region::Kept(names) => Ok(Region::Kept(copy_names(alloc, names.as_slice())?)),
    }
}

/// So many binders and one more. It fails past the largest count.
fn further_in(depth: u32) -> Result<u32, AllocError>
    ensures { IfOk result (λ more. more ≡ suc depth) }
{
    match depth.checked_add(1) {
        Some(more) => Ok(more),
        None => Err(AllocError),
    }
}

/// The region under a variable of this name that the type binds. It fails where memory is wanting.
pub fn under(alloc: Global, name: &Text, region: &Region) -> Result<Region, AllocError>
    ensures { IfOk result (λ inner. inner ≡ spec.under name.now region.now) }
{
    match region {
        Region::Opened(depth) => Ok(Region::Opened(further_in(*depth)?)),
        Region::Kept(names) => {
            let mut inner = Items::new(alloc);
            inner.push(name.clone()?)?;
            inner.append(copy_names(alloc, names.as_slice())?)?;
            Ok(Region::Kept(inner))
        }
    }
}

/// What variables stand for inside a type that binds one and is opened. It fails where memory is wanting.
fn inside(alloc: Global, numbers: &[Index]) -> Result<Items<Index>, AllocError>
    ensures { IfOk result (λ made. made ≡ spec.inside numbers.now) }
{
    let mut made = Items::new(alloc);
    made.push(Index::Number(zero_num(alloc)))?;
    made.append(copy_indices(alloc, numbers)?)?;
    Ok(made)
}

/// What variables stand for under one more that the type binds. It fails where memory is wanting.
pub fn numbers_under(
    alloc: Global,
    region: &Region,
    numbers: &[Index],
) -> Result<Items<Index>, AllocError>
    ensures { IfOk result (λ made. made ≡ spec.numbers_under region.now numbers.now) }
{
    match region {
        Region::Opened(_) => inside(alloc, numbers),
        Region::Kept(_) => copy_indices(alloc, numbers),
    }
}

/// A type under variables of these names, the innermost first. It fails where memory is wanting.
fn bound_by(alloc: Global, names: &[Text], typ: Typ) -> Result<Typ, AllocError>
    ensures { IfOk result (λ made. made ≡ spec.bound_by names.now typ) }
{
    let mut made = typ;
    for name in names {
        made = Typ::Exists(name.clone()?, Con::Truth(true), Boxed::new(alloc, made)?);
    }
    Ok(made)
}

/// What has the sizes of a type that isn't opened, under variables of these names. It fails where memory is wanting.
pub fn kept(
    alloc: Global,
    names: &[Text],
    numbers: &[Index],
    typ: Typ,
) -> Result<Indices, AllocError>
    ensures { IfOk result (λ made. made ≡ spec.kept names.now numbers.now typ) }
{
    let typ = bound_by(alloc, names, typ)?;
    let numbers = copy_indices(alloc, numbers)?;
    let reading = Reading::Of(typ, numbers, Items::new(alloc));
    Ok(Indices::List(Boxed::new(alloc, reading)?))
}
