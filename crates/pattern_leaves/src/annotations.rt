//! Types that are written at names.
ghost use Rattle.std.specs.Prelude.{◌≡◌, IfOk, map};
ghost use Rattle.value_indices.specs.declared.indices.Naming.{out-Naming};
ghost use Rattle.value_indices.specs.declared.indices.Naming.TheOpen as G;
ghost use Rattle.pattern_leaves.specs.Annotations as spec;

use crate::names::Bound;
use sail_base::{Items, Text};
use std::alloc::{AllocError, Global};
use value_indices::{Naming, Reading, copy_reading};

/// Names, of which that for a whole value has the type written at it. It fails where memory is wanting.
#[tactic(auto, using(crate::proofs::Unwritten::unnamed_writes, crate::proofs::Unwritten::parts_write))]
pub fn write_named(
    alloc: Global,
    naming: &Naming,
    reading: &Reading,
    found: Items<Bound>,
) -> Result<Items<Bound>, AllocError>
    ensures { IfOk result (λ made. made ≡ map (spec.written_at (out-Naming naming.now) reading.now) found) }
{
    match naming {
        Naming::Unnamed => Ok(found),
        Naming::Named(name) => write_each(alloc, name, reading, found),
        Naming::Parts(_) => Ok(found),
    }
}

/// Names, of which this one has the type written at it. It fails where memory is wanting.
fn write_each(
    alloc: Global,
    name: &Text,
    reading: &Reading,
    found: Items<Bound>,
) -> Result<Items<Bound>, AllocError>
    ensures { IfOk result (λ made. made ≡ map (spec.written_at (G.Named name.now) reading.now) found) }
{
    let mut all = Items::new(alloc);
    for bound in found.into_vec() {
        all.push(write_one(alloc, name, reading, bound)?)?;
    }
    Ok(all)
}

/// A name, with the type written at it if it is this one. It fails where memory is wanting.
fn write_one(
    alloc: Global,
    name: &Text,
    reading: &Reading,
    mut bound: Bound,
) -> Result<Bound, AllocError>
    ensures { IfOk result (λ made. made ≡ spec.written_at (G.Named name.now) reading.now bound) }
{
    if bound.name.as_str() == name.as_str() {
        bound.written = Some(copy_reading(alloc, reading)?);
    }
    Ok(bound)
}
