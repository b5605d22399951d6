//! Types that are made of others, and named types, lent.
ghost use Rattle.std.specs.Prelude.{◌≡◌, ◌∷◌, IfOk};
ghost use Rattle.value_fits.specs.Fitting.{each_under as each_under_of};
ghost use Rattle.value_indices.specs.declared.indices.Reading.TheVariants as R;

use sail_base::Items;
use sail_types::{Index, Typ, copy_index};
use std::alloc::{AllocError, Global};
use type_arguments::{copy_indices, copy_typ};
use value_indices::{Reading, copy_readings};

/// A named type, lent: its place in the table, its Int and Bool arguments, and its Type arguments.
#[derive(Clone, Copy)]
pub struct Named<'a> {
    /// The place in the table of named types.
    pub place: u32,
    /// The Int and Bool arguments, in order.
    pub indices: &'a [Index],
    /// The Type arguments, in order.
    pub readings: &'a [Reading],
}

/// A type, where its variables stand for these.
fn under(
    alloc: Global,
    typ: &Typ,
    indices: &[Index],
    readings: &[Reading],
) -> Result<Reading, AllocError>
    ensures { IfOk result (λ made. made ≡ R.Of typ.now indices.now readings.now) }
{
    let typ = copy_typ(alloc, typ)?;
    let indices = copy_indices(alloc, indices)?;
    let readings = copy_readings(alloc, readings)?;
    Ok(Reading::Of(typ, indices, readings))
}

/// Types, where their variables stand for these. It fails where memory is wanting.
pub fn each_under(
    alloc: Global,
    types: &[Typ],
    indices: &[Index],
    readings: &[Reading],
) -> Result<Items<Reading>, AllocError>
    ensures { IfOk result (λ made. made ≡ each_under_of indices.now readings.now types.now) }
{
    let mut made = Items::new(alloc);
    for typ in types {
        made.push(under(alloc, typ, indices, readings)?)?;
    }
    Ok(made)
}

/// What variables stand for behind one binder more. It fails where memory is wanting.
pub fn behind(alloc: Global, first: Index, indices: &[Index]) -> Result<Items<Index>, AllocError>
    ensures { IfOk result (λ made. made ≡ first ∷ indices.now) }
{
    let mut made = Items::new(alloc);
    made.push(first)?;
    for index in indices {
        made.push(copy_index(alloc, index)?)?;
    }
    Ok(made)
}
