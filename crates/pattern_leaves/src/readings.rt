//! Types that are written.
ghost use Rattle.std.specs.Prelude.{◌≡◌, IfOk};
ghost use Rattle.pattern_leaves.specs.Settings as settings;

use crate::around::Around;
use sail_base::Items;
use sail_core::Written;
use sail_types::Typ;
use std::alloc::{AllocError, Global};
use type_arguments::{copy_indices, copy_typ};
use value_indices::Reading;

/// A type under the type variables of the function. It fails where memory is wanting.
pub fn type_in(alloc: Global, around: &Around<'_>, typ: &Typ) -> Result<Reading, AllocError>
    ensures { IfOk result (λ made. made ≡ settings.type_in (settings.around_of around.now) typ.now) }
{
    let typ = copy_typ(alloc, typ)?;
    let numbers = copy_indices(alloc, around.numbers)?;
    Ok(Reading::Of(typ, numbers, Items::new(alloc)))
}

/// A type that is written. It fails where memory is wanting.
pub fn written_in(
    alloc: Global,
    around: &Around<'_>,
    written: &Written,
) -> Result<Reading, AllocError>
    ensures { IfOk result (λ made. made ≡ settings.written_in (settings.around_of around.now) written.now) }
{
    type_in(alloc, around, &written.typ)
}
