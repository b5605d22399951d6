//! Types that have no variable, and options of them.
ghost use Rattle.std.specs.Prelude.{◌≡◌, IfOk};
ghost use Rattle.sail_types.specs.declared.table.Types.{Types as Table};
ghost use Rattle.sail_types.specs.declared.types.Typ.{Typ as Written};
ghost use Rattle.sail_core.specs.Meaning.{option_typ};
ghost use Rattle.checked_meaning.specs.Items.{fixed_typ};

use sail_base::Items;
use sail_types::{Typ, Types};
use size_values::{Sized, copy_sized, typ_sized};
use std::alloc::{AllocError, Global};

/// A type that has no variable, with constant sizes. It fails where memory is wanting.
pub fn fixed_type(alloc: Global, types: &Types, typ: &Typ) -> Result<Sized, AllocError>
    ensures { IfOk result (λ made. made ≡ fixed_typ types.now typ.now) }
{
    typ_sized(alloc, types, &[], typ, &[])
}

/// The type of options over a type. It fails where memory is wanting.
pub fn option_of(alloc: Global, payload: &Sized) -> Result<Sized, AllocError>
    ensures { IfOk result (λ made. (types : Table) → (t : Written) → payload.now ≡ fixed_typ types t → made ≡ fixed_typ types (option_typ t)) }
{
    let numbers = Items::new(alloc);
    let mut arguments = Items::new(alloc);
    arguments.push(copy_sized(alloc, payload)?)?;
    Ok(Sized::Named(0, numbers, arguments))
}
