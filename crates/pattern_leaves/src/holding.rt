//! Names in scope.
ghost use Rattle.std.specs.Prelude.{◌≡◌, IfOk};
ghost use Rattle.std.specs.Option.{option_copied};
ghost use Rattle.pattern_leaves.specs.Settings as settings;

use crate::names::{Bound, Held};
use sail_base::Text;
use std::alloc::{AllocError, Global};
use value_indices::{Indices, Reading, copy_indices};

/// A name of a value of these indices. It fails where memory is wanting.
pub fn name_value(alloc: Global, name: &Text, indices: &Indices) -> Result<Bound, AllocError>
    ensures { IfOk result (λ made. made ≡ settings.bound name.now indices.now) }
{
    let held = Held::Value(copy_indices(alloc, indices)?);
    let name = name.clone()?;
    Ok(Bound {
        name,
        held,
        written: None,
    })
}

/// A name of a `var` of this type. It fails where memory is wanting.
pub fn name_var(name: &Text, reading: Reading) -> Result<Bound, AllocError>
    ensures { IfOk result (λ made. made ≡ settings.declared name.now reading) }
{
    let name = name.clone()?;
    Ok(Bound {
        name,
        held: Held::Var(reading),
        written: None,
    })
}

/// What a name is: the first of these names that is the same; none where there is no such name.
pub fn held_in<'a>(name: &str, scope: &'a [Bound]) -> Option<&'a Held>
    ensures { option_copied result ≡ settings.held_in name.now scope.now }
{
    for bound in scope {
        if bound.name.as_str() == name {
            return Some(&bound.held);
        }
    }
    None
}
