//! Signatures under which code can be chosen before a value is there: what comes in and goes out has one type.
ghost use Rattle.std.specs.Prelude.{◌≡◌, ◌++◌, map, IfOk, OnOk};
ghost use Rattle.lowered_pieces.specs.Nodes.{all_plain, plain_told, told_as};

use sail_base::Items;
use size_values::{Sized, copy_sized};
use sized_nodes::Told;
use std::alloc::{AllocError, Global};

/// Whether a value that comes in or goes out has one type.
pub fn is_plain_told(told: &Told) -> bool
    ensures { result ≡ plain_told told.now }
{
    match told.cases.as_slice() {
        [only] => only.picked.is_empty(),
        _ => false,
    }
}

/// Whether all do.
pub fn are_plain_told(told: &[Told]) -> bool
    ensures { result ≡ all_plain told.now }
{
    match told {
        [] => true,
        [one, rest @ ..] => is_plain_told(one) && are_plain_told(rest),
    }
}

/// The type of such a value; that of what doesn't exist where it has none. It fails where memory is wanting.
pub fn told_type(alloc: Global, told: &Told) -> Result<Sized, AllocError>
    ensures { IfOk result (λ typ. typ ≡ told_as told.now) }
{
    match told.cases.as_slice() {
        [only] => copy_sized(alloc, &only.gives),
        _ => Ok(Sized::Never),
    }
}

/// The types of such values come behind others. They fail where memory is wanting.
fn push_types(alloc: Global, told: &[Told], types: &mut Items<Sized>) -> Result<(), AllocError>
    ensures { OnOk result (types.new ≡ types.old ++ map told_as told.now) }
{
    match told {
        [] => Ok(()),
        [first, rest @ ..] => {
            let typ = told_type(alloc, first)?;
            types.push(typ)?;
            push_types(alloc, rest, types)
        }
    }
}

/// The types of such values. They fail where memory is wanting.
pub fn told_types(alloc: Global, told: &[Told]) -> Result<Items<Sized>, AllocError>
    ensures { IfOk result (λ types. types ≡ map told_as told.now) }
{
    let mut types = Items::new(alloc);
    push_types(alloc, told, &mut types)?;
    Ok(types)
}
