ghost use Rattle.std.specs.Prelude.{◌≡◌, ◌++◌, map, IfOk, OnOk};
ghost use Rattle.sail_syntax.specs.Bound.{names, names_of_joined, in_order};

use crate::name::Name;
use crate::patterns::{Joined, Pat};
use sail_base::Items;
use std::alloc::{AllocError, Global};

/// The names of a pattern, in text order: its bare identifiers and the names behind its `as`. It
/// fails where memory is wanting.
pub fn names_of(alloc: Global, pattern: &Pat) -> Result<Items<Name>, AllocError>
    ensures { IfOk result (λ list. list ≡ names pattern.now) }
{
    let mut list = Items::new(alloc);
    push_names(pattern, &mut list)?;
    Ok(list)
}

/// Puts the names of a pattern at the end of a list. Where memory is wanting, some may be there.
#[cycle(names)]
pub fn push_names(pattern: &Pat, list: &mut Items<Name>) -> Result<(), AllocError>
    ensures { OnOk result (list.new ≡ list.old ++ names pattern.now) }
{
    match pattern {
        Pat::Bind(name) => list.push(name.clone()?),
        Pat::Construct(_, parts) => push_all_names(parts.as_slice(), list),
        Pat::Group(_, _, parts) => push_all_names(parts.as_slice(), list),
        Pat::Concat {
            first,
            second,
            more,
            ..
        } => {
            push_names(first.get(), list)?;
            push_names(second.get(), list)?;
            push_joined_names(more.as_slice(), list)
        }
        Pat::Cons(_, head, tail) => {
            push_names(head.get(), list)?;
            push_names(tail.get(), list)
        }
        Pat::As(_, part, name) => {
            push_names(part.get(), list)?;
            list.push(name.clone()?)
        }
        Pat::Typed(_, part, _) => push_names(part.get(), list),
        _ => Ok(()),
    }
}

#[cycle(names)]
fn push_all_names(patterns: &[Pat], list: &mut Items<Name>) -> Result<(), AllocError>
    ensures { OnOk result (list.new ≡ list.old ++ in_order (map names patterns.now)) }
{
    for pattern in patterns {
        push_names(pattern, list)?;
    }
    Ok(())
}

#[cycle(names)]
fn push_joined_names(parts: &[Joined], list: &mut Items<Name>) -> Result<(), AllocError>
    ensures { OnOk result (list.new ≡ list.old ++ in_order (map names_of_joined parts.now)) }
{
    for joined in parts {
        push_names(&joined.part, list)?;
    }
    Ok(())
}
