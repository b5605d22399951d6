ghost use Rattle.std.specs.Prelude.{◌≡◌, [], ◌∷◌, ◌++◌, if◌then◌else◌, map, OnOk};
ghost use Rattle.sail_syntax.specs.Bound.{in_order};
ghost use Rattle.sail_globals.specs.Bound.{bound, bound_by_joined, is_plain as is_plain_pattern};
ghost use Rattle.sail_globals.specs.Held.{has_member};

use crate::members::Members;
use sail_base::Items;
use sail_syntax::{Joined, Name, Pat};
use std::alloc::AllocError;

/// Puts the names that a pattern of a top-level `let` binds at the end of a list, in text order. Where memory
/// is wanting, some may be there.
#[cycle(bound)]
pub fn push_bound(
    members: &Members,
    pattern: &Pat,
    list: &mut Items<Name>,
) -> Result<(), AllocError>
    ensures { OnOk result (list.new ≡ list.old ++ bound (has_member members.now) pattern.now) }
{
    match pattern {
        Pat::Bind(name) => push_name(members, name, list),
        Pat::Construct(_, parts) => push_all_bound(members, parts.as_slice(), list),
        Pat::Group(_, _, parts) => push_all_bound(members, parts.as_slice(), list),
        Pat::Concat {
            first,
            second,
            more,
            ..
        } => {
            push_bound(members, first.get(), list)?;
            push_bound(members, second.get(), list)?;
            push_joined_bound(members, more.as_slice(), list)
        }
        Pat::Cons(_, head, tail) => {
            push_bound(members, head.get(), list)?;
            push_bound(members, tail.get(), list)
        }
        Pat::As(_, part, name) => {
            push_bound(members, part.get(), list)?;
            list.push(name.clone()?)
        }
        Pat::Typed(_, part, _) => push_bound(members, part.get(), list),
        _ => Ok(()),
    }
}

#[cycle(bound)]
fn push_all_bound(
    members: &Members,
    patterns: &[Pat],
    list: &mut Items<Name>,
) -> Result<(), AllocError>
    ensures { OnOk result (list.new ≡ list.old ++ in_order (map (bound (has_member members.now)) patterns.now)) }
{
    for pattern in patterns {
        push_bound(members, pattern, list)?;
    }
    Ok(())
}

#[cycle(bound)]
fn push_joined_bound(
    members: &Members,
    parts: &[Joined],
    list: &mut Items<Name>,
) -> Result<(), AllocError>
    ensures { OnOk result (list.new ≡ list.old ++ in_order (map (bound_by_joined (has_member members.now)) parts.now)) }
{
    for joined in parts {
        push_bound(members, &joined.part, list)?;
    }
    Ok(())
}

fn push_name(members: &Members, name: &Name, list: &mut Items<Name>) -> Result<(), AllocError>
    ensures { OnOk result (list.new ≡ list.old ++ (if has_member members.now name.now.text then [] else name.now ∷ [])) }
{
    if members.has(name.text.as_str()) {
        Ok(())
    } else {
        list.push(name.clone()?)
    }
}

/// Whether a pattern is one identifier, annotated or not.
pub(crate) fn is_plain(pattern: &Pat) -> bool
    ensures { result ≡ is_plain_pattern pattern.now }
{
    match pattern {
        Pat::Bind(_) => true,
        Pat::Typed(_, part, _) => is_plain(part.get()),
        _ => false,
    }
}
