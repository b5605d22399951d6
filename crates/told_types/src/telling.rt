//! Types whose sizes a value tells where it is opened.
ghost use Rattle.std.specs.Prelude.{◌≡◌, IfOk};
ghost use Rattle.sail_types.specs.declared.types.Typ.{out-Typ};
ghost use Rattle.size_values.specs.Numbers as numbers;
ghost use Rattle.told_sizes.specs.Exact as spec;

use crate::settling::{any_before, typ_settles};
use sail_types::{Index, Typ, Types};
use size_values::{Constant, Variables, bound_before};
use std::alloc::{AllocError, Global};
use told_sizes::{are_told, is_one_of, is_told};

/// Whether a value of a type tells its sizes, behind what the type binds at its front, through types inside types to this depth. It fails where memory
/// is wanting.
#[cycle(tells)]
#[tactic(auto, using(told_sizes::proofs::Depths::tells_below))]
fn typ_tells(
    alloc: Global,
    types: &Types,
    depth: usize,
    typ: &Typ,
    count: usize,
    indices: &[Index],
    constants: &[Constant],
    variables: &Variables<'_>,
) -> Result<bool, AllocError>
    ensures { IfOk result (λ tells. tells
        ≡ spec.typ_tells types.now (numbers.meant variables.now) depth typ.now count indices.now constants.now) }
{
    if depth == 0 {
        return Ok(false);
    }
    form_tells(
        alloc,
        types,
        depth - 1,
        typ,
        count,
        indices,
        constants,
        variables,
    )
}

/// The same by its form, to this depth of the types inside it.
#[cycle(tells)]
fn form_tells(
    alloc: Global,
    types: &Types,
    depth: usize,
    typ: &Typ,
    count: usize,
    indices: &[Index],
    constants: &[Constant],
    variables: &Variables<'_>,
) -> Result<bool, AllocError>
    ensures { IfOk result (λ tells. tells
        ≡ spec.form_tells types.now (numbers.meant variables.now) (spec.typ_settles types.now (numbers.meant variables.now) depth)
        (spec.typ_tells types.now (numbers.meant variables.now) depth) (out-Typ typ.now) count indices.now constants.now) }
{
    match typ {
        Typ::Bits(width) => is_told(alloc, width, indices, constants, variables),
        Typ::Vector(length, _) => is_told(alloc, length, indices, constants, variables),
        Typ::Tuple(parts) => all_tell(
            alloc,
            types,
            depth,
            parts.as_slice(),
            count,
            indices,
            constants,
            variables,
        ),
        Typ::Named(place, arguments, _) => {
            let arguments = arguments.as_slice();
            are_told(
                alloc, types, *place, arguments, indices, constants, variables,
            )
        }
        Typ::Variable(position) => Ok(is_one_of(*position, count)),
        Typ::Exists(name, _, part) => {
            let indices = any_before(alloc, indices)?;
            let constants = bound_before(alloc, name, constants)?;
            typ_settles(
                alloc,
                types,
                depth,
                part.get(),
                count,
                indices.as_slice(),
                constants.as_slice(),
                variables,
            )
        }
        _ => Ok(true),
    }
}

/// The same of each of these.
#[cycle(tells)]
fn all_tell(
    alloc: Global,
    types: &Types,
    depth: usize,
    parts: &[Typ],
    count: usize,
    indices: &[Index],
    constants: &[Constant],
    variables: &Variables<'_>,
) -> Result<bool, AllocError>
    ensures { IfOk result (λ tell. tell
        ≡ spec.all_settle (spec.typ_tells types.now (numbers.meant variables.now) depth) parts.now count indices.now constants.now) }
{
    for part in parts {
        let tells = typ_tells(
            alloc, types, depth, part, count, indices, constants, variables,
        )?;
        if !tells {
            return Ok(false);
        }
    }
    Ok(true)
}

/// Whether a value of a type tells its sizes: so many Type variables are its own, and its other ones stand for these, and are these. It fails where
/// memory is wanting.
#[cycle(front_tells)]
#[tactic(auto, using(told_sizes::proofs::Depths::front_below))]
pub fn front_tells(
    alloc: Global,
    types: &Types,
    depth: usize,
    typ: &Typ,
    count: usize,
    indices: &[Index],
    constants: &[Constant],
    variables: &Variables<'_>,
) -> Result<bool, AllocError>
    ensures { IfOk result (λ tells. tells
        ≡ spec.front_tells types.now (numbers.meant variables.now) depth typ.now count indices.now constants.now) }
{
    if depth == 0 {
        return Ok(false);
    }
    front_form(
        alloc,
        types,
        depth - 1,
        typ,
        count,
        indices,
        constants,
        variables,
    )
}

/// The same by its form, to this depth of the types inside it.
#[cycle(front_tells)]
fn front_form(
    alloc: Global,
    types: &Types,
    depth: usize,
    typ: &Typ,
    count: usize,
    indices: &[Index],
    constants: &[Constant],
    variables: &Variables<'_>,
) -> Result<bool, AllocError>
    ensures { IfOk result (λ tells. tells
        ≡ spec.front_form (spec.front_tells types.now (numbers.meant variables.now) depth)
        (spec.form_tells types.now (numbers.meant variables.now) (spec.typ_settles types.now (numbers.meant variables.now) depth)
        (spec.typ_tells types.now (numbers.meant variables.now) depth) (out-Typ typ.now)) (out-Typ typ.now) count indices.now constants.now) }
{
    match typ {
        Typ::Exists(name, _, part) => {
            let indices = any_before(alloc, indices)?;
            let constants = bound_before(alloc, name, constants)?;
            front_tells(
                alloc,
                types,
                depth,
                part.get(),
                count,
                indices.as_slice(),
                constants.as_slice(),
                variables,
            )
        }
        _ => form_tells(
            alloc, types, depth, typ, count, indices, constants, variables,
        ),
    }
}
