//! Sizes of types that stay what they are where a value is opened.
ghost use Rattle.std.specs.Prelude.{◌≡◌, ◌∷◌, IfOk};
ghost use Rattle.sail_types.specs.Sums.{variable};
ghost use Rattle.sail_types.specs.declared.numbers.Index.TheVariants as N;
ghost use Rattle.sail_types.specs.declared.types.Typ.{out-Typ};
ghost use Rattle.size_values.specs.Numbers as numbers;
ghost use Rattle.told_sizes.specs.Exact as spec;

use crate::passing::{all_pass, typ_passes};
use sail_base::Items;
use sail_types::{Index, Num, Typ, Types, copy_index};
use size_values::{Constant, Variables, bound_before};
use std::alloc::{AllocError, Global};
use told_sizes::{are_said, both, is_one_of, is_said};

/// What the variables of a type stand for, with any variable in front for one that the type binds. They fail where memory is wanting.
pub fn any_before(alloc: Global, indices: &[Index]) -> Result<Items<Index>, AllocError>
    ensures { IfOk result (λ made. made ≡ N.Number (variable 0) ∷ indices.now) }
{
    let mut made = Items::new(alloc);
    made.push(Index::Number(Num::variable(alloc, 0)?))?;
    for index in indices {
        made.push(copy_index(alloc, index)?)?;
    }
    Ok(made)
}

/// Whether the sizes of a type can be said by what its variables stand for, and those of items and arguments are constants for certain, through
/// types inside types to this depth: so many Type variables are its own, and its other ones stand for these, and are these. It fails where memory is
/// wanting.
#[cycle(settles)]
#[tactic(auto, using(told_sizes::proofs::Depths::settles_below))]
pub fn typ_settles(
    alloc: Global,
    types: &Types,
    depth: usize,
    typ: &Typ,
    count: usize,
    indices: &[Index],
    constants: &[Constant],
    variables: &Variables<'_>,
) -> Result<bool, AllocError>
    ensures { IfOk result (λ settles. settles
        ≡ spec.typ_settles types.now (numbers.meant variables.now) depth typ.now count indices.now constants.now) }
{
    if depth == 0 {
        return Ok(false);
    }
    form_settles(
        alloc,
        types,
        depth - 1,
        typ,
        count,
        indices,
        constants,
        variables,
    )
}

/// The same by its form, to this depth of the types inside it.
#[cycle(settles)]
fn form_settles(
    alloc: Global,
    types: &Types,
    depth: usize,
    typ: &Typ,
    count: usize,
    indices: &[Index],
    constants: &[Constant],
    variables: &Variables<'_>,
) -> Result<bool, AllocError>
    ensures { IfOk result (λ settles. settles
        ≡ spec.form_settles types.now (numbers.meant variables.now) (spec.typ_passes types.now depth)
        (spec.typ_settles types.now (numbers.meant variables.now) depth) (out-Typ typ.now) count indices.now constants.now) }
{
    match typ {
        Typ::Bits(width) => is_said(alloc, width, indices, constants, variables),
        Typ::List(item) => typ_passes(alloc, types, depth, item.get(), &[], count, constants),
        Typ::Vector(length, item) => {
            let said = is_said(alloc, length, indices, constants, variables)?;
            let passes = typ_passes(alloc, types, depth, item.get(), &[], count, constants)?;
            Ok(both(said, passes))
        }
        Typ::Tuple(parts) => all_settle(
            alloc,
            types,
            depth,
            parts.as_slice(),
            count,
            indices,
            constants,
            variables,
        ),
        Typ::Named(place, arguments, parts) => {
            let arguments = arguments.as_slice();
            let said = are_said(
                alloc, types, *place, arguments, indices, constants, variables,
            )?;
            let parts = parts.as_slice();
            let pass = all_pass(alloc, types, depth, parts, &[], count, constants)?;
            Ok(both(said, pass))
        }
        Typ::Variable(position) => Ok(is_one_of(*position, count)),
        Typ::Exists(name, _, part) => {
            let indices = any_before(alloc, indices)?;
            let constants = bound_before(alloc, name, constants)?;
            typ_settles(
                alloc,
                types,
                depth,
                part.get(),
                count,
                indices.as_slice(),
                constants.as_slice(),
                variables,
            )
        }
        _ => Ok(true),
    }
}

/// The same of each of these.
#[cycle(settles)]
fn all_settle(
    alloc: Global,
    types: &Types,
    depth: usize,
    parts: &[Typ],
    count: usize,
    indices: &[Index],
    constants: &[Constant],
    variables: &Variables<'_>,
) -> Result<bool, AllocError>
    ensures { IfOk result (λ settle. settle
        ≡ spec.all_settle (spec.typ_settles types.now (numbers.meant variables.now) depth) parts.now count indices.now constants.now) }
{
    for part in parts {
        let settles = typ_settles(
            alloc, types, depth, part, count, indices, constants, variables,
        )?;
        if !settles {
            return Ok(false);
        }
    }
    Ok(true)
}
