//! Types all of whose sizes are constants for certain.
ghost use Rattle.std.specs.Prelude.{◌≡◌, IfOk};
ghost use Rattle.std.specs.List.{list_all};
ghost use Rattle.sail_types.specs.Named.{field_types};
ghost use Rattle.sail_types.specs.declared.types.Typ.{out-Typ};
ghost use Rattle.size_values.specs.Numbers as numbers;
ghost use Rattle.told_sizes.specs.Exact as spec;

use sail_types::{Field, Index, Typ, Types};
use size_values::{Constant, Variables, bound_before, fields_of};
use std::alloc::{AllocError, Global};
use told_sizes::{
    Applied, applied_at, are_exact, both, is_exact, is_one_of, open_constants, was_seen, with_first,
};

/// Whether all sizes of a type are constants for certain, through types inside types to this depth: so many Type variables are its own, and its
/// other ones are these; the fields and payloads of named types that were seen are passed over. It fails where memory is wanting.
#[cycle(passes)]
#[tactic(auto, using(told_sizes::proofs::Depths::passes_below))]
pub fn typ_passes(
    alloc: Global,
    types: &Types,
    depth: usize,
    typ: &Typ,
    seen: &[Applied],
    count: usize,
    constants: &[Constant],
) -> Result<bool, AllocError>
    ensures { IfOk result (λ passes. passes ≡ spec.typ_passes types.now depth typ.now seen.now count constants.now) }
{
    if depth == 0 {
        return Ok(false);
    }
    form_passes(alloc, types, depth - 1, typ, seen, count, constants)
}

/// The same by its form, to this depth of the types inside it.
#[cycle(passes)]
fn form_passes(
    alloc: Global,
    types: &Types,
    depth: usize,
    typ: &Typ,
    seen: &[Applied],
    count: usize,
    constants: &[Constant],
) -> Result<bool, AllocError>
    ensures { IfOk result (λ passes. passes
        ≡ spec.form_passes types.now (spec.typ_passes types.now depth) (out-Typ typ.now) seen.now count constants.now) }
{
    match typ {
        Typ::Bits(width) => Ok(is_exact(width, &Variables::Arguments(constants))),
        Typ::List(item) => typ_passes(alloc, types, depth, item.get(), seen, count, constants),
        Typ::Vector(length, item) => {
            let passes = typ_passes(alloc, types, depth, item.get(), seen, count, constants)?;
            Ok(both(is_exact(length, &Variables::Arguments(constants)), passes))
        }
        Typ::Tuple(parts) => {
            all_pass(
                alloc,
                types,
                depth,
                parts.as_slice(),
                seen,
                count,
                constants,
            )
        }
        Typ::Named(place, arguments, parts) => {
            let parts = parts.as_slice();
            let pass = all_pass(alloc, types, depth, parts, seen, count, constants)?;
            let variables = Variables::Arguments(constants);
            let arguments = arguments.as_slice();
            let passes = named_passes(
                alloc,
                types,
                depth,
                *place,
                arguments,
                parts.len(),
                &variables,
                seen,
            )?;
            Ok(both(pass, passes))
        }
        Typ::Variable(position) => Ok(is_one_of(*position, count)),
        Typ::Exists(name, _, part) => {
            let constants = bound_before(alloc, name, constants)?;
            let constants = constants.as_slice();
            typ_passes(alloc, types, depth, part.get(), seen, count, constants)
        }
        _ => Ok(true),
    }
}

/// The same of each of these.
#[cycle(passes)]
pub fn all_pass(
    alloc: Global,
    types: &Types,
    depth: usize,
    parts: &[Typ],
    seen: &[Applied],
    count: usize,
    constants: &[Constant],
) -> Result<bool, AllocError>
    ensures { IfOk result (λ pass. pass ≡ spec.all_pass (spec.typ_passes types.now depth) parts.now seen.now count constants.now) }
{
    for part in parts {
        if !typ_passes(alloc, types, depth, part, seen, count, constants)? {
            return Ok(false);
        }
    }
    Ok(true)
}

/// The same of the named type at a place under these arguments.
#[cycle(passes)]
pub fn named_passes(
    alloc: Global,
    types: &Types,
    depth: usize,
    place: u32,
    arguments: &[Index],
    count: usize,
    variables: &Variables<'_>,
    seen: &[Applied],
) -> Result<bool, AllocError>
    ensures { IfOk result (λ passes. passes
        ≡ spec.named_passes types.now (spec.typ_passes types.now depth) (numbers.meant variables.now) place arguments.now count seen.now) }
{
    if !are_exact(alloc, types, place, arguments, variables)? {
        return Ok(false);
    }
    let applied = applied_at(alloc, types, place, arguments, count, variables)?;
    fields_pass(alloc, types, depth, &applied, seen)
}

/// The same of its fields and payloads, unless it was seen.
#[cycle(passes)]
fn fields_pass(
    alloc: Global,
    types: &Types,
    depth: usize,
    applied: &Applied,
    seen: &[Applied],
) -> Result<bool, AllocError>
    ensures { IfOk result (λ pass. pass ≡ spec.fields_pass types.now (spec.typ_passes types.now depth) applied.now seen.now) }
{
    if was_seen(applied, seen) {
        return Ok(true);
    }
    let seen = with_first(alloc, applied, seen)?;
    let constants = open_constants(alloc, applied.numbers.as_slice())?;
    each_passes(
        alloc,
        types,
        depth,
        fields_of(types, applied.place),
        seen.as_slice(),
        applied.count,
        constants.as_slice(),
    )
}

/// The same of each of these fields.
#[cycle(passes)]
fn each_passes(
    alloc: Global,
    types: &Types,
    depth: usize,
    fields: &[Field],
    seen: &[Applied],
    count: usize,
    constants: &[Constant],
) -> Result<bool, AllocError>
    ensures { IfOk result (λ pass. pass
        ≡ spec.all_pass (spec.typ_passes types.now depth) (field_types fields.now) seen.now count constants.now) }
{
    for field in fields {
        if !typ_passes(alloc, types, depth, &field.typ, seen, count, constants)? {
            return Ok(false);
        }
    }
    Ok(true)
}
