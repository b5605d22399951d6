ghost use Rattle.std.specs.Prelude.{◌≡◌, IfOk, slice_get};
ghost use Rattle.std.specs.List.{list_any};
ghost use Rattle.std.specs.Option.{option_copied};
ghost use Rattle.sail_bodies.specs.Voids.{has_void as has_void_of, voids_within as voids_of, form_voids, definition_voids as voids_of_definition, fields_void};
ghost use Rattle.sail_types.specs.declared.types.Typ.{out-Typ};

use sail_types::{Definition, Field, Form, Index, Typ, deepest};
use std::alloc::{AllocError, Global};
use type_arguments::{applied_typ, is_void};

/// Whether an empty range, or a negative width, stands in the fields of the structs in a type.
pub(crate) fn has_void(alloc: Global, table: &[Definition], typ: &Typ) -> Result<bool, AllocError>
    ensures { IfOk result (λ found. found ≡ has_void_of table.now typ.now) }
{
    voids_within(alloc, table, deepest(), typ)
}

/// Likewise, through types inside types to this depth.
#[cycle(voids)]
#[tactic(auto, using(crate::proofs::Depths::below))]
fn voids_within(
    alloc: Global,
    table: &[Definition],
    depth: usize,
    typ: &Typ,
) -> Result<bool, AllocError>
    ensures { IfOk result (λ found. found ≡ voids_of table.now depth typ.now) }
{
    if depth == 0 {
        return Ok(false);
    }
    voids_of_form(alloc, table, depth - 1, typ)
}

/// Likewise, the types inside it to this depth.
#[cycle(voids)]
fn voids_of_form(
    alloc: Global,
    table: &[Definition],
    depth: usize,
    typ: &Typ,
) -> Result<bool, AllocError>
    ensures { IfOk result (λ found. found ≡ form_voids (voids_of table.now depth) table.now (out-Typ typ.now)) }
{
    match typ {
        Typ::List(part) => voids_within(alloc, table, depth, part.get()),
        Typ::Vector(_, part) => voids_within(alloc, table, depth, part.get()),
        Typ::Exists(_, _, part) => voids_within(alloc, table, depth, part.get()),
        Typ::Tuple(parts) => any_voids(alloc, table, depth, parts.as_slice()),
        Typ::Named(place, indices, types) => {
            if any_voids(alloc, table, depth, types.as_slice())? {
                return Ok(true);
            }
            definition_voids(
                alloc,
                table,
                depth,
                indices.as_slice(),
                types.as_slice(),
                definition_at(table, *place),
            )
        }
        _ => Ok(false),
    }
}

/// The definition at a place of the table.
fn definition_at(table: &[Definition], place: u32) -> Option<&Definition>
    ensures { option_copied result ≡ slice_get table.now place }
{
    table.get(place as usize)
}

#[cycle(voids)]
fn any_voids(
    alloc: Global,
    table: &[Definition],
    depth: usize,
    types: &[Typ],
) -> Result<bool, AllocError>
    ensures { IfOk result (λ found. found ≡ list_any (voids_of table.now depth) types.now) }
{
    for typ in types {
        if voids_within(alloc, table, depth, typ)? {
            return Ok(true);
        }
    }
    Ok(false)
}

/// Whether one stands in the fields of this definition at these arguments, where it is a struct.
#[cycle(voids)]
fn definition_voids(
    alloc: Global,
    table: &[Definition],
    depth: usize,
    indices: &[Index],
    types: &[Typ],
    definition: Option<&Definition>,
) -> Result<bool, AllocError>
    ensures { IfOk result (λ found. found ≡ voids_of_definition (voids_of table.now depth) indices.now types.now (option_copied definition.entry)) }
{
    match definition {
        None => Ok(false),
        Some(definition) => match &definition.form {
            Form::Struct(fields) => any_field_voids(
                alloc,
                table,
                depth,
                indices,
                types,
                fields.as_slice(),
            ),
            _ => Ok(false),
        },
    }
}

#[cycle(voids)]
fn any_field_voids(
    alloc: Global,
    table: &[Definition],
    depth: usize,
    indices: &[Index],
    types: &[Typ],
    fields: &[Field],
) -> Result<bool, AllocError>
    ensures { IfOk result (λ found. found ≡ fields_void (voids_of table.now depth) indices.now types.now fields.now) }
{
    for field in fields {
        match applied_typ(alloc, indices, types, &field.typ)? {
            None => return Ok(true),
            Some(typ) => {
                if is_void(&typ) || voids_within(alloc, table, depth, &typ)? {
                    return Ok(true);
                }
            }
        }
    }
    Ok(false)
}
