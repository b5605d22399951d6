//! Types that have a zero, whatever their widths and lengths are.
ghost use Rattle.std.specs.Prelude.{◌≡◌, map, slice_get, unwrap_or, false, [], IfOk};
ghost use Rattle.sail_types.specs.Named.{field_types};
ghost use Rattle.sail_types.specs.declared.types.Typ.{out-Typ};
ghost use Rattle.shape_declarations.specs.Zeros.{has_zero as has_zero_of, zeroed_within as zeroed_to, form_zeroed as zeroed_by};
ghost use Rattle.shape_declarations.specs.Zeros.{each_zeroed as each_of, all_zeroed as all_of, range_zeroed as range_zeroed_of};
ghost use Rattle.shape_declarations.specs.Zeros.{table_zeroed as table_zeroed_of};

use sail_base::Items;
use sail_types::{Field, Form, Index, Num, Typ, Types, deepest, known_number, read_indices};
use std::alloc::{AllocError, Global};

/// Whether a register can have this type, whatever its widths and lengths are: `bits`, `bit`, `bool`, `unit`, a range whose ends are
/// constant and hold an integer, an enum, and a tuple, struct or vector of such types. The one error is want of memory.
pub fn has_zero(alloc: Global, types: &Types, typ: &Typ) -> Result<bool, AllocError>
    ensures { IfOk result (λ has. has ≡ has_zero_of types.now typ.now) }
{
    zeroed_within(alloc, types, deepest(), typ, &[], &[])
}

/// Whether a type has a zero, through types inside types to this depth, under what its Int and Bool variables stand for, and whether
/// what its Type variables stand for has one.
#[cycle(zeroed)]
#[tactic(auto, using(crate::proofs::Depths::below))]
fn zeroed_within(
    alloc: Global,
    types: &Types,
    depth: usize,
    typ: &Typ,
    indices: &[Index],
    given: &[bool],
) -> Result<bool, AllocError>
    ensures { IfOk result (λ has. has ≡ zeroed_to types.now depth typ.now indices.now given.now) }
{
    if depth == 0 {
        return Ok(false);
    }
    form_zeroed(alloc, types, depth - 1, typ, indices, given)
}

/// Whether a type has a zero, the types inside it to this depth.
#[cycle(zeroed)]
fn form_zeroed(
    alloc: Global,
    types: &Types,
    depth: usize,
    typ: &Typ,
    indices: &[Index],
    given: &[bool],
) -> Result<bool, AllocError>
    ensures { IfOk result (λ has. has ≡ zeroed_by types.now (zeroed_to types.now depth) (out-Typ typ.now) indices.now given.now) }
{
    match typ {
        Typ::Unit => Ok(true),
        Typ::Bool => Ok(true),
        Typ::Bit => Ok(true),
        Typ::Bits(_) => Ok(true),
        Typ::Range(low, high) => range_zeroed(alloc, indices, low, high),
        Typ::Vector(_, item) => zeroed_within(alloc, types, depth, item.get(), indices, given),
        Typ::Tuple(parts) => {
            let parts = each_zeroed(alloc, types, depth, parts.as_slice(), indices, given)?;
            Ok(all_zeroed(parts.as_slice()))
        }
        Typ::Named(place, arguments, parts) => {
            let Some(arguments) = read_indices(alloc, arguments.as_slice(), indices)? else {
                return Ok(false);
            };
            let parts = each_zeroed(alloc, types, depth, parts.as_slice(), indices, given)?;
            table_zeroed(
                alloc,
                types,
                depth,
                *place,
                arguments.as_slice(),
                parts.as_slice(),
            )
        }
        Typ::Variable(position) => Ok(zeroed_at(given, *position)),
        _ => Ok(false),
    }
}

/// Whether types have zeros, in order.
#[cycle(zeroed)]
fn each_zeroed(
    alloc: Global,
    types: &Types,
    depth: usize,
    parts: &[Typ],
    indices: &[Index],
    given: &[bool],
) -> Result<Items<bool>, AllocError>
    ensures { IfOk result (λ made. made ≡ each_of (map (zeroed_to types.now depth) parts.now) indices.now given.now) }
{
    let mut made = Items::new(alloc);
    for part in parts {
        made.push(zeroed_within(alloc, types, depth, part, indices, given)?)?;
    }
    Ok(made)
}

/// Whether the struct or enum at a place in the table has a zero.
#[cycle(zeroed)]
fn table_zeroed(
    alloc: Global,
    types: &Types,
    depth: usize,
    place: u32,
    indices: &[Index],
    given: &[bool],
) -> Result<bool, AllocError>
    ensures { IfOk result (λ has. has ≡ table_zeroed_of types.now (zeroed_to types.now depth) place indices.now given.now) }
{
    let Some(definition) = types.definitions.get(place as usize) else {
        return Ok(false);
    };
    match &definition.form {
        Form::Struct(fields) => {
            let fields = fields_zeroed(alloc, types, depth, fields.as_slice(), indices, given)?;
            Ok(all_zeroed(fields.as_slice()))
        }
        Form::Union(_) => Ok(false),
        Form::Enum(_) => Ok(true),
    }
}

/// Whether fields have zeros, in order.
#[cycle(zeroed)]
fn fields_zeroed(
    alloc: Global,
    types: &Types,
    depth: usize,
    fields: &[Field],
    indices: &[Index],
    given: &[bool],
) -> Result<Items<bool>, AllocError>
    ensures { IfOk result (λ made. made ≡ each_of (map (zeroed_to types.now depth) (field_types fields.now)) indices.now given.now) }
{
    let mut made = Items::new(alloc);
    for field in fields {
        made.push(zeroed_within(alloc, types, depth, &field.typ, indices, given)?)?;
    }
    Ok(made)
}

fn all_zeroed(parts: &[bool]) -> bool
    ensures { result ≡ all_of parts.now }
{
    for part in parts {
        if !*part {
            return false;
        }
    }
    true
}

fn zeroed_at(given: &[bool], position: u32) -> bool
    ensures { result ≡ unwrap_or (slice_get given.now position) false }
{
    match given.get(position as usize) {
        Some(has) => *has,
        None => false,
    }
}

/// Whether the ends of a range are constant, the last not below the first.
fn range_zeroed(alloc: Global, indices: &[Index], low: &Num, high: &Num) -> Result<bool, AllocError>
    ensures { IfOk result (λ has. has ≡ range_zeroed_of indices.now low.now high.now) }
{
    let Some(low) = known_number(alloc, indices, low)? else {
        return Ok(false);
    };
    match known_number(alloc, indices, high)? {
        None => Ok(false),
        Some(high) => Ok(low <= high),
    }
}
