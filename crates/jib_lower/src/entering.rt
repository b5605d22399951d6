//! What is entered where directions of mappings are asked, which are functions that give options.
ghost use Rattle.std.specs.Prelude.{◌≡◌, ◌++◌, IfOk, OnOk};
ghost use Rattle.jib_lower.specs.Entering as spec;

use lowered_ends::{fixed_type, option_of};
use lowered_steps::{Mapped, further};
use sail_base::Items;
use sail_core::{Direction, Kind};
use sail_types::Types;
use size_values::Sized;
use std::alloc::{AllocError, Global};

/// The type of what an option holds that a body of this kind gives; that of what doesn't exist where it gives none. It fails where memory is wanting.
fn payload_in(alloc: Global, types: &Types, kind: &Kind) -> Result<Sized, AllocError>
    ensures { IfOk result (λ payload. payload ≡ spec.payload_in types.now kind.now) }
{
    match kind {
        Kind::Optional(typ) => fixed_type(alloc, types, typ),
        _ => Ok(Sized::Never),
    }
}

/// The type of such an option.
fn option_in(alloc: Global, types: &Types, kind: &Kind) -> Result<Sized, AllocError>
    ensures { IfOk result (λ option. option ≡ spec.option_in types.now kind.now) }
{
    match kind {
        Kind::Optional(typ) => {
            let payload = fixed_type(alloc, types, typ)?;
            option_of(alloc, &payload)
        }
        _ => Ok(Sized::Never),
    }
}

/// What is entered where a direction is asked that is the function of this number. It fails where memory is wanting.
pub fn mapped_by(
    alloc: Global,
    types: &Types,
    function: u32,
    direction: &Direction,
) -> Result<Mapped, AllocError>
    ensures { IfOk result (λ mapped. mapped ≡ spec.mapped_by types.now function direction.now) }
{
    let takes = fixed_type(alloc, types, &direction.parameter)?;
    let gives = option_in(alloc, types, &direction.body.kind)?;
    let payload = payload_in(alloc, types, &direction.body.kind)?;
    Ok(Mapped {
        function,
        takes,
        gives,
        payload,
    })
}

/// Where a direction stands among these; behind all where it is none of them. It fails where there are 2^32 or more.
fn place_in(order: &[u32], direction: u32) -> Result<u32, AllocError>
    ensures { IfOk result (λ place. place ≡ spec.place_in order.now direction) }
{
    match order {
        [] => Ok(0),
        [first, rest @ ..] => {
            if direction == *first {
                Ok(0)
            } else {
                let behind = place_in(rest, direction)?;
                further(behind, 1)
            }
        }
    }
}

/// What is entered where directions from one on are asked comes behind others, where their functions stand in this order. It fails where memory is wanting.
fn push_mapped(
    alloc: Global,
    types: &Types,
    order: &[u32],
    from: u32,
    directions: &[Direction],
    all: &mut Items<Mapped>,
) -> Result<(), AllocError>
    ensures { OnOk result (all.new ≡ all.old ++ spec.mapped_from types.now order.now from directions.now) }
{
    let mut place = from;
    for direction in directions {
        let function = place_in(order, place)?;
        let one = mapped_by(alloc, types, function, direction)?;
        all.push(one)?;
        place = further(place, 1)?;
    }
    Ok(())
}

/// What is entered where directions are asked, the functions of which stand in this order. It fails where memory is wanting.
pub fn all_mapped(
    alloc: Global,
    types: &Types,
    order: &[u32],
    directions: &[Direction],
) -> Result<Items<Mapped>, AllocError>
    ensures { IfOk result (λ all. all ≡ spec.mapped_from types.now order.now 0 directions.now) }
{
    let mut all = Items::new(alloc);
    push_mapped(alloc, types, order, 0, directions, &mut all)?;
    Ok(all)
}
