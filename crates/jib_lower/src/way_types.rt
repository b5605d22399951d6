//! The types that get a number for the directions of mappings that are made.
ghost use Rattle.std.specs.Prelude.{◌≡◌, ◌/◌, None, Some, true, IfErr, OnOk, slice_get};
ghost use Rattle.lowered_pieces.specs.Emitted.{Begins};
ghost use Rattle.lowered_tables.specs.Built.{with_numbers};
ghost use Rattle.jib_lower.specs.Entering.{mapped_by as spec_mapped};
ghost use Rattle.jib_lower.specs.Errors.{OrMemory};
ghost use Rattle.jib_lower.specs.Types as asked;

use crate::entering::mapped_by;
use crate::error::LowerError;
use crate::instances::following;
use crate::types::add_nodes;
use lowered_steps::Mapped;
use lowered_tables::{TypeList, add_all};
use sail_base::Items;
use sail_core::Direction;
use sail_types::Types;
use sized_nodes::NodeSizes;
use std::alloc::Global;

/// The types of what calls of a direction enter get numbers. It fails as for a type.
fn add_mapped(
    alloc: Global,
    types: &Types,
    table: &mut TypeList,
    direction: &Direction,
) -> Result<(), LowerError>
    ensures grown { OnOk result (Begins table.old.numbered table.new.numbered) }
    ensures listed { OnOk result (with_numbers types.now table.old.numbered (asked.types_in_mapped (spec_mapped types.now 0 direction.now))
        ≡ Some table.new.numbered) }
    ensures left { IfErr result (OrMemory (with_numbers types.now table.old.numbered (asked.types_in_mapped (spec_mapped types.now 0 direction.now)) ≡ None)) }
{
    let mapped = mapped_by(alloc, types, 0, direction)?;
    let Mapped {
        function: _,
        takes,
        gives,
        payload,
    } = mapped;
    let all = [takes, payload, gives];
    Ok(add_all(alloc, types, table, &all)?)
}

/// The types of the nodes of the mapping at a place get numbers, where there is one. It fails as for a type.
fn add_mapping(
    alloc: Global,
    types: &Types,
    table: &mut TypeList,
    mappings: &[Items<NodeSizes>],
    at: usize,
) -> Result<(), LowerError>
    ensures known { OnOk result (asked.in_mapping table.new.numbered (slice_get mappings.now at) ≡ true) }
    ensures grown { OnOk result (Begins table.old.numbered table.new.numbered) }
    ensures listed { OnOk result (with_numbers types.now table.old.numbered (asked.types_in_mapping (slice_get mappings.now at)) ≡ Some table.new.numbered) }
    ensures left { IfErr result (OrMemory (with_numbers types.now table.old.numbered (asked.types_in_mapping (slice_get mappings.now at)) ≡ None)) }
{
    match mappings.get(at) {
        Some(nodes) => add_nodes(alloc, types, table, nodes.as_slice()),
        None => Ok(()),
    }
}

/// So do the types of a direction that is made: those of what calls of it enter, and of the mapping at a place. It fails as for a type.
fn add_way(
    alloc: Global,
    types: &Types,
    table: &mut TypeList,
    mappings: &[Items<NodeSizes>],
    at: usize,
    direction: &Direction,
) -> Result<(), LowerError>
    ensures known { OnOk result (asked.in_mapping table.new.numbered (slice_get mappings.now at) ≡ true) }
    ensures grown { OnOk result (Begins table.old.numbered table.new.numbered) }
    ensures listed { OnOk result (with_numbers types.now table.old.numbered (asked.types_in_way types.now mappings.now at direction.now)
        ≡ Some table.new.numbered) }
    ensures left { IfErr result (OrMemory (with_numbers types.now table.old.numbered (asked.types_in_way types.now mappings.now at direction.now) ≡ None)) }
{
    add_mapped(alloc, types, table, direction)?;
    add_mapping(alloc, types, table, mappings, at)
}

/// The types of the directions from one on that are made get numbers. It fails as for a type.
pub fn add_ways(
    alloc: Global,
    types: &Types,
    table: &mut TypeList,
    mappings: &[Items<NodeSizes>],
    at: usize,
    directions: &[Direction],
    turned: &[Option<u32>],
) -> Result<(), LowerError>
    ensures known { OnOk result (asked.all_in_ways table.new.numbered mappings.now at directions.now turned.now ≡ true) }
    ensures grown { OnOk result (Begins table.old.numbered table.new.numbered) }
    ensures listed { OnOk result (with_numbers types.now table.old.numbered (asked.types_in_ways types.now mappings.now at directions.now turned.now)
        ≡ Some table.new.numbered) }
    ensures left { IfErr result (OrMemory (with_numbers types.now table.old.numbered
        (asked.types_in_ways types.now mappings.now at directions.now turned.now) ≡ None)) }
{
    match directions {
        [] => Ok(()),
        [first, rest @ ..] => match turned {
            [] => Ok(()),
            [cycle, others @ ..] => {
                let next = following(at)?;
                match cycle {
                    Some(_) => {
                        add_way(alloc, types, table, mappings, at / 2, first)?;
                        add_ways(alloc, types, table, mappings, next, rest, others)
                    }
                    None => add_ways(alloc, types, table, mappings, next, rest, others),
                }
            }
        },
    }
}
