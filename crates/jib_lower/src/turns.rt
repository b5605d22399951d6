//! Calls through directions of mappings: what a function reaches by them has its number or a lower one.
ghost use Rattle.std.specs.Prelude.{◌≡◌, ◌/◌, ◌<◌, length, slice_get, slice_index_or, true, OnOk};
ghost use Rattle.jib_lower.specs.Cycles as spec;
ghost use Rattle.jib_lower.specs.Cycles.{Joined};

use crate::cycles::{join_nodes, nodes_fall, number_at};
use crate::leads::both;
use call_graph::Graph;
use sail_base::Items;
use sized_nodes::{NodeSizes, SizedInstance};
use std::alloc::AllocError;

// ---- edges

/// The calls of the mapping of a direction as edges, where there is one. They fail where memory is wanting.
fn join_mapping(
    graph: &mut Graph,
    instances: &[SizedInstance],
    mappings: &[Items<NodeSizes>],
    caller: usize,
    direction: u32,
) -> Result<(), AllocError>
    requires caller { caller < length graph.old }
    ensures { OnOk result (Joined (λ numbers. spec.mapping_falls numbers instances.now (slice_index_or numbers caller 0)
        (slice_get mappings.now (direction / 2)) ≡ true) graph.old graph.new) }
{
    match mappings.get((direction / 2) as usize) {
        Some(nodes) => join_nodes(graph, instances, caller, nodes.as_slice()),
        None => Ok(()),
    }
}

/// So those of several directions.
fn join_directions(
    graph: &mut Graph,
    instances: &[SizedInstance],
    mappings: &[Items<NodeSizes>],
    caller: usize,
    directions: &[u32],
) -> Result<(), AllocError>
    requires caller { caller < length graph.old }
    ensures { OnOk result (Joined (λ numbers.
        spec.directions_fall numbers instances.now mappings.now (slice_index_or numbers caller 0) directions.now ≡ true) graph.old graph.new) }
{
    match directions {
        [] => Ok(()),
        [first, rest @ ..] => {
            join_mapping(graph, instances, mappings, caller, *first)?;
            join_directions(graph, instances, mappings, caller, rest)
        }
    }
}

/// So those of the directions to which the calls of a function lead.
fn join_turn(
    graph: &mut Graph,
    instances: &[SizedInstance],
    mappings: &[Items<NodeSizes>],
    turns: &[Items<u32>],
    function: u32,
) -> Result<(), AllocError>
    requires caller { function < length graph.old }
    ensures { OnOk result (Joined (λ numbers.
        spec.turn_falls numbers instances.now mappings.now (slice_index_or numbers function 0) (slice_get turns.now function) ≡ true) graph.old graph.new) }
{
    match turns.get(function as usize) {
        Some(directions) => join_directions(
            graph,
            instances,
            mappings,
            function as usize,
            directions.as_slice(),
        ),
        None => Ok(()),
    }
}

/// So those of instances.
pub fn join_turns(
    graph: &mut Graph,
    instances: &[SizedInstance],
    mappings: &[Items<NodeSizes>],
    turns: &[Items<u32>],
    callers: &[SizedInstance],
) -> Result<(), AllocError>
    requires callers { spec.all_there (length graph.old) callers.now ≡ true }
    ensures { OnOk result (Joined (λ numbers. spec.turns_fall numbers instances.now mappings.now turns.now callers.now ≡ true) graph.old graph.new) }
{
    match callers {
        [] => Ok(()),
        [first, rest @ ..] => {
            join_turn(graph, instances, mappings, turns, first.instance.function)?;
            join_turns(graph, instances, mappings, turns, rest)
        }
    }
}

// ---- what is decided of numbers

/// Whether the calls of the mapping of a direction lead to instances with this number or a lower one.
fn mapping_falls(
    numbers: &[u32],
    instances: &[SizedInstance],
    mappings: &[Items<NodeSizes>],
    own: u32,
    direction: u32,
) -> bool
    ensures { result ≡ spec.mapping_falls numbers.now instances.now own (slice_get mappings.now (direction / 2)) }
{
    match mappings.get((direction / 2) as usize) {
        Some(nodes) => nodes_fall(numbers, instances, own, nodes.as_slice()),
        None => true,
    }
}

/// Whether so do those of several directions.
fn directions_fall(
    numbers: &[u32],
    instances: &[SizedInstance],
    mappings: &[Items<NodeSizes>],
    own: u32,
    directions: &[u32],
) -> bool
    ensures { result ≡ spec.directions_fall numbers.now instances.now mappings.now own directions.now }
{
    match directions {
        [] => true,
        [first, rest @ ..] => both(
            mapping_falls(numbers, instances, mappings, own, *first),
            directions_fall(numbers, instances, mappings, own, rest),
        ),
    }
}

/// Whether so do those of the directions to which the calls of a function lead.
fn turn_falls(
    numbers: &[u32],
    instances: &[SizedInstance],
    mappings: &[Items<NodeSizes>],
    turns: &[Items<u32>],
    function: u32,
) -> bool
    ensures { result ≡ spec.turn_falls numbers.now instances.now mappings.now (slice_index_or numbers.now function 0) (slice_get turns.now function) }
{
    match turns.get(function as usize) {
        Some(directions) => {
            let own = number_at(numbers, function);
            directions_fall(numbers, instances, mappings, own, directions.as_slice())
        }
        None => true,
    }
}

/// Whether so do those of instances.
pub fn turns_fall(
    numbers: &[u32],
    instances: &[SizedInstance],
    mappings: &[Items<NodeSizes>],
    turns: &[Items<u32>],
    callers: &[SizedInstance],
) -> bool
    ensures { result ≡ spec.turns_fall numbers.now instances.now mappings.now turns.now callers.now }
{
    match callers {
        [] => true,
        [first, rest @ ..] => both(
            turn_falls(numbers, instances, mappings, turns, first.instance.function),
            turns_fall(numbers, instances, mappings, turns, rest),
        ),
    }
}
