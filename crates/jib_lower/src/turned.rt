//! The numbers of the cycles of directions of mappings that are made: the highest one to which their calls lead.
ghost use Rattle.std.specs.Prelude.{◌≡◌, ◌/◌, ◌∷◌, ◌++◌, [], map, slice_get, IfOk, IsFalse, IsTrue, OnOk};
ghost use Rattle.lowered_laws.specs.Returning.{all_so, returns_nothing as nothing_returns, stays_here as kind_stays};
ghost use Rattle.jib_lower.specs.Crossings as spec;

use crate::crossings::{add_wanted, calls_of, is_in, leads_from, turns_of};
use crate::cycles::cycle_at;
use crate::leads::both;
use lowered_steps::further;
use sail_base::Items;
use sail_core::{Core, CoreModel, Direction, Kind};
use sized_nodes::{Lead, NodeSizes, SizedCore, SizedInstance};
use std::alloc::{AllocError, Global};

// ---- the highest numbers

/// The higher one of two numbers.
fn higher(one: u32, other: u32) -> u32
    ensures { result ≡ spec.higher one other }
{
    if one < other { other } else { one }
}

/// The highest number of an instance to which calls lead.
fn highest_lead(numbers: &[u32], instances: &[SizedInstance], leads: &[Lead]) -> u32
    ensures { result ≡ spec.highest_lead numbers.now instances.now leads.now }
{
    match leads {
        [] => 0,
        [first, rest @ ..] => higher(
            cycle_at(numbers, instances, first.instance),
            highest_lead(numbers, instances, rest),
        ),
    }
}

/// So that of calls of nodes.
fn highest_in(numbers: &[u32], instances: &[SizedInstance], nodes: &[NodeSizes]) -> u32
    ensures { result ≡ spec.highest_in numbers.now instances.now nodes.now }
{
    match nodes {
        [] => 0,
        [first, rest @ ..] => match first {
            NodeSizes::Calls(_, leads) => higher(
                highest_lead(numbers, instances, leads.as_slice()),
                highest_in(numbers, instances, rest),
            ),
            NodeSizes::Makes(_, _, _) => highest_in(numbers, instances, rest),
            NodeSizes::Gives(_, _) => highest_in(numbers, instances, rest),
        },
    }
}

/// So that of calls of the mapping of a direction.
fn highest_at(
    numbers: &[u32],
    instances: &[SizedInstance],
    mappings: &[Items<NodeSizes>],
    direction: u32,
) -> u32
    ensures { result ≡ spec.highest_at numbers.now instances.now (slice_get mappings.now (direction / 2)) }
{
    match mappings.get((direction / 2) as usize) {
        Some(nodes) => highest_in(numbers, instances, nodes.as_slice()),
        None => 0,
    }
}

/// So that of calls of the mappings of several directions.
fn highest_of(
    numbers: &[u32],
    instances: &[SizedInstance],
    mappings: &[Items<NodeSizes>],
    directions: &[u32],
) -> u32
    ensures { result ≡ spec.highest_of numbers.now instances.now mappings.now directions.now }
{
    match directions {
        [] => 0,
        [first, rest @ ..] => higher(
            highest_at(numbers, instances, mappings, *first),
            highest_of(numbers, instances, mappings, rest),
        ),
    }
}

// ---- the numbers of directions

/// What directions ask, and which of them are made.
#[derive(Drop)]
struct Crossings {
    /// What each direction asks.
    calls: Items<Items<u32>>,
    /// The directions that are made.
    wanted: Items<u32>,
}

/// What a model's directions ask, and which of them are made. They fail where memory is wanting.
fn crossings_of(alloc: Global, core: &CoreModel, sized: &SizedCore) -> Result<Crossings, AllocError>
    ensures calls { IfOk result (λ made. made.calls ≡ spec.calls_of core.now.directions) }
    ensures wanted { IfOk result (λ made. made.wanted ≡ spec.wanted_by (spec.turns_of core.now) sized.now.instances []) }
{
    let calls = calls_of(alloc, core)?;
    let turns = turns_of(alloc, core)?;
    let mut wanted = Items::new(alloc);
    let lists = turns.as_slice();
    let instances = sized.instances.as_slice();
    add_wanted(lists, instances, &mut wanted)?;
    Ok(Crossings { calls, wanted })
}

/// The highest number of an instance to which calls of the mappings of a direction and of others lead.
fn highest_with(numbers: &[u32], sized: &SizedCore, direction: u32, others: &[u32]) -> u32
    ensures { result ≡ spec.highest_of numbers.now sized.now.instances sized.now.mappings (direction ∷ others.now) }
{
    let instances = sized.instances.as_slice();
    let mappings = sized.mappings.as_slice();
    let own = highest_at(numbers, instances, mappings, direction);
    let rest = highest_of(numbers, instances, mappings, others);
    higher(own, rest)
}

/// The number of a direction that asks these, where it is made. It fails where memory is wanting.
fn turned_as(
    alloc: Global,
    numbers: &[u32],
    sized: &SizedCore,
    crossings: &Crossings,
    direction: u32,
    called: &[u32],
) -> Result<Option<u32>, AllocError>
    ensures { IfOk result (λ turned.
        turned ≡ spec.turned_as numbers.now sized.now.instances sized.now.mappings crossings.now.calls crossings.now.wanted direction called.now) }
{
    let made = crossings.wanted.as_slice();
    let wanted = is_in(direction, made);
    if wanted {
        let calls = crossings.calls.as_slice();
        let behind = leads_from(alloc, calls, called)?;
        Ok(Some(highest_with(numbers, sized, direction, behind.as_slice())))
    } else {
        Ok(None)
    }
}

/// The numbers of directions from one on, each of which asks these, come behind others. They fail where memory is wanting.
fn push_turned(
    alloc: Global,
    numbers: &[u32],
    sized: &SizedCore,
    crossings: &Crossings,
    direction: u32,
    calls: &[Items<u32>],
    turned: &mut Items<Option<u32>>,
) -> Result<(), AllocError>
    ensures { OnOk result (turned.new ≡ turned.old
        ++ spec.turned_from numbers.now sized.now.instances sized.now.mappings crossings.now.calls crossings.now.wanted direction calls.now) }
{
    let mut place = direction;
    for asked in calls {
        let listed = asked.as_slice();
        let one = turned_as(alloc, numbers, sized, crossings, place, listed)?;
        turned.push(one)?;
        place = further(place, 1)?;
    }
    Ok(())
}

/// The numbers of a model's directions that are made, where its functions have these numbers. They fail where memory is wanting.
pub fn turned_by(
    alloc: Global,
    core: &CoreModel,
    sized: &SizedCore,
    numbers: &[u32],
) -> Result<Items<Option<u32>>, AllocError>
    ensures { IfOk result (λ turned. turned ≡ spec.turned_by core.now sized.now numbers.now) }
{
    let crossings = crossings_of(alloc, core, sized)?;
    let calls = crossings.calls.as_slice();
    let mut turned = Items::new(alloc);
    push_turned(alloc, numbers, sized, &crossings, 0, calls, &mut turned)?;
    Ok(turned)
}

// ---- what returns

/// Whether a node itself doesn't return.
fn stays_here(kind: &Kind) -> bool
    ensures { result ≡ kind_stays kind.now }
{
    match kind {
        Kind::Return => false,
        _ => true,
    }
}

/// Whether nothing in a tree returns.
#[cycle(returns_nothing)]
fn returns_nothing(tree: &Core) -> bool
    ensures { result ≡ nothing_returns tree.now }
{
    let here = stays_here(&tree.kind);
    let parts = tree.parts.as_slice();
    let rest = all_return_nothing(parts);
    both(here, rest)
}

/// Whether nothing in these trees does.
#[cycle(returns_nothing)]
fn all_return_nothing(trees: &[Core]) -> bool
    ensures { result ≡ all_so (map nothing_returns trees.now) }
{
    match trees {
        [] => true,
        [first, rest @ ..] => {
            let one = returns_nothing(first);
            let others = all_return_nothing(rest);
            both(one, others)
        }
    }
}

/// Whether nothing in the bodies of directions returns.
pub fn directions_stay(directions: &[Direction]) -> bool
    ensures is { IsTrue result → spec.AllStay directions.now }
    ensures no { IsFalse result → spec.AllStay directions.now → ⊥ }
{
    match directions {
        [] => true,
        [first, rest @ ..] => {
            let one = returns_nothing(&first.body);
            let others = directions_stay(rest);
            both(one, others)
        }
    }
}
