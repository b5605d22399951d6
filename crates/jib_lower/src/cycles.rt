//! The numbers of cycles of calls: what a function calls has the same number or a lower one, and functions of one cycle of the model have one number.
ghost use Rattle.std.specs.Prelude.{◌≡◌, ℕ, ◌<◌, ◌≤◌, List, length, nat_le, slice_index_or, true, IfOk, IsFalse, IsTrue, OnOk};
ghost use Rattle.jib_lower.specs.Cycles as spec;
ghost use Rattle.jib_lower.specs.Cycles.{AllEven, CyclesFit, EvenBehind, FitIfAny, GraphOf, Joined, NumbersOf};

use crate::turns::join_turns;
use call_graph::{Cycles, Graph, find_cycles};
use lowered_steps::as_number;
use sail_base::Items;
use sail_core::Function;
use sized_nodes::{Lead, NodeSizes, SizedInstance};
use std::alloc::{AllocError, Global};

/// An edge from one function to another, where there are both. It fails where memory is wanting.
fn add_call(graph: &mut Graph, caller: usize, called: usize) -> Result<(), AllocError>
    requires caller { caller < length graph.old }
    ensures { OnOk result (Joined (λ numbers. slice_index_or numbers called 0 ≤ slice_index_or numbers caller 0) graph.old graph.new) }
{
    let count = graph.node_count();
    if caller < count && called < count {
        graph.add_edge(caller, called)
    } else {
        Ok(())
    }
}

/// The call that leads to the instance at a place as an edge, where there is one. It fails where memory is wanting.
fn join_lead(
    graph: &mut Graph,
    instances: &[SizedInstance],
    caller: usize,
    place: usize,
) -> Result<(), AllocError>
    requires caller { caller < length graph.old }
    ensures { OnOk result (Joined (λ numbers. nat_le (spec.cycle_at numbers instances.now place) (slice_index_or numbers caller 0) ≡ true) graph.old graph.new) }
{
    match instances.get(place) {
        Some(called) => add_call(graph, caller, called.instance.function as usize),
        None => Ok(()),
    }
}

/// So each of these.
fn join_leads(
    graph: &mut Graph,
    instances: &[SizedInstance],
    caller: usize,
    leads: &[Lead],
) -> Result<(), AllocError>
    requires caller { caller < length graph.old }
    ensures { OnOk result (Joined (λ numbers. spec.leads_fall numbers instances.now (slice_index_or numbers caller 0) leads.now ≡ true) graph.old graph.new) }
{
    match leads {
        [] => Ok(()),
        [first, rest @ ..] => {
            join_lead(graph, instances, caller, first.instance)?;
            join_leads(graph, instances, caller, rest)
        }
    }
}

/// So the calls of nodes.
pub fn join_nodes(
    graph: &mut Graph,
    instances: &[SizedInstance],
    caller: usize,
    nodes: &[NodeSizes],
) -> Result<(), AllocError>
    requires caller { caller < length graph.old }
    ensures { OnOk result (Joined (λ numbers. spec.nodes_fall numbers instances.now (slice_index_or numbers caller 0) nodes.now ≡ true) graph.old graph.new) }
{
    match nodes {
        [] => Ok(()),
        [first, rest @ ..] => match first {
            NodeSizes::Calls(_, leads) => {
                join_leads(graph, instances, caller, leads.as_slice())?;
                join_nodes(graph, instances, caller, rest)
            }
            NodeSizes::Makes(_, _, _) => join_nodes(graph, instances, caller, rest),
            NodeSizes::Gives(_, _) => join_nodes(graph, instances, caller, rest),
        },
    }
}

/// So those of bodies.
fn join_bodies(
    graph: &mut Graph,
    instances: &[SizedInstance],
    caller: usize,
    bodies: &[Items<NodeSizes>],
) -> Result<(), AllocError>
    requires caller { caller < length graph.old }
    ensures { OnOk result (Joined (λ numbers. spec.bodies_fall numbers instances.now (slice_index_or numbers caller 0) bodies.now ≡ true) graph.old graph.new) }
{
    match bodies {
        [] => Ok(()),
        [first, rest @ ..] => {
            join_nodes(graph, instances, caller, first.as_slice())?;
            join_bodies(graph, instances, caller, rest)
        }
    }
}

/// So those of instances.
fn join_callers(
    graph: &mut Graph,
    instances: &[SizedInstance],
    callers: &[SizedInstance],
) -> Result<(), AllocError>
    requires callers { spec.all_there (length graph.old) callers.now ≡ true }
    ensures { OnOk result (Joined (λ numbers. spec.instances_fall numbers instances.now callers.now ≡ true) graph.old graph.new) }
{
    match callers {
        [] => Ok(()),
        [first, rest @ ..] => {
            let caller = first.instance.function as usize;
            join_bodies(graph, instances, caller, first.bodies.as_slice())?;
            join_callers(graph, instances, rest)
        }
    }
}

/// An edge both ways between two functions of one cycle of the model. It fails where memory is wanting.
fn join_pair(graph: &mut Graph, left: usize, right: usize, is_one: bool) -> Result<(), AllocError>
    requires left { left < length graph.old }
    requires right { right < length graph.old }
    ensures { OnOk result (Joined (λ numbers. is_one ≡ true → slice_index_or numbers left 0 ≡ slice_index_or numbers right 0) graph.old graph.new) }
{
    if is_one {
        add_call(graph, left, right)?;
        add_call(graph, right, left)
    } else {
        Ok(())
    }
}

/// So between a function and each behind it.
fn join_behind(graph: &mut Graph, functions: &[Function], at: usize) -> Result<(), AllocError>
    requires inside { at < length functions.now }
    requires many { length functions.now ≤ length graph.old }
    ensures { OnOk result (Joined (λ numbers. EvenBehind functions.now at (length functions.now) numbers) graph.old graph.new) }
{
    let cycle = functions[at].cycle;
    for next in at + 1..functions.len() {
        join_pair(graph, at, next, in_one(cycle, functions[next].cycle))?;
    }
    Ok(())
}

/// So between all functions.
fn add_rings(graph: &mut Graph, functions: &[Function]) -> Result<(), AllocError>
    requires many { length functions.now ≤ length graph.old }
    ensures { OnOk result (Joined (λ numbers. AllEven functions.now (length functions.now) numbers) graph.old graph.new) }
{
    for at in 0..functions.len() {
        join_behind(graph, functions, at)?;
    }
    Ok(())
}

/// A graph of a model's functions without edges. It fails where memory is wanting.
fn empty_graph(alloc: Global, functions: &[Function]) -> Result<Graph, AllocError>
    ensures nodes { IfOk result (λ graph. length graph ≡ length functions.now) }
    ensures falls { IfOk result (λ graph. (numbers : List ℕ) → spec.Falls numbers graph) }
{
    let mut graph = Graph::new(alloc);
    for _ in functions {
        graph.add_node(alloc)?;
    }
    Ok(graph)
}

/// The graph of a model's functions by calls, also through directions to which these lead, with edges both ways between those of one cycle of the model. It fails where memory is wanting.
fn graph_of(
    alloc: Global,
    functions: &[Function],
    instances: &[SizedInstance],
    mappings: &[Items<NodeSizes>],
    turns: &[Items<u32>],
) -> Result<Graph, AllocError>
    requires there { spec.all_there (length functions.now) instances.now ≡ true }
    ensures { IfOk result (GraphOf functions.now instances.now mappings.now turns.now) }
{
    let mut graph = empty_graph(alloc, functions)?;
    join_callers(&mut graph, instances, instances)?;
    join_turns(&mut graph, instances, mappings, turns, instances)?;
    add_rings(&mut graph, functions)?;
    Ok(graph)
}

/// The numbers of components. They fail where memory is wanting.
fn numbers_of(alloc: Global, cycles: &Cycles) -> Result<Items<u32>, AllocError>
    ensures { IfOk result (NumbersOf cycles.now) }
{
    let mut numbers = Items::new(alloc);
    for at in 0..cycles.node_count() {
        numbers.push(as_number(cycles.component_of(at))?)?;
    }
    Ok(numbers)
}

/// The numbers of cycles, by functions. They fail where memory is wanting.
pub fn cycle_numbers(
    alloc: Global,
    functions: &[Function],
    instances: &[SizedInstance],
    mappings: &[Items<NodeSizes>],
    turns: &[Items<u32>],
) -> Result<Items<u32>, AllocError>
    requires there { spec.all_there (length functions.now) instances.now ≡ true }
    ensures { IfOk result (FitIfAny functions.now instances.now mappings.now turns.now) }
{
    let graph = graph_of(alloc, functions, instances, mappings, turns)?;
    let cycles = find_cycles(alloc, &graph)?;
    let numbers = numbers_of(alloc, &cycles)?;
    Ok(numbers)
}

/// Whether the functions of all instances are there, of so many.
pub fn are_there(count: usize, instances: &[SizedInstance]) -> bool
    ensures { result ≡ spec.all_there count instances.now }
{
    match instances {
        [] => true,
        [first, rest @ ..] => {
            (first.instance.function as usize) < count && are_there(count, rest)
        }
    }
}

/// Whether both are of one cycle of the model.
fn in_one(left: Option<u32>, right: Option<u32>) -> bool
    ensures { result ≡ spec.in_one left right }
{
    match (left, right) {
        (Some(cycle), Some(other)) => cycle == other,
        (Some(_), None) => false,
        (None, _) => false,
    }
}

/// Whether both are of one cycle of the model, or both of none.
fn alike(left: Option<u32>, right: Option<u32>) -> bool
    ensures { result ≡ spec.alike left right }
{
    match (left, right) {
        (Some(cycle), Some(other)) => cycle == other,
        (Some(_), None) => false,
        (None, Some(_)) => false,
        (None, None) => true,
    }
}

/// The number of a function; 0 where there is no such function.
pub fn number_at(numbers: &[u32], function: u32) -> u32
    ensures { result ≡ slice_index_or numbers.now function 0 }
{
    match numbers.get(function as usize) {
        Some(number) => *number,
        None => 0,
    }
}

/// Whether two functions with these numbers may be of these cycles.
fn pair_fits(number: u32, other: u32, left: Option<u32>, right: Option<u32>) -> bool
    ensures { result ≡ spec.pair_fits number other left right }
{
    if number == other {
        alike(left, right)
    } else {
        !in_one(left, right)
    }
}

/// Whether a function with this number, of this cycle, may stand beside each of these.
fn fits_all(number: u32, cycle: Option<u32>, functions: &[Function], numbers: &[u32]) -> bool
    ensures { result ≡ spec.fits_all number cycle functions.now numbers.now }
{
    match functions {
        [] => true,
        [first, rest @ ..] => match numbers {
            [] => true,
            [other, others @ ..] => {
                pair_fits(number, *other, cycle, first.cycle)
                    && fits_all(number, cycle, rest, others)
            }
        },
    }
}

/// Whether each of these functions may stand beside each of the others.
fn all_fit(
    functions: &[Function],
    numbers: &[u32],
    others: &[Function],
    other_numbers: &[u32],
) -> bool
    ensures { result ≡ spec.all_fit functions.now numbers.now others.now other_numbers.now }
{
    match functions {
        [] => true,
        [first, rest @ ..] => match numbers {
            [] => true,
            [number, behind @ ..] => {
                fits_all(*number, first.cycle, others, other_numbers)
                    && all_fit(rest, behind, others, other_numbers)
            }
        },
    }
}

/// Whether functions of one cycle of the model have one number, and those of other cycles and of none have others.
pub fn are_fitting(functions: &[Function], numbers: &[u32]) -> bool
    ensures is { IsTrue result → CyclesFit functions.now numbers.now }
    ensures no { IsFalse result → CyclesFit functions.now numbers.now → ⊥ }
{
    let many = numbers.len();
    let count = functions.len();
    if many == count {
        all_fit(functions, numbers, functions, numbers)
    } else {
        false
    }
}

/// The number of the function of an instance; 0 where there is no such instance.
pub fn cycle_at(numbers: &[u32], instances: &[SizedInstance], place: usize) -> u32
    ensures { result ≡ spec.cycle_at numbers.now instances.now place }
{
    match instances.get(place) {
        Some(found) => number_at(numbers, found.instance.function),
        None => 0,
    }
}

/// Whether calls lead to instances with this number or a lower one.
fn leads_fall(numbers: &[u32], instances: &[SizedInstance], own: u32, leads: &[Lead]) -> bool
    ensures { result ≡ spec.leads_fall numbers.now instances.now own leads.now }
{
    for lead in leads {
        if cycle_at(numbers, instances, lead.instance) > own {
            return false;
        }
    }
    true
}

/// Whether those of nodes do.
pub fn nodes_fall(
    numbers: &[u32],
    instances: &[SizedInstance],
    own: u32,
    nodes: &[NodeSizes],
) -> bool
    ensures { result ≡ spec.nodes_fall numbers.now instances.now own nodes.now }
{
    for sizes in nodes {
        match sizes {
            NodeSizes::Calls(_, leads) => {
                if !leads_fall(numbers, instances, own, leads.as_slice()) {
                    return false;
                }
            }
            NodeSizes::Makes(_, _, _) => {}
            NodeSizes::Gives(_, _) => {}
        }
    }
    true
}

/// Whether those of bodies do.
fn bodies_fall(
    numbers: &[u32],
    instances: &[SizedInstance],
    own: u32,
    bodies: &[Items<NodeSizes>],
) -> bool
    ensures { result ≡ spec.bodies_fall numbers.now instances.now own bodies.now }
{
    for nodes in bodies {
        if !nodes_fall(numbers, instances, own, nodes.as_slice()) {
            return false;
        }
    }
    true
}

/// Whether all calls of instances lead to instances with the number of the caller's function or a lower one.
pub fn instances_fall(
    numbers: &[u32],
    instances: &[SizedInstance],
    callers: &[SizedInstance],
) -> bool
    ensures { result ≡ spec.instances_fall numbers.now instances.now callers.now }
{
    for caller in callers {
        let own = number_at(numbers, caller.instance.function);
        if !bodies_fall(numbers, instances, own, caller.bodies.as_slice()) {
            return false;
        }
    }
    true
}
