ghost use Rattle.std.specs.Prelude.{◌≡◌, ℕ, ◌<◌, ◌≤◌, ◌↔◌, length, IfOk, IsSome, IsTrue, slice_index};
ghost use Rattle.call_graph.specs.Graphs.{HasEdge, IsInCycle, AreInOneCycle, AreConnected};
ghost use Rattle.call_graph.specs.Components.{node_count, component_of, cycle_of, AreComponents, StaysInComponent};
ghost use Rattle.call_graph.specs.Search.{IsNumbered, mark_of};

use crate::found::Member;
use crate::search::{Mark, Search};
use crate::{Cycles, Graph};
use sail_base::Items;
use std::alloc::{AllocError, Global};

/// Finds which nodes of a graph reach themselves and which lie in one cycle, in time linear in its nodes and
/// edges. The components are numbered so that no edge leads to a higher number, below the count of the nodes. The
/// one error is want of memory.
pub fn find_cycles(alloc: Global, graph: &Graph) -> Result<Cycles, AllocError>
    ensures nodes { IfOk result (λ c. node_count c ≡ length graph.now) }
    ensures below { IfOk result (λ c. (node : ℕ) → node < length graph.now → component_of c node < length graph.now) }
    ensures components { IfOk result (λ c. (left right : ℕ) → left < length graph.now → right < length graph.now
        → (component_of c left ≡ component_of c right) ↔ AreConnected graph.now left right) }
    ensures order { IfOk result (λ c. (from to : ℕ) → HasEdge graph.now from to → component_of c to ≤ component_of c from) }
    ensures cycles { IfOk result (λ c. (node : ℕ) → node < length graph.now → IsSome (cycle_of c node) ↔ IsInCycle graph.now node) }
    ensures same_cycle { IfOk result (λ c. (left right : ℕ) → left < length graph.now → right < length graph.now
        → IsInCycle graph.now left → (cycle_of c left ≡ cycle_of c right) ↔ AreInOneCycle graph.now left right) }
{
    let components = components(alloc, graph)?;
    let mut members = Items::new(alloc);
    for node in 0..graph.node_count() {
        members.push(Member {
            component: components[node],
            in_cycle: stays_in_component(graph, &components, node),
        })?;
    }
    Ok(Cycles { members })
}

/// The numbers of the nodes' components.
fn components(alloc: Global, graph: &Graph) -> Result<Vec<usize>, AllocError>
    ensures { IfOk result (λ numbers. AreComponents graph.now numbers.items) }
{
    let search = Search::through(alloc, graph)?;
    numbers(alloc, &search.marks)
}

/// The numbers that nodes were marked with.
fn numbers(alloc: Global, marks: &[Mark]) -> Result<Vec<usize>, AllocError>
    requires { (node : ℕ) → node < length marks.now → IsNumbered marks.now node }
    ensures every { IfOk result (λ numbers. length numbers.items ≡ length marks.now) }
    ensures numbers { IfOk result (λ numbers. (node : ℕ) → node < length marks.now
        → mark_of marks.now node ≡ Mark.Numbered (slice_index numbers.items node)) }
{
    let mut numbers = Vec::new(alloc);
    for mark in marks {
        match *mark {
            Mark::Numbered(number) => numbers.push(number)?,
            _ => unreachable!(),
        }
    }
    Ok(numbers)
}

/// Whether an edge leads from a node to a node of its own component.
fn stays_in_component(graph: &Graph, components: &[usize], node: usize) -> bool
    requires node { node < length graph.now }
    requires every { length components.now ≡ length graph.now }
    ensures { IsTrue result ↔ StaysInComponent graph.now components.now node }
{
    for to in graph.successors(node) {
        if components[*to] == components[node] {
            return true;
        }
    }
    false
}
