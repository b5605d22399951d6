ghost use Rattle.std.specs.Prelude.{◌≡◌, List, [], ◌∷◌, ◌++◌, length, map, IfOk, OnOk};
ghost use Rattle.sail_names.specs.Known.{known_of};
ghost use Rattle.sail_cycles.specs.Cycles.{number_named, own_number, edges, Edge, HasEdges, AreCyclesOf, TellsCycles, is_cyclic_at, graph_of as graph_between};

use crate::callees::push_callees;
use crate::expressions::Which;
use call_graph::{Cycles, Graph, find_cycles};
use sail_base::Items;
use sail_names::{Global as Named, Names};
use sail_syntax::Def;
use std::alloc::{AllocError, Global};

/// The number of the function or mapping of a name; none where the name means something else.
pub fn number_of(names: &Names, name: &str) -> Option<usize>
    ensures { result ≡ number_named ((known_of names.now).value name.now) }
{
    match names.value(name) {
        Some(Named::Function(number)) => Some(*number),
        Some(Named::Mapping(number)) => Some(*number),
        _ => None,
    }
}

fn own_number_of(names: &Names, definition: &Def) -> Option<usize>
    ensures { result ≡ own_number (known_of names.now) definition.now }
{
    match definition {
        Def::Function { name, .. } | Def::Mapping { name, .. } => number_of(
            names,
            name.text.as_str(),
        ),
        _ => None,
    }
}

/// Adds an edge, unless it leads from or to no node.
#[tactic(auto, using(crate::proofs::Edges::added, crate::proofs::Edges::past_to, crate::proofs::Edges::past_from))]
fn add_edge(from: usize, to: usize, graph: &mut Graph) -> Result<(), AllocError>
    ensures nodes { OnOk result (length graph.new ≡ length graph.old) }
    ensures edges { OnOk result ((all : List Edge) → HasEdges all graph.old → HasEdges (all ++ (from, to) ∷ []) graph.new) }
{
    if from < graph.node_count() && to < graph.node_count() {
        graph.add_edge(from, to)?;
    }
    Ok(())
}

fn add_edges_to(from: usize, numbers: &[usize], graph: &mut Graph) -> Result<(), AllocError>
    ensures nodes { OnOk result (length graph.new ≡ length graph.old) }
    ensures edges { OnOk result ((all : List Edge) → HasEdges all graph.old → HasEdges (all ++ map (λ to. (from, to)) numbers.now) graph.new) }
{
    for to in numbers {
        add_edge(from, *to, graph)?;
    }
    Ok(())
}

/// Adds the edges of a definition.
fn add_edges(
    alloc: Global,
    definition: &Def,
    names: &Names,
    which: Which,
    graph: &mut Graph,
) -> Result<(), AllocError>
    ensures nodes { OnOk result (length graph.new ≡ length graph.old) }
    ensures edges { OnOk result ((all : List Edge) → HasEdges all graph.old → HasEdges (all ++ edges which (known_of names.now) definition.now) graph.new) }
{
    if let Some(from) = own_number_of(names, definition) {
        let mut callees = Items::new(alloc);
        push_callees(definition, names, which, &mut callees)?;
        add_edges_to(from, callees.as_slice(), graph)?;
    }
    Ok(())
}

/// So many nodes as there are definitions, and no edge.
fn empty_graph(alloc: Global, definitions: &[Def]) -> Result<Graph, AllocError>
    ensures nodes { IfOk result (λ graph. length graph ≡ length definitions.now) }
    ensures edges { IfOk result (λ graph. HasEdges [] graph) }
{
    let mut graph = Graph::new(alloc);
    for _ in definitions {
        graph.add_node(alloc)?;
    }
    Ok(graph)
}

/// The graph of what the bodies of a text can enter.
#[tactic(auto, using(crate::proofs::Edges::same_graph))]
fn graph_of(
    alloc: Global,
    definitions: &[Def],
    names: &Names,
    which: Which,
) -> Result<Graph, AllocError>
    ensures { IfOk result (λ graph. graph ≡ graph_between which (known_of names.now) definitions.now) }
{
    let mut graph = empty_graph(alloc, definitions)?;
    for definition in definitions {
        add_edges(alloc, definition, names, which, &mut graph)?;
    }
    Ok(graph)
}

/// The cycles of what the bodies of a text can enter, by calls and patterns or by patterns alone. A function or mapping has the
/// position of the first definition that takes its name. The one error is want of memory.
#[tactic(auto, using(crate::proofs::Telling::tells))]
pub fn cycles_of(
    alloc: Global,
    definitions: &[Def],
    names: &Names,
    which: Which,
) -> Result<Cycles, AllocError>
    ensures cycles { IfOk result (λ cycles. AreCyclesOf (graph_between which (known_of names.now) definitions.now) cycles) }
    ensures tells { IfOk result (λ cycles. TellsCycles (graph_between which (known_of names.now) definitions.now) (is_cyclic_at cycles)) }
{
    let graph = graph_of(alloc, definitions, names, which)?;
    find_cycles(alloc, &graph)
}
