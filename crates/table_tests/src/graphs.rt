use call_graph::{Graph, find_cycles};
use std::alloc::{AllocError, Global};
use std::process::Abort;
use std::test::Fail;

/// A graph of so many nodes with these edges.
fn graph_of(alloc: Global, nodes: usize, edges: &[(usize, usize)]) -> Result<Graph, AllocError> {
    let mut graph = Graph::new(alloc);
    for _ in 0..nodes {
        graph.add_node(alloc)?;
    }
    for (from, to) in edges {
        add(&mut graph, *from, *to)?;
    }
    Ok(graph)
}

fn add(graph: &mut Graph, from: usize, to: usize) -> Result<(), AllocError> {
    if from < graph.node_count() && to < graph.node_count() {
        graph.add_edge(from, to)?;
    }
    Ok(())
}

/// Finds the cycles of a graph, where those wanted are given by a number for each node, 0 for none.
fn check(
    rt: &impl Abort,
    alloc: Global,
    edges: &[(usize, usize)],
    wanted: &[usize],
) -> Result<(), AllocError> {
    let graph = graph_of(alloc, wanted.len(), edges)?;
    let cycles = find_cycles(alloc, &graph)?;
    assert!(rt; cycles.node_count() == wanted.len());
    for (left, cycle) in wanted.iter().enumerate() {
        assert!(rt; cycles.cycle_of(left).is_some() == (*cycle != 0));
        for (right, other) in wanted.iter().enumerate() {
            let alike = left == right || (*cycle != 0 && *cycle == *other);
            assert!(rt; (cycles.component_of(left) == cycles.component_of(right)) == alike);
        }
    }
    for (from, to) in edges {
        assert!(rt; *from < wanted.len() && *to < wanted.len());
        assert!(rt; cycles.component_of(*to) <= cycles.component_of(*from));
    }
    Ok(())
}

#[test]
fn finds_the_cycles_of_small_graphs(rt: HostRuntime) -> Result<(), Fail> {
    let alloc = rt.alloc();
    // No node; one; one that leads to itself.
    check(&rt, alloc, &[], &[])?;
    check(&rt, alloc, &[], &[0])?;
    check(&rt, alloc, &[(0, 0)], &[1])?;
    // A chain, forwards and backwards; two edges to one node.
    check(&rt, alloc, &[(0, 1), (1, 2)], &[0, 0, 0])?;
    check(&rt, alloc, &[(2, 1), (1, 0)], &[0, 0, 0])?;
    check(&rt, alloc, &[(0, 1), (0, 2), (1, 3), (2, 3)], &[0, 0, 0, 0])?;
    // Two cycles that an edge joins, and a node between two cycles.
    check(
        &rt,
        alloc,
        &[(0, 1), (1, 0), (1, 2), (2, 3), (3, 2)],
        &[1, 1, 2, 2],
    )?;
    check(
        &rt,
        alloc,
        &[(3, 4), (4, 3), (3, 2), (2, 1), (1, 0), (0, 1)],
        &[1, 1, 0, 2, 2],
    )?;
    // A cycle with a chord, and two cycles with a node in common.
    check(
        &rt,
        alloc,
        &[(0, 1), (1, 2), (2, 3), (3, 0), (1, 3)],
        &[1, 1, 1, 1],
    )?;
    check(&rt, alloc, &[(0, 1), (1, 0), (0, 2), (2, 0)], &[1, 1, 1])?;
    // A branch that is left before the cycle closes, with an edge given twice.
    check(
        &rt,
        alloc,
        &[(0, 1), (1, 2), (1, 2), (1, 3), (3, 0), (3, 2)],
        &[1, 1, 0, 1],
    )?;
    Ok(())
}

/// Checks a chain of 100,000 nodes, whose last node leads to its first where it is closed.
fn check_chain(rt: &impl Abort, alloc: Global, closed: bool) -> Result<(), AllocError> {
    let last = 99_999;
    let mut graph = graph_of(alloc, last + 1, &[])?;
    for node in 0..last {
        add(&mut graph, node, node + 1)?;
    }
    if closed {
        add(&mut graph, last, 0)?;
    }
    let cycles = find_cycles(alloc, &graph)?;
    assert!(rt; cycles.node_count() == last + 1);
    assert!(rt; cycles.cycle_of(last / 2).is_some() == closed);
    assert!(rt; (cycles.component_of(0) == cycles.component_of(last)) == closed);
    Ok(())
}

#[test]
fn goes_through_long_chains(rt: HostRuntime) -> Result<(), Fail> {
    let alloc = rt.alloc();
    check_chain(&rt, alloc, false)?;
    check_chain(&rt, alloc, true)?;
    Ok(())
}
