ghost use Rattle.std.specs.Prelude.{◌≡◌, ◌<◌, [], ◌∷◌, ◌++◌, length, slice_set, All, IfOk, OnOk, OnErr};
ghost use Rattle.call_graph.specs.Graphs.{successors};

use sail_base::Items;
use std::alloc::{AllocError, Global};
use std::marker::Model;

/// A finite directed graph. Its nodes are numbered from 0 in the order in which they were added; contracts see
/// it as the list that holds, at each node's number, the numbers of the nodes to which an edge leads from it.
#[derive(Debug, Drop)]
pub struct Graph {
    successors: Vec<Items<usize>>,
}

impl Model for Graph {
    ghost use Rattle.std.specs.Prelude.{ℕ, List};
    ghost use Rattle.call_graph.specs.Graphs.{LeadsToNodes};

    ghost Value = { List (List ℕ) };

    ghost view = { λ graph. graph.successors.items };

    ghost invariant = { λ graph. LeadsToNodes graph.successors.items };
}

impl Graph {
    /// A graph with no node. It takes no memory.
    pub fn new(alloc: Global) -> Graph
        ensures { result ≡ [] }
    {
        Graph {
            successors: Vec::new(alloc),
        }
    }

    /// Adds a node with no edge, and gives its number. Where memory is wanting the graph is unchanged.
    pub fn add_node(&mut self, alloc: Global) -> Result<usize, AllocError>
        ensures number { IfOk result (λ node. node ≡ length self.old) }
        ensures added { OnOk result (self.new ≡ self.old ++ [] ∷ []) }
        ensures unchanged { OnErr result (self.new ≡ self.old) }
    {
        let node = self.successors.len();
        self.successors.push(Items::new(alloc))?;
        Ok(node)
    }

    /// Adds an edge behind those that lead from its node already. Where memory is wanting the graph is unchanged.
    pub fn add_edge(&mut self, from: usize, to: usize) -> Result<(), AllocError>
        requires from_a_node { from < length self.old }
        requires to_a_node { to < length self.old }
        ensures added { OnOk result (self.new ≡ slice_set self.old from (successors self.old from ++ to ∷ [])) }
        ensures unchanged { OnErr result (self.new ≡ self.old) }
    {
        self.successors[from].push(to)
    }

    /// The count of the nodes.
    pub fn node_count(&self) -> usize
        ensures { result ≡ length self.now }
    {
        self.successors.len()
    }

    /// The nodes to which an edge leads from a node.
    pub fn successors(&self, node: usize) -> &[usize]
        requires { node < length self.now }
        ensures successors { result.now ≡ successors self.now node }
        ensures nodes { All (λ to. to < length self.now) result.now }
    {
        self.successors[node].as_slice()
    }
}
