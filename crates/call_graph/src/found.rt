ghost use Rattle.std.specs.Prelude.{◌≡◌, ◌<◌};
ghost use Rattle.call_graph.specs.Components.{component_of, cycle_of, node_count};

use sail_base::Items;

/// What was found of one node.
#[derive(Clone, Copy, Debug)]
pub(crate) struct Member {
    /// The number of its component.
    pub(crate) component: usize,
    /// Whether it reaches itself.
    pub(crate) in_cycle: bool,
}

/// The strongly connected components of a graph, by numbers, and which of its nodes lie in a cycle.
#[derive(Debug, Drop)]
pub struct Cycles {
    /// At each node's number, what was found of it.
    pub(crate) members: Items<Member>,
}

impl Cycles {
    /// The count of the graph's nodes.
    pub fn node_count(&self) -> usize
        ensures { result ≡ node_count self.now }
    {
        self.members.len()
    }

    /// The number of a node's component: two nodes have the same where each reaches the other, and no edge
    /// leads to a higher one.
    pub fn component_of(&self, node: usize) -> usize
        requires { node < node_count self.now }
        ensures { result ≡ component_of self.now node }
    {
        self.members.as_slice()[node].component
    }

    /// The number of the cycle in which a node lies, which is that of its component; none where the node
    /// doesn't reach itself.
    pub fn cycle_of(&self, node: usize) -> Option<usize>
        requires { node < node_count self.now }
        ensures { result ≡ cycle_of self.now node }
    {
        let member = self.members.as_slice()[node];
        if member.in_cycle {
            Some(member.component)
        } else {
            None
        }
    }
}
