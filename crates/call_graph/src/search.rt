ghost use Rattle.std.specs.Prelude.{◌≡◌, ℕ, ◌<◌, ◌↔◌, [], length, All, IsTrue, IfOk, OnOk, slice_index};
ghost use Rattle.call_graph.specs.Graphs.{successors};
ghost use Rattle.call_graph.specs.Search.{IsAscending, EndsIn, IsNumbered, Sound, NoneIsNew};
ghost use Rattle.call_graph.specs.Search.{IsOpened, IsCut, AreNumbered, IsClosed, steps_left};

use crate::Graph;
use std::alloc::{AllocError, Global};

/// How far the search has come with a node.
#[derive(Clone, Copy)]
pub(crate) enum Mark {
    /// It hasn't come to it.
    New,
    /// It stands on the stack, at this place.
    Open(usize),
    /// It is of the component of this number.
    Numbered(usize),
}

/// A search for components along one path (Gabow, "Path-based depth-first search for strong and biconnected
/// components").
#[derive(Drop)]
pub(crate) struct Search {
    /// How far it has come with each node.
    pub(crate) marks: Vec<Mark>,
    /// Of each node, how many of its edges have been followed.
    next: Vec<usize>,
    /// The open nodes, in the order in which it came to them.
    stack: Vec<usize>,
    /// The places of the stack at which a part starts whose nodes reach one another.
    starts: Vec<usize>,
    /// The places of the nodes that edges may be left to follow from.
    path: Vec<usize>,
    /// How many components have a number.
    count: usize,
}

impl Search {
    /// A search through a whole graph. The one error is want of memory.
    pub(crate) fn through(alloc: Global, graph: &Graph) -> Result<Search, AllocError>
        ensures sound { IfOk result (λ s. Sound graph.now s) }
        ensures done { IfOk result (λ s. (node : ℕ) → node < length graph.now → IsNumbered s.marks.items node) }
    {
        let mut search = Search::new(alloc, graph)?;
        for node in 0..graph.node_count() {
            if let Mark::New = search.marks[node] {
                search.open(node)?;
                search.finish(graph)?;
            }
        }
        Ok(search)
    }

    fn new(alloc: Global, graph: &Graph) -> Result<Search, AllocError>
        ensures sound { IfOk result (λ s. Sound graph.now s) }
        ensures path { IfOk result (λ s. s.path.items ≡ []) }
    {
        let nodes = graph.node_count();
        Ok(Search {
            marks: vec![in alloc; Mark::New; nodes]?,
            next: vec![in alloc; 0; nodes]?,
            stack: Vec::new(alloc),
            starts: Vec::new(alloc),
            path: Vec::new(alloc),
            count: 0,
        })
    }

    /// Goes on until the path is at its end.
    fn finish(&mut self, graph: &Graph) -> Result<(), AllocError>
        requires { Sound graph.now self.old }
        ensures sound { OnOk result (Sound graph.now self.new) }
        ensures path { OnOk result (self.new.path.items ≡ []) }
        ensures none_new { OnOk result (NoneIsNew self.old.marks.items self.new.marks.items) }
    {
        while let Some(&place) = self.path.last() {
            self.step(graph, place)?;
        }
        Ok(())
    }

    /// Follows an edge of the last node of the path. Where none is left the node leaves the path, and the part
    /// that starts there gets the next number.
    fn step(&mut self, graph: &Graph, place: usize) -> Result<(), AllocError>
        requires sound { Sound graph.now self.old }
        requires last { EndsIn self.old.path.items place }
        ensures sound { OnOk result (Sound graph.now self.new) }
        ensures smaller { OnOk result (steps_left graph.now self.new < steps_left graph.now self.old) }
        ensures none_new { OnOk result (NoneIsNew self.old.marks.items self.new.marks.items) }
    {
        let node = self.stack[place];
        if self.next[node] < graph.successors(node).len() {
            self.follow(graph, place)?;
        } else {
            self.path.pop();
            if self.starts_at(place) {
                self.close(place);
            }
        }
        Ok(())
    }

    /// Follows the next edge of the last node of the path.
    fn follow(&mut self, graph: &Graph, place: usize) -> Result<(), AllocError>
        requires sound { Sound graph.now self.old }
        requires last { EndsIn self.old.path.items place }
        requires left { slice_index self.old.next.items (slice_index self.old.stack.items place)
            < length (successors graph.now (slice_index self.old.stack.items place)) }
        ensures sound { OnOk result (Sound graph.now self.new) }
        ensures smaller { OnOk result (steps_left graph.now self.new < steps_left graph.now self.old) }
        ensures none_new { OnOk result (NoneIsNew self.old.marks.items self.new.marks.items) }
    {
        let node = self.stack[place];
        let at = self.next[node];
        let to = graph.successors(node)[at];
        self.next[node] = at + 1;
        match self.marks[to] {
            Mark::New => self.open(to)?,
            Mark::Open(first) => cut(&mut self.starts, first),
            Mark::Numbered(_) => {}
        }
        Ok(())
    }

    /// Puts a new node at the end of the stack and of the path, as a part of its own.
    fn open(&mut self, node: usize) -> Result<(), AllocError>
        requires { node < length self.old.marks.items }
        ensures { OnOk result (IsOpened self.old self.new node) }
    {
        let place = self.stack.len();
        self.stack.push(node)?;
        self.starts.push(place)?;
        self.path.push(place)?;
        self.marks[node] = Mark::Open(place);
        Ok(())
    }

    /// Whether the last part starts at a place.
    fn starts_at(&self, place: usize) -> bool
        ensures { IsTrue result ↔ EndsIn self.now.starts.items place }
    {
        match self.starts.last() {
            Some(&start) => start == place,
            None => false,
        }
    }

    /// Gives the next number to the last part, which starts at a place.
    fn close(&mut self, place: usize)
        requires count { self.old.count < length self.old.marks.items }
        requires place { place < length self.old.stack.items }
        requires nodes { All (λ node. node < length self.old.marks.items) self.old.stack.items }
        ensures { IsClosed self.old self.new place }
    {
        number_nodes(&mut self.marks, &self.stack[place..], self.count);
        self.count += 1;
        self.stack.truncate(place);
        self.starts.pop();
    }
}

/// Takes off the starts behind a place.
fn cut(starts: &mut Vec<usize>, place: usize)
    requires { IsAscending starts.old.items }
    ensures { IsCut starts.old.items starts.new.items place }
{
    while let Some(&last) = starts.last() {
        if last <= place {
            return;
        }
        starts.pop();
    }
}

/// Gives a number to nodes.
fn number_nodes(marks: &mut [Mark], nodes: &[usize], number: usize)
    requires { All (λ node. node < length marks.old) nodes.now }
    ensures { AreNumbered marks.old marks.new nodes.now number }
{
    for node in nodes {
        marks[*node] = Mark::Numbered(number);
    }
}
