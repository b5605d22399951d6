//! The walk over an expression notes each node once, and so does what is read of a definition.
ghost use Rattle.node_counts.specs.Apart.{NotesAreApart, NumbersAreGivenOnce};
ghost use Rattle.node_counts.specs.Laws.{NodesAreCounted};

/// The walk over an expression writes no more notes of what the node of a number makes of so many operands, or calls of so many, than the expression's
/// nodes, suffixes, targets and callers have that number: one at most, where numbers differ.
pub fn nodes_are_counted()
    ensures { NodesAreCounted }
{}

/// In what is read of a function with its measure, of a mapping, and of a top-level let or an initial value, no two notes of what nodes make, or of what
/// they call, are of one number and as many operands, where the numbers differ.
pub fn notes_are_apart()
    ensures { NotesAreApart }
{}

/// There each node gives the numbers of its value once, but where a function is entered: there each clause gives those of the arguments. It does nothing.
pub fn numbers_are_given_once()
    ensures { NumbersAreGivenOnce }
{}
