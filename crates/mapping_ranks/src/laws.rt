//! Laws of ranks: each function's contract is one, and it does nothing.
ghost use Rattle.mapping_ranks.specs.Ranks.{GraphsHaveRanks};

/// A finite graph without cycles has a rank at each node, which is lower at the end of each edge.
pub fn graphs_have_ranks()
    ensures { GraphsHaveRanks }
{}
