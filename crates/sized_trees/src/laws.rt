//! Laws of models with constant sizes: each function's contract is one, and it does nothing.
ghost use Rattle.sized_trees.specs.Laws.{CallsLeadToInstances, NodesAskAlike};

/// Every call leads to an instance.
pub fn calls_lead_to_instances()
    ensures { CallsLeadToInstances }
{}

/// The cases of a node ask for the numbers of the same variables, and so do the leads of a call.
pub fn nodes_ask_alike()
    ensures { NodesAskAlike }
{}
