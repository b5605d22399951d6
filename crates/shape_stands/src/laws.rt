//! The laws: the function's contract is what they say, and it does nothing.
ghost use Rattle.shape_stands.specs.Stands.{FilledShapesStand, NodesStand};

/// A node over parts that have their shapes by the rules has its own, whatever the depths of their derivations; and what has a shape
/// has it with what that leaves open filled.
pub fn nodes_stand()
    ensures nodes { NodesStand }
    ensures filled { FilledShapesStand }
{}
