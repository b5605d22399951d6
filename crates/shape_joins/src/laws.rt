//! Laws of the order of shapes: each function's contract is one, and it does nothing.
ghost use Rattle.shape_joins.specs.Order.{IsReflexive, IsTransitive, JoinsAreAbove, JoinsAreLeast, LearningFills};

/// Shapes are ordered by what they leave open: each is itself, and what is filled twice is filled.
pub fn shapes_are_ordered()
    ensures reflexive { IsReflexive }
    ensures transitive { IsTransitive }
{}

/// The one shape that two are is the least of those that both are once they are filled, and there is one wherever there is any
/// such.
pub fn joins_are_least()
    ensures above { JoinsAreAbove }
    ensures least { JoinsAreLeast }
{}

/// What is learnt from an argument keeps what was known, and makes the parameter the argument's shape.
pub fn learning_fills()
    ensures { LearningFills }
{}
