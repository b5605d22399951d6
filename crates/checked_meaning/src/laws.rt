//! Laws of the checked meaning: each function's contract is one, and it does nothing.
ghost use Rattle.checked_meaning.specs.Laws.{ModelsAreAlike, NodesAreAlike};

/// Whatever is asked at nodes, a node is stuck under the checked meaning, or comes to what it comes to under the plain one: the same
/// value, stop, result or exception, at the same moment, with the same names in scope.
pub fn nodes_are_alike()
    ensures { NodesAreAlike }
{}

/// So the start of each model, `reset` and each event are stuck under the checked meaning, or come to what they come to plainly.
pub fn models_are_alike()
    ensures { ModelsAreAlike }
{}
