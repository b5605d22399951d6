//! Laws of the cores of texts: each function's contract is one, and it does nothing.
ghost use Rattle.standing_models.specs.Laws.{ModelsStand};
ghost use Rattle.standing_models.specs.Tests.{FoundCoresPass, FoundTypesRead};

/// In the core of a text that nothing is refused for, bodies are casts, and casts and guards stand right.
pub fn models_stand()
    ensures { ModelsStand }
{}

/// What is found of an expression passes the tests of its nodes.
pub fn found_pass()
    ensures { FoundCoresPass }
{}

/// The types that are written in it read.
pub fn found_read()
    ensures { FoundTypesRead }
{}
