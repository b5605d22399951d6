//! A law of the calls of a model: the function's contract is it, and it does nothing.
//!
//! `specs/Models` says what is asked of a model's functions, mappings and top-level lets.
ghost use Rattle.sail_calls.specs.Models.{CallsFollow};

/// All that calls and events of a model ask of it holds where the nodes of its bodies are fine, patterns match and instances are covered.
pub fn calls_follow()
    ensures { CallsFollow }
{}
