//! Calls beside the walks over what they call: functions, directions of mappings, and events of a model.
//!
//! What is asked of instances, and of the laws of arms, stands in `specs/Premises`, `specs/Directions` and `specs/Calls`.
#![tactic(auto)]

ghost use Rattle.soundness_calls.specs.Calls.{CallsAreSound};
ghost use Rattle.soundness_calls.specs.Events.{EventsAreSound};
ghost use Rattle.soundness_calls.specs.Laws.{FunctionsAreSound};

/// A call of a function ends well where calls further in do.
pub fn functions_are_sound()
    ensures { FunctionsAreSound }
{}

/// Calls of functions, and directions of mappings, end well however deep.
pub fn calls_are_sound()
    ensures { CallsAreSound }
{}

/// `step` and `reset` of a hart aren't stuck, and leave registers that belong to their types.
pub fn events_are_sound()
    ensures { EventsAreSound }
{}
