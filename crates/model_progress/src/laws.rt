//! Laws of progress of whole models: each function's contract is one, and it does nothing.
ghost use Rattle.model_progress.specs.Progress.{EventsGoOn, EventsAreMeant, EventsAreStuckAtConditions, OpeningsGoOn, OpeningsAreMeant, RunsCome};

/// A whole model in the checked reading does what it means, or it stops where a condition on sizes or numbers fails: each function that an event
/// enters, and its openings.
pub fn models_are_meant()
    ensures events { EventsAreMeant }
    ensures openings { OpeningsAreMeant }
{}

/// Where the definitions of a model have shapes, a function that an event enters is never stuck, but where a condition on sizes fails: it gives a
/// value of its shape, throws one or stops; and each hart has each register behind it, with a value of its shape. So where `step` or `reset` is
/// stuck, a condition fails.
pub fn events_go_on()
    ensures events { EventsGoOn }
    ensures stuck { EventsAreStuckAtConditions }
{}

/// Neither are its openings: they come to values of the shapes of the names that they bind, or they stop.
pub fn openings_go_on()
    ensures { OpeningsGoOn }
{}

/// So runs come to an end in each event, unless a condition fails: harts are reset and take the steps of a schedule, up to the first event that
/// stops, and each leaves a state from which the next one does too.
pub fn runs_come()
    ensures { RunsCome }
{}
