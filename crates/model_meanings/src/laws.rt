//! Laws of whole models: each function's contract is one, and it does nothing.
ghost use Rattle.model_meanings.specs.Depths.{CallsAreAlike, WorldsAreDescribed};
ghost use Rattle.model_meanings.specs.Events.{EventsAreAlike, ModelsMeanText};
ghost use Rattle.model_meanings.specs.Runs.{RunsAreAlike};

/// In a whole model names mean the same on both sides, however many calls may be inside one another, and mappings in patterns; so each call
/// does the same in the core as in the text, and keeps shapes.
pub fn calls_are_alike()
    ensures worlds { WorldsAreDescribed }
    ensures calls { CallsAreAlike }
{}

/// What an event enters does the same on both sides; and so does a whole model from its start through every event, where its openings do.
pub fn models_mean_text()
    ensures events { EventsAreAlike }
    ensures models { ModelsMeanText }
{}

/// Where a core means what a text means, its start and the events of each schedule come to what those of the text come to.
pub fn runs_are_alike()
    ensures { RunsAreAlike }
{}
