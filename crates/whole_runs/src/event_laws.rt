//! The law that an accepted model is never stuck under the checked meaning: the function's contract is it, and it does nothing.
//!
//! `specs/Never` says what is known of the model, in one record (`Stands`).
ghost use Rattle.whole_runs.specs.Never.{NeverStuck};

/// Where all obligations of a model hold and it stands as is said, `step` and `reset` of a hart aren't stuck.
pub fn models_are_never_stuck()
    ensures { NeverStuck }
{}
