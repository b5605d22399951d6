//! What holds of any calls of the builtins and of their accesses: theorems, with no work to do.
ghost use Rattle.model_state.specs.laws.Accesses.{ReservationsHold, ReadsHold};
ghost use Rattle.model_state.specs.laws.Results.{ResultsEnd};

/// A conditional write that doesn't stop writes exactly where the hart has reserved the bytes before, and no access
/// since has ended that reservation: no later reservation or conditional write of the hart, and no write of any
/// hart, plain or conditional with the answer true, that touches a reserved byte.
pub fn reservations_hold()
    ensures { ReservationsHold }
{}

/// A read that doesn't stop, plain or reserving, gives each byte as the last write before it wrote it, of whatever
/// hart, else as it was.
pub fn reads_hold()
    ensures { ReadsHold }
{}

/// What a call of a builtin gives, by its contract, is how the call ends as a part of a run: its value, or its stop.
pub fn results_end()
    ensures { ResultsEnd }
{}
