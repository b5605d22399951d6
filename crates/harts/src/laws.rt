//! What holds of the runs of any model: theorems, with no work to do.
ghost use Rattle.harts.specs.laws.Invariants.{InvariantsHold, RegistersHold};
ghost use Rattle.harts.specs.laws.Pieces.{JoinedSchedules};

/// The run of two schedules that are joined is the run of the first, and then, unless that stopped, of the second.
pub fn joined_schedules()
    ensures { JoinedSchedules }
{}

/// A test of states that every call of a model keeps, and the rest of a hart too, holds where the start ends and behind each event.
pub fn invariants_hold()
    ensures { InvariantsHold }
{}

/// Where every call of a model leaves values of their types in the registers, they have such values where the start ends and
/// behind each event.
pub fn registers_hold()
    ensures { RegistersHold }
{}
