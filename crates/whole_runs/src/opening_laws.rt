//! Laws of openings: each function's contract is one, and it does nothing.
ghost use Rattle.whole_runs.specs.Initials.{InitialsAreSound};
ghost use Rattle.whole_runs.specs.Lets.{LetsEndWell};
ghost use Rattle.whole_runs.specs.Told.{NamesAreTold};
ghost use Rattle.whole_runs.specs.AllOpenings.{OpeningsAreSound};

/// An initial value of a register belongs to the register's type, or its run stops.
pub fn initials_are_sound()
    ensures { InitialsAreSound }
{}

/// The names of a top-level let have the indices that the walk over it finds, or its run stops.
pub fn lets_end_well()
    ensures { LetsEndWell }
{}

/// Openings one after the other are never stuck, and the names of top-level lets have such values as the walk tells of them.
pub fn openings_are_sound()
    ensures { OpeningsAreSound }
{}

/// What a let binds is as its names are told elsewhere, where no two of them are the same.
pub fn names_are_told()
    ensures { NamesAreTold }
{}
