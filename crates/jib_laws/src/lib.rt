//! Laws of flat code that stand above `jib`: a function's contract is one, and it does nothing but call another law.
//!
//! What belongs to a type stands in `specs/Values` of `jib`. `specs/Belongs` says it of all that a run reads, and of its end,
//! `specs/Opened` of what is worked out once.
#![tactic(auto)]

ghost use Rattle.jib_laws.specs.Belongs.{PlacesHold, EndsHold, OthersStay};
ghost use Rattle.jib_laws.specs.Opened.{PurePlacesHold, PureEndsHold, PureRunsAlike, OpeningsHold, InitialHolds};

use jib::constants_belong;

/// Where a run of a valid module begins with arguments, registers and openings of their types, the slots, registers and openings
/// that a function reads hold values of their types wherever the run comes to, and what the run ends with is of its type. The
/// registers of other harts stay as they are.
pub fn values_belong()
    ensures places { PlacesHold }
    ensures ends { EndsHold }
    ensures others { OthersStay }
{
    constants_belong();
}

/// Whatever the registers hold, a run of a pure function of a valid module reads and ends with values of their types, where its
/// arguments and openings are of theirs. So the openings that are worked out are of their types, and registers that hold values
/// of theirs still do once the openings have set them.
pub fn openings_belong()
    ensures places { PurePlacesHold }
    ensures ends { PureEndsHold }
    ensures openings { OpeningsHold }
    ensures initial { InitialHolds }
{
    constants_belong();
}

/// A run of a pure function of a valid module does the same whatever state it begins with, and leaves that state as it is.
pub fn pure_runs_alike()
    ensures alike { PureRunsAlike }
{}
