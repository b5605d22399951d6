//! Laws of where casts and guards stand: each function's contract is one, and it does nothing.
ghost use Rattle.standing_cores.specs.Laws.{FoundCoresStand, StandingIs};

/// In what is found of an expression, whatever is wanted of it, casts and guards stand right.
pub fn found_cores_stand()
    ensures { FoundCoresStand }
{}

/// How an expression stands is how its casts and guards do, where each kind in it does by itself.
pub fn standing_is()
    ensures { StandingIs }
{}
