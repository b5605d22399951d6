//! Laws of what a walk over a definition knows of values where ways meet, and of widened types: each function's contract is one, and it does
//! nothing.
#![tactic(auto)]

ghost use Rattle.meeting_laws.specs.Laws.{AgreeingIsSound, FillingIsSound, HasItsType, MeetingIsSound, WideningIsSound};

/// A value of a type is of its widened type, and one that has indices is of the widened type of theirs.
pub fn widening_is_sound()
    ensures { WideningIsSound }
{}

/// A value that has indices is of their widened type, in which nothing inside is widened.
pub fn has_its_type()
    ensures { HasItsType }
{}

/// What is taken to be known of a value where ways meet is so: for some integers of the new variables the value has the indices that are
/// kept of the first way.
pub fn meeting_is_sound()
    ensures { MeetingIsSound }
{}

/// A value of a later way, which agrees with the first by the numbers that are kept of it, has for some integers of the new variables the
/// indices that are kept of the first.
pub fn agreeing_is_sound()
    ensures { AgreeingIsSound }
{}

/// Each value of a first way is of the widened type whose holes are filled, whatever its fresh variables stand for.
pub fn filling_is_sound()
    ensures { FillingIsSound }
{}
