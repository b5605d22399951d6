//! Laws of the numbers of slots: each function's contract is one, and it does nothing.
ghost use Rattle.lowered_slots.specs.Laws.{SlotsApart, SlotsLast, SlotsTyped};

/// A slot is for one place and one type alone.
pub fn slots_apart()
    ensures { SlotsApart }
{}

/// A slot has the type for which it was asked.
pub fn slots_typed()
    ensures { SlotsTyped }
{}

/// A slot that was asked for is there, and keeps its number whichever are asked for behind it.
pub fn slots_last()
    ensures { SlotsLast }
{}
