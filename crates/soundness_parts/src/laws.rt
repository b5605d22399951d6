//! Laws of parts of values: each function's contract is one, and it does nothing.
ghost use Rattle.soundness_parts.specs.Laws.{PartsAreFine, UpdatesAreFine, WithsAreFine};

/// What suffixes take out of a value, and from what they take, one behind the other, ends well beside its walk, where the value and the indexes
/// do: a part is there wherever what the walk owes is true.
pub fn parts_are_fine()
    ensures { PartsAreFine }
{}

/// So do `[v with h .. l = e]` and `[v with i = e]`: the part is there wherever what the walk owes is true, what is put there is of its type, and the
/// value has the indices that the walk gives.
pub fn updates_are_fine()
    ensures { UpdatesAreFine }
{}

/// So does `{ e with f = v }`: the fields are there, and the values of their types.
pub fn withs_are_fine()
    ensures { WithsAreFine }
{}
