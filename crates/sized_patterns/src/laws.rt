//! The types that values carry in patterns.
ghost use Rattle.sized_patterns.specs.Laws.{PartsStaySized};

/// The type that a value carries is that of its indices where it is taken out of another one, and so is that of each of its parts, where the sizes
/// that are noted fit, and no size in the payload of a union hangs on an argument that the union's type doesn't note.
pub fn parts_stay_sized()
    ensures { PartsStaySized }
{}
