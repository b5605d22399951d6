//! The type of a value, all of whose sizes are constants, where the value is opened and where a part of it is taken.
ghost use Rattle.size_laws.specs.Laws.{OpeningKeepsSizes, OpeningTellsSizes, PartsKeepSizes, SizesAreSaid};

/// A value of a type, each of whose sizes can be said under what its variables stand for, and is one integer both ways, is opened to indices
/// of the same type under constants.
pub fn opening_keeps_sizes()
    ensures { OpeningKeepsSizes }
{}

/// A value of a type that tells the numbers of what the type binds at its front is opened to indices of the type that it tells.
pub fn opening_tells_sizes()
    ensures { OpeningTellsSizes }
{}

/// The type under constants of a part is that of its indices, or of its type: of a tuple's component, of an item, and of a union's payload whose
/// sizes hang on what is noted of the union's arguments.
pub fn parts_keep_sizes()
    ensures { PartsKeepSizes }
{}

/// Where what the variables of a type stand for is known, a size is one integer as it is said and under these constants, when it is within the
/// limits of sizes both ways.
pub fn sizes_are_said()
    ensures { SizesAreSaid }
{}
