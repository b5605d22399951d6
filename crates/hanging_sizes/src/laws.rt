//! The sizes in payloads.
ghost use Rattle.hanging_sizes.specs.Laws.{PayloadsDo};

/// The sizes in a payload hang on no argument of its union that the union's type doesn't note, where the table of types is so.
pub fn payloads_hang()
    ensures { PayloadsDo }
{}
