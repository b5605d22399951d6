//! The law: the function's contract is what it says, and it does nothing.
ghost use Rattle.form_stands.specs.Laws.{ExpressionsStand};

/// The core that is found of an expression without a failure has the shape that is found, by the rules of shapes: what is wanted of it,
/// once filled.
pub fn expressions_stand()
    ensures { ExpressionsStand }
{}
