//! Laws of all expressions: each function's contract is one, and it does nothing.
ghost use Rattle.sail_soundness.specs.Whole.{CoresFit, EachFollows};

/// Each expression ends well beside its walk, where each of its nodes passes the tests of its kind.
pub fn expressions_follow()
    ensures { EachFollows }
{}

/// Where each node of an expression passes the tests of its kind, nothing more is asked of its nodes.
pub fn cores_fit()
    ensures { CoresFit }
{}
