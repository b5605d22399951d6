//! Laws of the forms of expressions: each function's contract is one, and it does nothing.
ghost use Rattle.soundness_forms.specs.Laws.{CallsAreFine, CastsAreFine, LeavesAreFine, LeavingIsFine};

/// Literals and names in scope end well beside their walks.
pub fn leaves_are_fine()
    ensures { LeavesAreFine }
{}

/// So do casts, where their parts do.
pub fn casts_are_fine()
    ensures { CastsAreFine }
{}

/// So do `return` and `exit`.
pub fn leaving_is_fine()
    ensures { LeavingIsFine }
{}

/// So does a call of a function on arguments that are there.
pub fn calls_are_fine()
    ensures { CallsAreFine }
{}
