//! Laws of the definitions: each function's contract is one, and it does nothing.
ghost use Rattle.std.specs.Prelude.{◌≡◌, List, [], ◌++◌, Option, None, Some};
ghost use Rattle.sail_kinds.specs.Failures.{first_failure, IsFirst};
ghost use Rattle.sail_kinds.specs.declared.error.TableError.{TableError as AFailure};

/// The first of some failures is one of them, and none of them stands before it; there is one unless there
/// is no failure. What was noted before counts as they do.
pub fn first_failures_are_least()
    ensures least { (es : List AFailure) (e : AFailure) → first_failure None es ≡ Some e → IsFirst es e }
    ensures none { (es : List AFailure) → first_failure None es ≡ None → es ≡ [] }
    ensures append { (kept : Option AFailure) (es fs : List AFailure)
        → first_failure kept (es ++ fs) ≡ first_failure (first_failure kept es) fs }
{}
