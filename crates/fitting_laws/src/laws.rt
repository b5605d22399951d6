//! Laws of what has to be true for a value to be of a type: each function's contract is one, and it does nothing.
ghost use Rattle.fitting_laws.specs.Fitting.{FittingSuffices};

/// Where what `fits` asks is true, a value of the indices belongs to the type.
pub fn fitting_suffices()
    ensures { FittingSuffices }
{}
