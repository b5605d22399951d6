//! Laws of what a call of a function owes: each function's contract is one, and it does nothing.
ghost use Rattle.call_fits.specs.Calls.{CallsFit};

/// Where what a call owes is true, its arguments belong to the parameters.
pub fn calls_fit()
    ensures { CallsFit }
{}
