//! Laws of what is owed beside a run: each function's contract is one, and it does nothing.
ghost use Rattle.soundness_forms.specs.Forms.{FitsSuffice};
ghost use Rattle.soundness_fits.specs.Calls.{StandingCallsFit};

/// Where what is owed of a value is true, it belongs to the type.
pub fn fits_suffice()
    ensures { FitsSuffice }
{}

/// Where what a call owes is true, its arguments belong to the parameters.
pub fn calls_fit()
    ensures { StandingCallsFit }
{}
