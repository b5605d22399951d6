//! Laws of splits: where all that is in force is true, the present numbers stand in a combination that counts, and what is constant where
//! some variables are known is the same where all are.
//!
//! `specs/Counted` has the laws.
#![tactic(auto)]

ghost use Rattle.split_laws.specs.Counted.{ConstantsStand, PresentNumbersAreCounted};

/// Where the facts at a place are true, the numbers that split variables have there stand in a combination that counts there. It does nothing.
pub fn present_numbers_are_counted()
    ensures { PresentNumbersAreCounted }
{}

/// A size that is constant where some variables are known is the same where all are known. It does nothing.
pub fn constants_stand()
    ensures { ConstantsStand }
{}
