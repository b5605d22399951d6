//! Laws of cases: where each combination that counts at a node has a case, the one of the present numbers is present.
//!
//! `specs/Cases` has the laws.
#![tactic(auto)]

ghost use Rattle.case_laws.specs.Cases.{PresentCases, PresentChoices, PresentLeads};

/// Where each combination that counts at a node has a case, and what is in force is so, the case of the present numbers is present. It does
/// nothing.
pub fn present_cases()
    ensures { PresentCases }
{}

/// Where all numbers of a choice are noted, its case is present. It does nothing.
pub fn present_choices()
    ensures { PresentChoices }
{}

/// The same as of cases of where a call leads. It does nothing.
pub fn present_leads()
    ensures { PresentLeads }
{}
