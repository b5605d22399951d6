//! Problems, discharged and checked.
ghost use Rattle.std.specs.Prelude.{◌≡◌, ◌↔◌, IfOk, IsTrue};
ghost use Rattle.farkas.specs.Problems.{IsValid, IsShown, discharged};
ghost use Rattle.farkas.specs.Verdicts.{IsAnswer};

use crate::certificate::Cert;
use crate::verdict::{FarkasError, Verdict, check_cases, eliminate_cases};
use linear::{LinearError, Problem, cases, list_variables};
use std::alloc::{AllocError, Global};

/// Whether the facts of a problem imply its goal: `Closed` with a certificate, `Open` with a point at which all rows of the first case
/// that isn't closed are true, or the first limit that is passed. A variable is named by its place among those of
/// [`linear::list_variables`].
pub fn discharge(alloc: Global, problem: &Problem) -> Result<Verdict, FarkasError>
    ensures answer { IsAnswer result (discharged problem.now) }
    ensures shown { IsShown problem.now result }
{
    match cases(alloc, problem) {
        Ok(cases) => {
            let variables = list_variables(alloc, problem)?;
            eliminate_cases(alloc, cases.as_slice(), variables.len())
        }
        Err(LinearError::NumberLimit) => Err(FarkasError::NumberLimit),
        Err(LinearError::CaseLimit { count }) => Err(FarkasError::CaseLimit { count }),
        Err(LinearError::OutOfMemory) => Err(FarkasError::OutOfMemory),
    }
}

/// Whether a certificate is valid for a problem.
pub fn check_cert(alloc: Global, problem: &Problem, certificate: &Cert) -> Result<bool, AllocError>
    ensures { IfOk result (λ t. IsTrue t ↔ IsValid problem.now certificate.now) }
{
    match cases(alloc, problem) {
        Ok(cases) => check_cases(alloc, cases.as_slice(), certificate),
        Err(LinearError::NumberLimit) => Ok(false),
        Err(LinearError::CaseLimit { count: _ }) => Ok(false),
        Err(LinearError::OutOfMemory) => Err(AllocError),
    }
}
