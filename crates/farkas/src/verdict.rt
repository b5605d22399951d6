//! Cases, all of them refuted or the first that isn't shown open.
ghost use Rattle.std.specs.Prelude.{◌≡◌, ◌↔◌, IfOk, IsTrue};
ghost use Rattle.farkas.specs.Keeping.{AreFew};
ghost use Rattle.farkas.specs.Verdicts.{eliminated, eliminated_starts, IsAnswer, IsCertified};
ghost use Rattle.farkas.specs.Validity.{AreValid};

use crate::certificate::{Case, Cert};
use crate::checking::is_valid_case;
use crate::keeping::Starts;
use crate::points::Point;
use crate::refuting::{End, case_ends, starts_end};
use linear::Row;
use sail_base::Items;
use std::alloc::{AllocError, Global};
use std::convert::From;

/// What elimination says of cases.
#[derive(Debug, Drop)]
pub enum Verdict {
    /// None of them can be, as a certificate shows.
    Closed(Cert),
    /// All rows of the first one that isn't refuted are true at a point.
    Open(Point),
}

/// Why elimination says nothing.
#[derive(PartialEq, Eq, Debug, Drop)]
pub enum FarkasError {
    /// More than 4,096 rows are kept as this variable is eliminated; before elimination it is the first one.
    RowLimit { variable: usize },
    /// A product or a sum is past 2^127 - 1 in size.
    NumberLimit,
    /// There are more than 64 cases: so many, cut off at 2^64 - 1.
    CaseLimit { count: u64 },
    /// There is no memory. This says nothing of the cases.
    OutOfMemory,
}

impl From<AllocError> for FarkasError {
    ghost use Rattle.farkas.specs.declared.verdict.FarkasError.{FarkasError};

    ghost from_gives = { λ e r. r ≡ FarkasError.OutOfMemory };

    fn from(_: AllocError) -> FarkasError {
        FarkasError::OutOfMemory
    }
}

/// Refutes cases of so many variables, one by one, or shows the first that isn't refuted open. The answer is that of elimination,
/// the certificate of `Closed` is valid, and the first limit that is passed is the error.
pub fn eliminate_cases(
    alloc: Global,
    cases: &[Items<Row>],
    variables: usize,
) -> Result<Verdict, FarkasError>
    ensures answer { IsAnswer result (eliminated variables cases.now) }
    ensures certified { IsCertified cases.now result }
{
    let mut certificates = Items::new(alloc);
    for case in cases {
        match case_ends(alloc, case.as_slice(), variables)? {
            End::Closed(certificate) => certificates.push(certificate)?,
            End::Open(point) => return Ok(Verdict::Open(point)),
            End::RowsPast(variable) => return Err(FarkasError::RowLimit { variable }),
            End::NumbersPast => return Err(FarkasError::NumberLimit),
        }
    }
    Ok(Verdict::Closed(Cert {
        cases: certificates,
    }))
}

/// The answer of [`eliminate_cases`] to cases of each of which the rows that are kept are given.
pub fn eliminate_starts(
    alloc: Global,
    cases: &[Starts],
    variables: usize,
) -> Result<Verdict, FarkasError>
    requires { AreFew cases.now }
    ensures { IsAnswer result (eliminated_starts variables cases.now) }
{
    let mut certificates = Items::new(alloc);
    for starts in cases {
        match starts_end(alloc, starts, variables)? {
            End::Closed(certificate) => certificates.push(certificate)?,
            End::Open(point) => return Ok(Verdict::Open(point)),
            End::RowsPast(variable) => return Err(FarkasError::RowLimit { variable }),
            End::NumbersPast => return Err(FarkasError::NumberLimit),
        }
    }
    Ok(Verdict::Closed(Cert {
        cases: certificates,
    }))
}

/// Whether a certificate of cases is valid.
pub fn check_cases(
    alloc: Global,
    cases: &[Items<Row>],
    certificate: &Cert,
) -> Result<bool, AllocError>
    ensures { IfOk result (λ t. IsTrue t ↔ AreValid cases.now certificate.now.cases) }
{
    if cases.len() != certificate.cases.len() {
        return Ok(false);
    }
    let certificates = certificate.cases.as_slice();
    for place in 0..cases.len() {
        if !is_valid_case(alloc, cases[place].as_slice(), &certificates[place])? {
            return Ok(false);
        }
    }
    Ok(true)
}
