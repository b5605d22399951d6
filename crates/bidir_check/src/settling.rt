//! What an answer of elimination says of an obligation.
ghost use Rattle.std.specs.Prelude.{◌≡◌, ◌⊎◌, IfOk, OnOk, Ok};
ghost use Rattle.farkas.specs.Problems.{IsValid};
ghost use Rattle.farkas.specs.declared.verdict.Verdict.TheVariants.{Closed};
ghost use Rattle.obligations.specs.Owed.{problem_of};
ghost use Rattle.bidir_check.specs.declared.error.CheckError.TheVariants as error;
ghost use Rattle.bidir_check.specs.Checking.{stopped, settled, certificate_of, IsMet};

use crate::error::CheckError;
use crate::standing::stand;
use entail::Entail;
use farkas::{Cert, FarkasError, Point, Verdict};
use obligations::Obligation;
use sail_base::Items;
use sail_types::Con;
use std::alloc::{AllocError, Global};

/// Names once more. It fails where memory is wanting.
fn copy_names(alloc: Global, names: &[Items<u8>]) -> Result<Items<Items<u8>>, AllocError>
    ensures { IfOk result (λ copies. copies ≡ names.now) }
{
    let mut copies = Items::new(alloc);
    for name in names {
        copies.push(Items::from_slice(alloc, name.as_slice())?)?;
    }
    Ok(copies)
}

/// The refusal of an obligation that is open at a point.
fn open(alloc: Global, obligation: &Obligation, point: Point) -> CheckError
    ensures { (result ≡ error.Open obligation.now.place obligation.now.names point) ⊎ (result ≡ error.OutOfMemory) }
{
    match copy_names(alloc, obligation.names.as_slice()) {
        Err(_) => CheckError::OutOfMemory,
        Ok(names) => CheckError::Open {
            place: obligation.place,
            names,
            point,
        },
    }
}

/// The refusal of an obligation at which elimination passes a limit.
fn limited(alloc: Global, obligation: &Obligation, limit: FarkasError) -> CheckError
    ensures { (result ≡ error.Limit obligation.now.place obligation.now.names limit) ⊎ (result ≡ error.OutOfMemory) }
{
    match copy_names(alloc, obligation.names.as_slice()) {
        Err(_) => CheckError::OutOfMemory,
        Ok(names) => CheckError::Limit {
            place: obligation.place,
            names,
            limit,
        },
    }
}

/// The refusal of an obligation of which elimination says nothing.
fn stopped(alloc: Global, obligation: &Obligation, limit: FarkasError) -> CheckError
    ensures { (result ≡ stopped obligation.now limit) ⊎ (result ≡ error.OutOfMemory) }
{
    match limit {
        FarkasError::RowLimit { variable } => {
            limited(alloc, obligation, FarkasError::RowLimit { variable })
        }
        FarkasError::NumberLimit => limited(alloc, obligation, FarkasError::NumberLimit),
        FarkasError::CaseLimit { count } => {
            limited(alloc, obligation, FarkasError::CaseLimit { count })
        }
        FarkasError::OutOfMemory => CheckError::OutOfMemory,
    }
}

/// The certificate of an obligation with this answer of elimination, or why it has none.
fn settled(
    alloc: Global,
    obligation: &Obligation,
    answer: Result<Verdict, FarkasError>,
) -> Result<Cert, CheckError>
    ensures answer { IsMet result (settled obligation.now answer) }
    ensures closed { IfOk result (λ certificate. answer ≡ Ok (Closed certificate)) }
{
    match answer {
        Ok(verdict) => match verdict {
            Verdict::Closed(certificate) => Ok(certificate),
            Verdict::Open(point) => Err(open(alloc, obligation, point)),
        },
        Err(limit) => Err(stopped(alloc, obligation, limit)),
    }
}

/// The certificate of an obligation, asked of an entailment in which these facts stand, or why it has none.
pub fn certificate_of<E: Entail>(
    alloc: Global,
    entail: &mut E,
    standing: &[Con],
    obligation: &Obligation,
) -> Result<Cert, CheckError>
    requires { E.facts entail.old ≡ standing.now }
    ensures answer { IsMet result (certificate_of obligation.now) }
    ensures valid { IfOk result (IsValid (problem_of obligation.now)) }
    ensures facts { OnOk result (E.facts entail.new ≡ obligation.now.facts) }
{
    stand(alloc, entail, standing, obligation.facts.as_slice())?;
    let answer = entail.ask(alloc, &obligation.goal);
    settled(alloc, obligation, answer)
}
